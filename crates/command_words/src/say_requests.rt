//! The exploration of outcomes and says that the words of a command line ask for.

ghost use Rattle.std.specs.Prelude.{codes, IfNone, IfOk, IfSome};
ghost use Rattle.clap.specs.Words.{first_of, found_of, rows_of};
ghost use Rattle.command_words.specs.declared.saying.Saying.{Saying};
ghost use Rattle.command_words.specs.Flags.{SaysMarks};
ghost use Rattle.command_words.specs.Requests.{SaysSaying};

use crate::flags::{beside, given};
use crate::judge_requests::has_claims;
use crate::marks::Marks;
use crate::requests::{explore_order, seconds_of};
use crate::saying::Saying;
use crate::unmark_requests::{has_text, is_with_marks};
use clap::ArgMatches;
use std::alloc::{AllocError, Global};

/// The exploration of outcomes and says that the options of `explore` ask for, or `None` if they conflict or a value is
/// wrong.
pub(crate) fn saying_of(
    alloc: Global,
    explore: &ArgMatches<'_>,
) -> Result<Option<Saying>, AllocError>
    requires { SaysMarks (first_of (codes "marks") (rows_of (found_of explore.now))) Marks.Says }
    ensures said { IfOk result (λ found. IfSome found (SaysSaying (rows_of (found_of explore.now)))) }
    ensures none { IfOk result (λ found. IfNone found ((said : Saying) →
        SaysSaying (rows_of (found_of explore.now)) said → ⊥)) }
{
    if has_claims(explore) || is_with_marks(explore) {
        return Ok(None);
    }
    if has_text(explore, "only") {
        return Ok(None);
    }
    let Some(beside) = beside(explore) else {
        return Ok(None);
    };
    let Some(seconds) = seconds_of(explore) else {
        return Ok(None);
    };
    match explore_order(alloc, explore)? {
        Some(order) => Ok(Some(Saying {
            order,
            json: given(explore, "json"),
            seconds,
            beside,
        })),
        None => Ok(None),
    }
}

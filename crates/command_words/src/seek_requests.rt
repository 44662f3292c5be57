//! The search for the first finding that the words of a command line ask for.

ghost use Rattle.std.specs.Prelude.{codes, IfNone, IfOk, IfSome};
ghost use Rattle.clap.specs.Words.{found_of, rows_of};
ghost use Rattle.command_words.specs.declared.seeking.Seeking.{Seeking};
ghost use Rattle.command_words.specs.Flags.{IsGiven};
ghost use Rattle.command_words.specs.Requests.{HasNoClaims, SaysSeeking};

use crate::flags::{beside, given};
use crate::requests::{explore_order, seconds_of};
use crate::seeking::Seeking;
use clap::ArgMatches;
use std::alloc::{AllocError, Global};

/// The search for the first finding that the options of `explore` ask for, or `None` if they conflict or a value is
/// wrong.
pub(crate) fn seeking_of(
    alloc: Global,
    explore: &ArgMatches<'_>,
) -> Result<Option<Seeking>, AllocError>
    requires first { IsGiven (codes "first") (rows_of (found_of explore.now)) }
    requires claims { HasNoClaims (rows_of (found_of explore.now)) }
    ensures said { IfOk result (λ found. IfSome found (SaysSeeking (rows_of (found_of explore.now)))) }
    ensures none { IfOk result (λ found. IfNone found ((said : Seeking) →
        SaysSeeking (rows_of (found_of explore.now)) said → ⊥)) }
{
    if given(explore, "timeline") {
        return Ok(None);
    }
    let Some(beside) = beside(explore) else {
        return Ok(None);
    };
    let Some(seconds) = seconds_of(explore) else {
        return Ok(None);
    };
    match explore_order(alloc, explore)? {
        Some(order) => Ok(Some(Seeking {
            order,
            json: given(explore, "json"),
            seconds,
            beside,
        })),
        None => Ok(None),
    }
}

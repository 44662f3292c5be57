//! The exploration without marks that the words of a command line ask for.

ghost use Rattle.std.specs.Prelude.{◌≡◌, ◌≢◌, Bool, codes, false, IfNone, IfOk, IfSome, None, true};
ghost use Rattle.clap.specs.Words.{first_of, found_of, rows_of};
ghost use Rattle.command_words.specs.declared.marks.Marks.{Marks as TheMarks};
ghost use Rattle.command_words.specs.declared.unmarking.Unmarking.{Unmarking};
ghost use Rattle.command_words.specs.Flags.{SaysMarks, SaysOnly};
ghost use Rattle.command_words.specs.Requests.{GoWithoutMarks, SaysUnmarking};

use crate::flags::{beside, given, text_of};
use crate::judge_requests::has_claims;
use crate::marks::Marks;
use crate::requests::{explore_order, seconds_of};
use crate::unmarking::Unmarking;
use clap::ArgMatches;
use std::alloc::{AllocError, Global};

/// The marks for which the options of `explore` ask, or `None` if the text of `--marks` is wrong.
pub(crate) fn marks_of(explore: &ArgMatches<'_>) -> Option<Marks>
    ensures said { IfSome result (SaysMarks (first_of (codes "marks") (rows_of (found_of explore.now)))) }
    ensures none { IfNone result ((marks : TheMarks) →
        SaysMarks (first_of (codes "marks") (rows_of (found_of explore.now))) marks → ⊥) }
{
    match text_of(explore, "marks") {
        Some(text) => marks_said(text),
        None => Some(Marks::All),
    }
}

/// The marks for which a text asks, or `None` if it is none of the three words that are accepted.
#[tactic(auto, using(crate::proofs::UnmarkLemmas::no_marks))]
pub(crate) fn marks_said(text: &str) -> Option<Marks>
    ensures said { IfSome result (SaysMarks (Some text.now)) }
    ensures none { IfNone result ((marks : TheMarks) → SaysMarks (Some text.now) marks → ⊥) }
{
    match text {
        "all" => Some(Marks::All),
        "say" => Some(Marks::Says),
        "none" => Some(Marks::Nothing),
        _ => None,
    }
}

/// Whether the options of `explore` name fiber 0 as the only one, or `None` if they name another.
pub(crate) fn only_of(explore: &ArgMatches<'_>) -> Option<bool>
    ensures said { IfSome result (SaysOnly (first_of (codes "only") (rows_of (found_of explore.now)))) }
    ensures none { IfNone result ((only : Bool) →
        SaysOnly (first_of (codes "only") (rows_of (found_of explore.now))) only → ⊥) }
{
    match text_of(explore, "only") {
        Some(text) => only_said(text),
        None => Some(false),
    }
}

// `Some(true)` if a text is the number of fiber 0, `None` if it isn't.
#[tactic(auto, using(crate::proofs::UnmarkLemmas::no_fiber))]
fn only_said(text: &str) -> Option<bool>
    ensures said { IfSome result (SaysOnly (Some text.now)) }
    ensures none { IfNone result ((only : Bool) → SaysOnly (Some text.now) only → ⊥) }
{
    match text {
        "0" => Some(true),
        _ => None,
    }
}

/// Whether an option that takes a text is given.
pub(crate) fn has_text(options: &ArgMatches<'_>, name: &str) -> bool
    ensures some { result ≡ true → first_of name.now (rows_of (found_of options.now)) ≢ None }
    ensures none { result ≡ false → first_of name.now (rows_of (found_of options.now)) ≡ None }
{
    text_of(options, name).is_some()
}

/// The exploration without marks that the options of `explore` ask for, or `None` if they conflict or a value is wrong.
pub(crate) fn unmarking_of(
    alloc: Global,
    explore: &ArgMatches<'_>,
) -> Result<Option<Unmarking>, AllocError>
    requires { SaysMarks (first_of (codes "marks") (rows_of (found_of explore.now))) Marks.Nothing }
    ensures said { IfOk result (λ found. IfSome found (SaysUnmarking (rows_of (found_of explore.now)))) }
    ensures none { IfOk result (λ found. IfNone found ((said : Unmarking) →
        SaysUnmarking (rows_of (found_of explore.now)) said → ⊥)) }
{
    if has_claims(explore) || is_with_marks(explore) {
        return Ok(None);
    }
    let Some(only_first) = only_of(explore) else {
        return Ok(None);
    };
    let Some(beside) = beside(explore) else {
        return Ok(None);
    };
    let Some(seconds) = seconds_of(explore) else {
        return Ok(None);
    };
    match explore_order(alloc, explore)? {
        Some(order) => Ok(Some(Unmarking {
            order,
            only_first,
            json: given(explore, "json"),
            seconds,
            beside,
        })),
        None => Ok(None),
    }
}

/// Whether an option is given that only an exploration with all marks takes.
pub(crate) fn is_with_marks(explore: &ArgMatches<'_>) -> bool
    ensures some { result ≡ true → GoWithoutMarks (rows_of (found_of explore.now)) → ⊥ }
    ensures none { result ≡ false → GoWithoutMarks (rows_of (found_of explore.now)) }
{
    given(explore, "timeline")
        || given(explore, "first")
        || given(explore, "ends")
        || has_text(explore, "count")
}

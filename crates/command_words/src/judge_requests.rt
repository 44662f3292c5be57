//! The verdicts on claims that the words of a command line ask for.

ghost use Rattle.std.specs.Prelude.{◌≡◌, ◌≢◌, [], false, IfNone, IfOk, IfSome, true};
ghost use Rattle.clap.specs.Words.{found_of, rows_of};
ghost use Rattle.command_words.specs.declared.judging.Judging.{Judging};
ghost use Rattle.command_words.specs.Requests.{AreAlone, HasClaims, HasNoClaims, SaysJudging, texts_said};

use crate::flags::{explore_form, given};
use crate::judging::Judging;
use crate::requests::explore_order;
use crate::test_requests::texts_of;
use crate::unmark_requests::has_text;
use clap::ArgMatches;
use std::alloc::{AllocError, Global};

/// Whether the options of `explore` have a claim.
pub(crate) fn has_claims(explore: &ArgMatches<'_>) -> bool
    ensures claims { result ≡ true → HasClaims (rows_of (found_of explore.now)) }
    ensures none { result ≡ false → HasNoClaims (rows_of (found_of explore.now)) }
{
    has_texts(explore, "always") || has_texts(explore, "never") || has_texts(explore, "reach")
}

// Whether an option that can be given several times is given.
fn has_texts(options: &ArgMatches<'_>, name: &str) -> bool
    ensures some { result ≡ true → texts_said name.now (rows_of (found_of options.now)) ≢ [] }
    ensures none { result ≡ false → texts_said name.now (rows_of (found_of options.now)) ≡ [] }
{
    match options.get_strs(name) {
        Some(texts) => !texts.is_empty(),
        None => false,
    }
}

/// The verdicts that the options of `explore` ask for, or `None` if they conflict or a value is wrong.
pub(crate) fn judging_of<'a>(
    alloc: Global,
    explore: &ArgMatches<'a>,
) -> Result<Option<Judging<'a>>, AllocError>
    requires { HasClaims (rows_of (found_of explore.now)) }
    ensures said { IfOk result (λ found. IfSome found (SaysJudging (rows_of (found_of explore.now)))) }
    ensures none { IfOk result (λ found. IfNone found ((said : Judging) →
        SaysJudging (rows_of (found_of explore.now)) said → ⊥)) }
{
    if is_with_others(explore) {
        return Ok(None);
    }
    let Some(form) = explore_form(explore) else {
        return Ok(None);
    };
    let Some(order) = explore_order(alloc, explore)? else {
        return Ok(None);
    };
    Ok(Some(Judging {
        order,
        form,
        always: texts_of(alloc, explore, "always")?,
        never: texts_of(alloc, explore, "never")?,
        reach: texts_of(alloc, explore, "reach")?,
    }))
}

// Whether an option is given that conflicts with claims.
fn is_with_others(explore: &ArgMatches<'_>) -> bool
    ensures others { result ≡ true → AreAlone (rows_of (found_of explore.now)) → ⊥ }
    ensures alone { result ≡ false → AreAlone (rows_of (found_of explore.now)) }
{
    given(explore, "first")
        || given(explore, "ends")
        || given(explore, "progress")
        || given(explore, "explain")
        || has_text(explore, "seconds")
}

//! The reports on the claims of a model that didn't pass, and its warnings.

use crate::digits::{push_about, push_word};
use crate::found::{push_answers, push_found, schedule_of};
use crate::judged::{JudgedModel, name_of};
use crate::named_file::{bytes_of, push_place, start_of};
use crate::one_line::joined;
use crate::source_faults::push_headline;
use crate::timeline_table::push_timeline;
use crate::unexplored::{Unexplored, unexplored_words};
use crate::wait_lines::push_waits;
use model_claims::{Rule, Verdict};
use model_runs::{ClaimResult, NamedAnswer, Search, Warning};
use std::alloc::{AllocError, Global};
use text_io::push_shown;

// The greatest number of bytes of a form in a warning.
const SHOWN: usize = 60;

/// Returns the details of a model, which a report has after the lines of all models: its warnings, a line each, and for
/// each claim that didn't pass its place, what was found, and a timeline. If `all` is set, each `fails` that passed has
/// these, too. `AllocError` if memory runs out.
pub fn model_details(alloc: Global, judged: JudgedModel, all: bool) -> Result<Vec<u8>, AllocError> {
    let mut told = Vec::new(alloc);
    for warning in judged.result.warnings.iter() {
        push_warning(&mut told, alloc, judged, *warning)?;
    }
    for claim in judged.result.claims.iter() {
        if claim.verdict != Verdict::Passed || (all && claim.fails) {
            push_claim(&mut told, alloc, judged, claim)?;
        }
    }
    Ok(told)
}

/// Adds a warning, with its place, as a line. `AllocError` if memory runs out.
pub(crate) fn push_warning(
    told: &mut Vec<u8>,
    alloc: Global,
    judged: JudgedModel,
    warning: Warning,
) -> Result<(), AllocError> {
    push_headline(told, "warning", warning.code())?;
    push_place(told, judged.file, start_of(judged.source, warning.form()))?;
    push_word(told, ": `")?;
    let line = joined(alloc, bytes_of(judged.source, warning.form()))?;
    push_cut(told, line.as_slice())?;
    push_word(told, warning_words(warning))
}

// Adds the first 60 bytes of a form, and three dots if the form has more.
fn push_cut(told: &mut Vec<u8>, line: &[u8]) -> Result<(), AllocError> {
    match line.get(..SHOWN) {
        Some(first) if line.len() > SHOWN => {
            push_shown(told, first)?;
            push_word(told, "...")
        }
        _ => push_shown(told, line),
    }
}

// The words behind the form of a warning.
fn warning_words(warning: Warning) -> &'static str {
    match warning {
        Warning::Torn(_) => {
            "`: the ref is read before it is changed: two moves, and another fiber may come between\n"
        }
        Warning::Unmet(_) => "` is wanted, and no schedule comes to it\n",
        Warning::Unstarted(_) => "`: no schedule starts a fiber of this name\n",
        Warning::Unset(_) => "`: no schedule sets a ref of this name\n",
    }
}

// Adds a claim that didn't pass: its text, its place and why.
fn push_claim(
    told: &mut Vec<u8>,
    alloc: Global,
    judged: JudgedModel,
    claim: &ClaimResult,
) -> Result<(), AllocError> {
    push_word(told, "\n---- ")?;
    push_shown(told, name_of(judged.source, judged.model))?;
    push_word(told, ": ")?;
    let line = joined(alloc, bytes_of(judged.source, claim.form))?;
    push_shown(told, line.as_slice())?;
    push_word(told, "\n     at ")?;
    push_place(told, judged.file, start_of(judged.source, claim.form))?;
    told.push(b'\n')?;
    match (judged.unexplored, judged.result.search_of(claim)) {
        (Some(why), _) => push_unexplored(told, why),
        (None, Some(search)) => push_why(told, alloc, judged, claim, search),
        (None, None) => Ok(()),
    }
}

/// Adds that a claim is undecided, and why its model has no result of a search. `AllocError` if memory runs out.
pub(crate) fn push_unexplored(told: &mut Vec<u8>, why: Unexplored) -> Result<(), AllocError> {
    push_word(told, UNDECIDED)?;
    push_word(told, unexplored_words(why))?;
    told.push(b'\n')?;
    Ok(())
}

// The words before the reason for which a claim is undecided.
const UNDECIDED: &str = "     undecided: ";

// Adds why a claim didn't pass, a timeline, and what fibers wait for.
fn push_why(
    told: &mut Vec<u8>,
    alloc: Global,
    judged: JudgedModel,
    claim: &ClaimResult,
    search: &Search,
) -> Result<(), AllocError> {
    push_reasons(told, alloc, judged, claim, search)?;
    match (claim.verdict, &claim.replay) {
        (Verdict::Failed | Verdict::Passed, Some(replay)) => {
            told.push(b'\n')?;
            push_timeline(told, alloc, judged.file, judged.source, replay)?;
            match &claim.waits {
                Some(waits) => push_waits(told, judged.source, waits),
                None => Ok(()),
            }
        }
        _ => Ok(()),
    }
}

/// Adds why a claim has its verdict, in lines: for a failed claim what refutes it, for an undecided claim the bound
/// that was met, and for a passed claim the answer that decides it, if any, or that no schedule meets what had to fail.
/// `AllocError` if memory runs out.
pub(crate) fn push_reasons(
    told: &mut Vec<u8>,
    alloc: Global,
    judged: JudgedModel,
    claim: &ClaimResult,
    search: &Search,
) -> Result<(), AllocError> {
    match claim.verdict {
        Verdict::Passed => match answer_of(claim, search) {
            Some(answer) => {
                push_word(told, refuted_words(claim.fails))?;
                push_shown_answer(told, alloc, judged, claim, search, answer)
            }
            None if claim.fails => push_none_meets(told, judged, claim, search),
            None => Ok(()),
        },
        Verdict::Undecided => push_undecided(told, claim.rule, search),
        Verdict::Failed => push_failed(told, alloc, judged, claim, search),
    }
}

// The words for a claim that passed by an answer: if it had to be refuted, the answer refutes it.
fn refuted_words(fails: bool) -> &'static str {
    if fails {
        "     it fails, as it is to:\n"
    } else {
        ""
    }
}

// The answer that decides a claim, if any.
fn answer_of<'a>(claim: &ClaimResult, search: &'a Search) -> Option<&'a NamedAnswer> {
    search.answers.get(claim.shown?)
}

// Adds that a claim is undecided, and why.
fn push_undecided(told: &mut Vec<u8>, rule: Rule, search: &Search) -> Result<(), AllocError> {
    push_word(told, UNDECIDED)?;
    if search.complete {
        return push_word(told, "an exploration doesn't decide it\n");
    }
    push_about(told, bound_words(search.halted), search.worlds)?;
    push_word(told, " worlds")?;
    if search.sampled > 0 {
        push_about(told, ", and ", search.sampled)?;
        push_word(told, sampled_words(rule))?;
    }
    told.push(b'\n')?;
    Ok(())
}

// The words for an exploration that isn't complete: its time was over, or it met another bound.
fn bound_words(halted: bool) -> &'static str {
    if halted {
        "its time was over at "
    } else {
        "a bound was met at "
    }
}

// The words for schedules that were drawn at random and decide nothing.
fn sampled_words(rule: Rule) -> &'static str {
    match rule {
        Rule::Every => " sampled schedules show nothing against it",
        Rule::Some => " sampled schedules don't meet it",
    }
}

// Adds what refutes a claim.
fn push_failed(
    told: &mut Vec<u8>,
    alloc: Global,
    judged: JudgedModel,
    claim: &ClaimResult,
    search: &Search,
) -> Result<(), AllocError> {
    if claim.fails {
        push_word(told, gone_words(claim.rule))?;
    }
    match claim.shown {
        Some(number) => match search.answers.get(number) {
            Some(answer) => push_shown_answer(told, alloc, judged, claim, search, answer),
            None => Ok(()),
        },
        None if claim.fails => Ok(()),
        None => push_none_meets(told, judged, claim, search),
    }
}

// The words for a claim that had to be refuted, and wasn't.
fn gone_words(rule: Rule) -> &'static str {
    match rule {
        Rule::Every => {
            "     it was to fail, and holds of every schedule: the mistake that it shows is gone\n"
        }
        Rule::Some => "     it was to fail, and a schedule meets it\n",
    }
}

// Adds that no schedule meets a claim, and the answers that can come; no answers for a claim at any moment.
fn push_none_meets(
    told: &mut Vec<u8>,
    judged: JudgedModel,
    claim: &ClaimResult,
    search: &Search,
) -> Result<(), AllocError> {
    push_about(told, "     no schedule of ", search.worlds)?;
    if claim.at_moment {
        return push_word(told, " worlds meets it\n");
    }
    push_word(told, " worlds meets it; what can come:\n")?;
    push_answers(told, judged.source, search)
}

// Adds the answer that decides a claim: what was found, and its schedule.
fn push_shown_answer(
    told: &mut Vec<u8>,
    alloc: Global,
    judged: JudgedModel,
    claim: &ClaimResult,
    search: &Search,
    answer: &NamedAnswer,
) -> Result<(), AllocError> {
    let schedule = schedule_of(alloc, answer)?;
    push_word(told, "     found: ")?;
    push_found(told, judged.source, search, answer, claim.replay.as_ref())?;
    push_word(told, "\n     under \"")?;
    push_word(told, schedule.as_str())?;
    push_word(told, "\"\n")
}

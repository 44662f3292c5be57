//! What was found under a schedule, in the names of a file.

use crate::digits::{push_about, push_word};
use crate::event_words::push_outcome;
use crate::names::{push_fiber_name, push_ref};
use cell_registry::{Band, Call, RunError};
use effect_term::Outcome;
use fiber_events::Deed;
use model_claims::{FiberName, Seen, SeenFiber};
use model_runs::{Named, NamedAnswer, Search};
use model_terms::Source;
use std::alloc::{AllocError, Global};
use text_io::{MOST_ENTRIES, schedule_text};

// The greatest number of answers that are listed.
const MOST_LISTED: usize = 20;

/// Adds an answer: the fault that ends its schedule, if any, the values of refs at a moment, the outcomes of its
/// fibers, and the values of watched refs. `AllocError` if memory runs out.
pub(crate) fn push_found(
    told: &mut Vec<u8>,
    source: &Source,
    search: &Search,
    answer: &NamedAnswer,
    replay: Option<&Named>,
) -> Result<(), AllocError> {
    if let Some(fault) = answer.fault {
        push_fault(told, fault)?;
    }
    let held = push_held_refs(told, source, answer, replay)?;
    push_fibers(
        told,
        source,
        &answer.seen,
        replay,
        answer.fault.is_some() || held,
    )?;
    if answer.came > 0 {
        push_about(told, " (", answer.came)?;
        push_about(told, " of ", search.sampled)?;
        push_word(told, " sampled schedules)")?;
    }
    Ok(())
}

// Adds the values of refs at a moment, by the names of its replay. Returns whether there are any.
fn push_held_refs(
    told: &mut Vec<u8>,
    source: &Source,
    answer: &NamedAnswer,
    replay: Option<&Named>,
) -> Result<bool, AllocError> {
    let Some(replay) = replay else {
        return Ok(false);
    };
    let mut behind = false;
    for held in answer.held.iter() {
        push_comma(told, behind)?;
        push_ref(told, source, replay, held.number)?;
        push_about(told, " = ", held.value.get())?;
        behind = true;
    }
    Ok(behind)
}

// Adds the fibers of an answer, with commas between them. `behind` says whether a comma comes before the first.
fn push_fibers(
    told: &mut Vec<u8>,
    source: &Source,
    seen: &Seen,
    replay: Option<&Named>,
    behind: bool,
) -> Result<(), AllocError> {
    let mut behind = behind;
    for (number, fiber) in seen.fibers.iter().enumerate() {
        if is_told(fiber, replay.is_some()) {
            push_comma(told, behind)?;
            push_fiber_end(told, source, fiber, number, replay)?;
            behind = true;
        }
    }
    Ok(())
}

// Adds a comma and a space, if `behind`.
fn push_comma(told: &mut Vec<u8>, behind: bool) -> Result<(), AllocError> {
    if behind {
        push_word(told, ", ")?;
    }
    Ok(())
}

// Whether the end of a fiber is written. A fiber without a name in the file is left out if it succeeded. A watcher is
// written only if it succeeded and a replay shows its ref.
fn is_told(fiber: &SeenFiber, has_replay: bool) -> bool {
    match fiber.name {
        FiberName::Watcher => has_replay && has_succeeded(fiber),
        FiberName::Hidden => !has_succeeded(fiber),
        FiberName::Main
        | FiberName::Word(_)
        | FiberName::Row(_, _)
        | FiberName::Left
        | FiberName::Right => true,
    }
}

// Whether a fiber succeeded.
fn has_succeeded(fiber: &SeenFiber) -> bool {
    matches!(fiber.outcome, Some(Outcome::Succeeded(_)))
}

// Adds how a fiber ended, or the value of the ref that a watcher read.
fn push_fiber_end(
    told: &mut Vec<u8>,
    source: &Source,
    fiber: &SeenFiber,
    number: usize,
    replay: Option<&Named>,
) -> Result<(), AllocError> {
    if fiber.name == FiberName::Watcher
        && let Some(replay) = replay
    {
        push_watched(told, source, replay, number)?;
        return push_held(told, fiber.outcome);
    }
    push_fiber_name(told, source, fiber.name, number)?;
    push_end(told, fiber.outcome)
}

// Adds what a ref held, by the outcome of its watcher.
fn push_held(told: &mut Vec<u8>, outcome: Option<Outcome>) -> Result<(), AllocError> {
    match outcome {
        Some(ended) => push_read(told, ended),
        None => push_word(told, " unended"),
    }
}

// Adds what a ref held, by the outcome of a watcher that has ended.
fn push_read(told: &mut Vec<u8>, ended: Outcome) -> Result<(), AllocError> {
    match ended {
        Outcome::Succeeded(value) => push_about(told, " = ", value.get()),
        Outcome::Errored(code) => push_about(told, " errored ", code.get()),
        Outcome::Canceled => push_word(told, " canceled"),
    }
}

// Adds how a fiber ended, or that the fiber is unended.
fn push_end(told: &mut Vec<u8>, outcome: Option<Outcome>) -> Result<(), AllocError> {
    told.push(b' ')?;
    match outcome {
        Some(outcome) => push_outcome(told, outcome),
        None => push_word(told, "unended"),
    }
}

// Adds the ref that a fiber watches.
fn push_watched(
    told: &mut Vec<u8>,
    source: &Source,
    replay: &Named,
    fiber: usize,
) -> Result<(), AllocError> {
    match watched_ref(replay, fiber) {
        Some(number) => push_ref(told, source, replay, number),
        None => push_word(told, "the ref"),
    }
}

/// The number of the ref that a fiber of a replay reads first.
pub(crate) fn watched_ref(replay: &Named, fiber: usize) -> Option<u16> {
    for event in replay.events.as_slice() {
        if usize::from(event.fiber) == fiber
            && let Deed::Called(Call::Get(number), _) = event.deed
        {
            return Some(number);
        }
    }
    None
}

/// Adds a fault of a run, as `replay` writes it. `AllocError` if memory runs out.
pub(crate) fn push_fault(told: &mut Vec<u8>, fault: RunError) -> Result<(), AllocError> {
    match fault {
        RunError::Full(Band::Fibers, limit) => push_limit(told, limit, " fibers"),
        RunError::Full(Band::Refs, limit) => push_limit(told, limit, " refs"),
        RunError::Full(Band::Deferreds, limit) => push_limit(told, limit, " deferreds"),
        RunError::Spent(fiber) => push_about(told, "fault 19 Spent ", fiber),
        RunError::NoMemory => push_word(told, "fault 20 NoMemory"),
        RunError::Lost(fiber) => push_about(told, "fault 21 Lost ", fiber),
        RunError::NoWorker => push_word(told, "fault 22 NoWorker"),
    }
}

// Adds the fault that all numbers of a band are given.
fn push_limit(told: &mut Vec<u8>, limit: u16, band: &str) -> Result<(), AllocError> {
    push_word(told, "fault 18 Full")?;
    push_word(told, band)?;
    push_about(told, " ", limit)
}

/// Returns the schedule of an answer, for `--schedule`; `..` if `--schedule` doesn't take it. `AllocError` if memory
/// runs out.
pub(crate) fn schedule_of(alloc: Global, answer: &NamedAnswer) -> Result<String, AllocError> {
    let entries = answer.schedule.as_slice();
    if entries.len() <= MOST_ENTRIES && entries.iter().all(|fiber| *fiber < 1000) {
        schedule_text(alloc, entries)
    } else {
        String::from_str(alloc, "..")
    }
}

/// Adds the answers of a search, a line each: at most 20, which differ in their faults or the outcomes of their fibers.
/// Adds a line `..` after 20 answers. `AllocError` if memory runs out.
pub(crate) fn push_answers(
    told: &mut Vec<u8>,
    source: &Source,
    search: &Search,
) -> Result<(), AllocError> {
    let mut listed = 0usize;
    for (number, answer) in search.answers.iter().enumerate() {
        if listed < MOST_LISTED && is_new(search, number, answer) {
            push_word(told, "       ")?;
            push_found(told, source, search, answer, None)?;
            told.push(b'\n')?;
            listed = listed.saturating_add(1);
        }
    }
    if listed == MOST_LISTED {
        push_word(told, "       ..\n")?;
    }
    Ok(())
}

// Whether no answer before this one has the same fault, and the same fibers with the same outcomes.
fn is_new(search: &Search, number: usize, answer: &NamedAnswer) -> bool {
    for before in search.answers.iter().take(number) {
        if before.fault == answer.fault && is_same(&before.seen, &answer.seen) {
            return false;
        }
    }
    true
}

// Whether two answers have the same fibers with the same outcomes.
fn is_same(one: &Seen, other: &Seen) -> bool {
    let mut same = one.fibers.len() == other.fibers.len();
    for (first, second) in one.fibers.iter().zip(other.fibers.iter()) {
        same = same && first.name == second.name && first.outcome == second.outcome;
    }
    same
}

//! Outcomes as they are written: an exploration whose reports have no marks.
ghost use Rattle.std.specs.Prelude.{◌≡◌, IfOk, false, map, true};
ghost use Rattle.every_schedule.specs.Explored.{IsListed};
ghost use Rattle.outcome_answers.specs.OutcomesShown.{AreFirsts, AreShown, IsShown, bare, shown_answer};
ghost use Rattle.outcome_answers.specs.OutcomesShown.{shown_end, shown_of};

use cell_registry::RunError;
use effect_term::Outcome;
use every_outcome::{OutcomeAnswer, OutcomeExploration, Outcomes};
use every_schedule::{Answer, Answers, Exploration, Schedule};
use outcome_trace::{FiberReport, FiberReports, Marks, Report, same_end};
use std::alloc::{AllocError, Global};

/// The outcomes of an exploration as they are written: each answer is a report without marks, of all fibers or of fiber
/// 0 alone. For fiber 0 alone, only the first of equal answers is kept. `AllocError` if memory ran out.
pub fn shown_exploration(
    alloc: Global,
    found: &OutcomeExploration,
    only_first: bool,
) -> Result<Exploration, AllocError>
    ensures { IfOk result (IsShown only_first found.now) }
{
    let answers = shown_answers(alloc, found.answers.as_slice(), only_first)?;
    Ok(Exploration {
        answers: Answers::new(answers),
        worlds: found.worlds,
        bytes: found.bytes,
        complete: found.complete,
        halted: found.halted,
    })
}

// The answers that are written: one for each outcome of fiber 0, or all.
fn shown_answers(
    alloc: Global,
    answers: &[OutcomeAnswer],
    only_first: bool,
) -> Result<Vec<Answer>, AllocError>
    ensures { IfOk result (λ shown. AreShown only_first answers.now shown.items) }
{
    if only_first {
        first_answers(alloc, answers)
    } else {
        all_answers(alloc, answers)
    }
}

// The answers, each with the outcomes of all fibers.
fn all_answers(alloc: Global, answers: &[OutcomeAnswer]) -> Result<Vec<Answer>, AllocError>
    ensures { IfOk result (λ shown. shown.items ≡ map (shown_answer false) answers.now) }
{
    let mut shown = Vec::with_capacity(alloc, answers.len())?;
    for answer in answers {
        let one = shown_answer(alloc, answer, false)?;
        shown.push(one)?;
    }
    Ok(shown)
}

// For each outcome of fiber 0, and for each fault, the first answer that has it, with the outcome of fiber 0 alone.
fn first_answers(alloc: Global, answers: &[OutcomeAnswer]) -> Result<Vec<Answer>, AllocError>
    ensures { IfOk result (λ shown. AreFirsts answers.now shown.items) }
{
    let mut shown = Vec::new(alloc);
    for answer in answers {
        let one = shown_answer(alloc, answer, true)?;
        if !has_end(shown.as_slice(), &one.end) {
            shown.push(one)?;
        }
    }
    Ok(shown)
}

// Whether one of the answers has this end.
fn has_end(shown: &[Answer], end: &Result<Report, RunError>) -> bool
    ensures listed { result ≡ true → IsListed shown.now end.now }
    ensures other { result ≡ false → IsListed shown.now end.now → ⊥ }
{
    for answer in shown {
        if same_end(&answer.end, end) {
            return true;
        }
    }
    false
}

// An answer with the outcomes of all fibers, or of fiber 0 alone.
fn shown_answer(
    alloc: Global,
    answer: &OutcomeAnswer,
    only_first: bool,
) -> Result<Answer, AllocError>
    ensures { IfOk result (λ shown. shown ≡ shown_answer only_first answer.now) }
{
    let end = shown_end(alloc, &answer.end, only_first)?;
    let entries = Vec::from_slice(alloc, answer.schedule.as_slice())?;
    Ok(Answer {
        schedule: Schedule::new(entries),
        end,
    })
}

// Outcomes as a report, or the fault.
fn shown_end(
    alloc: Global,
    end: &Result<Outcomes, RunError>,
    only_first: bool,
) -> Result<Result<Report, RunError>, AllocError>
    ensures { IfOk result (λ shown. shown ≡ shown_end only_first end.now) }
{
    match end {
        Ok(outcomes) => {
            let outcomes = shown_of(outcomes.as_slice(), only_first);
            Ok(Ok(bare_report(alloc, outcomes)?))
        }
        Err(fault) => Ok(Err(*fault)),
    }
}

// All outcomes, or that of fiber 0 alone.
fn shown_of(outcomes: &[Option<Outcome>], only_first: bool) -> &[Option<Outcome>]
    ensures { result.now ≡ shown_of only_first outcomes.now }
{
    if only_first {
        &outcomes[..outcomes.len().min(1)]
    } else {
        outcomes
    }
}

// A report of fibers with these outcomes and no marks.
fn bare_report(alloc: Global, outcomes: &[Option<Outcome>]) -> Result<Report, AllocError>
    ensures { IfOk result (λ report. report.fibers ≡ map bare outcomes.now) }
{
    let mut fibers = Vec::with_capacity(alloc, outcomes.len())?;
    for outcome in outcomes {
        fibers.push(FiberReport {
            outcome: *outcome,
            marks: Marks::new(Vec::new(alloc)),
        })?;
    }
    Ok(Report {
        fibers: FiberReports::new(fibers),
    })
}

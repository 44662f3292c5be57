//! Answers with the outcomes of their reports alone.
ghost use Rattle.std.specs.Prelude.{◌≡◌, IfOk, map};
ghost use Rattle.every_outcome.specs.Private.Bare.{outcome_answer, outcomes_in};

use crate::outcomes::{OutcomeAnswer, Outcomes, Schedule};
use cell_registry::RunError;
use every_schedule::Answer;
use scheduled_core::Report;
use std::alloc::{AllocError, Global};

/// The answers, each with the outcomes of its report.
pub(crate) fn bare_answers(
    alloc: Global,
    answers: &[Answer],
) -> Result<Vec<OutcomeAnswer>, AllocError>
    ensures { IfOk result (λ it. it.items ≡ map outcome_answer answers.now) }
{
    let mut bare = Vec::with_capacity(alloc, answers.len())?;
    for answer in answers {
        bare.push(bare_answer(alloc, answer)?)?;
    }
    Ok(bare)
}

// The answer with the outcomes of its report.
fn bare_answer(alloc: Global, answer: &Answer) -> Result<OutcomeAnswer, AllocError>
    ensures { IfOk result (λ it. it ≡ outcome_answer answer.now) }
{
    let entries = Vec::from_slice(alloc, answer.schedule.as_slice())?;
    let end = bare_end(alloc, &answer.end)?;
    Ok(OutcomeAnswer {
        schedule: Schedule::new(entries),
        end,
    })
}

// The outcomes of a report, or the fault.
fn bare_end(
    alloc: Global,
    end: &Result<Report, RunError>,
) -> Result<Result<Outcomes, RunError>, AllocError>
    ensures { IfOk result (λ it. it ≡ outcomes_in end.now) }
{
    match end {
        Ok(report) => Ok(Ok(outcomes_of(alloc, report)?)),
        Err(fault) => Ok(Err(*fault)),
    }
}

// The outcomes of a report.
fn outcomes_of(alloc: Global, report: &Report) -> Result<Outcomes, AllocError>
    ensures { IfOk result (λ it. it ≡ map (λ f. f.outcome) report.now.fibers) }
{
    let fibers = report.fibers.as_slice();
    let mut outcomes = Vec::with_capacity(alloc, fibers.len())?;
    for fiber in fibers {
        outcomes.push(fiber.outcome)?;
    }
    Ok(Outcomes::new(outcomes))
}

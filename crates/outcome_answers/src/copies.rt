//! Copies of the answers of an exploration.
ghost use Rattle.std.specs.Prelude.{◌≡◌, IfOk};

use cell_registry::RunError;
use every_schedule::{Answer, Schedule};
use outcome_trace::{FiberReport, FiberReports, Marks, Report};
use std::alloc::{AllocError, Global};

/// A copy of an answer. `AllocError` if memory ran out.
pub(crate) fn copied(alloc: Global, answer: &Answer) -> Result<Answer, AllocError>
    ensures { IfOk result (λ copy. copy ≡ answer.now) }
{
    let end = copied_end(alloc, &answer.end)?;
    let entries = Vec::from_slice(alloc, answer.schedule.as_slice())?;
    Ok(Answer {
        schedule: Schedule::new(entries),
        end,
    })
}

// A copy of a report or of a fault.
fn copied_end(
    alloc: Global,
    end: &Result<Report, RunError>,
) -> Result<Result<Report, RunError>, AllocError>
    ensures { IfOk result (λ copy. copy ≡ end.now) }
{
    match end {
        Ok(report) => Ok(Ok(copied_report(alloc, report)?)),
        Err(fault) => Ok(Err(*fault)),
    }
}

// A copy of a report.
fn copied_report(alloc: Global, report: &Report) -> Result<Report, AllocError>
    ensures { IfOk result (λ copy. copy ≡ report.now) }
{
    let fibers = copied_fibers(alloc, report.fibers.as_slice())?;
    Ok(Report {
        fibers: FiberReports::new(fibers),
    })
}

// Copies of the reports of fibers.
fn copied_fibers(alloc: Global, fibers: &[FiberReport]) -> Result<Vec<FiberReport>, AllocError>
    ensures { IfOk result (λ copies. copies.items ≡ fibers.now) }
{
    let mut copies = Vec::with_capacity(alloc, fibers.len())?;
    for fiber in fibers {
        copies.push(copied_fiber(alloc, fiber)?)?;
    }
    Ok(copies)
}

// A copy of the report of a fiber.
fn copied_fiber(alloc: Global, fiber: &FiberReport) -> Result<FiberReport, AllocError>
    ensures { IfOk result (λ copy. copy ≡ fiber.now) }
{
    let marks = Vec::from_slice(alloc, fiber.marks.as_slice())?;
    Ok(FiberReport {
        outcome: fiber.outcome,
        marks: Marks::new(marks),
    })
}

//! The report of some fibers.
ghost use Rattle.std.specs.Prelude.{◌≡◌, ◌≢◌, IfOk, false, map, true};
ghost use Rattle.std.specs.List.{All};
ghost use Rattle.fiber_frames.specs.Fiber.{outcome_of};
ghost use Rattle.fiber_frames.specs.Marks.{AreLawful};
ghost use Rattle.scheduled_core.specs.Core.{fiber_report as report_of};

use crate::report::{FiberReport, FiberReports, Marks, Report};
use effect_term::Outcome;
use fiber_frames::{Ask, Config};
use std::alloc::{AllocError, Global};

/// The report of fibers, in the order of their numbers, or `AllocError` if memory is refused. The fibers are consumed
/// for their marks, which are lawful.
pub fn report_of_fibers(alloc: Global, fibers: Vec<Config>) -> Result<Report, AllocError>
    ensures reports { IfOk result (λ it. it ≡ record { fibers = map report_of fibers.items }) }
    ensures lawful { IfOk result (λ it. All (λ f. AreLawful f.marks f.outcome) it.fibers) }
{
    let mut reports = Vec::with_capacity(alloc, fibers.len())?;
    for fiber in fibers {
        reports.push(fiber_report(fiber))?;
    }
    Ok(Report {
        fibers: FiberReports::new(reports),
    })
}

/// Whether the two lists of fibers have the same report: equally many, and in each place the same outcome, or none, and
/// the same marks.
pub fn same_report(one: &[Config], other: &[Config]) -> bool
    ensures same { result ≡ true → map report_of one.now ≡ map report_of other.now }
    ensures other { result ≡ false → map report_of one.now ≢ map report_of other.now }
{
    if one.len() != other.len() {
        return false;
    }
    for (index, fiber) in one.iter().enumerate() {
        if !ended_alike(fiber, &other[index]) {
            return false;
        }
    }
    true
}

// Whether two fibers have the same report.
fn ended_alike(one: &Config, other: &Config) -> bool
    ensures same { result ≡ true → report_of one.now ≡ report_of other.now }
    ensures other { result ≡ false → report_of one.now ≢ report_of other.now }
{
    outcome(one) == outcome(other) && one.trace() == other.trace()
}

// The report of a fiber.
#[inline(always)]
fn fiber_report(fiber: Config) -> FiberReport
    ensures told { result ≡ report_of fiber }
    ensures lawful { AreLawful result.marks result.outcome }
{
    let outcome = outcome(&fiber);
    FiberReport {
        outcome,
        marks: Marks::new(fiber.into_trace()),
    }
}

/// The outcome of a fiber, if it has ended.
#[inline(always)]
#[tactic(auto, using(crate::proofs::Reported::outcome_asked))]
pub fn outcome(fiber: &Config) -> Option<Outcome>
    ensures { result ≡ outcome_of fiber.now }
{
    match fiber.ask() {
        Ask::Over(outcome) => Some(outcome),
        _ => None,
    }
}

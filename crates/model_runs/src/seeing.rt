//! What a claim sees of an answer.

ghost use Rattle.std.specs.Prelude.{◌≡◌, map, IfOk, true, false};
ghost use Rattle.model_runs.specs.Seeing.{outcomes, seen_outcomes};

use crate::named::Named;
use effect_term::Value;
use fiber_frames::Mark;
use model_claims::{FiberName, Seen, SeenFiber};
use model_terms::LATE;
use scheduled_core::FiberReport;
use std::alloc::{AllocError, Global};

/// Returns what a claim sees of a replay: the outcome of each fiber, the values that the fiber said, without those that
/// a probe says, and whether an order was broken. Of a fault a claim sees no fibers.
pub(crate) fn seen_of(alloc: Global, replay: &Named) -> Result<Seen, AllocError>
    ensures { IfOk result (λ seen. seen_outcomes seen ≡ outcomes replay.now.end) }
{
    match &replay.end {
        Err(_) => Ok(fault_seen(alloc)),
        Ok(report) => fibers_seen(alloc, report.fibers.as_slice(), replay),
    }
}

// What a claim sees of a fault.
fn fault_seen(alloc: Global) -> Seen
    ensures { result.faulty ≡ true }
{
    let fibers = Vec::new(alloc);
    let says = Vec::new(alloc);
    Seen {
        fibers,
        says,
        late: false,
        faulty: true,
    }
}

// What a claim sees of the fibers of a replay that ended with these reports.
fn fibers_seen(alloc: Global, reports: &[FiberReport], replay: &Named) -> Result<Seen, AllocError>
    ensures outcomes { IfOk result (λ seen. map (λ f. f.outcome) seen.fibers.items ≡ map (λ f. f.outcome) reports.now) }
    ensures faultless { IfOk result (λ seen. seen.faulty ≡ false) }
{
    let mut says = Vec::new(alloc);
    let fibers = add_fibers(alloc, &mut says, reports, replay)?;
    Ok(Seen {
        fibers,
        says,
        late: is_late(replay),
        faulty: false,
    })
}

// Returns the outcome of each of these fibers, and adds the values that the fibers said to `says`.
fn add_fibers(
    alloc: Global,
    says: &mut Vec<Value>,
    reports: &[FiberReport],
    replay: &Named,
) -> Result<Vec<SeenFiber>, AllocError>
    ensures { IfOk result (λ fibers. map (λ f. f.outcome) fibers.items ≡ map (λ f. f.outcome) reports.now) }
{
    let mut fibers = Vec::new(alloc);
    for (number, report) in reports.iter().enumerate() {
        fibers.push(fiber_seen(says, replay, number, report)?)?;
    }
    Ok(fibers)
}

// Returns the outcome of the fiber of this number, and adds the values that the fiber said to `says`.
fn fiber_seen(
    says: &mut Vec<Value>,
    replay: &Named,
    number: usize,
    report: &FiberReport,
) -> Result<SeenFiber, AllocError>
    ensures { IfOk result (λ fiber. fiber.outcome ≡ report.now.outcome) }
{
    let says_from = says.len();
    add_says(says, replay, number)?;
    let says_to = says.len();
    Ok(SeenFiber {
        name: name_of(replay.fibers.as_slice(), number),
        outcome: report.outcome,
        says_from,
        says_to,
    })
}

// The name of a fiber; `Hidden` if there is none.
fn name_of(names: &[FiberName], number: usize) -> FiberName {
    match names.get(number) {
        Some(name) => *name,
        None => FiberName::Hidden,
    }
}

// Adds the values that the fiber of this number said in a replay, without those that a probe added.
fn add_says(says: &mut Vec<Value>, replay: &Named, number: usize) -> Result<(), AllocError> {
    for event in replay.events.as_slice() {
        if usize::from(event.fiber) == number
            && let Some(Mark::Say(value)) = event.mark
            && !replay.is_added(event)
        {
            says.push(value)?;
        }
    }
    Ok(())
}

// Whether a fiber said in a replay that an order was broken, as a probe has it.
fn is_late(replay: &Named) -> bool {
    for event in replay.events.as_slice() {
        if let Some(Mark::Say(value)) = event.mark
            && value.get() == LATE
            && replay.is_added(event)
        {
            return true;
        }
    }
    false
}

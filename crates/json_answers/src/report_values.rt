//! Reports and faults of a run as JSON.

ghost use Rattle.std.specs.Prelude.{◌≡◌, IfOk};
ghost use Rattle.serde_json.specs.View.{items_view, view};
ghost use Rattle.json_answers.specs.ReportData.{band_word, fault_data, fiber_data, fibers_items, mark_data};
ghost use Rattle.json_answers.specs.ReportData.{marks_items, outcome_data, report_data};

use cell_registry::{Band, RunError};
use effect_term::Outcome;
use fiber_frames::Mark;
use outcome_trace::{FiberReport, Report};
use serde_json::{Value, json};
use std::alloc::{AllocError, Global};

/// The value of a report: the number, the outcome and the marks of each fiber. `AllocError` where memory ran out.
pub fn report_json(alloc: Global, report: &Report) -> Result<Value, AllocError>
    ensures { IfOk result (λ value. view value ≡ report_data report.now.fibers) }
{
    let fibers = fiber_values(alloc, report.fibers.as_slice())?;
    let fibers = Value::Array(fibers);
    json!(in alloc; {"answer": "report", "fibers": fibers})
}

/// The value of a fault of a run: its name, its number, and the band with its limit or the fiber, if the fault has one.
/// `AllocError` where memory ran out.
pub fn fault_json(alloc: Global, error: RunError) -> Result<Value, AllocError>
    ensures { IfOk result (λ value. view value ≡ fault_data error) }
{
    match error {
        RunError::Full(band, limit) => {
            json!(in alloc; {"answer": "fault", "band": band_word(band), "limit": limit, "name": "Full",
                "number": 18u64})
        }
        RunError::Spent(fiber) => {
            json!(in alloc; {"answer": "fault", "fiber": fiber, "name": "Spent", "number": 19u64})
        }
        RunError::NoMemory =>
            json!(in alloc; {"answer": "fault", "name": "NoMemory", "number": 20u64}),
        RunError::Lost(fiber) => {
            json!(in alloc; {"answer": "fault", "fiber": fiber, "name": "Lost", "number": 21u64})
        }
        RunError::NoWorker =>
            json!(in alloc; {"answer": "fault", "name": "NoWorker", "number": 22u64}),
    }
}

// The word of a band.
fn band_word(band: Band) -> &'static str
    ensures { result.now ≡ band_word band }
{
    match band {
        Band::Fibers => "fibers",
        Band::Refs => "refs",
        Band::Deferreds => "deferreds",
    }
}

// The fibers of a report, in the order of their numbers.
fn fiber_values(alloc: Global, fibers: &[FiberReport]) -> Result<Vec<Value>, AllocError>
    ensures { IfOk result (λ values. items_view values.items ≡ fibers_items 0 fibers.now) }
{
    let mut values = Vec::new(alloc);
    for fiber in fibers {
        let value = fiber_value(alloc, values.len(), fiber)?;
        values.push(value)?;
    }
    Ok(values)
}

// A fiber: its number, its marks and its outcome.
fn fiber_value(alloc: Global, number: usize, fiber: &FiberReport) -> Result<Value, AllocError>
    ensures { IfOk result (λ value. view value ≡ fiber_data number fiber.now) }
{
    let marks = Value::Array(mark_values(alloc, fiber.marks.as_slice())?);
    let outcome = outcome_value(alloc, fiber.outcome)?;
    json!(in alloc; {"fiber": number, "marks": marks, "outcome": outcome})
}

// The outcome of a fiber, or `unended`.
fn outcome_value(alloc: Global, outcome: Option<Outcome>) -> Result<Value, AllocError>
    ensures { IfOk result (λ value. view value ≡ outcome_data outcome) }
{
    let Some(ended) = outcome else {
        return json!(in alloc; "unended");
    };
    match ended {
        Outcome::Succeeded(value) => json!(in alloc; {"succeeded": value.get()}),
        Outcome::Errored(code) => json!(in alloc; {"errored": code.get()}),
        Outcome::Canceled => json!(in alloc; "canceled"),
    }
}

// Marks, in their order.
fn mark_values(alloc: Global, marks: &[Mark]) -> Result<Vec<Value>, AllocError>
    ensures { IfOk result (λ values. items_view values.items ≡ marks_items marks.now) }
{
    let mut values = Vec::new(alloc);
    for mark in marks {
        let value = mark_value(alloc, *mark)?;
        values.push(value)?;
    }
    Ok(values)
}

// A mark, with its value, its code or the number of its mask.
fn mark_value(alloc: Global, mark: Mark) -> Result<Value, AllocError>
    ensures { IfOk result (λ value. view value ≡ mark_data mark) }
{
    match mark {
        Mark::Say(value) => json!(in alloc; {"say": value.get()}),
        Mark::Enter(mask) => json!(in alloc; {"enter": mask}),
        Mark::Leave(mask) => json!(in alloc; {"leave": mask}),
        Mark::PollIn(mask) => json!(in alloc; {"in": mask}),
        Mark::PollOut(mask) => json!(in alloc; {"out": mask}),
        Mark::Cut => json!(in alloc; "cut"),
        Mark::Acquired(mask) => json!(in alloc; {"acquired": mask}),
        Mark::Releasing(mask) => json!(in alloc; {"releasing": mask}),
        Mark::Released(mask) => json!(in alloc; {"released": mask}),
        Mark::Dropped(code) => json!(in alloc; {"dropped": code.get()}),
    }
}

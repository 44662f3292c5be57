//! Samples as JSON.

ghost use Rattle.std.specs.Prelude.{◌≡◌, IfOk, map};
ghost use Rattle.std.specs.List.{All};
ghost use Rattle.serde_json.specs.View.{items_view, view};
ghost use Rattle.exploration_text.specs.ExplorationText.{IsSpellable};
ghost use Rattle.json_answers.specs.SampleData.{AreComingsData, IsComingData, IsSampleData, came_data, sample_data};

use crate::report_values::{fault_json, report_json};
use cell_registry::RunError;
use exploration_text::{Want, is_unwanted};
use outcome_trace::{Report, schedule_text};
use sampled_schedules::{Coming, Sample};
use serde_json::{Value, json};
use std::alloc::{AllocError, Global};

/// The value of a sample: the ends of its schedules, in the order in which they came first, the seed, and the number of
/// schedules. `AllocError` where memory ran out.
pub(crate) fn sample_json(
    alloc: Global,
    sample: &Sample,
    seed: u64,
    wants: &[Want],
) -> Result<Value, AllocError>
    requires { All (λ c. IsSpellable c.answer) sample.now.comings }
    ensures { IfOk result (λ value. IsSampleData wants.now seed sample.now (view value)) }
{
    let answers = coming_values(alloc, sample.comings.as_slice(), wants)?;
    sample_value(alloc, answers, seed, sample.schedules)
}

// The ends of schedules, the seed, and the number of schedules.
fn sample_value(
    alloc: Global,
    answers: Vec<Value>,
    seed: u64,
    times: u32,
) -> Result<Value, AllocError>
    ensures { IfOk result (λ value. view value ≡ sample_data (items_view answers.items) seed times) }
{
    let answers = Value::Array(answers);
    json!(in alloc; {"answer": "sample", "answers": answers, "seed": seed, "times": times})
}

// The values of the ends of schedules, in their order.
fn coming_values(
    alloc: Global,
    comings: &[Coming],
    wants: &[Want],
) -> Result<Vec<Value>, AllocError>
    requires { All (λ c. IsSpellable c.answer) comings.now }
    ensures { IfOk result (λ values. AreComingsData wants.now comings.now (map view values.items)) }
{
    let mut values = Vec::new(alloc);
    for coming in comings {
        let value = coming_value(alloc, coming, wants)?;
        values.push(value)?;
    }
    Ok(values)
}

// The value of an end of schedules.
fn coming_value(alloc: Global, coming: &Coming, wants: &[Want]) -> Result<Value, AllocError>
    requires { IsSpellable coming.now.answer }
    ensures { IfOk result (λ value. IsComingData wants.now coming.now (view value)) }
{
    let schedule = schedule_text(alloc, coming.answer.schedule.as_slice())?;
    came_value(
        alloc,
        coming.times,
        coming.cut,
        schedule.as_str(),
        !is_unwanted(coming, wants),
        &coming.answer.end,
    )
}

// A report or a fault, the number of its schedules, whether each of them was cut short, the first of them, and whether
// the end is wanted.
fn came_value(
    alloc: Global,
    times: u32,
    cut: bool,
    schedule: &str,
    wanted: bool,
    end: &Result<Report, RunError>,
) -> Result<Value, AllocError>
    ensures { IfOk result (λ value. view value ≡ came_data times cut schedule.now wanted end.now) }
{
    match end {
        Ok(report) => {
            let report = report_json(alloc, report)?;
            json!(in alloc; {
                "came": times, "cut": cut, "report": report, "schedule": schedule, "wanted": wanted
            })
        }
        Err(error) => {
            let fault = fault_json(alloc, *error)?;
            json!(in alloc; {
                "came": times, "cut": cut, "fault": fault, "schedule": schedule, "wanted": wanted
            })
        }
    }
}

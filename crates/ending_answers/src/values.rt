//! Decisions on fair schedules, as JSON.
ghost use Rattle.std.specs.Prelude.{◌≡◌, IfOk};
ghost use Rattle.std.specs.List.{All};
ghost use Rattle.serde_json.specs.View.{view};
ghost use Rattle.exploration_text.specs.ExplorationText.{IsSpellable};
ghost use Rattle.ending_answers.specs.Decisions.{IsShort, IsShortCycle};
ghost use Rattle.ending_answers.specs.DecidedData.{IsDecidedData, IsEndingData, cycle_data};

use crate::decided::Decided;
use every_schedule::{Cycle, Ending};
use exploration_text::Want;
use json_answers::exploration_json;
use outcome_trace::schedule_text;
use serde_json::{Value, json};
use std::alloc::{AllocError, Global};

/// An exploration as JSON, beside the decision on the fair schedules.
///
/// Each schedule has at most 1,000,000 entries, each at most 999. `AllocError` if memory ran out.
pub fn decided_json(alloc: Global, it: &Decided, wants: &[Want]) -> Result<Value, AllocError>
    requires answers { All IsSpellable it.now.exploration.answers }
    requires short { IsShort 1000000 it.now.ending }
    ensures { IfOk result (λ value. IsDecidedData wants.now it.now (view value)) }
{
    let fair = ending_value(alloc, &it.ending)?;
    let exploration = exploration_json(alloc, &it.exploration, wants)?;
    json!(in alloc; {"answer": "fair schedules", "exploration": exploration, "fair": fair})
}

// The decision.
fn ending_value(alloc: Global, ending: &Ending) -> Result<Value, AllocError>
    requires { IsShort 1000000 ending.now }
    ensures { IfOk result (λ value. IsEndingData ending.now (view value)) }
{
    match ending {
        Ending::Ends => json!(in alloc; "end"),
        Ending::Repeats(cycle) => cycle_value(alloc, cycle),
        Ending::Undecided => json!(in alloc; "undecided"),
    }
}

// A cycle that goes on for ever.
fn cycle_value(alloc: Global, cycle: &Cycle) -> Result<Value, AllocError>
    requires { IsShortCycle 1000000 cycle.now }
    ensures { IfOk result (λ value. IsEndingData (Ending.Repeats cycle.now) (view value)) }
{
    let stem = schedule_text(alloc, cycle.stem.as_slice())?;
    let again = schedule_text(alloc, cycle.cycle.as_slice())?;
    repeats_value(alloc, stem.as_str(), again.as_str())
}

// The same, from the texts of its schedules.
fn repeats_value(alloc: Global, stem: &str, again: &str) -> Result<Value, AllocError>
    ensures { IfOk result (λ value. view value ≡ cycle_data stem.now again.now) }
{
    json!(in alloc; {"again": again, "first": stem})
}

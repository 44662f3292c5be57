//! Explorations as JSON.

ghost use Rattle.std.specs.Prelude.{◌≡◌, IfOk, map};
ghost use Rattle.std.specs.List.{All};
ghost use Rattle.serde_json.specs.View.{items_view, view};
ghost use Rattle.exploration_text.specs.ExplorationText.{IsSpellable};
ghost use Rattle.json_answers.specs.ExplorationData.{IsAnswerData, IsExplorationData, IsPartData, exploration_data};
ghost use Rattle.json_answers.specs.ExplorationData.{found_data};

use crate::report_values::{fault_json, report_json};
use cell_registry::RunError;
use every_schedule::{Answer, Exploration};
use exploration_text::{Want, is_listed_so};
use outcome_trace::{Report, schedule_text};
use serde_json::{Value, json};
use std::alloc::{AllocError, Global};

/// The value of an exploration: its answers, those that aren't wanted first, whether they are all, and the number of
/// worlds. If they may not be all, also the number of bytes, and whether the time was over. `AllocError` where memory
/// ran out.
pub fn exploration_json(
    alloc: Global,
    exploration: &Exploration,
    wants: &[Want],
) -> Result<Value, AllocError>
    requires { All IsSpellable exploration.now.answers }
    ensures { IfOk result (λ value. IsExplorationData wants.now exploration.now (view value)) }
{
    let answers = exploration.answers.as_slice();
    let mut values = part_values(alloc, answers, wants, true)?;
    let mut others = part_values(alloc, answers, wants, false)?;
    values.append(&mut others)?;
    exploration_value(
        alloc,
        values,
        exploration.complete,
        exploration.halted,
        exploration.worlds,
        exploration.bytes,
    )
}

// Answers, whether they are all, and the number of worlds; if they may not be all, also the number of bytes, and
// whether the time was over.
fn exploration_value(
    alloc: Global,
    answers: Vec<Value>,
    complete: bool,
    halted: bool,
    worlds: usize,
    bytes: usize,
) -> Result<Value, AllocError>
    ensures { IfOk result (λ value. view value ≡ exploration_data (items_view answers.items) complete halted worlds
        bytes) }
{
    let answers = Value::Array(answers);
    if complete {
        json!(in alloc; {"answer": "exploration", "answers": answers, "complete": true, "worlds": worlds})
    } else if halted {
        json!(in alloc; {"answer": "exploration", "answers": answers, "bytes": bytes, "complete": false,
            "out_of_time": true, "worlds": worlds})
    } else {
        json!(in alloc; {"answer": "exploration", "answers": answers, "bytes": bytes, "complete": false,
            "worlds": worlds})
    }
}

// The answers that are listed as not wanted, or the others.
fn part_values(
    alloc: Global,
    answers: &[Answer],
    wants: &[Want],
    unwanted: bool,
) -> Result<Vec<Value>, AllocError>
    requires { All IsSpellable answers.now }
    ensures { IfOk result (λ values. IsPartData unwanted wants.now answers.now (map view values.items)) }
{
    let mut values = Vec::new(alloc);
    for answer in answers {
        if is_listed_so(answer, wants, unwanted) {
            let value = answer_value(alloc, answer, unwanted)?;
            values.push(value)?;
        }
    }
    Ok(values)
}

// The value of an answer; `unwanted` is whether the answer is listed as not wanted.
fn answer_value(alloc: Global, answer: &Answer, unwanted: bool) -> Result<Value, AllocError>
    requires { IsSpellable answer.now }
    ensures { IfOk result (λ value. IsAnswerData unwanted answer.now (view value)) }
{
    let schedule = schedule_text(alloc, answer.schedule.as_slice())?;
    found_value(alloc, schedule.as_str(), !unwanted, &answer.end)
}

// A report or a fault, its schedule, and whether it is wanted.
fn found_value(
    alloc: Global,
    schedule: &str,
    wanted: bool,
    end: &Result<Report, RunError>,
) -> Result<Value, AllocError>
    ensures { IfOk result (λ value. view value ≡ found_data schedule.now wanted end.now) }
{
    match end {
        Ok(report) => {
            let report = report_json(alloc, report)?;
            json!(in alloc; {"report": report, "schedule": schedule, "wanted": wanted})
        }
        Err(error) => {
            let fault = fault_json(alloc, *error)?;
            json!(in alloc; {"fault": fault, "schedule": schedule, "wanted": wanted})
        }
    }
}

//! Outcomes as JSON, with the says of the fibers or without marks.
ghost use Rattle.std.specs.Prelude.{◌≡◌, IfOk, map};
ghost use Rattle.std.specs.List.{All};
ghost use Rattle.serde_json.specs.View.{items_view, view};
ghost use Rattle.exploration_text.specs.ExplorationText.{IsSpellable};
ghost use Rattle.json_answers.specs.ReportData.{outcome_data};
ghost use Rattle.outcome_answers.specs.OutcomesData.{IsOutcomesData, IsShownData, IsShownPart, bare_fiber, bare_items};
ghost use Rattle.outcome_answers.specs.OutcomesData.{bare_report, marks_word, outcomes_data, shown_found};
ghost use Rattle.outcome_answers.specs.OutcomesData.{shown_report};

use cell_registry::RunError;
use effect_term::Outcome;
use every_schedule::{Answer, Exploration};
use exploration_text::{Want, is_listed_so};
use json_answers::{fault_json, report_json};
use outcome_trace::{FiberReport, Report, schedule_text};
use serde_json::{Value, json};
use std::alloc::{AllocError, Global};

/// An exploration as JSON, as `exploration_json` of `json_answers` writes it, but with a member for the marks of its
/// reports. If `says` is set, reports are written with their marks, which are says. Otherwise they are written without
/// marks.
///
/// Each schedule has at most 1,000,000 entries, each at most 999. `AllocError` if memory ran out.
pub fn outcomes_json(
    alloc: Global,
    exploration: &Exploration,
    wants: &[Want],
    says: bool,
) -> Result<Value, AllocError>
    requires { All IsSpellable exploration.now.answers }
    ensures { IfOk result (λ value. IsOutcomesData says wants.now exploration.now (view value)) }
{
    let answers = exploration.answers.as_slice();
    let mut values = part_values(alloc, answers, wants, true, says)?;
    let mut others = part_values(alloc, answers, wants, false, says)?;
    values.append(&mut others)?;
    outcomes_value(
        alloc,
        values,
        says,
        exploration.complete,
        exploration.halted,
        exploration.worlds,
        exploration.bytes,
    )
}

// Answers, whether they are all, which marks they have, and the number of worlds found. If there can be more answers:
// the number of bytes counted, and whether the time was over.
fn outcomes_value(
    alloc: Global,
    answers: Vec<Value>,
    says: bool,
    complete: bool,
    halted: bool,
    worlds: usize,
    bytes: usize,
) -> Result<Value, AllocError>
    ensures { IfOk result (λ value. view value ≡
        outcomes_data says (items_view answers.items) complete halted worlds bytes) }
{
    let answers = Value::Array(answers);
    let marks = marks_word(says);
    if complete {
        json!(in alloc; {"answer": "exploration", "answers": answers, "complete": true, "marks": marks,
            "worlds": worlds})
    } else if halted {
        json!(in alloc; {"answer": "exploration", "answers": answers, "bytes": bytes, "complete": false,
            "marks": marks, "out_of_time": true, "worlds": worlds})
    } else {
        json!(in alloc; {"answer": "exploration", "answers": answers, "bytes": bytes, "complete": false,
            "marks": marks, "worlds": worlds})
    }
}

// Which marks reports have, as `--marks` spells it.
fn marks_word(says: bool) -> &'static str
    ensures { result.now ≡ marks_word says }
{
    if says { "say" } else { "none" }
}

// The answers that are listed as not wanted, or the other answers.
fn part_values(
    alloc: Global,
    answers: &[Answer],
    wants: &[Want],
    unwanted: bool,
    says: bool,
) -> Result<Vec<Value>, AllocError>
    requires { All IsSpellable answers.now }
    ensures { IfOk result (λ values. IsShownPart says unwanted wants.now answers.now (map view values.items)) }
{
    let mut values = Vec::new(alloc);
    for answer in answers {
        if is_listed_so(answer, wants, unwanted) {
            let value = answer_value(alloc, answer, unwanted, says)?;
            values.push(value)?;
        }
    }
    Ok(values)
}

// An answer that is listed as not wanted, or among the others.
fn answer_value(
    alloc: Global,
    answer: &Answer,
    unwanted: bool,
    says: bool,
) -> Result<Value, AllocError>
    requires { IsSpellable answer.now }
    ensures { IfOk result (λ value. IsShownData says unwanted answer.now (view value)) }
{
    let schedule = schedule_text(alloc, answer.schedule.as_slice())?;
    found_value(alloc, schedule.as_str(), !unwanted, &answer.end, says)
}

// A report or a fault, its schedule, and whether it is wanted.
fn found_value(
    alloc: Global,
    schedule: &str,
    wanted: bool,
    end: &Result<Report, RunError>,
    says: bool,
) -> Result<Value, AllocError>
    ensures { IfOk result (λ value. view value ≡ shown_found says schedule.now wanted end.now) }
{
    match end {
        Ok(report) => {
            let report = report_value(alloc, report, says)?;
            json!(in alloc; {"report": report, "schedule": schedule, "wanted": wanted})
        }
        Err(error) => {
            let fault = fault_json(alloc, *error)?;
            json!(in alloc; {"fault": fault, "schedule": schedule, "wanted": wanted})
        }
    }
}

// A report with its marks if `says` is set, else without marks.
fn report_value(alloc: Global, report: &Report, says: bool) -> Result<Value, AllocError>
    ensures { IfOk result (λ value. view value ≡ shown_report says report.now.fibers) }
{
    if says {
        report_json(alloc, report)
    } else {
        bare_value(alloc, report)
    }
}

// A report without marks: the number and the outcome of each fiber.
fn bare_value(alloc: Global, report: &Report) -> Result<Value, AllocError>
    ensures { IfOk result (λ value. view value ≡ bare_report report.now.fibers) }
{
    let fibers = fiber_values(alloc, report.fibers.as_slice())?;
    let fibers = Value::Array(fibers);
    json!(in alloc; {"answer": "report", "fibers": fibers})
}

// The fibers of a report, in the order of their numbers.
fn fiber_values(alloc: Global, fibers: &[FiberReport]) -> Result<Vec<Value>, AllocError>
    ensures { IfOk result (λ values. items_view values.items ≡ bare_items 0 fibers.now) }
{
    let mut values = Vec::new(alloc);
    for fiber in fibers {
        let value = fiber_value(alloc, values.len(), fiber.outcome)?;
        values.push(value)?;
    }
    Ok(values)
}

// A fiber: its number and its outcome.
fn fiber_value(alloc: Global, number: usize, outcome: Option<Outcome>) -> Result<Value, AllocError>
    ensures { IfOk result (λ value. view value ≡ bare_fiber number outcome) }
{
    let outcome = outcome_value(alloc, outcome)?;
    json!(in alloc; {"fiber": number, "outcome": outcome})
}

// How a fiber ended, or that it hasn't ended.
fn outcome_value(alloc: Global, outcome: Option<Outcome>) -> Result<Value, AllocError>
    ensures { IfOk result (λ value. view value ≡ outcome_data outcome) }
{
    let Some(ended) = outcome else {
        return json!(in alloc; "unended");
    };
    match ended {
        Outcome::Succeeded(value) => json!(in alloc; {"succeeded": value.get()}),
        Outcome::Errored(code) => json!(in alloc; {"errored": code.get()}),
        Outcome::Canceled => json!(in alloc; "canceled"),
    }
}

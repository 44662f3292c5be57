//! Comparisons as JSON.
ghost use Rattle.std.specs.Prelude.{◌≡◌, ◌<◌, ℕ, IfOk, codes, length};
ghost use Rattle.std.specs.List.{All};
ghost use Rattle.serde_json.specs.View.{view};
ghost use Rattle.exploration_text.specs.ExplorationText.{IsSpellable};
ghost use Rattle.compared_ends.specs.declared.comparison.Extra.TheVariants.{Answer as TheAnswer};
ghost use Rattle.comparison_answers.specs.ComparisonData.{IsComparisonData, IsExtraData, end_data, refused_data};
ghost use Rattle.comparison_answers.specs.ComparisonData.{side_data};

use crate::texts::verdict;
use cell_registry::RunError;
use compared_ends::{Comparison, Extra};
use every_schedule::{Answer, Exploration};
use json_answers::{fault_json, report_json};
use outcome_trace::{Report, schedule_text};
use serde_json::{Value, json};
use std::alloc::{AllocError, Global};

/// A comparison as JSON: the verdict, and for each program whether all of it was explored, the ends that only it has,
/// and the number of worlds found.
///
/// An extra end is that of one of the answers. Each schedule has at most 1,000,000 entries, each at most 999. Returns
/// `AllocError` if memory ran out.
pub fn comparison_json(alloc: Global, it: &Comparison) -> Result<Value, AllocError>
    requires first { All IsSpellable it.now.first.answers }
    requires second { All IsSpellable it.now.second.answers }
    requires first_within { (i : ℕ) → it.now.first_extra ≡ TheAnswer i → i < length it.now.first.answers }
    requires second_within { (i : ℕ) → it.now.second_extra ≡ TheAnswer i → i < length it.now.second.answers }
    ensures { IfOk result (λ value. IsComparisonData it.now (view value)) }
{
    let one = extra_value(alloc, it.first.answers.as_slice(), it.first_extra)?;
    let other = extra_value(alloc, it.second.answers.as_slice(), it.second_extra)?;
    let first = side_value(alloc, &it.first, one)?;
    let second = side_value(alloc, &it.second, other)?;
    let verdict = verdict(it.first_extra, it.second_extra);
    json!(in alloc; {"answer": "comparison", "first": first, "second": second, "verdict": verdict})
}

// One of the programs, with the ends that only it has.
fn side_value(alloc: Global, exploration: &Exploration, alone: Value) -> Result<Value, AllocError>
    ensures { IfOk result (λ value. view value ≡ side_data exploration.now (view alone)) }
{
    let complete = exploration.complete;
    let worlds = exploration.worlds;
    json!(in alloc; {"alone": alone, "complete": complete, "worlds": worlds})
}

// The ends that only one program has.
fn extra_value(alloc: Global, answers: &[Answer], extra: Extra) -> Result<Value, AllocError>
    requires spellable { All IsSpellable answers.now }
    requires within { (i : ℕ) → extra ≡ TheAnswer i → i < length answers.now }
    ensures { IfOk result (λ value. IsExtraData answers.now extra (view value)) }
{
    match extra {
        Extra::Answer(index) => {
            let answer = &answers[index];
            let schedule = schedule_text(alloc, answer.schedule.as_slice())?;
            end_value(alloc, schedule.as_str(), &answer.end)
        }
        Extra::Nothing => json!(in alloc; "nothing"),
        Extra::Undecided => json!(in alloc; "undecided"),
    }
}

// A report or a fault, and its schedule.
fn end_value(
    alloc: Global,
    schedule: &str,
    end: &Result<Report, RunError>,
) -> Result<Value, AllocError>
    ensures { IfOk result (λ value. view value ≡ end_data schedule.now end.now) }
{
    match end {
        Ok(report) => {
            let report = report_json(alloc, report)?;
            json!(in alloc; {"report": report, "schedule": schedule})
        }
        Err(error) => {
            let fault = fault_json(alloc, *error)?;
            json!(in alloc; {"fault": fault, "schedule": schedule})
        }
    }
}

/// The refusal of the first of two texts.
pub(crate) fn first_refused(alloc: Global, refusal: Value) -> Result<Value, AllocError>
    ensures { IfOk result (λ value. view value ≡ refused_data (codes "first") (view refusal)) }
{
    json!(in alloc; {"answer": "refused", "first": refusal})
}

/// The refusal of the second of two texts.
pub(crate) fn second_refused(alloc: Global, refusal: Value) -> Result<Value, AllocError>
    ensures { IfOk result (λ value. view value ≡ refused_data (codes "second") (view refusal)) }
{
    json!(in alloc; {"answer": "refused", "second": refusal})
}

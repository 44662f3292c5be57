//! An order that explores a program until a finding, answered in JSON.

ghost use Rattle.std.specs.Prelude.{◌≡◌, IfOk};
ghost use Rattle.serde_json.specs.View.{view};
ghost use Rattle.exploration_text.specs.ExplorationText.{IsSpellable};
ghost use Rattle.json_answers.specs.FindingData.{IsFindingData, IsJsonFirstAnswer, IsLineBehind, finding_data, source_name};

use crate::exploration_values::exploration_json;
use crate::refusals::InJson;
use crate::report_values::{fault_json, report_json};
use crate::values::value_answer;
use cell_registry::RunError;
use effect_term::Program;
use every_schedule::Watcher;
use exploration_text::{
    ExploreOrder, Finding, FindingForm, First, NotedAnswer, WatchedOrder, exploration_status,
    first_finding, missing_of_exploration,
};
use outcome_trace::{Report, Status, schedule_text};
use serde_json::{Value, json};
use std::alloc::{AllocError, Global};

/// Answers a text in JSON as `FirstOrder` does in words, with the same status: by the first finding of its program, or
/// else by the exploration, or by the text's refusal.
#[derive(Drop)]
pub struct FirstJson {
    /// The limits, the bounds and the wanted outcomes.
    pub order: ExploreOrder,
}

impl WatchedOrder for FirstJson {
    type Refusals = InJson;

    ghost finds = { λ it timed note t.
        IsJsonFirstAnswer t it.order.limits it.order.bounds timed it.order.wants.items note };

    fn answer_watched<V: Watcher>(
        &self,
        alloc: Global,
        program: &Program,
        watcher: &mut V,
    ) -> Result<NotedAnswer, AllocError> {
        let wants = self.order.wants.as_slice();
        match first_finding(alloc, program, &self.order, watcher)? {
            First::Found(finding) => {
                let value = finding_json(alloc, &finding)?;
                Ok(NotedAnswer {
                    answer: value_answer(alloc, &value, Status::Errored)?,
                    note: Vec::new(alloc),
                })
            }
            First::Explored(exploration) => {
                let value = exploration_json(alloc, &exploration, wants)?;
                let status = exploration_status(&exploration, wants);
                Ok(NotedAnswer {
                    answer: value_answer(alloc, &value, status)?,
                    note: missing_of_exploration(alloc, &exploration, wants)?,
                })
            }
        }
    }
}

impl FindingForm for InJson {
    ghost tells = { IsLineBehind };

    fn finding_text(alloc: Global, finding: &Finding) -> Result<Vec<u8>, AllocError> {
        let value = finding_json(alloc, finding)?;
        Ok(value_answer(alloc, &value, Status::Errored)?.text)
    }
}

// A finding: its report or fault, its schedule, whether it is final, and how it was found.
fn finding_json(alloc: Global, finding: &Finding) -> Result<Value, AllocError>
    requires { IsSpellable finding.now.answer }
    ensures { IfOk result (λ value. IsFindingData finding.now (view value)) }
{
    let schedule = schedule_text(alloc, finding.answer.schedule.as_slice())?;
    finding_value(
        alloc,
        schedule.as_str(),
        finding.drawn,
        finding.last,
        &finding.answer.end,
    )
}

// The value of a finding under the schedule of this text.
fn finding_value(
    alloc: Global,
    schedule: &str,
    drawn: bool,
    last: bool,
    end: &Result<Report, RunError>,
) -> Result<Value, AllocError>
    ensures { IfOk result (λ value. view value ≡ finding_data schedule.now drawn last end.now) }
{
    let source = source_name(drawn);
    match end {
        Ok(report) => {
            let report = report_json(alloc, report)?;
            json!(in alloc; {"answer": "finding", "final": last, "found": source, "report": report,
                "schedule": schedule})
        }
        Err(error) => {
            let fault = fault_json(alloc, *error)?;
            json!(in alloc; {"answer": "finding", "fault": fault, "final": last, "found": source,
                "schedule": schedule})
        }
    }
}

// How a finding was found.
fn source_name(drawn: bool) -> &'static str
    ensures { result.now ≡ source_name drawn }
{
    if drawn { "random" } else { "search" }
}

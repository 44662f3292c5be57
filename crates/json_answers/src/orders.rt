//! Orders that are answered in JSON.

ghost use Rattle.std.specs.Prelude.{◌≡◌, ◌≢◌, IfOk, OnOk};
ghost use Rattle.cell_registry.specs.Cells.{AreLimits};
ghost use Rattle.outcome_trace.specs.ReplayAnswers.{report_status};
ghost use Rattle.json_answers.specs.Answers.{IsJsonCounts, IsJsonRun};
ghost use Rattle.json_answers.specs.ReportData.{fault_data, line_of_data, report_data};

use crate::refusals::{InJson, program_value};
use crate::report_values::{fault_json, report_json};
use crate::values::value_answer;
use cell_registry::{Limits, RunError};
use effect_term::Program;
use outcome_trace::{Answer, ProgramOrder, Report, Status, replay, report_status};
use std::alloc::{AllocError, Global};

/// Answers a text in JSON as `CheckOrder` does in words, with the same status: by the counts of its program, or by the
/// text's refusal.
#[derive(Clone, Copy)]
pub struct CheckJson;

impl ProgramOrder for CheckJson {
    type Refusals = InJson;

    ghost comes = { λ _. IsJsonCounts };

    fn answer_program(&self, alloc: Global, program: &Program) -> Result<Answer, AllocError> {
        let value = program_value(alloc, program.term())?;
        value_answer(alloc, &value, Status::Succeeded)
    }
}

/// Answers a text in JSON as `ReplayOrder` does in words, with the same status: by the report or the fault of its
/// program under a schedule, or by the text's refusal.
#[derive(Clone, Copy)]
pub struct ReplayJson<'a> {
    /// The entries of the schedule: the fibers that move, in order.
    pub schedule: &'a [u16],
    /// The greatest numbers of fibers, refs and deferreds (each 1 to 1000), and of a fiber's changes of its own state
    /// (1 to 1,099,511,627,775).
    pub limits: Limits,
    pub ghost ranges: { AreLimits limits },
}

impl ProgramOrder for ReplayJson<'_> {
    type Refusals = InJson;

    ghost comes = { λ order t. IsJsonRun t order.schedule.now order.limits };

    fn answer_program(&self, alloc: Global, program: &Program) -> Result<Answer, AllocError> {
        match replay(alloc, program, self.schedule, self.limits) {
            Ok(report) => report_json_answer(alloc, &report),
            Err(error) => fault_answer(alloc, error),
        }
    }
}

// The answer to a run that ended with a fault. `AllocError` if memory ran out.
fn fault_answer(alloc: Global, error: RunError) -> Result<Answer, AllocError>
    ensures line { IfOk result (λ a. a.text.items ≡ line_of_data (fault_data error)) }
    ensures status { IfOk result (λ a. a.status ≡ Status.Fault) }
    ensures memory { OnOk result (error ≢ RunError.NoMemory) }
{
    match error {
        RunError::NoMemory => Err(AllocError),
        error => fault_json_answer(alloc, error),
    }
}

/// The answer to a run that ended with a report, as `report_answer` is in words: the value of the report, with the
/// status of fiber 0's end. `AllocError` where memory ran out.
pub fn report_json_answer(alloc: Global, report: &Report) -> Result<Answer, AllocError>
    ensures line { IfOk result (λ a. a.text.items ≡ line_of_data (report_data report.now.fibers)) }
    ensures status { IfOk result (λ a. a.status ≡ report_status report.now.fibers) }
{
    let value = report_json(alloc, report)?;
    value_answer(alloc, &value, report_status(report))
}

/// The answer to a run that ended with a fault: the value of the fault, with `Status::Fault`. `AllocError` where memory
/// for the answer ran out.
pub fn fault_json_answer(alloc: Global, error: RunError) -> Result<Answer, AllocError>
    ensures line { IfOk result (λ a. a.text.items ≡ line_of_data (fault_data error)) }
    ensures status { IfOk result (λ a. a.status ≡ Status.Fault) }
{
    let value = fault_json(alloc, error)?;
    value_answer(alloc, &value, Status::Fault)
}

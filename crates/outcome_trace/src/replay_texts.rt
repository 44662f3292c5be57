//! The result of a text under a schedule: the report of its program, or why there is none.

ghost use Rattle.std.specs.Prelude.{◌≡◌, ◌≢◌, ◌<◌, ◌^◌, false, IfOk, OnOk};
ghost use Rattle.cell_registry.specs.Cells.{AreLimits};
ghost use Rattle.text_io.specs.Exchange.{IsAnswered};
ghost use Rattle.outcome_trace.specs.Lines.{run_line};
ghost use Rattle.outcome_trace.specs.ReplayAnswers.{IsReplayAnswer, IsRunAnswer, report_status};
ghost use Rattle.outcome_trace.specs.ReportText.{text_of_fibers};

use crate::lines::{Refused, line};
use crate::program_orders::{InWords, ProgramOrder};
use crate::report_text::text_of_report;
use crate::text_order::{Answer, answer_text};
use cell_registry::{Limits, RunError};
use effect_term::{Outcome, Program};
use scheduled_core::{Report, replay};
use std::alloc::{AllocError, Global};
use text_io::{Status, TextFault, TextIn, TextOut};

/// The exit status after this report: that of fiber 0's outcome, or `Status::Unended` if it has none.
pub fn report_status(report: &Report) -> Status
    ensures { result ≡ report_status report.now.fibers }
{
    let Some(first) = report.fibers.as_slice().first() else {
        return Status::Unended;
    };
    match first.outcome {
        Some(Outcome::Succeeded(_)) => Status::Succeeded,
        Some(Outcome::Errored(_)) => Status::Errored,
        Some(Outcome::Canceled) => Status::Canceled,
        None => Status::Unended,
    }
}

/// The answer to a run with a report: the report's text, with the status of fiber 0's outcome. Returns `AllocError` if
/// memory ran out.
pub fn report_answer(alloc: Global, report: &Report) -> Result<Answer, AllocError>
    ensures line { IfOk result (λ a. a.text.items ≡ text_of_fibers report.now.fibers) }
    ensures status { IfOk result (λ a. a.status ≡ report_status report.now.fibers) }
{
    let text = text_of_report(alloc, report)?;
    Ok(Answer {
        text: text.into_bytes(),
        status: report_status(report),
    })
}

// The answer to a run with a fault. Running out of memory has no answer.
fn fault_answer(alloc: Global, error: RunError) -> Result<Answer, AllocError>
    ensures line { IfOk result (λ a. a.text.items ≡ run_line error) }
    ensures status { IfOk result (λ a. a.status ≡ Status.Fault) }
    ensures memory { OnOk result (error ≢ RunError.NoMemory) }
{
    match error {
        RunError::NoMemory => Err(AllocError),
        error => Ok(Answer {
            text: line(alloc, &Refused::Run(error))?,
            status: Status::Fault,
        }),
    }
}

/// Answers a text under a schedule: the report of the program that it spells, with the status of fiber 0's outcome, or
/// the line of the text's refusal, with `Status::Refused`, or of the run's fault, with `Status::Fault`.
#[derive(Clone, Copy, Debug)]
pub struct ReplayOrder<'a> {
    /// The fiber that moves next, from the first entry on.
    pub schedule: &'a [u16],
    /// The numbers of fibers, refs and deferreds (each 1 to 1000), and how often a fiber can change its own cell (1 to
    /// 1,099,511,627,775).
    pub limits: Limits,
    pub ghost ranges: { AreLimits limits },
}

impl ProgramOrder for ReplayOrder<'_> {
    type Refusals = InWords;

    ghost comes = { λ order t. IsRunAnswer t order.schedule.now order.limits };

    fn answer_program(&self, alloc: Global, program: &Program) -> Result<Answer, AllocError> {
        match replay(alloc, program, self.schedule, self.limits) {
            Ok(report) => report_answer(alloc, &report),
            Err(error) => fault_answer(alloc, error),
        }
    }
}

/// Reads a text, and writes the result of its program under the schedule ([`ReplayOrder`]), as [`answer_text`] does.
pub fn replay_text<I: TextIn, O: TextOut>(
    alloc: Global,
    input: &mut I,
    schedule: &[u16],
    limits: Limits,
    out: &mut O,
) -> Result<Status, TextFault>
    requires input { (I.seen input.old).failed ≡ false }
    requires countable { (I.seen input.old).reads < 2 ^ 63 }
    requires out { (O.seen out.old).failed ≡ false }
    requires limits { AreLimits limits }
    ensures { IsAnswered (IsReplayAnswer schedule.now limits) (I.seen input.old) (I.seen input.new) (O.seen out.old)
        (O.seen out.new) result }
{
    answer_text(alloc, &ReplayOrder { schedule, limits }, input, out)
}

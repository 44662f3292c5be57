//! The answer to a text under a schedule, with a timeline.

ghost use Rattle.std.specs.Prelude.{◌≡◌, ◌++◌, ◌∷◌, IfOk, OnOk};
ghost use Rattle.cell_registry.specs.Cells.{AreLimits};
ghost use Rattle.timelines.specs.TimelineAnswers.{IsToldAnswer, end_status, end_text};

use crate::timeline_rows::timeline;
use cell_registry::{Limits, RunError};
use effect_term::Program;
use fiber_events::replay_events;
use outcome_trace::{Answer, InWords, ProgramOrder, Refused, Report, Status, line, report_answer};
use std::alloc::{AllocError, Global};

/// Answers a text under a schedule: the answer of `ReplayOrder` of `outcome_trace`, then a blank line and the timeline
/// ([`timeline`]), with the same status. A refused text is answered only by the line of its refusal, with
/// `Status::Refused`.
#[derive(Clone, Copy, Debug)]
pub struct TimelineOrder<'a> {
    /// The number of the fiber that moves, for each entry.
    pub schedule: &'a [u16],
    /// The numbers of fibers, refs and deferreds (each 1 to 1000), and how often a fiber can change its own cell (1 to
    /// 1,099,511,627,775).
    pub limits: Limits,
    pub ghost ranges: { AreLimits limits },
}

impl ProgramOrder for TimelineOrder<'_> {
    type Refusals = InWords;

    ghost comes = { λ order t. IsToldAnswer t order.schedule.now order.limits };

    fn answer_program(&self, alloc: Global, program: &Program) -> Result<Answer, AllocError> {
        let told = replay_events(alloc, program, self.schedule, self.limits)?;
        let front = end_answer(alloc, &told.end)?;
        let rows = timeline(alloc, &told)?;
        with_rows(front, rows.as_bytes())
    }
}

// An answer followed by a blank line and a timeline.
fn with_rows(front: Answer, rows: &[u8]) -> Result<Answer, AllocError>
    ensures text { IfOk result (λ a. a.text.items ≡ front.text.items ++ 10 ∷ rows.now) }
    ensures status { IfOk result (λ a. a.status ≡ front.status) }
{
    let Answer { mut text, status } = front;
    push_rows(&mut text, rows)?;
    Ok(Answer { text, status })
}

/// Appends a blank line and a timeline to a text.
pub(crate) fn push_rows(text: &mut Vec<u8>, rows: &[u8]) -> Result<(), AllocError>
    ensures { OnOk result (text.new.items ≡ text.old.items ++ 10 ∷ rows.now) }
{
    text.push(b'\n')?;
    text.extend_from_slice(rows)
}

// The text of a report, or the line of a fault.
fn end_answer(alloc: Global, end: &Result<Report, RunError>) -> Result<Answer, AllocError>
    ensures text { IfOk result (λ a. a.text.items ≡ end_text end.now) }
    ensures status { IfOk result (λ a. a.status ≡ end_status end.now) }
{
    match end {
        Ok(report) => report_answer(alloc, report),
        Err(error) => Ok(Answer {
            text: line(alloc, &Refused::Run(*error))?,
            status: Status::Fault,
        }),
    }
}

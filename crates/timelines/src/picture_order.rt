//! The answer to a text under a schedule, as a picture.

ghost use Rattle.cell_registry.specs.Cells.{AreLimits};
ghost use Rattle.timelines.specs.PictureAnswers.{IsPicturedAnswer};

use crate::drawing::picture;
use cell_registry::Limits;
use effect_term::Program;
use fiber_events::replay_events;
use outcome_trace::{Answer, InWords, ProgramOrder, Refused, Status, line, report_status};
use std::alloc::{AllocError, Global};

/// Answers a text under a schedule with a picture ([`picture`]) of what its program does, in place of the report, and
/// with the report's status. If there is no report, it answers as `ReplayOrder` of `outcome_trace` does: with the line
/// of the text's refusal, with `Status::Refused`, or of the run's fault, with `Status::Fault`.
#[derive(Clone, Copy, Debug)]
pub struct PictureOrder<'a> {
    /// The number of the fiber that moves, for each entry.
    pub schedule: &'a [u16],
    /// The numbers of fibers, refs and deferreds (each 1 to 1000), and how often a fiber can change its own cell (1 to
    /// 1,099,511,627,775).
    pub limits: Limits,
    pub ghost ranges: { AreLimits limits },
}

impl ProgramOrder for PictureOrder<'_> {
    type Refusals = InWords;

    ghost comes = { λ order t. IsPicturedAnswer t order.schedule.now order.limits };

    fn answer_program(&self, alloc: Global, program: &Program) -> Result<Answer, AllocError> {
        let told = replay_events(alloc, program, self.schedule, self.limits)?;
        match &told.end {
            Ok(report) => Ok(Answer {
                text: picture(alloc, &told)?.into_bytes(),
                status: report_status(report),
            }),
            Err(error) => Ok(Answer {
                text: line(alloc, &Refused::Run(*error))?,
                status: Status::Fault,
            }),
        }
    }
}

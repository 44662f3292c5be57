//! The answer to a text whose program's schedules are sampled.

ghost use Rattle.std.specs.Prelude.{◌≤◌, IfOk};
ghost use Rattle.cell_registry.specs.Cells.{AreLimits};
ghost use Rattle.exploration_text.specs.SampleAnswers.{IsNotedSample, IsSampleAnswer, IsSampledAnswer};

use crate::missing::missing_of_sample;
use crate::noted::{NotedAnswer, NotedOrder};
use crate::samples::{sample_status, text_of_sample};
use crate::wants::Want;
use cell_registry::Limits;
use effect_term::Program;
use outcome_trace::{Answer, InWords, TextOrder, read_program, refusal};
use sampled_schedules::sample;
use std::alloc::{AllocError, Global};

/// Answers a text by a sample of random schedules of its program ([`text_of_sample`]), with the status of
/// [`sample_status`], or by the line of the text's refusal, with `Status::Refused`.
#[derive(Drop)]
pub struct SampleOrder {
    /// The greatest numbers of fibers, refs and deferreds (each 1 to 1000), and of a fiber's changes of its own state
    /// (1 to 1,099,511,627,775).
    pub limits: Limits,
    /// The seed of the random schedules. The same seed draws the same schedules.
    pub seed: u64,
    /// The number of schedules that are drawn.
    pub times: u32,
    /// The greatest number of entries of a schedule (0 to 1,000,000).
    pub entries: u32,
    /// The outcomes of fiber 0 that are wanted; empty if any outcome is.
    pub wants: Vec<Want>,
    pub ghost ranges: { AreLimits limits },
    pub ghost spelled: { entries ≤ 1000000 },
}

impl TextOrder for SampleOrder {
    ghost answers = { λ order. IsSampleAnswer order.limits order.times order.entries order.wants.items };

    fn answer(&self, alloc: Global, text: &[u8]) -> Result<Answer, AllocError> {
        match read_program(alloc, text) {
            Ok(program) => sampled_answer(alloc, &program, self),
            Err(refused) => refusal(alloc, refused),
        }
    }
}

impl NotedOrder for SampleOrder {
    type Refusals = InWords;

    ghost notes = { λ order note t. IsNotedSample t order.limits order.times order.entries order.wants.items note };

    fn noted_answer(&self, alloc: Global, program: &Program) -> Result<NotedAnswer, AllocError> {
        let Ok(found) = sample(
            alloc,
            program,
            self.limits,
            self.seed,
            self.times,
            self.entries,
        ) else {
            return Err(AllocError);
        };
        let wants = self.wants.as_slice();
        Ok(NotedAnswer {
            note: missing_of_sample(alloc, &found, wants)?,
            answer: Answer {
                text: text_of_sample(alloc, &found, wants)?,
                status: sample_status(&found, wants),
            },
        })
    }
}

// The answer to a program, by a sample of its schedules.
fn sampled_answer(
    alloc: Global,
    program: &Program,
    order: &SampleOrder,
) -> Result<Answer, AllocError>
    ensures { IfOk result (λ a. IsSampledAnswer program.now order.now.limits order.now.times order.now.entries
        order.now.wants.items a.text.items a.status) }
{
    Ok(order.noted_answer(alloc, program)?.answer)
}

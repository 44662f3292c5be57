//! An order that samples a program's schedules, answered in JSON.

ghost use Rattle.std.specs.Prelude.{IfOk};
ghost use Rattle.json_answers.specs.FoundAnswers.{IsJsonSample, IsJsonSampled, IsNotedJsonSample};

use crate::refusals::{InJson, refusal_answer};
use crate::sample_values::sample_json;
use crate::values::value_answer;
use effect_term::Program;
use exploration_text::{NotedAnswer, NotedOrder, SampleOrder, missing_of_sample, sample_status};
use outcome_trace::{Answer, TextOrder, read_program};
use sampled_schedules::sample;
use std::alloc::{AllocError, Global};

/// Answers a text in JSON as `SampleOrder` does in words, with the same status: by a sample of random schedules of its
/// program, with the seed, or by the text's refusal.
#[derive(Drop)]
pub struct SampleJson {
    /// The limits, the seed, the number and length of schedules, and the wanted outcomes.
    pub order: SampleOrder,
}

impl TextOrder for SampleJson {
    ghost answers = { λ it. IsJsonSample it.order.limits it.order.seed it.order.times it.order.entries
        it.order.wants.items };

    fn answer(&self, alloc: Global, text: &[u8]) -> Result<Answer, AllocError> {
        match read_program(alloc, text) {
            Ok(program) => sampled_answer(alloc, &program, self),
            Err(refused) => refusal_answer(alloc, text, refused),
        }
    }
}

impl NotedOrder for SampleJson {
    type Refusals = InJson;

    ghost notes = { λ it note t. IsNotedJsonSample t it.order.limits it.order.seed it.order.times it.order.entries
        it.order.wants.items note };

    fn noted_answer(&self, alloc: Global, program: &Program) -> Result<NotedAnswer, AllocError> {
        let order = &self.order;
        let Ok(found) = sample(
            alloc,
            program,
            order.limits,
            order.seed,
            order.times,
            order.entries,
        ) else {
            return Err(AllocError);
        };
        let wants = order.wants.as_slice();
        let value = sample_json(alloc, &found, order.seed, wants)?;
        Ok(NotedAnswer {
            note: missing_of_sample(alloc, &found, wants)?,
            answer: value_answer(alloc, &value, sample_status(&found, wants))?,
        })
    }
}

// The answer to a program, by a sample of its schedules.
fn sampled_answer(
    alloc: Global,
    program: &Program,
    sampling: &SampleJson,
) -> Result<Answer, AllocError>
    ensures { IfOk result (let order = sampling.now.order in λ a. IsJsonSampled program.now order.limits order.seed
        order.times order.entries order.wants.items a.text.items a.status) }
{
    Ok(sampling.noted_answer(alloc, program)?.answer)
}

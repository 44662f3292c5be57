//! Orders to explore a text's program, and to decide whether every fair schedule of it ends.
ghost use Rattle.std.specs.Prelude.{true, false};
ghost use Rattle.ending_answers.specs.DecidedAnswers.{IsDecidedAnswer};

use crate::decided::decide;
use crate::texts::{decided_status, text_of_decided};
use crate::values::decided_json;
use effect_term::Program;
use every_schedule::Watcher;
use exploration_text::{ExploreOrder, NotedAnswer, WatchedOrder, missing_of_exploration};
use json_answers::{InJson, value_answer};
use outcome_trace::{Answer, InWords};
use std::alloc::{AllocError, Global};

/// Answers with the exploration of [`ExploreOrder`], and then with whether every fair schedule ends
/// ([`text_of_decided`]). The status is that of [`decided_status`]. A refused text is answered by the line of its
/// refusal, with `Status::Refused`.
#[derive(Drop)]
pub struct EndsOrder {
    /// The limits, the bounds and the wanted outcomes.
    pub order: ExploreOrder,
}

impl WatchedOrder for EndsOrder {
    type Refusals = InWords;

    ghost finds = { λ it timed note t.
        IsDecidedAnswer false t it.order.limits it.order.bounds timed it.order.wants.items note };

    fn answer_watched<V: Watcher>(
        &self,
        alloc: Global,
        program: &Program,
        watcher: &mut V,
    ) -> Result<NotedAnswer, AllocError> {
        let decided = decide(alloc, program, &self.order, watcher)?;
        let wants = self.order.wants.as_slice();
        let note = missing_of_exploration(alloc, &decided.exploration, wants)?;
        let text = text_of_decided(alloc, &decided, wants)?;
        let status = decided_status(&decided, wants);
        Ok(NotedAnswer {
            answer: Answer { text, status },
            note,
        })
    }
}

/// Answers in JSON as [`EndsOrder`] does in words, with the same status.
#[derive(Drop)]
pub struct EndsJson {
    /// The limits, the bounds and the wanted outcomes.
    pub order: ExploreOrder,
}

impl WatchedOrder for EndsJson {
    type Refusals = InJson;

    ghost finds = { λ it timed note t.
        IsDecidedAnswer true t it.order.limits it.order.bounds timed it.order.wants.items note };

    fn answer_watched<V: Watcher>(
        &self,
        alloc: Global,
        program: &Program,
        watcher: &mut V,
    ) -> Result<NotedAnswer, AllocError> {
        let decided = decide(alloc, program, &self.order, watcher)?;
        let wants = self.order.wants.as_slice();
        let note = missing_of_exploration(alloc, &decided.exploration, wants)?;
        let value = decided_json(alloc, &decided, wants)?;
        let answer = value_answer(alloc, &value, decided_status(&decided, wants))?;
        Ok(NotedAnswer { answer, note })
    }
}

//! An order that explores a program, answered in JSON.

ghost use Rattle.std.specs.Prelude.{false};
ghost use Rattle.json_answers.specs.FoundAnswers.{IsJsonExplored, IsNotedJsonExplored};

use crate::exploration_values::exploration_json;
use crate::refusals::InJson;
use crate::values::value_answer;
use effect_term::Program;
use every_schedule::{Unwatched, Watcher, explore_watched};
use exploration_text::{
    ExploreOrder, NotedAnswer, SearchOrder, WatchedOrder, exploration_status,
    missing_of_exploration,
};
use outcome_trace::{Answer, ProgramOrder};
use std::alloc::{AllocError, Global};

/// Answers a text in JSON as `ExploreOrder` does in words, with the same status: by the exploration of its program
/// under every schedule, or by the text's refusal.
#[derive(Drop)]
pub struct ExploreJson {
    /// The limits, the bounds and the wanted outcomes.
    pub order: ExploreOrder,
}

impl WatchedOrder for ExploreJson {
    type Refusals = InJson;

    ghost finds = { λ it timed note t.
        IsNotedJsonExplored t it.order.limits it.order.bounds timed it.order.wants.items note };

    fn answer_watched<V: Watcher>(
        &self,
        alloc: Global,
        program: &Program,
        watcher: &mut V,
    ) -> Result<NotedAnswer, AllocError> {
        let order = &self.order;
        let Ok(exploration) = explore_watched(alloc, program, order.limits, order.bounds, watcher)
        else {
            return Err(AllocError);
        };
        let wants = order.wants.as_slice();
        let value = exploration_json(alloc, &exploration, wants)?;
        Ok(NotedAnswer {
            note: missing_of_exploration(alloc, &exploration, wants)?,
            answer: value_answer(alloc, &value, exploration_status(&exploration, wants))?,
        })
    }
}

impl SearchOrder for ExploreJson {
    type Findings = InJson;

    ghost searches = { λ it. it.order };

    fn search_order(&self) -> &ExploreOrder {
        &self.order
    }
}

impl ProgramOrder for ExploreJson {
    type Refusals = InJson;

    ghost comes = { λ it t. IsJsonExplored t it.order.limits it.order.bounds false it.order.wants.items };

    fn answer_program(&self, alloc: Global, program: &Program) -> Result<Answer, AllocError> {
        Ok(self.answer_watched(alloc, program, &mut Unwatched)?.answer)
    }
}

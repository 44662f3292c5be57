//! Orders to explore the outcomes and says of a text's program.
ghost use Rattle.std.specs.Prelude.{true, false};
ghost use Rattle.outcome_answers.specs.OutcomeAnswers.{IsSaysAnswer};

use crate::finding::find_says;
use crate::values::outcomes_json;
use effect_term::Program;
use every_schedule::Watcher;
use exploration_text::{
    ExploreOrder, NotedAnswer, SearchOrder, WatchedOrder, exploration_status,
    missing_of_exploration, text_of_exploration,
};
use json_answers::{InJson, value_answer};
use outcome_trace::{Answer, InWords};
use std::alloc::{AllocError, Global};

/// Answers with the outcomes and says that the fibers of a program can have under every schedule ([`find_says`]), in
/// the form of an exploration and with its status. A refused text is answered by the line of its refusal, with
/// `Status::Refused`.
#[derive(Drop)]
pub struct SaysOrder {
    /// The limits, the bounds and the wanted outcomes.
    pub order: ExploreOrder,
}

impl WatchedOrder for SaysOrder {
    type Refusals = InWords;

    ghost finds = { λ it timed note t. IsSaysAnswer false t it.order.limits it.order.bounds timed
        it.order.wants.items note };

    fn answer_watched<V: Watcher>(
        &self,
        alloc: Global,
        program: &Program,
        watcher: &mut V,
    ) -> Result<NotedAnswer, AllocError> {
        let found = find_says(alloc, program, &self.order, watcher)?;
        let wants = self.order.wants.as_slice();
        let note = missing_of_exploration(alloc, &found, wants)?;
        let text = text_of_exploration(alloc, &found, wants)?;
        let status = exploration_status(&found, wants);
        Ok(NotedAnswer {
            answer: Answer { text, status },
            note,
        })
    }
}

impl SearchOrder for SaysOrder {
    type Findings = InWords;

    ghost searches = { λ it. it.order };

    fn search_order(&self) -> &ExploreOrder {
        &self.order
    }
}

/// Answers in JSON as [`SaysOrder`] does in words, with the same status.
#[derive(Drop)]
pub struct SaysJson {
    /// The limits, the bounds and the wanted outcomes.
    pub order: ExploreOrder,
}

impl WatchedOrder for SaysJson {
    type Refusals = InJson;

    ghost finds = { λ it timed note t. IsSaysAnswer true t it.order.limits it.order.bounds timed
        it.order.wants.items note };

    fn answer_watched<V: Watcher>(
        &self,
        alloc: Global,
        program: &Program,
        watcher: &mut V,
    ) -> Result<NotedAnswer, AllocError> {
        let found = find_says(alloc, program, &self.order, watcher)?;
        let wants = self.order.wants.as_slice();
        let note = missing_of_exploration(alloc, &found, wants)?;
        let value = outcomes_json(alloc, &found, wants, true)?;
        let answer = value_answer(alloc, &value, exploration_status(&found, wants))?;
        Ok(NotedAnswer { answer, note })
    }
}

impl SearchOrder for SaysJson {
    type Findings = InJson;

    ghost searches = { λ it. it.order };

    fn search_order(&self) -> &ExploreOrder {
        &self.order
    }
}

//! Orders to explore the outcomes of a text's program, without marks.
ghost use Rattle.std.specs.Prelude.{true, false};
ghost use Rattle.outcome_answers.specs.OutcomeAnswers.{IsOutcomesAnswer};

use crate::finding::find_outcomes;
use crate::shown::shown_exploration;
use crate::values::outcomes_json;
use effect_term::Program;
use every_schedule::Watcher;
use exploration_text::{
    ExploreOrder, NotedAnswer, SearchOrder, WatchedOrder, exploration_status,
    missing_of_exploration, text_of_exploration,
};
use json_answers::{InJson, value_answer};
use outcome_trace::{Answer, InWords};
use std::alloc::{AllocError, Global};

/// Answers with the outcomes that the fibers of a program can have under every schedule ([`find_outcomes`]), in the
/// form of an exploration ([`shown_exploration`]) and with its status. A refused text is answered by the line of its
/// refusal, with `Status::Refused`.
#[derive(Drop)]
pub struct OutcomesOrder {
    /// The limits, the bounds and the wanted outcomes.
    pub order: ExploreOrder,
    /// Whether answers are compared and written by the outcome of fiber 0 alone.
    pub only_first: bool,
}

impl WatchedOrder for OutcomesOrder {
    type Refusals = InWords;

    ghost finds = { λ it timed note t. IsOutcomesAnswer false it.only_first t it.order.limits it.order.bounds timed
        it.order.wants.items note };

    fn answer_watched<V: Watcher>(
        &self,
        alloc: Global,
        program: &Program,
        watcher: &mut V,
    ) -> Result<NotedAnswer, AllocError> {
        let found = find_outcomes(alloc, program, &self.order, watcher)?;
        let shown = shown_exploration(alloc, &found, self.only_first)?;
        let wants = self.order.wants.as_slice();
        let note = missing_of_exploration(alloc, &shown, wants)?;
        let text = text_of_exploration(alloc, &shown, wants)?;
        let status = exploration_status(&shown, wants);
        Ok(NotedAnswer {
            answer: Answer { text, status },
            note,
        })
    }
}

impl SearchOrder for OutcomesOrder {
    type Findings = InWords;

    ghost searches = { λ it. it.order };

    fn search_order(&self) -> &ExploreOrder {
        &self.order
    }
}

/// Answers in JSON as [`OutcomesOrder`] does in words, with the same status.
#[derive(Drop)]
pub struct OutcomesJson {
    /// The limits, the bounds and the wanted outcomes.
    pub order: ExploreOrder,
    /// Whether answers are compared and written by the outcome of fiber 0 alone.
    pub only_first: bool,
}

impl WatchedOrder for OutcomesJson {
    type Refusals = InJson;

    ghost finds = { λ it timed note t. IsOutcomesAnswer true it.only_first t it.order.limits it.order.bounds timed
        it.order.wants.items note };

    fn answer_watched<V: Watcher>(
        &self,
        alloc: Global,
        program: &Program,
        watcher: &mut V,
    ) -> Result<NotedAnswer, AllocError> {
        let found = find_outcomes(alloc, program, &self.order, watcher)?;
        let shown = shown_exploration(alloc, &found, self.only_first)?;
        let wants = self.order.wants.as_slice();
        let note = missing_of_exploration(alloc, &shown, wants)?;
        let value = outcomes_json(alloc, &shown, wants, false)?;
        let answer = value_answer(alloc, &value, exploration_status(&shown, wants))?;
        Ok(NotedAnswer { answer, note })
    }
}

impl SearchOrder for OutcomesJson {
    type Findings = InJson;

    ghost searches = { λ it. it.order };

    fn search_order(&self) -> &ExploreOrder {
        &self.order
    }
}

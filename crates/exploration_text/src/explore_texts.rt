//! The answer to a text whose program is explored under every schedule.

ghost use Rattle.std.specs.Prelude.{◌≤◌, false};
ghost use Rattle.cell_registry.specs.Cells.{AreLimits};
ghost use Rattle.exploration_text.specs.ExploreAnswers.{IsExploredAnswer, IsNotedExplored};

use crate::missing::missing_of_exploration;
use crate::noted::NotedAnswer;
use crate::texts::{exploration_status, text_of_exploration};
use crate::wants::Want;
use crate::watched_orders::WatchedOrder;
use cell_registry::Limits;
use effect_term::Program;
use every_schedule::{Bounds, Unwatched, Watcher, explore_watched};
use outcome_trace::{Answer, InWords, ProgramOrder};
use std::alloc::{AllocError, Global};

/// Answers a text by the exploration of its program under every schedule ([`text_of_exploration`]), with the status of
/// [`exploration_status`], or by the line of the text's refusal, with `Status::Refused`.
#[derive(Drop)]
pub struct ExploreOrder {
    /// The greatest numbers of fibers, refs and deferreds (each 1 to 1000), and of a fiber's changes of its own state
    /// (1 to 1,099,511,627,775). A world takes memory for each of these numbers but the last.
    pub limits: Limits,
    /// The greatest number of worlds, the greatest number of entries of a schedule (0 to 1,000,000), and the number of
    /// bytes at which the search stops.
    pub bounds: Bounds,
    /// The outcomes of fiber 0 that are wanted; empty if any outcome is.
    pub wants: Vec<Want>,
    pub ghost ranges: { AreLimits limits },
    pub ghost entries: { bounds.entries ≤ 1000000 },
}

impl WatchedOrder for ExploreOrder {
    type Refusals = InWords;

    ghost finds = { λ order timed note t.
        IsNotedExplored t order.limits order.bounds timed order.wants.items note };

    fn answer_watched<V: Watcher>(
        &self,
        alloc: Global,
        program: &Program,
        watcher: &mut V,
    ) -> Result<NotedAnswer, AllocError> {
        let Ok(exploration) = explore_watched(alloc, program, self.limits, self.bounds, watcher)
        else {
            return Err(AllocError);
        };
        let wants = self.wants.as_slice();
        Ok(NotedAnswer {
            note: missing_of_exploration(alloc, &exploration, wants)?,
            answer: Answer {
                text: text_of_exploration(alloc, &exploration, wants)?,
                status: exploration_status(&exploration, wants),
            },
        })
    }
}

impl ProgramOrder for ExploreOrder {
    type Refusals = InWords;

    ghost comes = { λ order t. IsExploredAnswer t order.limits order.bounds false order.wants.items };

    fn answer_program(&self, alloc: Global, program: &Program) -> Result<Answer, AllocError> {
        Ok(self.answer_watched(alloc, program, &mut Unwatched)?.answer)
    }
}

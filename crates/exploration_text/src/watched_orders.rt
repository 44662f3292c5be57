//! Orders that explore a program, whose search can be watched.

ghost use Rattle.std.specs.Prelude.{Bool, IfOk, List, is_some, ℕ};
ghost use Rattle.effect_term.specs.declared.term.Term.{Term};
ghost use Rattle.text_io.specs.declared.status.Status.{Status};

use crate::noted::{NotedAnswer, NotedOrder};
use effect_term::Program;
use every_schedule::{TimeLimit, Watcher};
use outcome_trace::{Answer, ProgramOrder, RefusalForm};
use std::alloc::{AllocError, Global};
use std::time::Clock;

/// An order that explores a program while its search is watched.
pub trait WatchedOrder {
    /// The form of the answer to a text that spells no program.
    type Refusals: RefusalForm;

    // Whether an answer to a program is right, with its note and status, by whether the watcher can end the search.
    ghost finds: { Self → Bool → List ℕ → Term → List ℕ → Status → Type 0 };

    /// The answer to a program, with its note. `AllocError` where memory ran out.
    fn answer_watched<V: Watcher>(
        &self,
        alloc: Global,
        program: &Program,
        watcher: &mut V,
    ) -> Result<NotedAnswer, AllocError>
        ensures { IfOk result (λ n. finds self.now (V.can_stop watcher.old) n.note.items program.now
            n.answer.text.items n.answer.status) };
}

/// An order whose search ends after this number of seconds by a clock, if a number is given. The answer has what was
/// found until then.
#[derive(Drop)]
pub struct TimedOrder<'c, C: Clock, W: WatchedOrder + Drop> {
    /// The clock.
    pub clock: &'c C,
    /// The number of seconds after which the search ends; `None` for no limit.
    pub seconds: Option<u64>,
    /// What is explored, and how it is written.
    pub order: W,
}

impl<'c, C: Clock, W: WatchedOrder + Drop> NotedOrder for TimedOrder<'c, C, W> {
    type Refusals = W::Refusals;

    ghost notes = { λ it note t. W.finds it.order (is_some it.seconds) note t };

    fn noted_answer(&self, alloc: Global, program: &Program) -> Result<NotedAnswer, AllocError> {
        let mut limit = TimeLimit::new(self.clock, self.seconds);
        self.order.answer_watched(alloc, program, &mut limit)
    }
}

impl<'c, C: Clock, W: WatchedOrder + Drop> ProgramOrder for TimedOrder<'c, C, W> {
    type Refusals = W::Refusals;

    ghost comes = { λ it t answer status. (note : List ℕ) ×
        W.finds it.order (is_some it.seconds) note t answer status };

    fn answer_program(&self, alloc: Global, program: &Program) -> Result<Answer, AllocError> {
        Ok(self.noted_answer(alloc, program)?.answer)
    }
}

//! Answers to programs with a note, which goes to the last device.

ghost use Rattle.std.specs.Prelude.{ℕ, List, IfOk};
ghost use Rattle.effect_term.specs.declared.term.Term.{Term};
ghost use Rattle.text_io.specs.declared.status.Status.{Status};

use effect_term::Program;
use outcome_trace::{Answer, RefusalForm};
use std::alloc::{AllocError, Global};

/// An answer, and a note beside it.
#[derive(Drop)]
pub struct NotedAnswer {
    /// The text that is written, with its status.
    pub answer: Answer,
    /// The text of the note; empty if there is no note.
    pub note: Vec<u8>,
}

/// An order that answers a program with a note.
pub trait NotedOrder {
    /// The form of the answer to a text that spells no program.
    type Refusals: RefusalForm;

    // Whether an answer to a program is right, with its note and status.
    ghost notes: { Self → List ℕ → Term → List ℕ → Status → Type 0 };

    /// The answer to a program, with its note. `AllocError` where memory ran out.
    fn noted_answer(&self, alloc: Global, program: &Program) -> Result<NotedAnswer, AllocError>
        ensures { IfOk result (λ n. notes self.now n.note.items program.now n.answer.text.items n.answer.status) };
}

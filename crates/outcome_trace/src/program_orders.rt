//! The answer to a program, and so to a text: the answer to the program that it spells, or its refusal.

ghost use Rattle.std.specs.Prelude.{ℕ, List, IfOk};
ghost use Rattle.effect_term.specs.declared.term.Term.{Term};
ghost use Rattle.text_io.specs.declared.status.Status.{Status};
ghost use Rattle.outcome_trace.specs.Answers.{IsProgramAnswer, IsRefusalAnswer, IsRefused};

use crate::answers::{read_program, refusal};
use crate::lines::Refused;
use crate::text_order::{Answer, TextOrder};
use effect_term::Program;
use std::alloc::{AllocError, Global};

/// The form of the answer to a refused text.
pub trait RefusalForm {
    // The possible answers to such a text, with their statuses.
    ghost refuses: { List ℕ → List ℕ → Status → Type 0 };

    /// The answer to a text that is refused for this reason. Returns `AllocError` if memory ran out, also if that is
    /// the reason.
    fn refused_answer(alloc: Global, text: &[u8], refused: Refused) -> Result<Answer, AllocError>
        requires { IsRefused text.now refused }
        ensures { IfOk result (λ a. refuses text.now a.text.items a.status) };
}

/// Answers with the line of the refusal.
#[derive(Clone, Copy, Debug)]
pub struct InWords;

impl RefusalForm for InWords {
    ghost refuses = { IsRefusalAnswer };

    fn refused_answer(alloc: Global, _text: &[u8], refused: Refused) -> Result<Answer, AllocError> {
        refusal(alloc, refused)
    }
}

/// The order that a program is answered by. Such an order is an order of texts, too.
pub trait ProgramOrder {
    /// The form of the answer to a text that spells no program.
    type Refusals: RefusalForm;

    // The possible answers to a program, with their statuses.
    ghost comes: { Self → Term → List ℕ → Status → Type 0 };

    /// The answer to a program. Returns `AllocError` if memory ran out.
    fn answer_program(&self, alloc: Global, program: &Program) -> Result<Answer, AllocError>
        ensures { IfOk result (λ a. comes self.now program.now a.text.items a.status) };
}

impl<P: ProgramOrder> TextOrder for P {
    ghost answers = { λ order. IsProgramAnswer P.Refusals.refuses (P.comes order) };

    fn answer(&self, alloc: Global, text: &[u8]) -> Result<Answer, AllocError> {
        match read_program(alloc, text) {
            Ok(program) => self.answer_program(alloc, &program),
            Err(refused) => P::Refusals::refused_answer(alloc, text, refused),
        }
    }
}

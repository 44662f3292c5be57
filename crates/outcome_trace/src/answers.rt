//! The answer to a text: why it is refused, or what its program is.

ghost use Rattle.std.specs.Prelude.{◌≡◌, IfOk, IfErr, OnOk, IsTrue};
ghost use Rattle.effect_term.specs.Programs.{IsProgram};
ghost use Rattle.term_parse.specs.Atoms.{atoms_of};
ghost use Rattle.term_parse.specs.Reading.{reading};
ghost use Rattle.outcome_trace.specs.Answers.{IsCode, IsCounts, IsOfText, IsRefused};
ghost use Rattle.outcome_trace.specs.Lines.{has_line, line_of};

use crate::lines::{Refused, line};
use crate::program_orders::{InWords, ProgramOrder};
use crate::text_order::Answer;
use derived_ops::{expand, print_core, program_of};
use effect_term::{Program, TermError};
use std::alloc::{AllocError, Global};
use term_parse::{ParseError, parse};
use text_io::Status;

/// The program that a text spells, or why there is none: the first fault of the text, or the first limit that its term
/// passes.
pub fn read_program(alloc: Global, text: &[u8]) -> Result<Program, Refused>
    ensures program { IfOk result (λ t. reading text.now ≡ Ok (atoms_of t)) }
    ensures limits { IfOk result IsProgram }
    ensures refused { IfErr result (IsRefused text.now) }
{
    let term = match parse(alloc, text) {
        Ok(term) => term,
        Err(error) => return Err(Refused::Parse(error)),
    };
    match program_of(alloc, term) {
        Ok(program) => Ok(program),
        Err(error) => Err(Refused::Term(error)),
    }
}

/// The answer to a refused text: its line, with `Status::Refused`. Returns `AllocError` if memory ran out, also if that
/// is the reason why there is no program.
#[tactic(auto, using(crate::proofs::AnswerLemmas::text_told))]
pub fn refusal(alloc: Global, refused: Refused) -> Result<Answer, AllocError>
    requires { IsOfText refused }
    ensures line { IfOk result (λ a. a.text.items ≡ line_of refused) }
    ensures status { IfOk result (λ a. a.status ≡ Status.Refused) }
    ensures told { OnOk result (IsTrue (has_line refused)) }
{
    match refused {
        Refused::Parse(ParseError::NoMemory) | Refused::Term(TermError::NoMemory) => {
            Err(AllocError)
        }
        refused => Ok(Answer {
            text: line(alloc, &refused)?,
            status: Status::Refused,
        }),
    }
}

/// Answers whether the text spells a program: the line of its counts, with `Status::Succeeded`, or the line of its
/// refusal, with `Status::Refused`, for its first fault or the limit that its term passes.
#[derive(Clone, Copy, Debug)]
pub struct CheckOrder;

impl ProgramOrder for CheckOrder {
    type Refusals = InWords;

    ghost comes = { λ _. IsCounts };

    fn answer_program(&self, alloc: Global, program: &Program) -> Result<Answer, AllocError> {
        let term = program.term();
        let size = term.size();
        let nest = term.nest();
        let masks = term.masks();
        let line = format!(in alloc; "ok size {size} nest {nest} masks {masks}\n")?;
        Ok(Answer {
            text: line.into_bytes(),
            status: Status::Succeeded,
        })
    }
}

/// Answers the code of the program that the text spells, and a line feed, with `Status::Succeeded`, or the line of its
/// refusal, with `Status::Refused`.
#[derive(Clone, Copy, Debug)]
pub struct ShowOrder;

impl ProgramOrder for ShowOrder {
    type Refusals = InWords;

    ghost comes = { λ _. IsCode };

    fn answer_program(&self, alloc: Global, program: &Program) -> Result<Answer, AllocError> {
        let code = expand(alloc, program)?;
        let mut text = print_core(alloc, &code)?;
        text.push(b'\n')?;
        Ok(Answer {
            text,
            status: Status::Succeeded,
        })
    }
}

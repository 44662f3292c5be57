//! `if`, `when` and `unless`.

use crate::binder::{BinderName, NameKind};
use crate::form::then_follow;
use crate::look::{known_number, value, wrong_at};
use crate::reading::{Reading, behind_nth, count_of, nth_of};
use crate::scope::{Here, Operand};
use crate::task::{Follow, Task};
use crate::writing::Writing;
use crate::wrong::{Stop, Wrong};
use effect_term::Value;
use model_forms::Block;
use term_parse::Word;

/// The words of conditions.
#[derive(Clone, Copy)]
pub(crate) enum ConditionWord {
    If,
    When,
    Unless,
}

/// The word of conditions with this spelling, if there is one.
pub(crate) fn condition_word(spelled: &[u8]) -> Option<ConditionWord> {
    match spelled {
        b"if" => Some(ConditionWord::If),
        b"when" => Some(ConditionWord::When),
        b"unless" => Some(ConditionWord::Unless),
        _ => None,
    }
}

/// Writes the condition with this number.
pub(crate) fn condition(
    read: Reading,
    out: &mut Writing,
    at: usize,
    word: ConditionWord,
    here: Here,
) -> Result<(), Stop> {
    let parts = read.parts(at);
    let given = count_of(read.forms, parts);
    let wanted = match word {
        ConditionWord::If => 3,
        ConditionWord::When | ConditionWord::Unless => 2,
    };
    if given < wanted {
        let head = read.span(at.saturating_add(1));
        let wrong = Wrong::Parts(head, wanted, given);
        return Err(wrong_at(read, wrong, at, here.view));
    }
    let tested = nth_of(read.forms, parts, 0).unwrap_or(at);
    let yes = nth_of(read.forms, parts, 1).unwrap_or(at);
    let last = last_of(read, parts, wanted, given);
    out.lets = 0;
    let operand = tested_value(read, out, tested, here)?;
    out.then(Task::Open(Word::If0, at))?;
    out.then(Task::Operand(operand))?;
    match word {
        ConditionWord::If => {
            out.then(Task::Term(yes, here))?;
            then_follow(out, last, here)?;
        }
        ConditionWord::When => {
            then_follow(out, last, here)?;
            then_zero(out, at)?;
        }
        ConditionWord::Unless => {
            then_zero(out, at)?;
            then_follow(out, last, here)?;
        }
    }
    let open = out.lets.saturating_add(1);
    out.then(Task::Close(open))
}

// The last part of a condition: one term, or several statements.
fn last_of(read: Reading, parts: Block, wanted: usize, given: usize) -> Follow {
    let block = behind_nth(read.forms, parts, wanted.saturating_sub(1));
    if given == wanted {
        Follow::Part(block.first)
    } else {
        Follow::Block(block)
    }
}

/// Plans `(pure 0)`.
pub(crate) fn then_zero(out: &mut Writing, at: usize) -> Result<(), Stop> {
    out.then(Task::Open(Word::Pure, at))?;
    out.then(Task::Operand(Operand::Number(0)))?;
    out.then(Task::Close(1))
}

// Plans a value that is 0 if and only if the condition holds, and returns it.
fn tested_value(read: Reading, out: &mut Writing, at: usize, here: Here) -> Result<Operand, Stop> {
    let fault = wrong_at(read, Wrong::Condition, at, here.view);
    let parts = read.parts(at);
    if read.head(at) != b"=".as_slice() || count_of(read.forms, parts) != 2 {
        return Err(fault);
    }
    let Some(left) = nth_of(read.forms, parts, 0) else {
        return Err(fault);
    };
    let Some(right) = nth_of(read.forms, parts, 1) else {
        return Err(fault);
    };
    let Some(number) = known_number(read, out, right, here.view)? else {
        return Err(fault);
    };
    let less = number.saturating_neg();
    if Value::of(less).is_none() {
        return Err(wrong_at(read, Wrong::NoOpposite, right, here.view));
    }
    let operand = value(read, out, left, here)?;
    if number == 0 {
        return Ok(operand);
    }
    difference(out, at, operand, less)
}

// Plans a `let` that binds the sum of a value and `more`, and returns the bound name.
fn difference(out: &mut Writing, at: usize, operand: Operand, more: i64) -> Result<Operand, Stop> {
    let name = out.fresh(b"t")?;
    out.then(Task::Open(Word::Let, at))?;
    out.then(Task::Bind(name, NameKind::Value, BinderName::Hidden))?;
    out.then(Task::Open(Word::Add, at))?;
    out.then(Task::Operand(operand))?;
    out.then(Task::Operand(Operand::Number(more)))?;
    out.then(Task::Close(1))?;
    out.lets = out.lets.saturating_add(1);
    Ok(Operand::Name(name))
}

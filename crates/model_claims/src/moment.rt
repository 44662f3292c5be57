//! Claims on refs at any moment and at the end, in the form that a search checks in each world.

use crate::condition::{Comparison, Word};
use claim_verdicts::Rule;
use effect_term::Value;
use std::alloc::{AllocError, Global};

/// A word of a condition on a moment. The words are in postfix order, for a stack of truths: a comparison pushes its
/// truth, and each other word pops one or two truths and pushes its own.
#[derive(Clone, Copy)]
pub enum MomentWord {
    /// Whether this comparison of a ref's value with a number holds. The first field is the ref's number: refs are
    /// numbered from 0, in the order in which they are made.
    Compares(u16, Comparison, Value),
    /// Whether the last truth is false.
    Not,
    /// Whether the last two truths are both true.
    And,
    /// Whether one of the last two truths is true.
    Or,
    /// Whether no fiber can go on.
    Final,
}

/// Returns the words of a condition in the form that a search checks in each world. None unless the condition compares
/// refs whose numbers are known, and is about nothing else.
pub(crate) fn moment_words(
    alloc: Global,
    words: &[Word],
) -> Result<Option<Vec<MomentWord>>, AllocError> {
    let Some(first) = first_number(words) else {
        return Ok(None);
    };
    let mut moment = Vec::new(alloc);
    for word in words {
        let Some(word) = moment_word(first, *word) else {
            return Ok(None);
        };
        moment.push(word)?;
    }
    Ok(Some(moment))
}

/// Returns the words of a condition at the end, as [`moment_words`] does: of a claim about every end, that the
/// condition holds or some fiber can go on; of a claim about some end, that it holds and no fiber can go on.
pub(crate) fn final_words(
    alloc: Global,
    rule: Rule,
    words: &[Word],
) -> Result<Option<Vec<MomentWord>>, AllocError> {
    let Some(mut moment) = moment_words(alloc, words)? else {
        return Ok(None);
    };
    moment.push(MomentWord::Final)?;
    match rule {
        Rule::Every => {
            moment.push(MomentWord::Not)?;
            moment.push(MomentWord::Or)?;
        }
        Rule::Some => moment.push(MomentWord::And)?,
    }
    Ok(Some(moment))
}

// The number of the first ref that these words compare, if it is known.
fn first_number(words: &[Word]) -> Option<u16> {
    for word in words {
        if let Word::Compares(number, _, _) = *word {
            return number;
        }
    }
    None
}

// The least value.
fn least_value() -> Value {
    Value::MIN
}

// The comparison of a ref with this number, if it is known.
fn compared(number: Option<u16>, comparison: Comparison, value: Value) -> Option<MomentWord> {
    let number = number?;
    Some(MomentWord::Compares(number, comparison, value))
}

// Translates a word of a condition, or returns none if the word is about fibers or a ref of unknown number. `Yes`
// becomes a comparison that always holds: the ref `first` holds at least the least value. `No` becomes its opposite.
fn moment_word(first: u16, word: Word) -> Option<MomentWord> {
    match word {
        Word::Yes => Some(MomentWord::Compares(first, Comparison::AtLeast, least_value())),
        Word::No => Some(MomentWord::Compares(first, Comparison::Below, least_value())),
        Word::And => Some(MomentWord::And),
        Word::Or => Some(MomentWord::Or),
        Word::Not => Some(MomentWord::Not),
        Word::Compares(number, comparison, value) => compared(number, comparison, value),
        Word::Ended(_) => None,
        Word::Ends(_, _, _) => None,
        Word::Said(_, _, _) => None,
        Word::Says(_, _, _) => None,
        Word::Late => None,
    }
}

//! What the grammar expected at a place.

use crate::around::{Around, OpenForm};
use crate::language::{form_of, wanted};
use crate::names::push_quoted;
use std::alloc::AllocError;
use term_parse::{Part, Word};

/// Appends a line that says what the grammar expected next.
pub(crate) fn push_wanted(told: &mut Vec<u8>, around: &Around) -> Result<(), AllocError> {
    let Some(form) = around.innermost() else {
        return told.extend_from_slice(b"a program is one term, as `(pure 1)`\n");
    };
    let Some(word) = form.word else {
        return told.extend_from_slice(b"behind an opening bracket the word of a form was wanted\n");
    };
    push_part(told, word, form)
}

// Appends the part of a form that was expected.
fn push_part(told: &mut Vec<u8>, word: Word, form: OpenForm) -> Result<(), AllocError> {
    let Some(part) = form.part() else {
        return Ok(());
    };
    told.extend_from_slice(wanted(part).as_bytes())?;
    told.extend_from_slice(b" was wanted: ")?;
    match part {
        Part::Close => {
            push_quoted(told, form_of(word).as_bytes())?;
            told.extend_from_slice(b" has all its parts\n")
        }
        Part::More => {
            push_quoted(told, form_of(word).as_bytes())?;
            told.extend_from_slice(b" may have more terms\n")
        }
        _ => {
            push_quoted(told, letter_of(word, form.next))?;
            told.extend_from_slice(b" of ")?;
            push_quoted(told, form_of(word).as_bytes())?;
            told.push(b'\n')?;
            Ok(())
        }
    }
}

// The letter or short name of a part, as in the form of its word.
fn letter_of(word: Word, part: usize) -> &'static [u8] {
    let mut rest = form_of(word);
    for _ in 0..part {
        rest = behind_space(rest);
    }
    let rest = behind_space(rest);
    let letter = match rest.split_once(' ') {
        Some((letter, _)) => letter,
        None => rest,
    };
    letter.trim_end_matches(')').as_bytes()
}

// The text behind the first space.
fn behind_space(text: &'static str) -> &'static str {
    match text.split_once(' ') {
        Some((_, rest)) => rest,
        None => text,
    }
}

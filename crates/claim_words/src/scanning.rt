//! The tokens of a claim, one after another.

use crate::spacing::is_space;
use crate::words::Whole;
use effect_term::Value;
use every_schedule::Comparison;

/// A ref, as a claim names it.
#[derive(Clone, Copy)]
pub(crate) enum Subject<'a> {
    /// By its number.
    Numbered(u16),
    /// By the name of its binder.
    Named(&'a [u8]),
}

// The greatest number that a ref can have.
const LAST_REF: u16 = 999;

/// The text of a claim, and the place up to which it was read.
#[derive(Clone, Copy)]
pub(crate) struct Scanner<'a> {
    text: &'a [u8],
    at: usize,
}

impl<'a> Scanner<'a> {
    /// The start of a text.
    pub(crate) fn new(text: &'a [u8]) -> Scanner<'a> {
        Scanner { text, at: 0 }
    }

    /// The place of the next token, or the end of the text if there is none.
    pub(crate) fn place(&self) -> usize {
        for at in self.at..self.text.len() {
            if !is_space(self.text[at]) {
                return at;
            }
        }
        self.text.len()
    }

    /// Whether only spaces are left.
    pub(crate) fn is_at_end(&self) -> bool {
        self.place() >= self.text.len()
    }

    /// Takes the next token if it is this bracket, and returns whether it is.
    pub(crate) fn takes(&mut self, bracket: u8) -> bool {
        let place = self.place();
        match self.text.get(place) {
            Some(byte) if *byte == bracket => {
                self.at = place.saturating_add(1);
                true
            }
            _ => false,
        }
    }

    /// Takes the next word: the bytes before the next bracket or space. The word is empty before a bracket and at the
    /// end.
    pub(crate) fn word(&mut self) -> &'a [u8] {
        let place = self.place();
        let rest = self.text.get(place..).unwrap_or(&[]);
        let word = rest.get(..word_length(rest)).unwrap_or(&[]);
        self.at = place.saturating_add(word.len());
        word
    }
}

// The number of bytes before the first bracket or space of the text.
fn word_length(text: &[u8]) -> usize {
    for at in 0..text.len() {
        let byte = text[at];
        if byte == b'(' || byte == b')' || is_space(byte) {
            return at;
        }
    }
    text.len()
}

/// The comparison that a word spells, if it spells one.
pub(crate) fn comparison_of(word: &[u8]) -> Option<Comparison> {
    match word {
        b"=" => Some(Comparison::Equal),
        b"!=" => Some(Comparison::Differs),
        b"<" => Some(Comparison::Less),
        b"<=" => Some(Comparison::AtMost),
        b">" => Some(Comparison::Greater),
        b">=" => Some(Comparison::AtLeast),
        _ => None,
    }
}

/// What a word says about the whole world, if it says something.
pub(crate) fn whole_of(word: &[u8]) -> Option<Whole> {
    match word {
        b"deadlock" => Some(Whole::Deadlock),
        b"left" => Some(Whole::Left),
        b"final" => Some(Whole::Final),
        _ => None,
    }
}

/// The ref that a word names, if it names one: by a letter and further letters and digits, or by a number up to 999.
pub(crate) fn subject_of(word: &[u8]) -> Option<Subject<'_>> {
    let first = *word.first()?;
    if is_letter(first) {
        if is_name(word) {
            Some(Subject::Named(word))
        } else {
            None
        }
    } else {
        Some(Subject::Numbered(ref_number(word)?))
    }
}

// Whether a word has only letters and digits.
fn is_name(word: &[u8]) -> bool {
    for byte in word {
        if !is_letter(*byte) && !is_digit(*byte) {
            return false;
        }
    }
    true
}

fn is_letter(byte: u8) -> bool {
    b'a' <= byte && byte <= b'z'
}

fn is_digit(byte: u8) -> bool {
    b'0' <= byte && byte <= b'9'
}

// The number of a ref that a word spells, at most 999.
fn ref_number(word: &[u8]) -> Option<u16> {
    let text = std::str::from_utf8(word).ok()?;
    match text.parse::<u16>() {
        Ok(number) if number <= LAST_REF => Some(number),
        _ => None,
    }
}

/// The value that a word spells.
pub(crate) fn value_of(word: &[u8]) -> Option<Value> {
    let text = std::str::from_utf8(word).ok()?;
    match text.parse::<i64>() {
        Ok(number) => Value::of(number),
        Err(_) => None,
    }
}

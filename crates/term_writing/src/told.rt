//! The words of a message.

use crate::binder::NameKind;
use crate::wrong::Sort;
use itoa::Buffer;
use std::alloc::{AllocError, Global};

// The greatest number of bytes of a name that are shown.
const MOST_SHOWN: usize = 40;

/// Adds text.
pub(crate) fn tell(told: &mut Vec<u8>, text: &str) -> Result<(), AllocError> {
    told.extend_from_slice(text.as_bytes())
}

/// Adds a note of these words.
pub(crate) fn note_line(
    alloc: Global,
    notes: &mut Vec<Vec<u8>>,
    words: &str,
) -> Result<(), AllocError> {
    let line = Vec::from_slice(alloc, words.as_bytes())?;
    notes.push(line)?;
    Ok(())
}

/// Adds a number.
pub(crate) fn tell_count(told: &mut Vec<u8>, number: usize) -> Result<(), AllocError> {
    let mut buffer = Buffer::new();
    told.extend_from_slice(buffer.format(number).as_bytes())
}

/// Adds a number, with its sign.
pub(crate) fn tell_number(told: &mut Vec<u8>, number: i64) -> Result<(), AllocError> {
    let mut buffer = Buffer::new();
    told.extend_from_slice(buffer.format(number).as_bytes())
}

// The hexadecimal digit of a number below 16.
fn digit(number: u8) -> u8 {
    match number {
        0..=9 => number.saturating_add(b'0'),
        _ => number.saturating_add(87),
    }
}

// Adds a byte: itself if it is printable ASCII, otherwise `\x` and its two hexadecimal digits.
fn tell_byte(told: &mut Vec<u8>, byte: u8) -> Result<(), AllocError> {
    if byte < b' ' || b'~' < byte {
        told.extend_from_slice(&[b'\\', b'x', digit(byte / 16), digit(byte % 16)])
    } else {
        told.push(byte)?;
        Ok(())
    }
}

/// Adds a name: its first 40 bytes, and `..` if it is longer.
pub(crate) fn tell_name(told: &mut Vec<u8>, spelled: &[u8]) -> Result<(), AllocError> {
    for byte in spelled.iter().take(MOST_SHOWN) {
        tell_byte(told, *byte)?;
    }
    if MOST_SHOWN < spelled.len() {
        tell(told, "..")?;
    }
    Ok(())
}

/// Adds a name between backquotes.
pub(crate) fn tell_quoted(told: &mut Vec<u8>, spelled: &[u8]) -> Result<(), AllocError> {
    told.push(b'`')?;
    tell_name(told, spelled)?;
    told.push(b'`')?;
    Ok(())
}

/// The word for a kind.
pub(crate) fn kind_word(kind: NameKind) -> &'static str {
    match kind {
        NameKind::Value => "value",
        NameKind::Ref => "ref",
        NameKind::Deferred => "deferred",
        NameKind::Fiber => "fiber",
        NameKind::Poll => "poll",
    }
}

/// The word for the sort of a use.
pub(crate) fn sort_word(sort: Sort) -> &'static str {
    match sort {
        Sort::Name(kind) => kind_word(kind),
        Sort::Term => "term",
    }
}

/// Adds the sort of a use: `a value`, `a term`, or `the name of a` and its kind.
pub(crate) fn tell_sort(told: &mut Vec<u8>, sort: Sort) -> Result<(), AllocError> {
    match sort {
        Sort::Name(NameKind::Value) | Sort::Term => tell(told, "a ")?,
        Sort::Name(_) => tell(told, "the name of a ")?,
    }
    tell(told, sort_word(sort))
}

//! The line of a text that contains a place, with a mark under the place.

use std::alloc::{AllocError, Global};
use text_io::push_shown;

// The most bytes of a line that are shown on each side of the place.
const SIDE: usize = 48;

// Replaces bytes of a line that are left out.
const CUT: &[u8] = b"...";

/// Appends the line of a text that contains a place, indented by two, and a line with a mark under the place. A long
/// line is cut to the bytes near the place.
pub(crate) fn push_excerpt(
    alloc: Global,
    told: &mut Vec<u8>,
    text: &[u8],
    place: usize,
) -> Result<(), AllocError> {
    let before = shown_before(alloc, text, place)?;
    told.extend_from_slice(before.as_slice())?;
    push_behind(told, text, place)?;
    for _ in 0..before.len() {
        told.push(b' ')?;
    }
    told.extend_from_slice(b"^\n")
}

// The bytes of the line before the place, as they are shown.
fn shown_before(alloc: Global, text: &[u8], place: usize) -> Result<Vec<u8>, AllocError> {
    let line = line_before(text, place);
    let mut shown = Vec::from_slice(alloc, b"  ")?;
    match line.get(line.len().saturating_sub(SIDE)..) {
        Some(near) if SIDE < line.len() => {
            shown.extend_from_slice(CUT)?;
            push_shown(&mut shown, near)?;
        }
        _ => push_shown(&mut shown, line)?,
    }
    Ok(shown)
}

// Appends the bytes of the line from the place on, and a line feed.
fn push_behind(told: &mut Vec<u8>, text: &[u8], place: usize) -> Result<(), AllocError> {
    let line = line_behind(text, place);
    match line.get(..SIDE) {
        Some(near) if SIDE < line.len() => {
            push_shown(told, near)?;
            told.extend_from_slice(CUT)?;
        }
        _ => push_shown(told, line)?,
    }
    told.push(b'\n')?;
    Ok(())
}

// The bytes of the line before the place.
fn line_before(text: &[u8], place: usize) -> &[u8] {
    let front = text.get(..place).unwrap_or(text);
    let mut start = 0;
    for (at, byte) in front.iter().enumerate() {
        if *byte == b'\n' {
            start = at + 1;
        }
    }
    front.get(start..).unwrap_or(front)
}

// The bytes of the line from the place on.
fn line_behind(text: &[u8], place: usize) -> &[u8] {
    let Some(rest) = text.get(place..) else {
        return &[];
    };
    for (at, byte) in rest.iter().enumerate() {
        if *byte == b'\n' {
            return rest.get(..at).unwrap_or(rest);
        }
    }
    rest
}

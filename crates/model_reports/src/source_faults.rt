//! Faults of a file as they are printed.

use crate::digits::{push_about, push_number, push_times, push_word, width_of};
use crate::named_file::{NamedFile, place_in_file, position_of, push_place};
use model_terms::SourceFault;
use std::alloc::{AllocError, Global};
use text_io::push_shown;

// The greatest number of bytes of a line that are shown before the marked bytes, of these, and behind these.
const SIDE: usize = 72;

// The text in place of bytes of a line that are left out.
const CUT: &str = "...";

/// Returns the text of a fault of a file: its code and its message; the file, the line and the column; the line with a
/// mark below; and its notes, a line each.
///
/// A fault inside the definitions that every file has is written without its place. Of a long line the bytes near the
/// place are shown. `AllocError` if memory runs out.
pub fn fault_text(
    alloc: Global,
    file: NamedFile,
    fault: &SourceFault,
) -> Result<Vec<u8>, AllocError> {
    let mut told = Vec::new(alloc);
    push_headline(&mut told, "error", fault.code)?;
    push_shown(&mut told, fault.message.as_slice())?;
    told.push(b'\n')?;
    let margin = match place_in_file(fault.start) {
        Some(place) => {
            let length = fault.end.saturating_sub(fault.start);
            push_excerpt(&mut told, alloc, file, place, length)?
        }
        None => 1,
    };
    push_notes(&mut told, margin, fault.notes.as_slice())?;
    Ok(told)
}

/// Returns the text of the fault E00: a file isn't read, and why. `AllocError` if memory runs out.
pub fn unread_text(alloc: Global, name: &[u8], why: &str) -> Result<Vec<u8>, AllocError> {
    let mut told = Vec::new(alloc);
    push_headline(&mut told, "error", "E00")?;
    push_shown(&mut told, name)?;
    push_word(&mut told, ": ")?;
    push_word(&mut told, why)?;
    told.push(b'\n')?;
    Ok(told)
}

/// Adds the head of a message: `error[E10]: `. `AllocError` if memory runs out.
pub(crate) fn push_headline(told: &mut Vec<u8>, what: &str, code: &str) -> Result<(), AllocError> {
    push_word(told, what)?;
    told.push(b'[')?;
    push_word(told, code)?;
    push_word(told, "]: ")
}

// Adds the place of a fault, and the line with a mark below. Returns the width of the margin: that of the line's
// number.
fn push_excerpt(
    told: &mut Vec<u8>,
    alloc: Global,
    file: NamedFile,
    place: usize,
    length: usize,
) -> Result<usize, AllocError> {
    let position = position_of(file, place);
    let margin = width_of(position.line);
    let before = shown_before(alloc, line_before(file.bytes, place))?;
    let behind = line_behind(file.bytes, place);
    let marked = shown_marked(alloc, behind, length)?;
    push_times(told, b' ', margin)?;
    push_word(told, " --> ")?;
    push_shown(told, file.name)?;
    push_about(told, ":", position.line)?;
    push_about(told, ":", position.column)?;
    push_margin(told, margin, "\n", "  |\n")?;
    push_number(told, position.line)?;
    push_word(told, "  | ")?;
    told.extend_from_slice(before.as_slice())?;
    told.extend_from_slice(marked.as_slice())?;
    push_rest(told, behind, length)?;
    push_margin(told, margin, "\n", "  | ")?;
    push_times(told, b' ', before.len())?;
    push_times(told, b'^', marked.len().max(1))?;
    told.push(b'\n')?;
    Ok(margin)
}

// Adds `before`, the spaces of the margin, and `behind`.
fn push_margin(
    told: &mut Vec<u8>,
    margin: usize,
    before: &str,
    behind: &str,
) -> Result<(), AllocError> {
    push_word(told, before)?;
    push_times(told, b' ', margin)?;
    push_word(told, behind)
}

// Adds notes, a line each.
fn push_notes(told: &mut Vec<u8>, margin: usize, notes: &[Vec<u8>]) -> Result<(), AllocError> {
    for note in notes {
        push_margin(told, margin, "", "  = ")?;
        push_shown(told, note.as_slice())?;
        told.push(b'\n')?;
    }
    Ok(())
}

// The bytes before the marked bytes in their line, as they are shown.
fn shown_before(alloc: Global, line: &[u8]) -> Result<Vec<u8>, AllocError> {
    let mut shown = Vec::new(alloc);
    if line.len() > SIDE {
        push_word(&mut shown, CUT)?;
    }
    push_shown(&mut shown, last_bytes(line))?;
    Ok(shown)
}

// The marked bytes in their line, as they are shown.
fn shown_marked(alloc: Global, line: &[u8], length: usize) -> Result<Vec<u8>, AllocError> {
    let mut shown = Vec::new(alloc);
    let marked = line.get(..length).unwrap_or(line);
    push_shown(&mut shown, first_bytes(marked))?;
    Ok(shown)
}

// Adds the bytes behind the marked bytes in their line. Adds `...` alone if the marked bytes are cut.
fn push_rest(told: &mut Vec<u8>, line: &[u8], length: usize) -> Result<(), AllocError> {
    let rest = line.get(length.min(SIDE)..).unwrap_or(&[]);
    if length > SIDE && !rest.is_empty() {
        return push_word(told, CUT);
    }
    push_shown(told, first_bytes(rest))?;
    if rest.len() > SIDE {
        push_word(told, CUT)?;
    }
    Ok(())
}

// The first 72 bytes of a line.
fn first_bytes(line: &[u8]) -> &[u8] {
    line.get(..SIDE).unwrap_or(line)
}

// The last 72 bytes of a line.
fn last_bytes(line: &[u8]) -> &[u8] {
    line.get(line.len().saturating_sub(SIDE)..).unwrap_or(line)
}

// The bytes of the line before the place.
fn line_before(text: &[u8], place: usize) -> &[u8] {
    let front = text.get(..place).unwrap_or(text);
    let mut start = 0;
    for (at, byte) in front.iter().enumerate() {
        if *byte == b'\n' {
            start = at + 1;
        }
    }
    front.get(start..).unwrap_or(front)
}

// The bytes of the line from the place on.
fn line_behind(text: &[u8], place: usize) -> &[u8] {
    let Some(rest) = text.get(place..) else {
        return &[];
    };
    for (at, byte) in rest.iter().enumerate() {
        if *byte == b'\n' {
            return rest.get(..at).unwrap_or(rest);
        }
    }
    rest
}

//! A model file with its name, and the places in a file.

use crate::digits::{push_about, push_number};
use model_forms::{Form, form_bytes};
use model_terms::{Source, prelude};
use reasons::Position;
use std::alloc::{AllocError, Global};
use text_io::push_shown;

/// A model file, and the name under which it was opened.
#[derive(Clone, Copy)]
pub struct NamedFile<'a> {
    /// The name of the file.
    pub name: &'a [u8],
    /// The bytes of the file, without the definitions that every file has.
    pub bytes: &'a [u8],
    /// Where its lines begin, as [`line_starts`] gives it.
    pub lines: &'a [usize],
}

/// Returns where the lines of a file begin: the number of bytes before each line but the first. `AllocError` if memory
/// runs out.
pub fn line_starts(alloc: Global, bytes: &[u8]) -> Result<Vec<usize>, AllocError> {
    let mut starts = Vec::new(alloc);
    for (place, byte) in bytes.iter().enumerate() {
        if *byte == b'\n' {
            starts.push(place.saturating_add(1))?;
        }
    }
    Ok(starts)
}

/// The line and the column of a place of a file, or of the file's end if it has no byte there.
pub(crate) fn position_of(file: NamedFile, place: usize) -> Position {
    let place = place.min(file.bytes.len());
    let before = lines_before(file.lines, place);
    let start = match before.checked_sub(1) {
        Some(last) => file.lines.get(last).copied().unwrap_or(0),
        None => 0,
    };
    Position {
        line: before.saturating_add(1),
        column: place.saturating_sub(start).saturating_add(1),
    }
}

// The number of lines but the first that begin at this place or before it, by where lines begin.
fn lines_before(lines: &[usize], place: usize) -> usize {
    lines.partition_point(|start| *start <= place)
}

/// The number of bytes of the file before a place of a source. Places count from the definitions that every file has;
/// none for a place inside these.
pub(crate) fn place_in_file(place: usize) -> Option<usize> {
    place.checked_sub(prelude().len())
}

/// The line and the column of a place of a source, if it is in the file.
pub(crate) fn position_in_file(file: NamedFile, place: usize) -> Option<Position> {
    match place_in_file(place) {
        Some(place) => Some(position_of(file, place)),
        None => None,
    }
}

/// Adds a place of a source: `FILE:LINE:COLUMN`, or the name of the file alone if the place isn't in the file.
/// `AllocError` if memory runs out.
pub(crate) fn push_place(
    told: &mut Vec<u8>,
    file: NamedFile,
    place: usize,
) -> Result<(), AllocError> {
    push_shown(told, file.name)?;
    match position_in_file(file, place) {
        Some(position) => {
            told.push(b':')?;
            push_position(told, position)
        }
        None => Ok(()),
    }
}

/// Adds a line and a column. `AllocError` if memory runs out.
pub(crate) fn push_position(told: &mut Vec<u8>, position: Position) -> Result<(), AllocError> {
    push_number(told, position.line)?;
    push_about(told, ":", position.column)
}

/// The form of a source with this number, if there is one.
pub(crate) fn form_at(source: &Source, form: usize) -> Option<Form> {
    source.file.forms.get(form).copied()
}

/// The place of the form of a source with this number; the end of the text if there is none.
pub(crate) fn start_of(source: &Source, form: usize) -> usize {
    match form_at(source, form) {
        Some(form) => form.start,
        None => source.text.len(),
    }
}

/// The bytes of the form of a source with this number; empty if there is none.
pub(crate) fn bytes_of(source: &Source, form: usize) -> &[u8] {
    match form_at(source, form) {
        Some(form) => form_bytes(source.text.as_slice(), form),
        None => &[],
    }
}

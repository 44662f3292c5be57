//! The names of the fibers, refs and deferreds of a run.

use crate::digits::{push_about, push_word};
use crate::named_file::bytes_of;
use model_claims::FiberName;
use model_runs::Named;
use model_terms::{BinderName, Source};
use std::alloc::AllocError;
use text_io::push_shown;

/// Adds the name of a fiber in its file, or `fiber N` if there is none. `AllocError` if memory runs out.
pub(crate) fn push_fiber_name(
    told: &mut Vec<u8>,
    source: &Source,
    name: FiberName,
    number: usize,
) -> Result<(), AllocError> {
    match name {
        FiberName::Main => push_word(told, "main"),
        FiberName::Word(form) => push_shown(told, bytes_of(source, form)),
        FiberName::Row(form, place) => push_row_name(told, source, form, place),
        FiberName::Left => push_word(told, "left"),
        FiberName::Right => push_word(told, "right"),
        FiberName::Watcher | FiberName::Hidden => push_about(told, "fiber ", number),
    }
}

// Adds the name of one of a row: the name of the row, a dot and the number in the row.
fn push_row_name(
    told: &mut Vec<u8>,
    source: &Source,
    form: usize,
    place: usize,
) -> Result<(), AllocError> {
    push_shown(told, bytes_of(source, form))?;
    push_about(told, ".", place)
}

// Adds the name of a ref or a deferred in its file, or this word and this number if there is none.
fn push_cell_name(
    told: &mut Vec<u8>,
    source: &Source,
    name: BinderName,
    word: &str,
    number: u16,
) -> Result<(), AllocError> {
    match name {
        BinderName::Word(form) => push_shown(told, bytes_of(source, form)),
        BinderName::Row(form, place) => push_row_name(told, source, form, place),
        BinderName::Hidden | BinderName::Watcher => push_about(told, word, number),
    }
}

/// The name of a fiber of a replay: that of fiber 0 is `main`.
pub(crate) fn fiber_name(replay: &Named, fiber: u16) -> FiberName {
    match replay.fibers.get(usize::from(fiber)) {
        Some(name) => *name,
        None => FiberName::Hidden,
    }
}

/// Adds the name of a fiber of a replay. `AllocError` if memory runs out.
pub(crate) fn push_fiber(
    told: &mut Vec<u8>,
    source: &Source,
    replay: &Named,
    fiber: u16,
) -> Result<(), AllocError> {
    push_fiber_name(told, source, fiber_name(replay, fiber), usize::from(fiber))
}

/// Adds the name of a ref of a replay. `AllocError` if memory runs out.
pub(crate) fn push_ref(
    told: &mut Vec<u8>,
    source: &Source,
    replay: &Named,
    number: u16,
) -> Result<(), AllocError> {
    let name = cell_name(replay.refs.as_slice(), number);
    push_cell_name(told, source, name, "ref ", number)
}

/// Adds the name of a deferred of a replay. `AllocError` if memory runs out.
pub(crate) fn push_deferred(
    told: &mut Vec<u8>,
    source: &Source,
    replay: &Named,
    number: u16,
) -> Result<(), AllocError> {
    let name = cell_name(replay.deferreds.as_slice(), number);
    push_cell_name(told, source, name, "deferred ", number)
}

// The name of this number; `Hidden` if there is none.
fn cell_name(names: &[BinderName], number: u16) -> BinderName {
    match names.get(usize::from(number)) {
        Some(name) => *name,
        None => BinderName::Hidden,
    }
}

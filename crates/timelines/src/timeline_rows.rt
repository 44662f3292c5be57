//! The text of a timeline.

use crate::columns::Columns;
use crate::sights::{born, seen};
use crate::words::push_event;
use fiber_events::{Event, Told};
use itoa::Buffer;
use std::alloc::{AllocError, Global};

/// The timeline of a replay, as text.
///
/// Under a heading there is a row for each entry with a visible effect, with its number and, in the column of its
/// fiber, what it did; a wait that goes on has one row. If the table would be wider than 120 columns, each fiber has a
/// table of its own, one below the other. The last lines are the entry that was refused, if one was, and the number of
/// entries that moved no fiber, if there were any. Returns `AllocError` if memory runs out.
pub fn timeline(alloc: Global, told: &Told) -> Result<String, AllocError> {
    let events = told.events.as_slice();
    let rows = seen(alloc, events)?;
    let columns = Columns::new(alloc, rows.as_slice(), born(events))?;
    let mut text = String::new(alloc);
    if columns.fit() {
        push_table(&mut text, rows.as_slice(), &columns)?;
    } else {
        push_blocks(&mut text, rows.as_slice(), &columns)?;
    }
    push_foot(&mut text, told)?;
    Ok(text)
}

// A number of spaces.
fn push_spaces(text: &mut String, spaces: usize) -> Result<(), AllocError> {
    for _ in 0..spaces {
        text.push(' ')?;
    }
    Ok(())
}

// A number at the right of its column, and two spaces.
fn push_entry(text: &mut String, width: usize, entry: usize) -> Result<(), AllocError> {
    let mut digits = Buffer::new();
    let number = digits.format(entry);
    push_spaces(text, width.saturating_sub(number.len()))?;
    text.push_str(number)?;
    text.push_str("  ")
}

// The name of a fiber.
fn push_fiber(text: &mut String, fiber: usize) -> Result<(), AllocError> {
    let mut digits = Buffer::new();
    text.push_str("fiber ")?;
    text.push_str(digits.format(fiber))
}

// The heading of the column of the entries.
fn push_heading(text: &mut String, columns: &Columns) -> Result<(), AllocError> {
    push_spaces(text, columns.entry.saturating_sub(5))?;
    text.push_str("entry  ")
}

// A table of all fibers, side by side.
fn push_table(text: &mut String, rows: &[Event], columns: &Columns) -> Result<(), AllocError> {
    push_heading(text, columns)?;
    push_names(text, columns.fibers.as_slice())?;
    for event in rows {
        push_entry(text, columns.entry, event.entry)?;
        push_spaces(text, start(columns.fibers.as_slice(), event.fiber))?;
        push_event(text, event)?;
        text.push('\n')?;
    }
    Ok(())
}

// The names of the fibers, each at the start of its column.
fn push_names(text: &mut String, widths: &[usize]) -> Result<(), AllocError> {
    let mut behind = 0;
    for (fiber, width) in widths.iter().enumerate() {
        push_spaces(text, behind)?;
        let before = text.len();
        push_fiber(text, fiber)?;
        behind = width.saturating_sub(text.len().saturating_sub(before));
    }
    text.push('\n')
}

// The distance from the first fiber's column to the column of a fiber.
fn start(widths: &[usize], fiber: u16) -> usize {
    let mut start = 0usize;
    for width in widths.iter().take(usize::from(fiber)) {
        start = start.saturating_add(*width);
    }
    start
}

// A table for each fiber, one below the other.
fn push_blocks(text: &mut String, rows: &[Event], columns: &Columns) -> Result<(), AllocError> {
    for fiber in 0..columns.fibers.len() {
        if fiber > 0 {
            text.push('\n')?;
        }
        push_heading(text, columns)?;
        push_fiber(text, fiber)?;
        text.push('\n')?;
        push_own_rows(text, rows, columns.entry, fiber)?;
    }
    Ok(())
}

// The rows of one fiber.
fn push_own_rows(
    text: &mut String,
    rows: &[Event],
    width: usize,
    fiber: usize,
) -> Result<(), AllocError> {
    for event in rows {
        if usize::from(event.fiber) == fiber {
            push_entry(text, width, event.entry)?;
            push_event(text, event)?;
            text.push('\n')?;
        }
    }
    Ok(())
}

// The entry that was refused, and the number of entries that moved no fiber.
fn push_foot(text: &mut String, told: &Told) -> Result<(), AllocError> {
    let idle = told.made.saturating_sub(told.events.as_slice().len());
    let mut digits = Buffer::new();
    if told.end.is_err() {
        text.push_str("\nentry ")?;
        text.push_str(digits.format(told.made.saturating_add(1)))?;
        text.push_str(" was refused\n")?;
    }
    if idle > 0 {
        text.push_str("\n")?;
        text.push_str(digits.format(idle))?;
        text.push_str(if idle == 1 {
            " entry moved nobody\n"
        } else {
            " entries moved nobody\n"
        })?;
    }
    Ok(())
}

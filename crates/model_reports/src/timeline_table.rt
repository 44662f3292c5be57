//! The timeline of a schedule, in the names and the places of a file.

use crate::digits::{push_times, push_word};
use crate::event_words::push_event;
use crate::named_file::NamedFile;
use crate::names::push_fiber;
use crate::rows::{Row, Rows, rows_of};
use crate::timeline_columns::{Columns, push_entries, push_made, push_row_place};
use itoa::Buffer;
use model_runs::Named;
use model_terms::Source;
use std::alloc::{AllocError, Global};

// The number of spaces before each line.
const MARGIN: usize = 5;

/// Adds the timeline of a replay: a row for each entry with a visible effect, with its number, its place in the file
/// and, in the column of its fiber, what the entry did. If a line would have more than 120 bytes, one column has the
/// names of the fibers instead, and what they did is behind it. The first rows, which make refs and deferreds, are one
/// row if there are more than four. `AllocError` if memory runs out.
pub(crate) fn push_timeline(
    told: &mut Vec<u8>,
    alloc: Global,
    file: NamedFile,
    source: &Source,
    replay: &Named,
) -> Result<(), AllocError> {
    let rows = rows_of(alloc, replay)?;
    let columns = Columns::new(alloc, file, source, replay, &rows)?;
    let table = Table {
        file,
        source,
        replay,
        columns: &columns,
        aside: columns.fit(MARGIN),
    };
    push_heading(told, table)?;
    push_made_row(told, alloc, table, &rows)?;
    for row in rows.rest() {
        push_row(told, table, row)?;
    }
    Ok(())
}

// The parts of a table.
#[derive(Clone, Copy)]
struct Table<'a> {
    file: NamedFile<'a>,
    source: &'a Source,
    replay: &'a Named,
    columns: &'a Columns,
    // Whether each fiber has a column of its own.
    aside: bool,
}

// Adds the row for what the first rows make, if they are one row.
fn push_made_row(
    told: &mut Vec<u8>,
    alloc: Global,
    table: Table,
    rows: &Rows,
) -> Result<(), AllocError> {
    if let Some(made) = rows.made()
        && let Some((first, _)) = rows.ends()
    {
        let mut entries = Vec::new(alloc);
        push_entries(&mut entries, rows)?;
        push_front(told, table, entries.as_slice(), &first)?;
        push_fiber_of(told, table, &first)?;
        push_made(told, made)?;
        told.push(b'\n')?;
    }
    Ok(())
}

// Adds a row: the number of the entry, its place in the file, and what its fiber did.
fn push_row(told: &mut Vec<u8>, table: Table, row: &Row) -> Result<(), AllocError> {
    let mut digits = Buffer::new();
    push_front(told, table, digits.format(row.event.entry).as_bytes(), row)?;
    push_fiber_of(told, table, row)?;
    push_event(told, table.source, table.replay, &row.event)?;
    told.push(b'\n')?;
    Ok(())
}

// Adds spaces up to the column of a row's fiber, or the fiber's name and the spaces behind it.
fn push_fiber_of(told: &mut Vec<u8>, table: Table, row: &Row) -> Result<(), AllocError> {
    if table.aside {
        return push_times(told, b' ', start(table.columns.fibers.as_slice(), row));
    }
    let before = told.len();
    push_fiber(told, table.source, table.replay, row.event.fiber)?;
    let wide = told.len().saturating_sub(before);
    push_times(told, b' ', table.columns.names.saturating_sub(wide))
}

// Adds the headings of the columns.
fn push_heading(told: &mut Vec<u8>, table: Table) -> Result<(), AllocError> {
    push_times(told, b' ', MARGIN)?;
    push_times(told, b' ', table.columns.entry.saturating_sub(5))?;
    push_word(told, "entry  place")?;
    push_times(told, b' ', table.columns.place.saturating_sub(5))?;
    if table.aside {
        push_names(told, table)
    } else {
        push_word(told, "fiber\n")
    }
}

// Adds the names of the fibers, each at the start of its column.
fn push_names(told: &mut Vec<u8>, table: Table) -> Result<(), AllocError> {
    let mut behind = 0;
    for (fiber, width) in table.columns.fibers.iter().enumerate() {
        if *width > 0 {
            push_times(told, b' ', behind)?;
            let before = told.len();
            push_numbered(told, table, fiber)?;
            behind = width.saturating_sub(told.len().saturating_sub(before));
        }
    }
    told.push(b'\n')?;
    Ok(())
}

// Adds the name of a fiber.
fn push_numbered(told: &mut Vec<u8>, table: Table, fiber: usize) -> Result<(), AllocError> {
    let number = u16::try_from(fiber).unwrap_or(u16::MAX);
    push_fiber(told, table.source, table.replay, number)
}

// Adds the entries and the place of a row.
fn push_front(
    told: &mut Vec<u8>,
    table: Table,
    entries: &[u8],
    row: &Row,
) -> Result<(), AllocError> {
    push_times(told, b' ', MARGIN)?;
    let before = table.columns.entry.saturating_sub(entries.len());
    push_times(told, b' ', before)?;
    told.extend_from_slice(entries)?;
    push_word(told, "  ")?;
    let before = told.len();
    push_row_place(told, table.file, table.source, row)?;
    let wide = told.len().saturating_sub(before);
    push_times(told, b' ', table.columns.place.saturating_sub(wide))
}

// The distance of the column of a row's fiber from that of the first fiber.
fn start(widths: &[usize], row: &Row) -> usize {
    let mut start = 0usize;
    for width in widths.iter().take(usize::from(row.event.fiber)) {
        start = start.saturating_add(*width);
    }
    start
}

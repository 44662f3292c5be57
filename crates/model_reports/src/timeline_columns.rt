//! The widths of the columns of a timeline.

use crate::digits::{push_about, push_number, push_word, width_of};
use crate::event_words::push_event;
use crate::named_file::{NamedFile, position_in_file, push_position, start_of};
use crate::names::{fiber_name, push_fiber};
use crate::rows::{Row, Rows};
use made_rows::Made;
use model_claims::FiberName;
use model_runs::Named;
use model_terms::Source;
use std::alloc::{AllocError, Global};

// The greatest number of bytes of a line in a table with a column for each fiber.
const WIDEST: usize = 120;

// The least width of the columns of the entries and of the places: that of their headings.
const HEADING: usize = 5;

// The number of spaces behind a column.
const GAP: usize = 2;

/// The columns of a timeline.
#[derive(Drop)]
pub(crate) struct Columns {
    /// The width of the column of the entries.
    pub(crate) entry: usize,
    /// The width of the column of the places, with the spaces behind it.
    pub(crate) place: usize,
    /// The width of the column of each fiber, with the spaces behind it; 0 for a fiber without a column.
    pub(crate) fibers: Vec<usize>,
    /// The width of the longest name of a fiber with a column, with the spaces behind it.
    pub(crate) names: usize,
}

impl Columns {
    /// Returns columns that are wide enough for these rows.
    pub(crate) fn new(
        alloc: Global,
        file: NamedFile,
        source: &Source,
        replay: &Named,
        rows: &Rows,
    ) -> Result<Columns, AllocError> {
        let entry = entry_width(alloc, rows)?;
        let place = place_width(alloc, file, source, rows)?;
        let mut fibers = name_widths(alloc, source, replay)?;
        widen_by_rows(alloc, source, replay, rows.rest(), fibers.as_mut_slice())?;
        widen_by_made(alloc, rows, fibers.as_mut_slice())?;
        let names = longest_name(alloc, source, replay, fibers.as_slice())?;
        Ok(Columns {
            entry,
            place,
            fibers,
            names,
        })
    }

    /// Whether all columns fit side by side behind `margin` spaces: the widest line has at most 120 bytes.
    pub(crate) fn fit(&self, margin: usize) -> bool {
        let mut width = margin.saturating_add(self.entry).saturating_add(self.place);
        for fiber in self.fibers.iter() {
            width = width.saturating_add(*fiber);
        }
        width <= WIDEST
    }
}

/// Adds the place of a row in the file, if any: its line and its column. `AllocError` if memory runs out.
pub(crate) fn push_row_place(
    told: &mut Vec<u8>,
    file: NamedFile,
    source: &Source,
    row: &Row,
) -> Result<(), AllocError> {
    let Some(form) = row.form else {
        return Ok(());
    };
    match position_in_file(file, start_of(source, form)) {
        Some(position) => push_position(told, position),
        None => Ok(()),
    }
}

/// Adds the entries of the rows that are one row, as `2-36`. `AllocError` if memory runs out.
pub(crate) fn push_entries(told: &mut Vec<u8>, rows: &Rows) -> Result<(), AllocError> {
    match rows.ends() {
        Some((first, last)) => {
            push_number(told, first.event.entry)?;
            push_about(told, "-", last.event.entry)
        }
        None => Ok(()),
    }
}

/// Adds what the rows make that are one row: `makes 18 refs and deferreds`. `AllocError` if memory runs out.
pub(crate) fn push_made(told: &mut Vec<u8>, made: Made) -> Result<(), AllocError> {
    push_about(told, "makes ", made.refs.saturating_add(made.deferreds))?;
    push_word(told, made_words(made))
}

// The words for what is made.
fn made_words(made: Made) -> &'static str {
    match (made.refs, made.deferreds) {
        (_, 0) => " refs",
        (0, _) => " deferreds",
        _ => " refs and deferreds",
    }
}

// The width of the column of the entries.
fn entry_width(alloc: Global, rows: &Rows) -> Result<usize, AllocError> {
    let mut cell = Vec::new(alloc);
    push_entries(&mut cell, rows)?;
    let widest = match rows.rest().last() {
        Some(row) => HEADING.max(width_of(row.event.entry)),
        None => HEADING,
    };
    Ok(widest.max(cell.len()))
}

// The width of the column of the places, with the spaces behind it.
fn place_width(
    alloc: Global,
    file: NamedFile,
    source: &Source,
    rows: &Rows,
) -> Result<usize, AllocError> {
    let mut widest = HEADING;
    let mut cell = Vec::new(alloc);
    if let Some((first, _)) = rows.ends() {
        push_row_place(&mut cell, file, source, &first)?;
        widest = widest.max(cell.len());
    }
    for row in rows.rest() {
        cell.clear();
        push_row_place(&mut cell, file, source, row)?;
        widest = widest.max(cell.len());
    }
    Ok(widest.saturating_add(GAP))
}

// The widths of the columns of the fibers by their names. A fiber without a name in the file has a column only if it
// has a row.
fn name_widths(alloc: Global, source: &Source, replay: &Named) -> Result<Vec<usize>, AllocError> {
    let mut widths = Vec::new(alloc);
    for fiber in 0..replay.fibers.len() {
        let width = name_width(alloc, source, replay, fiber)?;
        widths.push(width)?;
    }
    Ok(widths)
}

// The width of the column of a fiber by its name.
fn name_width(
    alloc: Global,
    source: &Source,
    replay: &Named,
    fiber: usize,
) -> Result<usize, AllocError> {
    let number = u16::try_from(fiber).unwrap_or(u16::MAX);
    match fiber_name(replay, number) {
        FiberName::Watcher | FiberName::Hidden => Ok(0),
        FiberName::Main
        | FiberName::Word(_)
        | FiberName::Row(_, _)
        | FiberName::Left
        | FiberName::Right => full_width(alloc, source, replay, number),
    }
}

// The width of the name of a fiber, with the spaces behind it.
fn full_width(
    alloc: Global,
    source: &Source,
    replay: &Named,
    fiber: u16,
) -> Result<usize, AllocError> {
    let mut name = Vec::new(alloc);
    push_fiber(&mut name, source, replay, fiber)?;
    Ok(name.len().saturating_add(GAP))
}

// Makes each column with rows at least as wide as its rows and the name of its fiber.
fn widen_by_rows(
    alloc: Global,
    source: &Source,
    replay: &Named,
    rows: &[Row],
    widths: &mut [usize],
) -> Result<(), AllocError> {
    let mut cell = Vec::new(alloc);
    for row in rows {
        cell.clear();
        push_event(&mut cell, source, replay, &row.event)?;
        let own = cell.len().saturating_add(GAP);
        let name = full_width(alloc, source, replay, row.event.fiber)?;
        widen(widths, usize::from(row.event.fiber), own.max(name));
    }
    Ok(())
}

// Makes the column of main at least as wide as what it makes.
fn widen_by_made(alloc: Global, rows: &Rows, widths: &mut [usize]) -> Result<(), AllocError> {
    if let Some(made) = rows.made() {
        let mut cell = Vec::new(alloc);
        push_made(&mut cell, made)?;
        widen(widths, 0, cell.len().saturating_add(GAP));
    }
    Ok(())
}

// The width of the longest name of a fiber with a column, with the spaces behind it.
fn longest_name(
    alloc: Global,
    source: &Source,
    replay: &Named,
    widths: &[usize],
) -> Result<usize, AllocError> {
    let mut longest = HEADING.saturating_add(GAP);
    for (fiber, width) in widths.iter().enumerate() {
        if *width > 0 {
            let number = u16::try_from(fiber).unwrap_or(u16::MAX);
            longest = longest.max(full_width(alloc, source, replay, number)?);
        }
    }
    Ok(longest)
}

// Makes a column at least `wide` bytes wide.
fn widen(widths: &mut [usize], place: usize, wide: usize) {
    if let Some(width) = widths.get_mut(place) {
        *width = wide.max(*width);
    }
}

//! The widths of the columns of a timeline.

use crate::words::push_event;
use fiber_events::Event;
use itoa::Buffer;
use std::alloc::{AllocError, Global};

// The greatest width of a line in a table with a column for each fiber.
const WIDEST: usize = 120;

// The least width of a fiber's column, with the spaces after it.
const NARROWEST: usize = 20;

// The least width of the column of the entries: that of its heading.
const ENTRY: usize = 6;

/// The columns of a timeline.
#[derive(Drop)]
pub(crate) struct Columns {
    /// The width of the column of the entries.
    pub(crate) entry: usize,
    /// The width of each fiber's column, with two spaces after it.
    pub(crate) fibers: Vec<usize>,
    // The width of the last fiber's name or of its widest row. No spaces follow it.
    last: usize,
}

impl Columns {
    /// Columns that are wide enough for these rows of `born` fibers.
    pub(crate) fn new(alloc: Global, rows: &[Event], born: usize) -> Result<Columns, AllocError> {
        let mut fibers = vec![in alloc; NARROWEST; born]?;
        let mut last = name_width(born.saturating_sub(1));
        let mut cell = String::new(alloc);
        for event in rows {
            cell.clear();
            push_event(&mut cell, event)?;
            widen(
                fibers.as_mut_slice(),
                usize::from(event.fiber),
                cell.len().saturating_add(2),
            );
            if usize::from(event.fiber).saturating_add(1) == born {
                last = cell.len().max(last);
            }
        }
        Ok(Columns {
            entry: entry_width(rows),
            fibers,
            last,
        })
    }

    /// Whether the columns of all fibers fit side by side: the widest line has at most 120 bytes.
    pub(crate) fn fit(&self) -> bool {
        let mut width = self.entry.saturating_add(2);
        for fiber in self.fibers.iter().take(self.fibers.len().saturating_sub(1)) {
            width = width.saturating_add(*fiber);
        }
        width.saturating_add(self.last) <= WIDEST
    }
}

// The width of a fiber's name: `fiber`, a space and the number.
fn name_width(fiber: usize) -> usize {
    let mut digits = Buffer::new();
    digits.format(fiber).len().saturating_add(6)
}

// Widens a column to at least `wide`.
fn widen(widths: &mut [usize], place: usize, wide: usize) {
    if let Some(width) = widths.get_mut(place) {
        *width = wide.max(*width);
    }
}

// The width of the column of the entries.
fn entry_width(rows: &[Event]) -> usize {
    match rows.last() {
        Some(event) => {
            let mut digits = Buffer::new();
            ENTRY.max(digits.format(event.entry).len())
        }
        None => ENTRY,
    }
}

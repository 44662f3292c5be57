//! The timeline of a schedule on a page, as a table and as a picture.

use crate::digits::{push_number, push_word};
use crate::escaped::push_escaped;
use crate::event_words::push_event;
use crate::judged::JudgedModel;
use crate::names::{fiber_name, push_fiber};
use crate::rows::{Row, Rows, rows_of};
use crate::timeline_columns::{Columns, push_entries, push_made, push_row_place};
use fiber_events::Event;
use model_claims::FiberName;
use model_runs::Named;
use model_terms::Source;
use std::alloc::{AllocError, Global};
use timelines::{Wording, drawn};

/// Adds the timeline of a replay: a table with a row for each entry with a visible effect, and a picture. Each is in a
/// box of its own, which scrolls. `AllocError` if memory runs out.
pub(crate) fn push_html_timeline(
    told: &mut Vec<u8>,
    alloc: Global,
    judged: JudgedModel,
    replay: &Named,
) -> Result<(), AllocError> {
    let rows = rows_of(alloc, replay)?;
    let fibers = shown_fibers(alloc, judged, replay, &rows)?;
    push_word(
        told,
        "<div class=\"scroll\" tabindex=\"0\" role=\"region\" aria-label=\"Timeline\"><table>\n<thead><tr>",
    )?;
    push_headings(told, alloc, judged.source, replay, fibers.as_slice())?;
    push_word(told, "</tr></thead>\n<tbody>\n")?;
    push_made_row(told, judged, fibers.as_slice(), &rows)?;
    for row in rows.rest() {
        push_row(told, alloc, judged, replay, fibers.as_slice(), row)?;
    }
    push_word(told, "</tbody>\n</table></div>\n")?;
    push_picture(told, alloc, judged.source, replay)
}

// The fibers that have a column: those that have one in the timeline of the report.
fn shown_fibers(
    alloc: Global,
    judged: JudgedModel,
    replay: &Named,
    rows: &Rows,
) -> Result<Vec<u16>, AllocError> {
    let columns = Columns::new(alloc, judged.file, judged.source, replay, rows)?;
    let mut fibers = Vec::new(alloc);
    for (fiber, width) in columns.fibers.iter().enumerate() {
        if *width > 0 {
            fibers.push(u16::try_from(fiber).unwrap_or(u16::MAX))?;
        }
    }
    Ok(fibers)
}

// Adds the headings of the columns.
fn push_headings(
    told: &mut Vec<u8>,
    alloc: Global,
    source: &Source,
    replay: &Named,
    fibers: &[u16],
) -> Result<(), AllocError> {
    push_word(told, "<th>entry</th><th>place</th>")?;
    let mut name = Vec::new(alloc);
    for fiber in fibers {
        name.clear();
        push_fiber(&mut name, source, replay, *fiber)?;
        push_word(told, "<th>")?;
        push_escaped(told, alloc, name.as_slice())?;
        push_word(told, "</th>")?;
    }
    Ok(())
}

// Adds the row for what the first rows make, if they are one row.
fn push_made_row(
    told: &mut Vec<u8>,
    judged: JudgedModel,
    fibers: &[u16],
    rows: &Rows,
) -> Result<(), AllocError> {
    if let Some(made) = rows.made()
        && let Some((first, _)) = rows.ends()
    {
        push_word(told, "<tr><td>")?;
        push_entries(told, rows)?;
        push_word(told, "</td><td>")?;
        push_row_place(told, judged.file, judged.source, &first)?;
        push_word(told, "</td>")?;
        for fiber in fibers {
            push_word(told, "<td>")?;
            if *fiber == first.event.fiber {
                push_made(told, made)?;
            }
            push_word(told, "</td>")?;
        }
        push_word(told, "</tr>\n")?;
    }
    Ok(())
}

// Adds a row: the number of the entry, its place in the file, and, in the column of its fiber, what the entry did.
fn push_row(
    told: &mut Vec<u8>,
    alloc: Global,
    judged: JudgedModel,
    replay: &Named,
    fibers: &[u16],
    row: &Row,
) -> Result<(), AllocError> {
    push_word(told, "<tr><td>")?;
    push_number(told, row.event.entry)?;
    push_word(told, "</td><td>")?;
    push_row_place(told, judged.file, judged.source, row)?;
    push_word(told, "</td>")?;
    let mut words = Vec::new(alloc);
    push_event(&mut words, judged.source, replay, &row.event)?;
    for fiber in fibers {
        push_word(told, "<td>")?;
        if *fiber == row.event.fiber {
            push_escaped(told, alloc, words.as_slice())?;
        }
        push_word(told, "</td>")?;
    }
    push_word(told, "</tr>\n")
}

// Adds the picture.
fn push_picture(
    told: &mut Vec<u8>,
    alloc: Global,
    source: &Source,
    replay: &Named,
) -> Result<(), AllocError> {
    let wording = FileWording {
        alloc,
        source,
        replay,
    };
    let picture = drawn(alloc, replay.events.as_slice(), replay.made, &wording)?;
    push_word(
        told,
        "<div class=\"scroll\" tabindex=\"0\" role=\"region\" aria-label=\"Picture\">",
    )?;
    told.extend_from_slice(picture.as_bytes())?;
    push_word(told, "</div>\n")
}

// The words of a picture in the names of a file.
#[derive(Clone, Copy)]
struct FileWording<'a> {
    alloc: Global,
    source: &'a Source,
    replay: &'a Named,
}

impl FileWording<'_> {
    // Adds bytes as text of a document.
    fn push(&self, text: &mut String, words: &[u8]) -> Result<(), AllocError> {
        let mut escaped = Vec::new(self.alloc);
        push_escaped(&mut escaped, self.alloc, words)?;
        let told = String::from_utf8_lossy(self.alloc, escaped.as_slice())?;
        text.push_str(&*told)
    }
}

impl Wording for FileWording<'_> {
    fn push_fiber(&self, text: &mut String, fiber: usize) -> Result<(), AllocError> {
        let mut name = Vec::new(self.alloc);
        let number = u16::try_from(fiber).unwrap_or(u16::MAX);
        match fiber_name(self.replay, number) {
            FiberName::Watcher => push_word(&mut name, "watch")?,
            _ => push_fiber(&mut name, self.source, self.replay, number)?,
        }
        self.push(text, name.as_slice())
    }

    fn push_event(&self, text: &mut String, event: &Event) -> Result<(), AllocError> {
        let mut words = Vec::new(self.alloc);
        push_event(&mut words, self.source, self.replay, event)?;
        self.push(text, words.as_slice())
    }
}

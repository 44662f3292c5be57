//! The whole picture.

use crate::arrows::push_arrows;
use crate::lanes::push_lanes;
use crate::legend::{HEIGHT, WIDTH, push_axis, push_legend, push_missing};
use crate::scale::{LEFT, MOST_LANES, Scale};
use crate::sights::born;
use crate::style::STYLE;
use crate::wording::{Numbered, Wording};
use fiber_events::{Event, Told};
use std::alloc::{AllocError, Global};

// The width of most letters of a name, at most.
const LETTER: usize = 7;

/// The picture of a replay: one SVG document, without scripts.
///
/// Each fiber, up to the 100th, has a lane from its birth to its end. Time goes to the right by entries: 14 points for
/// each of up to 120 entries, and 1680 points in all for more. A plain tick is left out if its fiber already has a sign
/// at the same point. Returns `AllocError` if memory runs out.
pub fn picture(alloc: Global, told: &Told) -> Result<String, AllocError> {
    let events = told.events.as_slice();
    let scale = Scale {
        entries: told.made,
        born: born(events),
        left: LEFT,
    };
    let mut text = String::new(alloc);
    push_head(alloc, &mut text, scale)?;
    text.push_str(STYLE)?;
    push_shapes(alloc, &mut text, scale, events, &Numbered)?;
    Ok(text)
}

/// The picture of the events of `entries` entries, drawn as [`picture`] draws it, with the words of `wording`. The page
/// has the style ([`STYLE`]) once, inside an `svg`. Returns `AllocError` if memory runs out.
pub fn drawn<W: Wording>(
    alloc: Global,
    events: &[Event],
    entries: usize,
    wording: &W,
) -> Result<String, AllocError> {
    let born = born(events);
    let scale = Scale {
        entries,
        born,
        left: names_end(alloc, born, wording)?,
    };
    let mut text = String::new(alloc);
    push_head(alloc, &mut text, scale)?;
    push_shapes(alloc, &mut text, scale, events, wording)?;
    Ok(text)
}

// The distance from the left at which the names of the fibers end and time begins.
fn names_end<W: Wording>(alloc: Global, born: usize, wording: &W) -> Result<usize, AllocError> {
    let mut widest = LEFT;
    let mut name = String::new(alloc);
    for fiber in 0..born.min(MOST_LANES) {
        name.clear();
        wording.push_fiber(&mut name, fiber)?;
        widest = widest.max(name.len().saturating_mul(LETTER).saturating_add(32));
    }
    Ok(widest)
}

// Draws all shapes, and ends the picture.
fn push_shapes<W: Wording>(
    alloc: Global,
    text: &mut String,
    scale: Scale,
    events: &[Event],
    wording: &W,
) -> Result<(), AllocError> {
    text.push_str("<rect class=\"paper\" width=\"100%\" height=\"100%\"/>\n")?;
    push_axis(text, scale)?;
    push_lanes(alloc, text, scale, events, wording)?;
    push_arrows(alloc, text, scale, events)?;
    push_missing(text, scale)?;
    push_legend(text, scale.bottom().saturating_add(20))?;
    text.push_str("</svg>\n")
}

// The text before the style: the size of the picture, and its title.
fn push_head(alloc: Global, text: &mut String, scale: Scale) -> Result<(), AllocError> {
    let width = scale.right().saturating_add(200).max(WIDTH);
    let height = scale.bottom().saturating_add(20 + HEIGHT);
    let head = format!(in alloc;
        "<svg xmlns=\"http://www.w3.org/2000/svg\" width=\"{width}\" height=\"{height}\" \
        viewBox=\"0 0 {width} {height}\" role=\"img\">\n<title>What the fibers of a run did</title>\n"
    )?;
    text.push_str(head.as_str())
}

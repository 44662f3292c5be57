//! The meanings of the shades, signs and arrows of a picture, and the numbers of the entries.

use crate::scale::{BAR, Scale, TOP};
use crate::shapes::{Place, push_bar, push_counted, push_line, push_sign, push_words};
use std::alloc::AllocError;

// The distance between the samples of the legend.
const APART: usize = 104;

/// The height of the legend.
pub(crate) const HEIGHT: usize = 108;

/// The width of the legend.
pub(crate) const WIDTH: usize = 16 + 7 * APART;

// The shades, each with its class.
const SHADES: &[(&str, &str)] = &[
    ("runs", "unmasked"),
    ("masked", "masked"),
    ("polled", "in a poll"),
    ("final", "finalizers"),
];

// The signs, each with its class and its drawing.
const SIGNS: &[(&str, &str, &str)] = &[
    ("tick", "m7 4v10", "a move"),
    ("says", "m7 4l5 5l-5 5l-5 -5z", "say"),
    ("cut", "m2 0l10 18m0 -18l-10 18", "cut"),
    ("ok", "m0 9a7 7 0 1 0 14 0a7 7 0 1 0 -14 0z", "succeeded"),
    ("bad", "m7 1l8 15h-16z", "errored"),
    ("gone", "m1 3h12v12h-12z", "canceled"),
];

// The arrows, each with its class.
const ARROWS: &[(&str, &str)] = &[
    ("starts", "starts"),
    ("cancels", "requests cancel"),
    ("wakes", "wakes"),
];

/// Draws the numbers of the entries over the lanes, with lines through the lanes.
pub(crate) fn push_axis(text: &mut String, scale: Scale) -> Result<(), AllocError> {
    push_words(text, "faint", Place { x: 16, y: 20 }, "entry")?;
    let step = step(scale.entries);
    let mut entry = 0usize;
    for _ in 0..21 {
        if entry > scale.entries {
            return Ok(());
        }
        let x = scale.at(entry);
        push_counted(text, "faint small", Place { x, y: 20 }, "", entry)?;
        let from = Place {
            x,
            y: TOP.saturating_sub(14),
        };
        push_line(
            text,
            "grid",
            from,
            Place {
                x,
                y: scale.bottom(),
            },
        )?;
        entry = entry.saturating_add(step);
    }
    Ok(())
}

// The number of entries from one label to the next: 1 for fewer than 10 entries, since labels of one digit have room
// side by side; otherwise 1, 2 or 5 times a power of ten, so that there are at most 21 labels, with that of 0.
fn step(entries: usize) -> usize {
    if entries < 10 {
        return 1;
    }
    let mut step = 2usize;
    for factor in [
        5usize, 10, 20, 50, 100, 200, 500, 1000, 2000, 5000, 10_000, 20_000, 50_000,
    ] {
        if entries > step.saturating_mul(20) {
            step = factor;
        }
    }
    step
}

/// Draws the legend, from the height `top` on.
pub(crate) fn push_legend(text: &mut String, top: usize) -> Result<(), AllocError> {
    push_shades(text, top)?;
    push_signs(text, top.saturating_add(34))?;
    push_arrows(text, top.saturating_add(68))
}

// Draws the words after a sample.
fn push_meaning(text: &mut String, at: Place, words: &str) -> Result<(), AllocError> {
    let behind = Place {
        x: at.x.saturating_add(30),
        y: at.y.saturating_add(13),
    };
    push_words(text, "faint", behind, words)
}

// Draws the shades, the hatching of a wait, and the bars of brackets.
fn push_shades(text: &mut String, top: usize) -> Result<(), AllocError> {
    let mut at = Place { x: 16, y: top };
    for (class, words) in SHADES {
        push_bar(text, class, at, 24, BAR)?;
        push_meaning(text, at, words)?;
        at.x = at.x.saturating_add(APART);
    }
    push_bar(text, "runs", at, 24, BAR)?;
    push_bar(text, "waits", at, 24, BAR)?;
    push_meaning(text, at, "waits")?;
    at.x = at.x.saturating_add(APART);
    let below = Place {
        x: at.x,
        y: at.y.saturating_add(8),
    };
    push_bar(text, "span", below, 24, 3)?;
    push_meaning(text, at, "acquired to released")
}

// Draws the signs.
fn push_signs(text: &mut String, top: usize) -> Result<(), AllocError> {
    let mut at = Place { x: 16, y: top };
    for (class, drawing, words) in SIGNS {
        push_sign(text, class, at, drawing)?;
        push_meaning(text, at, words)?;
        at.x = at.x.saturating_add(APART);
    }
    Ok(())
}

// Draws the arrows.
fn push_arrows(text: &mut String, top: usize) -> Result<(), AllocError> {
    let mut at = Place { x: 16, y: top };
    for (class, words) in ARROWS {
        let from = Place {
            x: at.x,
            y: at.y.saturating_add(9),
        };
        let to = Place {
            x: at.x.saturating_add(26),
            y: from.y,
        };
        push_line(text, class, from, to)?;
        push_meaning(text, at, words)?;
        at.x = at.x.saturating_add(2 * APART);
    }
    Ok(())
}

/// Draws the words about fibers without a lane, under the lanes.
pub(crate) fn push_missing(text: &mut String, scale: Scale) -> Result<(), AllocError> {
    let missing = scale.born.saturating_sub(scale.lanes());
    if missing == 0 {
        return Ok(());
    }
    let at = Place {
        x: scale.left,
        y: scale.bottom(),
    };
    push_counted(text, "faint", at, "fibers without a lane: ", missing)
}

//! The lanes of all fibers.

use crate::lane::Lane;
use crate::scale::Scale;
use crate::shapes::{Place, push_words};
use crate::wording::Wording;
use crate::words::push_outcome;
use cell_registry::Call;
use effect_term::{Outcome, Reply};
use fiber_events::{Deed, Event};
use std::alloc::{AllocError, Global};

/// Draws the lanes, one below the other.
pub(crate) fn push_lanes<W: Wording>(
    alloc: Global,
    text: &mut String,
    scale: Scale,
    events: &[Event],
    wording: &W,
) -> Result<(), AllocError> {
    for fiber in 0..scale.lanes() {
        push_name(alloc, text, scale, fiber, wording)?;
        push_lane(alloc, text, scale, events, fiber, wording)?;
    }
    Ok(())
}

// Draws the name of a fiber, before its lane.
fn push_name<W: Wording>(
    alloc: Global,
    text: &mut String,
    scale: Scale,
    fiber: usize,
    wording: &W,
) -> Result<(), AllocError> {
    let at = Place {
        x: 16,
        y: scale.middle(fiber).saturating_add(4),
    };
    let mut name = String::new(alloc);
    wording.push_fiber(&mut name, fiber)?;
    push_words(text, "name", at, name.as_str())
}

// Draws the lane of a fiber, and its outcome.
fn push_lane<W: Wording>(
    alloc: Global,
    text: &mut String,
    scale: Scale,
    events: &[Event],
    fiber: usize,
    wording: &W,
) -> Result<(), AllocError> {
    let mut lane = Lane::new(alloc, fiber, scale.at(birth(events, fiber)));
    let mut words = String::new(alloc);
    for event in events {
        if usize::from(event.fiber) == fiber {
            words.clear();
            wording.push_event(&mut words, event)?;
            lane.push(text, scale, event, words.as_str())?;
        }
    }
    if lane.outcome.is_none() {
        lane.close(text, scale, scale.at(scale.entries))?;
    }
    lane.push_signs(text)?;
    push_end(alloc, text, scale, fiber, lane.outcome)
}

// Draws the outcome of a fiber, after its lane.
fn push_end(
    alloc: Global,
    text: &mut String,
    scale: Scale,
    fiber: usize,
    outcome: Option<Outcome>,
) -> Result<(), AllocError> {
    let at = Place {
        x: scale.right(),
        y: scale.middle(fiber).saturating_add(4),
    };
    let mut words = String::new(alloc);
    match outcome {
        Some(outcome) => push_outcome(&mut words, outcome)?,
        None => words.push_str("unended")?,
    }
    push_words(text, "faint", at, words.as_str())
}

// The entry that started a fiber: 0 for fiber 0.
fn birth(events: &[Event], fiber: usize) -> usize {
    for event in events {
        if let Deed::Called(Call::Start, Reply::Number(number)) = event.deed
            && usize::from(number) == fiber
        {
            return event.entry;
        }
    }
    0
}

//! The arrows of a picture: a fiber starts, cancels or wakes another one.

use crate::scale::{BAR, Scale};
use crate::shapes::{Place, push_line};
use crate::sights::{is_seen, waits};
use cell_registry::Call;
use effect_term::{CancelReply, JoinReply, Reply};
use fiber_events::{Deed, Event};
use std::alloc::{AllocError, Global};

// The greatest number of deferreds of a run.
const DEFERREDS: usize = 1000;

// A moment of a fiber.
#[derive(Clone, Copy, Debug)]
struct Moment {
    fiber: usize,
    x: usize,
}

// The events that fibers can wait for, and which fibers wait.
#[derive(Drop)]
struct Wakes {
    // The end of each fiber.
    ended: Vec<Option<Moment>>,
    // The completion of each deferred.
    completed: Vec<Option<Moment>>,
    // Whether each fiber waits.
    waits: Vec<bool>,
}

/// Draws the arrows, over all lanes.
pub(crate) fn push_arrows(
    alloc: Global,
    text: &mut String,
    scale: Scale,
    events: &[Event],
) -> Result<(), AllocError> {
    let mut wakes = Wakes::new(alloc, scale.born)?;
    for event in events {
        let here = Moment {
            fiber: usize::from(event.fiber),
            x: scale.of(event),
        };
        push_down(text, scale, here, event)?;
        if let Some(from) = wakes.take(here, event) {
            push_arrow(text, "wakes", scale, from, here)?;
        }
    }
    Ok(())
}

// Draws the arrow of a start or of a request.
fn push_down(
    text: &mut String,
    scale: Scale,
    here: Moment,
    event: &Event,
) -> Result<(), AllocError> {
    match event.deed {
        Deed::Called(Call::Start, Reply::Number(child)) => {
            let there = Moment {
                fiber: usize::from(child),
                x: here.x,
            };
            push_arrow(text, "starts", scale, here, there)
        }
        Deed::Called(Call::Cancel(fiber), Reply::Cancel(CancelReply::Asked)) => {
            let there = Moment {
                fiber: usize::from(fiber),
                x: here.x,
            };
            push_arrow(text, "cancels", scale, here, there)
        }
        _ => Ok(()),
    }
}

// Draws an arrow from one lane to another, if both fibers have lanes.
fn push_arrow(
    text: &mut String,
    class: &str,
    scale: Scale,
    from: Moment,
    to: Moment,
) -> Result<(), AllocError> {
    let lanes = scale.lanes();
    if from.fiber == to.fiber || from.fiber >= lanes || to.fiber >= lanes {
        return Ok(());
    }
    let down = from.fiber < to.fiber;
    let start = Place {
        x: from.x,
        y: edge(scale, from.fiber, down),
    };
    let end = Place {
        x: to.x,
        y: edge(scale, to.fiber, !down),
    };
    push_line(text, class, start, end)
}

// The lower or the upper edge of a fiber's bar.
fn edge(scale: Scale, fiber: usize, lower: bool) -> usize {
    let top = scale.top(fiber);
    if lower { top.saturating_add(BAR) } else { top }
}

impl Wakes {
    // The state before the first entry.
    fn new(alloc: Global, born: usize) -> Result<Wakes, AllocError> {
        Ok(Wakes {
            ended: vec![in alloc; None; born]?,
            completed: vec![in alloc; None; DEFERREDS]?,
            waits: vec![in alloc; false; born]?,
        })
    }

    // Records an event. Returns the moment that woke its fiber, if the fiber waited and goes on.
    fn take(&mut self, here: Moment, event: &Event) -> Option<Moment> {
        if !is_seen(event) {
            return None;
        }
        let waited = match self.waits.get_mut(here.fiber) {
            Some(waited) => std::mem::replace(waited, waits(event)),
            None => false,
        };
        self.keep(here, event);
        if waited { self.waker(event) } else { None }
    }

    // Records an end or a completion, which fibers can wait for.
    fn keep(&mut self, here: Moment, event: &Event) {
        match event.deed {
            Deed::Called(Call::Finish(_), _) => put(self.ended.as_mut_slice(), here.fiber, here),
            Deed::Called(Call::Complete(number, _), Reply::Completed(true)) => {
                put(self.completed.as_mut_slice(), usize::from(number), here);
            }
            _ => {}
        }
    }

    // The moment for which the fiber of an event has waited.
    fn waker(&self, event: &Event) -> Option<Moment> {
        match event.deed {
            Deed::Called(Call::Join(fiber), Reply::Join(JoinReply::Ended(_))) => {
                *self.ended.get(usize::from(fiber))?
            }
            Deed::Called(Call::Read(number), Reply::Read(Some(_))) => {
                *self.completed.get(usize::from(number))?
            }
            _ => None,
        }
    }
}

// Records a moment at a place.
fn put(moments: &mut [Option<Moment>], place: usize, moment: Moment) {
    if let Some(kept) = moments.get_mut(place) {
        *kept = Some(moment);
    }
}

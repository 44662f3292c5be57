//! The events with a visible effect.

use cell_registry::Call;
use effect_term::{JoinReply, Reply};
use fiber_events::{Deed, Event};
use std::alloc::{AllocError, Global};

// What a fiber waits for.
#[derive(Clone, Copy, PartialEq, Eq, Debug)]
enum Topic {
    // The fiber doesn't wait.
    Nothing,
    // The end of this fiber.
    Fiber(u16),
    // The completion of this deferred.
    Deferred(u16),
    // Something that never comes.
    Never,
}

// What the fiber of an event waits for after it.
fn waits_for(event: &Event) -> Topic {
    match event.deed {
        Deed::Called(Call::Join(fiber), Reply::Join(JoinReply::Waits)) => Topic::Fiber(fiber),
        Deed::Called(Call::Read(number), Reply::Read(None)) => Topic::Deferred(number),
        Deed::Rested => Topic::Never,
        _ => Topic::Nothing,
    }
}

/// Whether the fiber of an event waits after it: for the end of a fiber, a deferred, or without end.
pub(crate) fn waits(event: &Event) -> bool {
    waits_for(event) != Topic::Nothing
}

/// Whether an event has a visible effect: it is neither a look that found no request, nor a move that changes only its
/// fiber and adds no mark.
pub(crate) fn is_seen(event: &Event) -> bool {
    match event.deed {
        Deed::Called(Call::Look, Reply::Seen(asked)) => asked,
        Deed::Alone => event.mark.is_some(),
        _ => true,
    }
}

/// The number of fibers that were started: fiber 0, and one with each start.
pub(crate) fn born(events: &[Event]) -> usize {
    let mut born = 1usize;
    for event in events {
        if let Deed::Called(Call::Start, _) = event.deed {
            born = born.saturating_add(1);
        }
    }
    born
}

/// The events with a visible effect, in their order, and only the first event of each wait. Returns `AllocError` if
/// memory runs out.
pub(crate) fn seen(alloc: Global, events: &[Event]) -> Result<Vec<Event>, AllocError> {
    let mut waits = vec![in alloc; Topic::Nothing; born(events)]?;
    let mut rows = Vec::new(alloc);
    for event in events {
        if is_new(waits.as_mut_slice(), event) {
            rows.push(*event)?;
        }
    }
    Ok(rows)
}

// Whether an event has a visible effect and isn't a wait that goes on. Records what each fiber waits for.
fn is_new(waits: &mut [Topic], event: &Event) -> bool {
    if !is_seen(event) {
        return false;
    }
    let now = waits_for(event);
    match waits.get_mut(usize::from(event.fiber)) {
        Some(before) => {
            let goes_on = now != Topic::Nothing && *before == now;
            *before = now;
            !goes_on
        }
        None => true,
    }
}

//! The lines that say what fibers wait for.

use crate::digits::push_word;
use crate::names::{fiber_name, push_deferred, push_fiber};
use model_claims::FiberName;
use model_runs::{Waits, Why};
use model_terms::Source;
use std::alloc::AllocError;

/// Adds a line for each fiber that hasn't ended, which says what it waits for, and a blank line before them. The fibers
/// that read refs for a claim have none. `AllocError` if memory runs out.
pub(crate) fn push_waits(
    told: &mut Vec<u8>,
    source: &Source,
    waits: &Waits,
) -> Result<(), AllocError> {
    let mut behind = false;
    for (fiber, why) in waits.whys.iter().enumerate() {
        let number = u16::try_from(fiber).unwrap_or(u16::MAX);
        if is_wait(*why) && fiber_name(&waits.replay, number) != FiberName::Watcher {
            push_gap(told, behind)?;
            behind = true;
            push_wait(told, source, waits, number, *why)?;
        }
    }
    Ok(())
}

// Adds a blank line, unless a line of a fiber is before.
fn push_gap(told: &mut Vec<u8>, behind: bool) -> Result<(), AllocError> {
    if !behind {
        push_word(told, "\n")?;
    }
    Ok(())
}

// Whether a fiber waits.
fn is_wait(why: Why) -> bool {
    matches!(
        why,
        Why::WaitsForEnd(_) | Why::WaitsForDeferred(_) | Why::WaitsWithoutEnd
    )
}

// Adds the line of a fiber.
fn push_wait(
    told: &mut Vec<u8>,
    source: &Source,
    waits: &Waits,
    fiber: u16,
    why: Why,
) -> Result<(), AllocError> {
    push_word(told, "     ")?;
    push_fiber(told, source, &waits.replay, fiber)?;
    match why {
        Why::WaitsForEnd(other) => {
            push_word(told, " waits for the end of ")?;
            push_fiber(told, source, &waits.replay, other)?;
        }
        Why::WaitsForDeferred(number) => {
            push_word(told, " waits for deferred ")?;
            push_deferred(told, source, &waits.replay, number)?;
            push_word(told, ", which nobody completes")?;
        }
        Why::WaitsWithoutEnd | Why::CouldGoOn | Why::Ended => {
            push_word(told, " waits without end")?
        }
    }
    push_word(told, "\n")
}

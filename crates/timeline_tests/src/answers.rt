//! The answers to texts under a schedule.

ghost use Rattle.cell_registry.specs.Cells.{AreLimits};

use exploration_text::{Bounds, ExploreOrder, Want, read_want};
use outcome_trace::{Answer, Limits, TextOrder, read_schedule};
use std::alloc::Global;
use std::test::Fail;
use timelines::{ExploreTimelineOrder, PictureOrder, TimelineOrder};

/// Limits for small programs, with this number of fibers (1 to 16).
pub fn limits(fibers: u16) -> Limits
    ensures { AreLimits result }
{
    Limits {
        fibers: fibers.max(1).min(16),
        refs: 16,
        deferreds: 16,
        count: 1000,
    }
}

/// The answer to a program under a schedule, with its timeline.
pub fn with_timeline(
    alloc: Global,
    program: &str,
    schedule: &str,
    fibers: u16,
) -> Result<Answer, Fail> {
    let entries = read_schedule(alloc, schedule)?;
    let order = TimelineOrder {
        schedule: entries.as_slice(),
        limits: limits(fibers),
    };
    Ok(order.answer(alloc, program.as_bytes())?)
}

/// The answer to a program under a schedule, as a picture.
pub fn pictured(alloc: Global, program: &str, schedule: &str, fibers: u16) -> Result<Answer, Fail> {
    let entries = read_schedule(alloc, schedule)?;
    let order = PictureOrder {
        schedule: entries.as_slice(),
        limits: limits(fibers),
    };
    Ok(order.answer(alloc, program.as_bytes())?)
}

// Adds the outcomes that words spell.
fn push_wants(wants: &mut Vec<Want>, words: &[&str]) -> Result<(), Fail> {
    for word in words {
        match read_want(word) {
            Some(Want::Ended(outcome)) => wants.push(Want::Ended(outcome))?,
            Some(Want::Unended) => wants.push(Want::Unended)?,
            None => return Err(Fail::new("no outcome is spelled so")),
        }
    }
    Ok(())
}

/// The order to explore with at most this number of fibers (1 to 16) and these wanted outcomes.
pub fn exploration(alloc: Global, fibers: u16, words: &[&str]) -> Result<ExploreOrder, Fail> {
    let mut wants = Vec::new(alloc);
    push_wants(&mut wants, words)?;
    Ok(ExploreOrder {
        limits: limits(fibers),
        bounds: Bounds {
            worlds: 100_000,
            entries: 1000,
            memory: usize::MAX,
        },
        wants,
    })
}

/// The answer to a program that is explored, with its timelines.
pub fn explored_with_timelines(
    alloc: Global,
    program: &str,
    fibers: u16,
    words: &[&str],
) -> Result<Answer, Fail> {
    let order = ExploreTimelineOrder {
        order: exploration(alloc, fibers, words)?,
    };
    Ok(order.answer(alloc, program.as_bytes())?)
}

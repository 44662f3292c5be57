//! The answers to texts that are sampled, explored or replayed.

ghost use Rattle.cell_registry.specs.Cells.{AreLimits};

use exploration_text::{Bounds, ExploreOrder, SampleOrder};
use outcome_trace::{Answer, Limits, ReplayOrder, TextOrder, read_schedule};
use std::alloc::Global;
use std::test::Fail;

// Limits for small programs, with this number of fibers (1 to 16).
fn limits(fibers: u16) -> Limits
    ensures { AreLimits result }
{
    Limits {
        fibers: fibers.max(1).min(16),
        refs: 16,
        deferreds: 16,
        count: 1000,
    }
}

/// The order to draw `times` schedules, with at most these numbers of fibers (1 to 16) and entries (0 to 1000).
pub fn order(alloc: Global, fibers: u16, seed: u64, times: u32, entries: u32) -> SampleOrder {
    SampleOrder {
        limits: limits(fibers),
        seed,
        times,
        entries: entries.min(1000),
        wants: Vec::new(alloc),
    }
}

/// The answer to a sample of `times` schedules of a program, drawn with this seed.
pub fn sampled(alloc: Global, program: &str, seed: u64, times: u32) -> Result<Answer, Fail> {
    Ok(order(alloc, 16, seed, times, 1000).answer(alloc, program.as_bytes())?)
}

/// The order to explore a small program.
pub fn explore_order(alloc: Global) -> ExploreOrder {
    ExploreOrder {
        limits: limits(16),
        bounds: Bounds {
            worlds: 100_000,
            entries: 1000,
            memory: usize::MAX,
        },
        wants: Vec::new(alloc),
    }
}

/// The answer to a program that is explored.
pub fn explored(alloc: Global, program: &str) -> Result<Answer, Fail> {
    Ok(explore_order(alloc).answer(alloc, program.as_bytes())?)
}

/// The answer to a program under a schedule.
pub fn replayed(alloc: Global, program: &str, schedule: &str) -> Result<Answer, Fail> {
    let entries = read_schedule(alloc, schedule)?;
    let order = ReplayOrder {
        schedule: entries.as_slice(),
        limits: limits(16),
    };
    Ok(order.answer(alloc, program.as_bytes())?)
}

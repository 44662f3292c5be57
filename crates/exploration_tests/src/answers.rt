//! The order of an exploration.

ghost use Rattle.std.specs.Prelude.{◌≤◌};
ghost use Rattle.cell_registry.specs.Cells.{AreLimits};

use exploration_text::{Bounds, ExploreOrder};
use outcome_trace::Limits;
use std::alloc::Global;

// Limits for small programs, with this number of fibers (1 to 16).
fn limits(fibers: u16) -> Limits
    ensures { AreLimits result }
{
    Limits {
        fibers: fibers.max(1).min(16),
        refs: 16,
        deferreds: 16,
        count: 1000,
    }
}

/// An exploration with at most these numbers of fibers (1 to 16), worlds and entries (up to 1,000,000). Only a fault is
/// unwanted.
pub fn exploring(alloc: Global, fibers: u16, worlds: usize, entries: usize) -> ExploreOrder
    requires { entries ≤ 1000000 }
{
    ExploreOrder {
        limits: limits(fibers),
        bounds: Bounds {
            worlds,
            entries,
            memory: usize::MAX,
        },
        wants: Vec::new(alloc),
    }
}

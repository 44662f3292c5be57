//! Limits for small programs.

ghost use Rattle.cell_registry.specs.Cells.{AreLimits};

use outcome_trace::Limits;

/// Limits with this number of refs (1 to 16).
pub fn limits(refs: u16) -> Limits
    ensures { AreLimits result }
{
    Limits {
        fibers: 16,
        refs: refs.max(1).min(16),
        deferreds: 16,
        count: 1000,
    }
}

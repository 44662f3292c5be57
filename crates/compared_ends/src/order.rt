//! The order to compare two programs.
ghost use Rattle.std.specs.Prelude.{◌≤◌};
ghost use Rattle.cell_registry.specs.Cells.{AreLimits};

use crate::basis::Basis;
use cell_registry::Limits;
use every_schedule::Bounds;

/// How two programs are compared.
#[derive(Clone, Copy)]
pub struct CompareOrder {
    /// The numbers of fibers, refs and deferreds (each 1 to 1000), and how often a fiber can change its own cell (1 to
    /// 1,099,511,627,775), in both programs.
    pub limits: Limits,
    /// For each program, the greatest numbers of kept worlds and of entries of a schedule (0 to 1,000,000), and the
    /// number of bytes at which the search stops.
    pub bounds: Bounds,
    /// The basis of the comparison of ends.
    pub basis: Basis,
    /// Whether the answer is JSON.
    pub json: bool,
    pub ghost ranges: { AreLimits limits },
    pub ghost entries: { bounds.entries ≤ 1000000 },
}

//! The limits of a registry, and the refusals at them.
ghost use Rattle.std.specs.Prelude.{◌≡◌};
ghost use Rattle.cell_registry.specs.declared.limits.RunError.TheVariants.{NoMemory};

use std::alloc::AllocError;

/// The size of each band of a registry, from 1 to 1000, and how often the owner of a fiber can change its cell, from 1
/// to 1,099,511,627,775.
#[derive(Clone, Copy, Debug)]
pub struct Limits {
    /// The number of fibers, fiber 0 included.
    pub fibers: u16,
    /// The number of refs.
    pub refs: u16,
    /// The number of deferreds.
    pub deferreds: u16,
    /// The number of changes that the owner of each fiber can make.
    pub count: u64,
}

/// The kinds of numbers that a registry gives.
#[derive(Clone, Copy, PartialEq, Eq, Debug)]
pub enum Band {
    /// The numbers of fibers. Fiber 0 exists from the start; a start gives each other number.
    Fibers,
    /// The numbers of refs, from 0.
    Refs,
    /// The numbers of deferreds, from 0.
    Deferreds,
}

/// Why a registry refuses a call. A refused call isn't an entry of the history, and changes no cell. A pass of the
/// lock-free registry that finds a band full can have seen more of the calls of others.
#[derive(Clone, Copy, PartialEq, Eq, Debug)]
pub enum CellError {
    /// All numbers of the band are given: this many.
    Full(Band, u16),
    /// The caller has made as many changes of its cell as the limit, this number, allows.
    Spent(u64),
}

/// Why a run of a whole program ends without a report.
#[derive(Clone, Copy, PartialEq, Eq, Debug)]
pub enum RunError {
    /// A fiber needed another number of a band, and all of them, this many, are given.
    Full(Band, u16),
    /// The fiber of this number has made as many changes as the limit allows.
    Spent(u16),
    /// Memory ran out.
    NoMemory,
    /// The fiber of this number should move, and wasn't found.
    Lost(u16),
    /// No worker thread could be started.
    NoWorker,
}

impl From<AllocError> for RunError {
    ghost from_gives = { λ _ e. e ≡ NoMemory };

    fn from(_: AllocError) -> RunError {
        RunError::NoMemory
    }
}

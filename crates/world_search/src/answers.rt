//! The bounds of a search, and its result.

use crate::landings::Landing;

/// The bounds of a search.
#[derive(Clone, Copy)]
pub struct Bounds {
    /// The greatest number of worlds that are kept; 0 counts as 1, and a number above 2^32 - 1 as 2^32 - 1.
    pub worlds: usize,
    /// The greatest number of entries of a schedule. A number above 2^32 - 1 counts as 2^32 - 1.
    pub entries: usize,
    /// The number of bytes at which the search stops, counted as in [`Found::bytes`]. The search checks it before the
    /// entries at each world, so the entries at one world can exceed it.
    pub memory: usize,
}

/// An answer: a schedule, and the settled world or fault that it leads to.
#[derive(Drop)]
pub struct Answer {
    /// The fibers that make the entries, in order.
    pub schedule: Vec<u16>,
    /// A settled world, whose report no further entry changes, or a fault.
    pub end: Landing,
}

/// The result of a search.
#[derive(Drop)]
pub struct Found {
    /// One settled world for each report, then the faults. If the search isn't complete, these are only the certain
    /// ones. Worlds are met breadth first, so the schedules are short; no contract promises this.
    pub answers: Vec<Answer>,
    /// Whether every schedule was searched: then each schedule that leads to a fault or to a settled world leads to a
    /// listed fault or report. This holds if all worlds are kept, each is met by fewer entries than their bound, fewer
    /// bytes are counted than their bound, and the watcher didn't end the search.
    pub complete: bool,
    /// Whether the watcher ended the search.
    pub halted: bool,
    /// The number of worlds in the store.
    pub worlds: usize,
    /// The number of entries that lead from one world to another one.
    pub edges: usize,
    /// The number of bytes that are counted: 13 for each world, 8 for each of `edges`, and those of the store
    /// ([`Worlds::bytes`](crate::Worlds::bytes)). It is an estimate of the memory in use.
    pub bytes: usize,
}

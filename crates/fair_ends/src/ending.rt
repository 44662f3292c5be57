//! The result of a decision about fair schedules.

/// Whether each fair schedule ends.
#[derive(Drop)]
pub enum Ending {
    /// Each fair schedule ends.
    Ends,
    /// A fair schedule repeats this cycle for ever, without an end.
    Repeats(Cycle),
    /// A bound was met, the watcher ended the search, or a check of the ranks or of the cycle failed.
    Undecided,
}

/// A cycle that a fair schedule can repeat for ever.
#[derive(Drop)]
pub struct Cycle {
    /// The entries that lead from the first world to the world at which the cycle begins, which isn't at rest.
    pub stem: Vec<u16>,
    /// The entries that lead from that world back to it. Each fiber has one, or its entry there changes nothing.
    pub cycle: Vec<u16>,
}

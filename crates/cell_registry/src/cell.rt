//! What a registry keeps of one fiber.
use effect_term::Outcome;

/// How far a fiber has come.
#[derive(Clone, Copy)]
pub enum Stage {
    /// The fiber runs its program.
    Running,
    /// A request for its cancellation was observed, and it runs its finalizers.
    Finalizing,
    /// The fiber has ended, with this outcome.
    Ended(Outcome),
}

/// The shared state of one fiber.
pub struct Cell {
    /// How far the fiber has come.
    pub stage: Stage,
    /// The number of active masks.
    pub depth: u8,
    /// Whether its cancellation is requested.
    pub request: bool,
    /// Whether a fiber has joined it.
    pub waited: bool,
    /// The number of changes that its owner has made.
    pub count: u64,
}

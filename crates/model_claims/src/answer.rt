//! One answer of an exploration, as claims see it.

use effect_term::{Outcome, Value};

/// The name of a fiber in the file.
#[derive(Clone, Copy, PartialEq, Eq, Debug)]
pub enum FiberName {
    /// Fiber 0.
    Main,
    /// A word of the file, which can be `_`: the number of its form.
    Word(usize),
    /// A name of a row, as `w.1`: the number of the form that spells the row's name, and the number in the row.
    Row(usize, usize),
    /// The first fiber of a `race` or a `both`.
    Left,
    /// The second fiber of a `race` or a `both`.
    Right,
    /// A fiber that reads a ref once, at any moment.
    Watcher,
    /// A fiber that the file doesn't name, as the cancelers of a `race`.
    Hidden,
}

/// One fiber of an answer.
#[derive(Clone, Copy)]
pub struct SeenFiber {
    /// Its name in the file.
    pub name: FiberName,
    /// Its outcome; none if the fiber hasn't ended.
    pub outcome: Option<Outcome>,
    /// The index in [`Seen::says`] where the fiber's values begin.
    pub says_from: usize,
    /// The index in [`Seen::says`] where the fiber's values end.
    pub says_to: usize,
}

/// One answer.
#[derive(Drop)]
pub struct Seen {
    /// Its fibers, fiber 0 first; empty for a fault.
    pub fibers: Vec<SeenFiber>,
    /// The values that the fibers said: those of each fiber in their order, fiber 0 first. A `say` that a probe added
    /// isn't among them.
    pub says: Vec<Value>,
    /// Whether the order of a `before` was broken: a fiber said the second value, and none had said the first.
    pub late: bool,
    /// Whether the answer is a fault: a call was refused.
    pub faulty: bool,
}

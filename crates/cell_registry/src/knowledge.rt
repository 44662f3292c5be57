//! What the holder of a pass knows; used only in contracts and proofs.
use crate::call::Entry;
use crate::limits::Limits;
use std::collections::LinkedList;

/// What a pass knows. No program makes such a value: it is what contracts and proofs see of the pass's seat at the
/// table.
pub struct Knowledge {
    /// The limits of the pass's registry.
    pub limits: Limits,
    /// The pass's fiber.
    pub number: u16,
    /// The fibers whose calls only this pass makes: its own, and those of the passes that it met.
    pub fibers: LinkedList<u16>,
    /// The whole history up to the last step of the pass.
    pub seen: LinkedList<Entry>,
    /// The fibers of a pass that this pass is meeting, until the next step.
    pub guests: LinkedList<u16>,
    /// The history that a pass had seen which this pass is meeting, until the next step.
    pub heard: LinkedList<Entry>,
    /// What the pass stored last in its fiber's value word: `None` from the start of the fiber until its end. Until
    /// then the word is 0.
    pub stored: Option<u64>,
}

//! Which of its moves a fiber makes next.

/// The kind of the next move.
#[derive(Clone, Copy)]
pub(crate) enum MoveCase {
    /// A look at the request: no mask is active.
    Looks,
    /// A cut, after a look that saw the request: no mask is active.
    Cuts,
    /// The row of the leaf.
    Reduces,
    /// No move: the fiber has ended or is broken.
    Rests,
}

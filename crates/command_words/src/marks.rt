//! Which marks the reports of an exploration have.

/// The marks that reports have.
#[derive(Clone, Copy)]
pub enum Marks {
    /// All marks.
    All,
    /// The values that fibers said, and the codes that were dropped.
    Says,
    /// No marks.
    Nothing,
}

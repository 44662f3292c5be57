//! What fibers wait for.

/// What a fiber can wait for.
#[derive(Clone, Copy, PartialEq, Eq, Debug)]
pub enum Topic {
    /// The end of the fiber of this number.
    Fiber(u16),
    /// The completion of the deferred of this number.
    Deferred(u16),
    /// Nothing that can come: the fiber goes on only if its cancellation is requested.
    Never,
}

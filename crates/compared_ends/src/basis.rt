//! The basis of a comparison of two programs' ends.

/// The basis of a comparison of ends. A fault is an end of its own, equal only to the same fault.
#[derive(Clone, Copy, PartialEq, Eq, Debug)]
pub enum Basis {
    /// The outcome of fiber 0, if it has ended, and the values that it said, in their order.
    FirstFiber,
    /// The outcome of each fiber, if it has ended, in the order of their numbers. What the fibers said doesn't count.
    AllFibers,
}

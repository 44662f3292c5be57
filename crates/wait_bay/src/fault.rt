//! Why a task is refused.
use fiber_poll::FiberTask;

/// Why a bay refuses a task.
#[derive(Clone, Copy, Debug, PartialEq, Eq, Drop)]
pub enum PutError {
    /// The task's number isn't this slot's.
    WrongSlot(u16),
    /// A task is in this slot, or another worker is putting or taking one.
    Occupied(u16),
}

/// A task that a bay refused.
#[derive(Drop)]
pub struct PutFault<'a> {
    /// The task, as it was.
    pub task: FiberTask<'a>,
    /// Why it was refused.
    pub error: PutError,
}

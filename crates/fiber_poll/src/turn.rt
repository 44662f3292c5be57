//! The result of a turn.

use crate::task::FiberTask;
use crate::topic::Topic;
use effect_term::Outcome;

/// The result of a turn: the first event of its moves, or why it stopped without one.
#[derive(Drop)]
pub enum Turn<'a> {
    /// The fiber has ended, with this outcome.
    Ended(Outcome),
    /// The last move waits for this. The next move is the same one.
    Waits(Topic),
    /// The fiber yielded, or the budget of the turn is used up: another fiber can move first.
    Cedes,
    /// The fiber has started another, with this task.
    Started(FiberTask<'a>),
    /// The fiber was the first to request the cancellation of this other fiber, which possibly waits.
    WakeFiber(u16),
    /// The fiber completed what others possibly wait for.
    WakeTopic(Topic),
    /// The fiber has no moves left.
    OutOfMoves,
}

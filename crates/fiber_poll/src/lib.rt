//! Tasks: a fiber's state with its pass at a registry, and turns of moves.
//!
//! A [`FiberTask`] is one fiber of a registry that many threads can share. A turn makes its moves, one after another,
//! each under the registry's reply, up to the first event: the fiber ended, waits, yields, started another fiber, or
//! possibly woke one. The crate uses `fiber_frames` (a fiber's moves), `cell_registry` (the shared calls),
//! `scheduled_core` (the call that an ask wants, and the core) and `futures`. The crate promises that the calls which a
//! fiber's pass makes in a turn are those of its moves, in order and with their replies, that a turn returns their
//! first event, that a child begins as the model's child, and that the marks of every task are lawful at any moment.
//! Turns start no thread and wait for none. A [`FiberFuture`] is a task as a future, and [`alone`] runs a program that
//! starts no fiber, as the core does.
#![tactic(auto)]

mod answer;
mod call_log;
mod future;
mod move_end;
mod opening;
mod single;
mod task;
mod topic;
mod turn;

pub use call_log::{CallLog, NoLog};
pub use future::FiberFuture;
pub use opening::first;
pub use single::alone;
pub use task::FiberTask;
pub use topic::Topic;
pub use turn::Turn;

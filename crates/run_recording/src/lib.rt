//! From the workers' notes of their calls to a schedule in which each call has the same reply.
//!
//! A [`WorkerLog`] receives the turns of one worker (`fiber_poll`). Most replies show what came before their call: a
//! number that was given, an end that was found, a request that was the first. Replies to calls on refs don't, so these
//! calls are noted with the value that they found and left, and with the readings of a clock that all workers share.
//! From the notes of all workers [`Gathered`] makes a schedule: each fiber's moves in their own order, merged so that
//! each call finds what it found.
//!
//! The crate promises nothing about that schedule: a user of it replays it. The crate is safe and its calls end. A log
//! never fails the turns that it receives. Notes that are too long, or have no memory, are dropped.
#![tactic(auto)]

mod merging;
mod notes;
mod own_moves;
mod ref_order;
mod schedules;
mod worker_log;

pub use merging::MOST_ENTRIES;
pub use notes::{Notes, Whole};
pub use schedules::{Gathered, NoSchedule};
pub use worker_log::{TurnLog, WorkerLog};

//! The tasks of fibers that no worker holds, and the lists of which fiber waits for what.
//!
//! The crate uses the tasks (`fiber_poll`), the steps of slots and lists (`slot_laws`), the locks of `std` and the kit's
//! `atomic_table` and `once_cell`. A [`Bay`] has a slot for each fiber and a list of waiters for each topic. The bay
//! names a registry and a code, or nothing, and promises that a task taken from a slot is that of the slot's fiber and,
//! if the bay names them, a task of that registry and that code.
//!
//! The tasks are in the slots of a table, whose rule is this promise, and a worker takes and puts them from its own
//! [`BaySeat`]. Whether a fiber's task is there and whether it was woken is under a lock of that fiber, and each
//! topic's list is under a lock of its own. The operations under a lock are exact in the functions of [`laws`], which
//! borrow what the lock protects.
#![tactic(auto)]

mod bay;
mod emptying;
mod fault;
mod lists;
mod passage;
mod rule;
mod seat;

pub use bay::Bay;
pub use fault::{PutError, PutFault};
pub use rule::{BayRule, Knowledge, Names};
pub use seat::BaySeat;
pub use slot_laws as laws;

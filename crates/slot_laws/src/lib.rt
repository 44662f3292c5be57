//! What a fiber's slot and a topic's list of waiters do at each step.
//!
//! The crate uses `std` alone. A [`Slot`] knows whether a fiber's task is here, and whether the fiber was woken; the
//! [`Waiters`] of a topic are the fibers that wait for it, in the order in which they came. `wait_bay` has each of them
//! under a lock, and makes these steps on what the lock protects. The crate promises each step exactly: what the slot or
//! the list is afterwards, and what is returned.
#![tactic(auto)]

mod slot;
mod waiters;

pub use slot::{IsFull, Slot};
pub use waiters::Waiters;

//! What the workers of a run share without a lock: queues of ready numbers, and the first fault.
//!
//! The crate uses the kit's `crossbeam_deque` for the queues, `once_cell` for the fault, and the faults of
//! `cell_registry`. A [`ReadyDeque`] is a worker's own queue, a [`Victim`] another worker's end of it, and an
//! [`InjectorEnd`] one worker's end of the queue through which the first number enters. The crate promises that the
//! numbers pushed on a queue are, in order, those taken and then those left, and that a fault which one worker knows is
//! the fault that the run returns. That a queued number is found is only tested.
#![tactic(auto)]

mod deque;
mod faults;
mod injector;
mod traffic;

pub use deque::{ReadyDeque, Victim};
pub use faults::{FaultCell, FirstFault, Learned, first_fault, learn, within};
pub use injector::{InjectorEnd, ReadyInjector, empty_injector};
pub use traffic::{Ledgered, Traffic};

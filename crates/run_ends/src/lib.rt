//! The end of a run on workers: what they left is met, settled and reported, and the schedule of a recorded run is
//! certified.
//!
//! The crate uses tasks (`fiber_poll`), the core and its reports (`scheduled_core`), and the reasons why a recorded run
//! has no schedule (`run_recording`). [`gather`] takes the tasks of one registry and one code, moved by anyone in any
//! order, and makes a report of them. [`Leavings`] are the tasks that the workers of a run left: one thread moves their
//! fibers on until none can move. [`certify`] replays a schedule that was found for a recorded run.
//!
//! The crate promises that every report is one that the core has under some schedule, that a run's report is a final
//! one unless a fiber has used up its moves, and that a certified schedule leads to exactly the run's end.
#![tactic(auto)]

mod certifying;
mod finishing;
mod gathering;
mod settled_entries;

pub use certifying::{Recorded, certify};
pub use finishing::{Leavings, RunEnd};
pub use gathering::gather;
pub use settled_entries::SettledEntries;

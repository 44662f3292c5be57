//! Explores every schedule of a program: lists each final report and each fault, with a schedule that leads to it.
//!
//! The crate uses the core of `scheduled_core`, and the search of `world_search`, to which it gives the worlds of the
//! core. It promises that the schedule of each answer leads to that answer. If the exploration is complete, every final
//! report and every fault, under any schedule, is among its answers.
//!
//! [`search_claims`] checks claims, which compare the values of refs, in each world that a schedule leads to. It
//! returns each claim that is met, with a schedule to a world that meets it. If the search is complete, no schedule
//! leads to a world that meets any other of the claims. [`note_met`] checks claims in the worlds on the way of one
//! schedule.
//!
//! This explores a program, within limits of 3 fibers, one ref, one deferred and 1000 changes of each fiber:
//!
//! ```
//! let program = Program::check(alloc, parse(alloc, b"(race (pure 4) (never))")?)?;
//! let limits = Limits { fibers: 3, refs: 1, deferreds: 1, count: 1000 };
//! let bounds = Bounds { worlds: 10_000, entries: 10_000, memory: 1 << 30 };
//! let exploration = explore(alloc, &program, limits, bounds)?;
//! // All schedules were searched. They end in two reports: fiber 2 is cut before its first move, or in its poll.
//! assert_eq!((exploration.complete, exploration.answers.as_slice().len()), (true, 2));
//! ```
#![tactic(auto)]

mod births;
mod claimed;
mod claims;
mod core_world;
mod core_worlds;
mod current;
mod digests;
mod ending_worlds;
mod exploration;
mod explored;
mod fair_endings;
mod faults;
mod frames;
mod known;
mod leanings;
mod leaping;
mod moments;
mod needs;
mod own_moves;
mod persistent;
mod pool;
mod progress;
mod reduced_worlds;
mod reports;
mod resting;
mod rows;
mod seen_row;
mod seen_worlds;
mod table;
mod turns;
mod unfolding;
mod worths;

pub use claimed::{certify, search_claims};
pub use claims::{Claim, ClaimWord, Comparison};
pub use digests::{with_mark, with_outcome};
pub use exploration::{Answer, Answers, Exploration, Schedule};
pub use explored::{explore, explore_full, explore_watched};
pub use fair_endings::explore_ends;
pub use fair_ends::{Cycle, Ending};
pub use frames::frame_bytes;
pub use leanings::none_rise;
pub use moments::note_met;
pub use own_moves::stored_in;
pub use progress::Progress;
pub use seen_worlds::seen_after;
pub use world_search::{Bounds, Claimed, Met, TimeLimit, Unwatched, Watcher};

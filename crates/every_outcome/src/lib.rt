//! The outcomes that a program can have under every schedule, each with a schedule.
//!
//! The crate uses the core under a schedule (`scheduled_core`) and a search of all worlds that a schedule leads to
//! (`world_search`). Worlds count as one if they differ only in marks, the numbers of masks, the counts of changes, and
//! the notes of who was joined. So a loop with masks and brackets in it leads back to a known world. Directly after
//! each entry the search makes own moves, as `every_schedule` defines them: moves that no other fiber can see or
//! influence. The crate promises that a complete search lists the outcomes of each settled world under every count of
//! changes, and that the schedule of each answer leads to it.
//!
//! A search can keep *says*, marks of two kinds: the values that a fiber said, and the codes that were dropped
//! (`explore_says`). Worlds with different says are then two, and so are answers.
//!
//! A search for claims checks claims on refs in each of these worlds. There no own move that sets or changes a ref is
//! made at once. If the search is complete, no schedule leads to a world that meets a claim which it doesn't return.
//!
//! This explores a loop that enters a mask in each turn. Its one answer has no outcome, since fiber 0 never ends:
//!
//! ```
//! let program = Program::check(alloc, parse(alloc, b"(forever (uncancelable p (cede)))")?)?;
//! let limits = Limits { fibers: 1, refs: 1, deferreds: 1, count: 1000 };
//! let bounds = Bounds { worlds: 1_000, entries: 1_000, memory: 1 << 30 };
//! let found = explore_outcomes(alloc, &program, limits, bounds, &mut Unwatched)?;
//! assert_eq!((found.complete, found.answers.len()), (true, 1));
//! ```
#![tactic(auto)]

mod bare_answers;
mod claim_worlds;
mod claimed;
mod core_world;
mod exploring;
mod faults;
mod leaping;
mod outcomes;
mod own_moves;
mod reporting;
mod saying;
mod says;
mod shape;
mod unfolding;
mod world;
mod worlds;

pub use claimed::search_outcome_claims;
pub use every_schedule::{Claim, ClaimWord, Comparison};
pub use exploring::explore_outcomes;
pub use outcomes::{OutcomeAnswer, OutcomeExploration, Outcomes, Schedule, shortened};
pub use saying::explore_says;
pub use world_search::{Bounds, Claimed, Met, Unwatched, Watcher};

//! Random schedules of a program: the ends that they lead to, and how often each end comes.
//!
//! The crate uses the core under a schedule (`scheduled_core`), and the answers of an exploration of every schedule
//! (`every_schedule`). The crate promises that each answer is what its schedule leads to, that it is marked as cut
//! short exactly if each of its schedules was, that no further entry changes an answer without this mark, and that the
//! counts of all answers add up to the number of schedules that were drawn. The crate promises nothing about schedules
//! that weren't drawn. The numbers are those of xoshiro256++, so that a seed gives the same answers on every machine.
//!
//! [`sample_claims`] checks claims in each world on the way of such schedules. Each claim that it returns has a
//! schedule that leads to a world which meets the claim.
#![tactic(auto)]

mod claimed;
mod comings;
mod draws;
mod ends;
mod sampled;
mod walks;

pub use claimed::sample_claims;
pub use comings::{Coming, Comings, Drawn, Sample};
pub use sampled::{sample, sample_watched};

//! Whether every fair schedule of a system ends.
//!
//! The crate uses the systems of `world_search`, whose worlds can be at rest ([`Resting`]). A schedule is fair if each
//! fiber has entries again and again. [`decide_ends`] meets all worlds, gives each a rank and a helpful fiber, and
//! checks them; or it finds a cycle that a fair schedule can repeat for ever, and checks the cycle. The crate promises
//! that if the result is [`Ending::Ends`], each fair schedule leads to a fault or to a world at rest, and that a fair
//! schedule can repeat the cycle of [`Ending::Repeats`], which begins at a world that isn't at rest.
#![tactic(auto)]

mod certificate;
mod components;
mod cycles;
mod deciding;
mod ending;
mod paths;
mod rank;
mod ranking;
mod resting;
mod shortening;
mod table;
mod walking;

pub use deciding::decide_ends;
pub use ending::{Cycle, Ending};
pub use resting::{Made, Resting};

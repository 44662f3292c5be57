//! A search of every schedule from a first world: the settled worlds and the faults that schedules lead to.
//!
//! A system is a store of worlds and faults ([`Worlds`]): the entry of a fiber at a world leads to a world or to a
//! fault, and the store numbers both. A schedule is a list of fibers that make their entries in order. [`search`] makes
//! each entry at each world that it meets, once. A world is settled if no schedule from it changes its report or ends
//! in a fault. The search lists the reports of the settled worlds and the faults, each with a schedule that leads
//! there. If the search is complete, no schedule leads to another of these.
//!
//! The search finds the settled worlds backwards. A world isn't settled if one of its entries changes the report, ends
//! in a fault, or leads to a world that isn't settled.
#![tactic(auto)]

mod answers;
mod claims;
mod expanding;
mod graphs;
mod landings;
mod listing;
mod schedules;
mod searching;
mod spread;
mod store;
mod time_limit;
mod told;
mod watching;

pub use answers::{Answer, Bounds, Found};
pub use claims::{Claimed, Claims, Met, search_claims};
pub use landings::{Entered, Landing};
pub use searching::search;
pub use store::Worlds;
pub use time_limit::TimeLimit;
pub use watching::{Unwatched, Watcher};

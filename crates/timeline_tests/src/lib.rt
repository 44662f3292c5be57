//! Tests of the public calls of `fiber_events` and `timelines`. The expected events and timelines are worked out by
//! hand from the table of moves.
//!
//! The contracts of the libraries pin that the events are those of the core, and which text a timeline follows or a
//! picture replaces. These tests show what no proof does: the rows of a timeline and the shapes of a picture. The crate
//! has only tests, so that the libraries are proved without them.
#![tactic(auto)]

#[cfg(test)]
mod answers;
#[cfg(test)]
mod events;
#[cfg(test)]
mod explorations;
#[cfg(test)]
mod pictures;

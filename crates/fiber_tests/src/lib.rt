//! Tests of the public calls of `fiber_frames` and `outcome_trace`. The expected answers are worked out by hand.
//!
//! The contracts of both crates pin the results of their calls. These tests show what no proof does: that the calls
//! succeed with ample memory, and what texts look like. The crate has only tests, so that the libraries are proved
//! without them.
#![tactic(auto)]

#[cfg(test)]
mod frames;
#[cfg(test)]
mod schedules;
#[cfg(test)]
mod texts;

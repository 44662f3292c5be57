//! Tests of the public calls of `fiber_poll` and `wait_bay`, of `gather` with tasks that are turned by hand, and of
//! `run_recording` with logs that are made up. The expected answers are worked out by hand.
//!
//! The contracts of these crates pin the results of their calls. These tests show what no proof does: that the calls
//! succeed with ample memory, which event a turn returns first, that fibers which are turned in any order and then
//! gathered have the report of that order, that a fiber's pass goes on after a refusal, and that a wake isn't lost.
//! Nothing is promised of the schedules that `run_recording` makes: the tests show which rules they keep. The crate has
//! only tests, so that the libraries are proved without them.
#![tactic(auto)]

#[cfg(test)]
mod bays;
#[cfg(test)]
mod events;
#[cfg(test)]
mod made_up_logs;
#[cfg(test)]
mod memory;
#[cfg(test)]
mod orders;
#[cfg(test)]
mod programs;
#[cfg(test)]
mod refusals;
#[cfg(test)]
mod solo;
#[cfg(test)]
mod turning;

//! Tests of the public calls of `every_outcome`, `every_schedule`, `exploration_text`, `model_runs`,
//! `sampled_schedules` and `world_search`: texts worked out by hand, schedules that are replayed, searches that are
//! compared with the plain search, samples that are compared with explorations, and searches of one small graph of
//! worlds.
//!
//! The contracts of the libraries pin that what is written is right. These tests show what no proof does: that small
//! programs, and loops with masks and brackets in them, are explored completely where memory is ample, that a search of
//! several workers stays small because own moves are made at once, that samples are drawn, the same ones for the same
//! seed, that samples of small programs have their rare interleavings, and what the texts look like. The crate has only
//! tests and the store of worlds that they search, so that the libraries are proved without them.
#![tactic(auto)]

#[cfg(test)]
mod answers;
#[cfg(test)]
mod claims;
#[cfg(test)]
mod families;
#[cfg(test)]
mod first_findings;
#[cfg(test)]
mod loops;
#[cfg(test)]
mod places;
#[cfg(test)]
mod random;
#[cfg(test)]
mod random_texts;
#[cfg(test)]
mod reduced;
#[cfg(test)]
mod same_outcomes;
#[cfg(test)]
mod sample_answers;
#[cfg(test)]
mod sample_seeds;
#[cfg(test)]
mod sample_texts;
#[cfg(test)]
mod samples_found;
#[cfg(test)]
mod says;
#[cfg(test)]
mod searches;
#[cfg(test)]
mod semaphore;
#[cfg(test)]
mod wants;
#[cfg(test)]
mod watched;
#[cfg(test)]
mod watched_claims;
#[cfg(test)]
mod watched_models;

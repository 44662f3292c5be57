//! The exit status of the verdicts of all models.
//!
//! This crate uses the verdicts (`claim_verdicts`) and the statuses (`text_io`). It promises that [`status_of`] returns
//! 1 if a model failed, else 3 if one is undecided, else 0. `model_suites` has the verdict of each model.
#![tactic(auto)]

mod statuses;

pub use statuses::status_of;

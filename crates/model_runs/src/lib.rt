//! Explores models and judges their claims.
//!
//! This crate uses the terms and claims of models (`model_terms`, `model_claims`), the searches of a program
//! (`every_schedule`, `every_outcome`, `sampled_schedules`), the events of a replay (`fiber_events`) and the places of
//! a code's words (`code_sources`). [`run_model`] explores the term of a model, gives the answers in the names of the
//! file and judges the claims. [`check_model`] returns the first fault of a model before any model runs.
//!
//! It promises that a model's verdict is the worst of its claims' verdicts, that a claim's verdict follows from the
//! answers of its search, and that the outcomes of an answer are those to which its schedule leads in the core. A
//! complete search that keeps marks has every final report and every fault of any schedule among its answers. One
//! without marks has all outcomes that no further entry changes, and each band whose numbers can be used up; it judges
//! only claims on the outcomes of fibers. A claim about every answer passes only by a complete search.
//!
//! A claim at any moment on refs of known numbers is checked in each world. A claim about every moment passes only if
//! no schedule leads to a world that refutes it, and fails only by such a schedule or a fault. A claim about some
//! moment passes only by a schedule that meets it, and fails only if no schedule does.
#![tactic(auto)]

mod drawings;
mod goals;
mod held;
mod judging;
mod looking;
mod marks;
mod moments;
mod named;
mod origins;
mod outcomes;
mod plan;
mod prepared;
mod probes;
mod result;
mod run;
mod searching;
mod seeing;
mod stages;
mod unset;
mod verdicts;
mod waits;
mod warnings;
mod word_places;

pub use every_schedule::{TimeLimit, Unwatched, Watcher};
pub use named::Named;
pub use plan::SearchBounds;
pub use result::{ClaimResult, HeldRef, ModelResult, NamedAnswer, Search};
pub use run::{check_model, run_model, run_model_watched};
pub use scheduled_core::Why;
pub use waits::Waits;
pub use warnings::Warning;

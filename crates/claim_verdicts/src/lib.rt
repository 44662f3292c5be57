//! The verdict of a claim over the answers that were found.
//!
//! This crate uses `std` alone. [`judge`] takes the truth of a claim's condition at each answer of an exploration, and
//! returns the verdict and the first answer that decides it; [`under`] exchanges passed and failed for a claim under
//! `fails`. `model_claims` finds the truth at an answer, and re-exports what is here.
//!
//! It promises the verdict. A claim about every answer fails only if an answer refutes it, and passes only if none does
//! and there are no other answers. A claim about some answer passes only if an answer meets it, and fails only if none
//! does and there are no other answers. Otherwise a claim is undecided.
#![tactic(auto)]

mod judging;

pub use judging::{Judged, Rule, Truth, Verdict, judge, under};

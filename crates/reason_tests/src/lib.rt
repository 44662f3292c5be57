//! Tests of the public calls of `reasons` and `json_answers`. The expected texts are written by hand.
//!
//! The contracts of the libraries pin what is written beside reasons, where a fault is reported, why a fiber hasn't
//! ended, and the value of each JSON text. These tests show what no proof does and no command asks for: devices that
//! fail, memory that runs out, and bytes that are no text. What reasons and JSON look like is in `golden/reasons.fiber`,
//! `schedules.fiber` and `json.fiber`. The crate has only tests, so that the libraries are proved without them.
#![tactic(auto)]

#[cfg(test)]
mod explained;
#[cfg(test)]
mod json_texts;
#[cfg(test)]
mod limits;
#[cfg(test)]
mod refused;

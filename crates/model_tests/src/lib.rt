//! Tests of the public calls that read model files. The expected answers are worked out by hand.
//!
//! The contracts of the libraries pin the results of their calls. These tests show what no proof does: that the calls
//! succeed with ample memory, and what the messages look like, each fault with its line, its column and its message.
//! The crate has only tests.
#![tactic(auto)]

#[cfg(test)]
mod files;
#[cfg(test)]
mod form_faults;
#[cfg(test)]
mod forms;
#[cfg(test)]
mod item_faults;
#[cfg(test)]
mod items;
#[cfg(test)]
mod sizes;

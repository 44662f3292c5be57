//! Tests of the public calls of `steal_pool`. The expected reports are worked out by hand, or are those of `replay`.
//!
//! The crate promises that each report is one that the core has under some schedule. These tests show what no proof
//! does: that wakes arrive, that workers run at once, that a fault ends all of them, and that the calls succeed with
//! ample memory. The crate has only tests, so that the library is proved without them.
#![tactic(auto)]

#[cfg(test)]
mod answers;
#[cfg(test)]
mod gates;
#[cfg(test)]
mod gathered;
#[cfg(test)]
mod joins;
#[cfg(test)]
mod limits;
#[cfg(test)]
mod races;
#[cfg(test)]
mod recorded;
#[cfg(test)]
mod rings;
#[cfg(test)]
mod schedules;
#[cfg(test)]
mod settled;

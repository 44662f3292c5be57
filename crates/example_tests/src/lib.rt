//! Uses of the public calls, in a few lines each: the examples in the comments of the libraries, as tests.
//!
//! The crate has only tests, so that the libraries are proved without them.
#![tactic(auto)]

#[cfg(test)]
mod comparisons;
#[cfg(test)]
mod programs;
#[cfg(test)]
mod two_threads;

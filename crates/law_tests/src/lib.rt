//! The laws of the library over every schedule: for each law that the language can express, instances whose two sides
//! are explored and have the same outcomes.
//!
//! No theorem says that two programs are equal. These tests show it of small ones, each over all of its schedules,
//! since `every_schedule` promises that it misses none. `docs/LAWS.md` lists how each law is expressed, and the laws
//! that can't be. The crate has only tests.
#![tactic(auto)]

#[cfg(test)]
mod brackets;
#[cfg(test)]
mod cancellation;
#[cfg(test)]
mod cells;
#[cfg(test)]
mod differences;
#[cfg(test)]
mod fibers;
#[cfg(test)]
mod masks;
#[cfg(test)]
mod monads;
#[cfg(test)]
mod races;
#[cfg(test)]
mod sides;

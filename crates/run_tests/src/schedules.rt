//! Schedules for replays.

use std::alloc::{AllocError, Global};

// The number of rounds, after which none of these tests' programs can go on.
const ROUNDS: u32 = 400;

// Adds `rounds` rounds, in which each fiber below a number has one entry.
fn push_rounds(entries: &mut Vec<u16>, fibers: u16, rounds: u32) -> Result<(), AllocError> {
    for _ in 0..rounds {
        for fiber in 0..fibers {
            entries.push(fiber)?;
        }
    }
    Ok(())
}

/// All fibers below a number in turn, until none of these tests' programs can go on.
pub fn in_turn(alloc: Global, fibers: u16) -> Result<Vec<u16>, AllocError> {
    let mut entries = Vec::new(alloc);
    push_rounds(&mut entries, fibers, ROUNDS)?;
    Ok(entries)
}

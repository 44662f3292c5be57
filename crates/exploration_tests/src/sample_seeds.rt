//! Samples with the same seed, and with different seeds.

use crate::sample_answers::sampled;
use std::alloc::Global;
use std::test::Fail;

// A program with several reports that are about equally frequent.
const PROGRAM: &str = "(ref r 0 (start f (seq (set r 1) (say 1)) (start g (seq (set r 2) (say 2)) \
    (start h (seq (set r 3) (say 3)) (get r)))))";

// Whether the samples of two seeds have the same text.
fn are_same(alloc: Global, one: u64, other: u64) -> Result<bool, Fail> {
    let first = sampled(alloc, PROGRAM, one, 300)?;
    let second = sampled(alloc, PROGRAM, other, 300)?;
    Ok(first.text.as_slice() == second.text.as_slice())
}

#[test]
fn the_same_seed_gives_the_same_sample(rt: HostRuntime) -> Result<(), Fail> {
    for seed in [0, 1, u64::MAX] {
        assert!(rt; are_same(rt.alloc(), seed, seed)?, "{seed}");
    }
    Ok(())
}

#[test]
fn different_seeds_give_different_samples(rt: HostRuntime) -> Result<(), Fail> {
    assert!(rt; !are_same(rt.alloc(), 0, 1)?);
    assert!(rt; !are_same(rt.alloc(), 1, u64::MAX)?);
    Ok(())
}

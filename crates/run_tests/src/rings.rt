//! Rings of fibers that wait for one another. A lost wake leaves fibers unended.

use crate::answers::{Runs, USUAL, expect_runs, push_piece};
use std::alloc::{AllocError, Global};
use std::process::Abort;
use std::sync::Wait;
use std::test::Fail;
use std::thread::Threads;

// The number of fibers of a ring. The values go round three times: each completes a deferred of the fiber before it,
// yields and awaits its own.
const RING: u32 = 12;

// How a single ring is run.
const ALONE: Runs<'static> = Runs {
    options: USUAL,
    workers: &[1, 2, 3, 4],
    budgets: &[2, 3, 64],
    times: 250,
};

// The number of rings that run one after another in one run.
const MANY: u32 = 27;

// One more fiber of a ring. The fiber passes on its own place first, and then what it got, so in the end it has the
// place of the fiber three places on. Then it runs `then`.
fn member(alloc: Global, at: u32, then: &str) -> Result<String, AllocError> {
    let before = at.wrapping_add(RING - 1) % RING;
    format!(in alloc;
        "(start f{at} (let u (seq (complete a{before} {at}) (cede) (await a{at})) (let v (seq (complete b{before} u) \
        (cede) (await b{at})) (let w (seq (complete c{before} v) (cede) (await c{at})) {then}))) "
    )
}

// A fiber that finally joins the one before it, and notes its value.
fn joining_member(alloc: Global, at: u32) -> Result<String, AllocError> {
    let before = at.wrapping_sub(1);
    let then = format!(in alloc;
        "(join f{before} x (seq (say x) (pure w)) e (raise e) (pure -1))"
    )?;
    member(alloc, at, then.as_str())
}

// A ring, in which each fiber other than the first joins the one before it.
fn ring(alloc: Global) -> Result<String, AllocError> {
    let mut text = String::new(alloc);
    for at in 0..RING {
        push_piece(
            &mut text,
            format!(in alloc; "(deferred a{at} (deferred b{at} (deferred c{at} "),
        )?;
    }
    push_piece(&mut text, member(alloc, 0, "(pure w)"))?;
    for at in 1..RING {
        push_piece(&mut text, joining_member(alloc, at))?;
    }
    text.push_str("(join f11 x (pure x) e (raise e) (pure -1))")?;
    for _ in 0..RING {
        text.push_str("))))")?;
    }
    Ok(text)
}

// The lines of the fibers of a ring whose first fiber has this number.
fn push_lines(alloc: Global, text: &mut String, first: u32) -> Result<(), AllocError> {
    push_piece(text, format!(in alloc; "fiber {first} succeeded 3\n"))?;
    for at in 1..RING {
        let number = first.wrapping_add(at);
        let value = at.wrapping_add(3) % RING;
        let joined = at.wrapping_add(2) % RING;
        push_piece(
            text,
            format!(in alloc; "fiber {number} succeeded {value}: say {joined}\n"),
        )?;
    }
    Ok(())
}

// The report of this many rings, behind fiber 0, which has succeeded with this value.
fn report(alloc: Global, value: u32, rings: u32) -> Result<String, AllocError> {
    let mut text = format!(in alloc; "fiber 0 succeeded {value}\n")?;
    for at in 0..rings {
        push_lines(alloc, &mut text, at.wrapping_mul(RING).wrapping_add(1))?;
    }
    Ok(text)
}

#[test]
fn no_wake_of_a_ring_is_lost(rt: HostRuntime) -> Result<(), Fail> {
    let text = ring(rt.alloc())?;
    let want = report(rt.alloc(), 2, 1)?;
    expect_runs(&rt, rt.alloc(), text.as_str(), &ALONE, &[want.as_str()])
}

// This number of rings, one after another.
fn many_rings(alloc: Global) -> Result<String, AllocError> {
    let ring = ring(alloc)?;
    format!(in alloc; "(repeat {MANY} {ring})")
}

#[test]
fn no_wake_of_many_rings_is_lost(rt: HostRuntime) -> Result<(), Fail> {
    let text = many_rings(rt.alloc())?;
    let want = report(rt.alloc(), 0, MANY)?;
    let runs = Runs { times: 25, ..ALONE };
    expect_runs(&rt, rt.alloc(), text.as_str(), &runs, &[want.as_str()])
}

//! Many starts and joins.

use crate::answers::{Runs, USUAL, expect_runs, push_piece};
use std::alloc::{AllocError, Global};
use std::process::Abort;
use std::sync::Wait;
use std::test::Fail;
use std::thread::Threads;

// How each program here is run.
const RUNS: Runs<'static> = Runs {
    options: USUAL,
    workers: &[1, 2, 4, 16],
    budgets: &[2, 64],
    times: 5,
};

// The depth of a chain of joins: each start is inside the one before it.
const CHAIN: u32 = 90;

// A program that starts a hundred fibers: the rule that it shows, its text, the end of fiber 0, and what each other
// fiber does.
const HUNDRED: &[(&str, &str, &str, &str)] = &[
    (
        "each child is joined",
        "(repeat 100 (start f (say 1) (join f x (pure x) e (raise e) (pure -1))))",
        "succeeded 0",
        "succeeded 0: say 1",
    ),
    (
        "the children are summed",
        "(ref r 0 (seq (repeat 100 (start f (pure 3) (join f x (modify r x) e (raise e) (pure -1)))) (get r)))",
        "succeeded 300",
        "succeeded 3",
    ),
    (
        "children count while their parent starts others",
        "(ref r 0 (deferred d (seq (repeat 100 (start f (let x (modify r 1) (let y (add x -99) (if0 y (complete d 7) \
        (pure 1)))) (pure 0))) (await d))))",
        "succeeded 7",
        "succeeded 1",
    ),
];

// A report with this line of fiber 0, and this line of each of a hundred fibers after it.
fn report(alloc: Global, first: &str, other: &str) -> Result<String, AllocError> {
    let mut text = format!(in alloc; "fiber 0 {first}\n")?;
    for number in 1..=100 {
        push_piece(&mut text, format!(in alloc; "fiber {number} {other}\n"))?;
    }
    Ok(text)
}

// Each run of this text reports this of fiber 0, and that of a hundred others.
fn expect_report<R: Abort + Threads + Wait + Sync>(
    rt: &R,
    alloc: Global,
    text: &str,
    first: &str,
    other: &str,
) -> Result<(), Fail> {
    let want = report(alloc, first, other)?;
    expect_runs(rt, alloc, text, &RUNS, &[want.as_str()])
}

#[test]
fn a_hundred_children_are_joined(rt: HostRuntime) -> Result<(), Fail> {
    for (_, text, first, other) in HUNDRED {
        expect_report(&rt, rt.alloc(), text, first, other)?;
    }
    Ok(())
}

// Fibers each of which joins the one before it and adds 1.
fn chain(alloc: Global) -> Result<String, AllocError> {
    let mut text = String::from_str(alloc, "(start f1 (seq (cede) (pure 1)) ")?;
    for at in 2..=CHAIN {
        let before = at.wrapping_sub(1);
        let link = format!(in alloc;
            "(start f{at} (join f{before} x (add x 1) e (raise e) (pure -1)) "
        );
        push_piece(&mut text, link)?;
    }
    push_piece(
        &mut text,
        format!(in alloc; "(join f{CHAIN} x (pure x) e (raise e) (pure -1))"),
    )?;
    for _ in 0..CHAIN {
        text.push_str(")")?;
    }
    Ok(text)
}

// Each fiber of a chain has counted one more than the one before it.
fn counted(alloc: Global) -> Result<String, AllocError> {
    let mut text = format!(in alloc; "fiber 0 succeeded {CHAIN}\n")?;
    for number in 1..=CHAIN {
        push_piece(
            &mut text,
            format!(in alloc; "fiber {number} succeeded {number}\n"),
        )?;
    }
    Ok(text)
}

#[test]
fn a_chain_of_joins_counts(rt: HostRuntime) -> Result<(), Fail> {
    let text = chain(rt.alloc())?;
    let want = counted(rt.alloc())?;
    expect_runs(&rt, rt.alloc(), text.as_str(), &RUNS, &[want.as_str()])
}

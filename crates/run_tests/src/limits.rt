//! Limits at their edges: the first refused call ends a run with its fault, and a fiber that has used up its moves is
//! unended.

use crate::answers::{Runs, USUAL, expect_runs, push_piece, stopped_in, within};
use std::alloc::{AllocError, Global};
use std::process::Abort;
use std::sync::Wait;
use std::test::Fail;
use std::thread::Threads;
use steal_pool::Options;

// How each program here is run, apart from its options.
const RUNS: Runs<'static> = Runs {
    options: USUAL,
    workers: &[1, 2, 4, 16],
    budgets: &[2, 64],
    times: 1,
};

// A program, the number of moves of fiber 0, and the result. Each word of an unmasked fiber takes a look and the move
// itself, and so does its end. A child begins with the moves that are left.
const MOVES: &[(&str, u32, &str)] = &[
    ("(pure 7)", 1, "fiber 0 unended\n"),
    ("(pure 7)", 2, "fiber 0 succeeded 7\n"),
    ("(say 1)", 1, "fiber 0 unended\n"),
    ("(say 1)", 2, "fiber 0 unended: say 1\n"),
    ("(say 1)", 3, "fiber 0 unended: say 1\n"),
    ("(say 1)", 4, "fiber 0 succeeded 0: say 1\n"),
    (
        "(uncancelable p (canceled))",
        6,
        "fiber 0 unended: enter 0, leave 0, cut\n",
    ),
    (
        "(uncancelable p (canceled))",
        7,
        "fiber 0 canceled: enter 0, leave 0, cut\n",
    ),
    ("(start f (pure 5) (pure 6))", 1, "fiber 0 unended\n"),
    (
        "(start f (pure 5) (pure 6))",
        2,
        "fiber 0 unended\nfiber 1 unended\n",
    ),
    (
        "(start f (pure 5) (pure 6))",
        3,
        "fiber 0 unended\nfiber 1 unended\n",
    ),
    (
        "(start f (pure 5) (pure 6))",
        4,
        "fiber 0 succeeded 6\nfiber 1 succeeded 5\n",
    ),
    (
        "(start f (seq (say 1) (say 2)) (never))",
        4,
        "fiber 0 unended\nfiber 1 unended: say 1\n",
    ),
    (
        "(start f (seq (say 1) (say 2)) (never))",
        8,
        "fiber 0 unended\nfiber 1 unended: say 1, say 2\n",
    ),
    (
        "(start f (seq (say 1) (say 2)) (never))",
        9,
        "fiber 0 unended\nfiber 1 unended: say 1, say 2\n",
    ),
    (
        "(start f (seq (say 1) (say 2)) (never))",
        10,
        "fiber 0 unended\nfiber 1 succeeded 0: say 1, say 2\n",
    ),
];

// A program, the limit of a fiber's own changes, and the result.
const COUNTS: &[(&str, u64, &str)] = &[
    ("(uncancelable p (canceled))", 1, "fault 19 Spent 0\n"),
    ("(uncancelable p (canceled))", 2, "fault 19 Spent 0\n"),
    ("(uncancelable p (canceled))", 3, "fault 19 Spent 0\n"),
    (
        "(uncancelable p (canceled))",
        4,
        "fiber 0 canceled: enter 0, leave 0, cut\n",
    ),
    (
        "(uncancelable p (poll p (pure 1)))",
        4,
        "fault 19 Spent 0\n",
    ),
    (
        "(uncancelable p (poll p (pure 1)))",
        5,
        "fiber 0 succeeded 1: enter 0, in 0, out 0, leave 0\n",
    ),
    (
        "(start f (uncancelable p (never)) (start g (uncancelable p (pure 1)) (pure 0)))",
        2,
        "fault 19 Spent 2\n",
    ),
];

// A program, the limits of fibers, refs and deferreds, and the result.
const NUMBERS: &[(&str, u16, u16, u16, &str)] = &[
    ("(pure 7)", 1, 1000, 1000, "fiber 0 succeeded 7\n"),
    (
        "(start f (pure 1) (pure 0))",
        1,
        1000,
        1000,
        "fault 18 Full fibers 1\n",
    ),
    (
        "(repeat 1000 (start f (pure 1) (pure 0)))",
        1000,
        1000,
        1000,
        "fault 18 Full fibers 1000\n",
    ),
    (
        "(repeat 5 (start f (never) (pure 0)))",
        3,
        1000,
        1000,
        "fault 18 Full fibers 3\n",
    ),
    (
        "(race (pure 1) (pure 2))",
        2,
        1000,
        1000,
        "fault 18 Full fibers 2\n",
    ),
    (
        "(ref a 0 (ref b 0 (pure 1)))",
        1000,
        1,
        1000,
        "fault 18 Full refs 1\n",
    ),
];

// The same for deferreds, whichever fiber makes the last of them, with a budget of two moves.
const DEFERREDS: &[(u16, &str)] = &[
    (1, "fault 18 Full deferreds 1\n"),
    (2, "fault 18 Full deferreds 2\n"),
    (3, "fiber 0 succeeded 6\nfiber 1 succeeded 5\n"),
];

// Programs that loop without end, the limit of a fiber's own changes, and the result.
const LOOPS: &[(&str, u64, &str)] = &[
    (
        "(start f (seq (say 1) (forever (cede))) (start g (forever (uncancelable p (pure 0))) (forever (pure 0))))",
        4,
        "fault 19 Spent 2\n",
    ),
    (
        "(start f (seq (say 1) (forever (cede))) (forever (pure 0)))",
        1_099_511_627_775,
        "fiber 0 unended\nfiber 1 unended: say 1\n",
    ),
];

#[test]
fn moves_are_counted(rt: HostRuntime) -> Result<(), Fail> {
    for (text, moves, want) in MOVES {
        let options = Options {
            moves: *moves,
            ..USUAL
        };
        expect_runs(&rt, rt.alloc(), text, &Runs { options, ..RUNS }, &[*want])?;
    }
    Ok(())
}

// A program, the number of moves of fiber 0, and the fiber that has then used up its moves. A waiting fiber hasn't.
const STOPPED: &[(&str, u32, Option<u16>)] = &[
    ("(pure 7)", 1, Some(0)),
    ("(pure 7)", 2, None),
    ("(never)", 1, None),
    ("(never)", 100_000, None),
    ("(forever (cede))", 100_000, Some(0)),
    ("(deferred d (await d))", 100_000, None),
    ("(start f (never) (pure 1))", 100_000, None),
    ("(start f (forever (cede)) (pure 1))", 100_000, Some(1)),
    // Of two that have used up their moves, the first.
    ("(start f (forever (cede)) (forever (cede)))", 1000, Some(0)),
    (
        "(start f (forever (cede)) (join f x (pure x) e (raise e) (pure -1)))",
        100_000,
        Some(1),
    ),
];

#[test]
fn a_fiber_that_has_used_its_moves_is_told(rt: HostRuntime) -> Result<(), Fail> {
    for (text, moves, want) in STOPPED {
        let options = Options {
            moves: *moves,
            ..USUAL
        };
        let stopped = stopped_in(&rt, rt.alloc(), text, within(options, 4, 64))?;
        assert!(rt; stopped == *want, "{text} of {moves} moves: {stopped:?}");
    }
    Ok(())
}

#[test]
fn a_spent_count_is_told_with_its_fiber(rt: HostRuntime) -> Result<(), Fail> {
    for (text, count, want) in COUNTS {
        let options = Options {
            count: *count,
            ..USUAL
        };
        expect_runs(&rt, rt.alloc(), text, &Runs { options, ..RUNS }, &[*want])?;
    }
    Ok(())
}

#[test]
fn a_band_that_is_full_is_told_with_its_limit(rt: HostRuntime) -> Result<(), Fail> {
    for (text, fibers, refs, deferreds, want) in NUMBERS {
        let options = Options {
            fibers: *fibers,
            refs: *refs,
            deferreds: *deferreds,
            ..USUAL
        };
        expect_runs(&rt, rt.alloc(), text, &Runs { options, ..RUNS }, &[*want])?;
    }
    for (deferreds, want) in DEFERREDS {
        let runs = Runs {
            options: Options {
                deferreds: *deferreds,
                ..USUAL
            },
            budgets: &[2],
            ..RUNS
        };
        let text = "(deferred a (start f (deferred b (pure 5)) (deferred c (pure 6))))";
        expect_runs(&rt, rt.alloc(), text, &runs, &[*want])?;
    }
    Ok(())
}

#[test]
fn a_loop_uses_all_moves(rt: HostRuntime) -> Result<(), Fail> {
    for (text, count, want) in LOOPS {
        let runs = Runs {
            options: Options {
                count: *count,
                moves: 1_000_000,
                ..USUAL
            },
            workers: &[1, 16],
            budgets: &[2, 10_000],
            ..RUNS
        };
        expect_runs(&rt, rt.alloc(), text, &runs, &[*want])?;
    }
    Ok(())
}

// Fiber 0 and this many others that have succeeded with 1.
fn succeeded(alloc: Global, fibers: u32) -> Result<String, AllocError> {
    let mut text = String::from_str(alloc, "fiber 0 succeeded 0\n")?;
    for number in 1..fibers {
        push_piece(&mut text, format!(in alloc; "fiber {number} succeeded 1\n"))?;
    }
    Ok(text)
}

#[test]
fn fibers_are_started_up_to_their_limit(rt: HostRuntime) -> Result<(), Fail> {
    let want = succeeded(rt.alloc(), 1000)?;
    let text = "(repeat 999 (start f (pure 1) (pure 0)))";
    expect_runs(&rt, rt.alloc(), text, &RUNS, &[want.as_str()])
}

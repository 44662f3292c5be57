//! Programs that start no fiber, run by `alone`.

ghost use Rattle.std.specs.Prelude.{◌≡◌, ◌<◌};

use crate::programs::{few, opened, quiet_program};
use crate::turning::{Told, end_of};
use cell_registry::{Band, Limits, RunError};
use effect_term::Outcome;
use fiber_poll::{FiberFuture, alone, first};
use futures::executor::block_on;
use outcome_trace::{Report, replay};
use std::alloc::{AllocGlobal, Global};
use std::random::RandomSource;
use std::sync::Wait;
use std::test::Fail;

// A program, the number of moves that its fiber needs, and its outcome.
const ENDS: &[(&str, u32, Told)] = &[
    (
        "(uncancelable p (let a (canceled) (let b (say 1) (poll p (say 2)))))",
        10,
        Told::Canceled,
    ),
    (
        "(uncancelable p (seq (canceled) (say 1) (poll p (say 2)) (say 3)))",
        10,
        Told::Canceled,
    ),
    (
        "(handle (add 4611686018427387903 1) e (pure e))",
        6,
        Told::Succeeded(1001),
    ),
    ("(handle (canceled) e (pure 1))", 5, Told::Canceled),
    (
        "(handle (oncancel (raise 4) (say 1)) e (pure e))",
        8,
        Told::Succeeded(4),
    ),
    ("(repeat 3 (say 1))", 22, Told::Succeeded(0)),
    ("(repeat -1 (say 1))", 4, Told::Succeeded(0)),
    ("(guarantee (raise 3) (say 1))", 15, Told::Errored(3)),
];

// The outcome of a fiber, if it has ended.
fn end_told(ended: Option<Outcome>) -> Option<Told> {
    match ended {
        Some(outcome) => Some(end_of(outcome)),
        None => None,
    }
}

// The outcome of a program that `alone` runs for this number of moves.
fn ends_alone<R: Wait + RandomSource + AllocGlobal>(
    rt: &R,
    text: &str,
    moves: u32,
) -> Result<Option<Told>, Fail> {
    let program = quiet_program(rt.alloc(), text)?;
    Ok(end_told(alone(rt, program, moves)?))
}

// The core's report of a program under this number of entries of 0.
fn core_report(alloc: Global, text: &str, moves: usize) -> Result<Report, Fail> {
    let program = quiet_program(alloc, text)?;
    let schedule = vec![in alloc; 0; moves]?;
    let limits = Limits {
        fibers: 1000,
        refs: 1000,
        deferreds: 1000,
        count: 1_099_511_627_775,
    };
    Ok(replay(alloc, &program, schedule.as_slice(), limits)?)
}

// The outcome of the core's fiber 0 under this number of entries of 0.
fn ends_in_the_core(alloc: Global, text: &str, moves: usize) -> Result<Option<Told>, Fail> {
    let report = core_report(alloc, text, moves)?;
    match report.fibers.as_slice().first() {
        Some(first) => Ok(end_told(first.outcome)),
        None => Err(Fail::new("no fiber was born")),
    }
}

#[test]
fn a_program_ends_alone(rt: HostRuntime) -> Result<(), Fail> {
    let ended = ends_alone(&rt, "(repeat 3 (say 1))", 1000)?;
    assert!(&rt; ended == Some(Told::Succeeded(0)));
    assert!(&rt; ends_alone(&rt, "(never)", 1000)?.is_none());
    Ok(())
}

// Whether a program has this outcome after this number of moves, by `alone` and in the core.
fn ends_so<R: Wait + RandomSource + AllocGlobal>(
    rt: &R,
    text: &str,
    moves: u32,
    wanted: Option<Told>,
) -> Result<bool, Fail> {
    let ended = ends_alone(rt, text, moves)?;
    let core = ends_in_the_core(rt.alloc(), text, moves as usize)?;
    Ok(ended == wanted && core == wanted)
}

#[test]
fn alone_is_the_core_under_entries_of_0(rt: HostRuntime) -> Result<(), Fail> {
    for (text, needed, outcome) in ENDS {
        for moves in 1..41u32 {
            let wanted = if moves < *needed {
                None
            } else {
                Some(*outcome)
            };
            assert!(&rt; ends_so(&rt, text, moves, wanted)?, "{text} in {moves}");
        }
    }
    Ok(())
}

// A program, the number of moves of its fiber, and the outcome or the fault if each band has one number and a cell can
// change twice.
const FUTURES: &[(&str, u32, Option<Told>)] = &[
    ("(seq (say 1) (cede) (raise 3))", 10, Some(Told::Errored(3))),
    ("(seq (say 1) (cede) (raise 3))", 9, None),
    ("(never)", 1000, None),
    (
        "(ref r 0 (ref s 0 (get r)))",
        99,
        Some(Told::Full(Band::Refs, 1)),
    ),
    ("(uncancelable p (say 1))", 99, Some(Told::Spent(0))),
];

// The result of a future, if it is an outcome or a fault of the registry.
fn given(come: Result<Option<Outcome>, RunError>) -> Result<Option<Told>, Fail> {
    match come {
        Ok(ended) => Ok(end_told(ended)),
        Err(RunError::Full(band, limit)) => Ok(Some(Told::Full(band, limit))),
        Err(RunError::Spent(fiber)) => Ok(Some(Told::Spent(fiber))),
        Err(_) => Err(Fail::new("the future gave another fault")),
    }
}

// The result of a program as a future, with two moves a poll, if each band has one number.
fn comes<R: Wait + RandomSource + AllocGlobal>(
    rt: &R,
    text: &str,
    moves: u32,
) -> Result<Option<Told>, Fail> {
    let (code, registry, pass) = opened(rt.alloc(), text, few(1, 2))?;
    let task = first(rt.alloc(), &registry, pass, &code, moves)?;
    given(block_on(rt, FiberFuture { task, budget: 2 })?)
}

#[test]
fn a_future_gives_the_end_or_the_fault(rt: HostRuntime) -> Result<(), Fail> {
    for (text, moves, wanted) in FUTURES {
        assert!(&rt; comes(&rt, text, *moves)? == *wanted, "{text}");
    }
    Ok(())
}

//! Turns in which the registry refuses a call, and what is possible after them.

ghost use Rattle.std.specs.Prelude.{◌≡◌, ◌<◌, IfOk};
ghost use Rattle.cell_registry.specs.Cells.{AreLimits};
ghost use Rattle.cell_registry.specs.Passes.{IsOf};
ghost use Rattle.fiber_poll.specs.Tasks.{IsTaskOf};

use crate::programs::{few, opened};
use crate::turning::{Told, Turns, answered, child_of, expect_turns, turn_told};
use cell_registry::{Band, Limits, Pass, Registry};
use derived_ops::Code;
use effect_term::{CancelReply, JoinReply, Outcome, Value};
use fiber_frames::{Ask, Mark};
use fiber_poll::{FiberTask, first};
use std::alloc::{AllocError, Global};
use std::test::Fail;

const NO_FIBER: Told = Told::Full(Band::Fibers, 1);

const NO_MORE: Told = Told::Full(Band::Fibers, 2);

const NO_REF: Told = Told::Full(Band::Refs, 1);

const NO_DEFERRED: Told = Told::Full(Band::Deferreds, 1);

const SPENT: Told = Told::Spent(0);

// The number of moves of fiber 0.
const MOVES: u32 = 99;

const CHILD_SPENT: Told = Told::Spent(1);

// Each band has one number.
const FULL: &[Turns<'static>] = &[
    Turns {
        rule: "a refused start is refused again",
        program: "(seq (say 1) (start f (pure 1) (pure 2)))",
        moves: 6,
        turns: &[(0, 64, NO_FIBER), (0, 64, NO_FIBER), (0, 2, NO_FIBER)],
        schedule: "0*5",
        report: "fiber 0 unended: say 1\n",
    },
    Turns {
        rule: "a refused ref is refused again",
        program: "(ref r 0 (seq (say 1) (ref s 0 (say 2))))",
        moves: 99,
        turns: &[(0, 64, NO_REF), (0, 64, NO_REF)],
        schedule: "0*11",
        report: "fiber 0 unended: say 1\n",
    },
    Turns {
        rule: "a refused deferred is refused again",
        program: "(uncancelable p (deferred d (seq (say 1) (deferred e (say 2)))))",
        moves: 99,
        turns: &[(0, 64, NO_DEFERRED), (0, 64, NO_DEFERRED)],
        schedule: "0*5",
        report: "fiber 0 unended: enter 0, say 1\n",
    },
];

// There are two fibers.
const TWO_FIBERS: &[Turns<'static>] = &[Turns {
    rule: "a second start is refused, and the fiber of the first one goes on",
    program: "(start f (say 1) (start g (pure 2) (pure 3)))",
    moves: 99,
    turns: &[
        (0, 64, Told::Started(1)),
        (0, 64, NO_MORE),
        (1, 2, Told::Cedes),
        (0, 64, NO_MORE),
        (1, 64, Told::Succeeded(0)),
        (0, 64, NO_MORE),
    ],
    schedule: "0*2 0*1 1*2 1*2",
    report: "fiber 0 unended\nfiber 1 succeeded 0: say 1\n",
}];

// A fiber can change its cell once.
const ONE_CHANGE: &[Turns<'static>] = &[Turns {
    rule: "the end of a mask is refused",
    program: "(uncancelable p (say 1))",
    moves: 4,
    turns: &[(0, 64, SPENT), (0, 64, SPENT), (0, 2, SPENT)],
    schedule: "0*3",
    report: "fiber 0 unended: enter 0, say 1\n",
}];

// A fiber can change its cell twice, and there are three fibers.
const TWO_CHANGES: &[Turns<'static>] = &[
    Turns {
        rule: "an end is refused",
        program: "(uncancelable p (say 1))",
        moves: 99,
        turns: &[(0, 64, SPENT), (0, 64, SPENT)],
        schedule: "0*5",
        report: "fiber 0 unended: enter 0, say 1, leave 0\n",
    },
    Turns {
        rule: "a cut is refused",
        program: "(uncancelable p (canceled))",
        moves: 99,
        turns: &[(0, 64, SPENT), (0, 64, SPENT)],
        schedule: "0*5",
        report: "fiber 0 unended: enter 0, leave 0\n",
    },
    Turns {
        rule: "a poll is refused, and another fiber ends",
        program: "(start f (uncancelable p (seq (poll p (say 1)) (say 2))) (say 3))",
        moves: 99,
        turns: &[
            (0, 64, Told::Started(1)),
            (1, 64, CHILD_SPENT),
            (1, 64, CHILD_SPENT),
            (0, 64, Told::Succeeded(0)),
            (1, 64, CHILD_SPENT),
        ],
        schedule: "0*2 1*6 0*4",
        report: "fiber 0 succeeded 0: say 3\nfiber 1 unended: enter 0, in 0, say 1\n",
    },
];

#[test]
fn the_task_stands_before_a_number_that_is_not_given(rt: HostRuntime) -> Result<(), Fail> {
    expect_turns(&rt, few(1, 9), FULL)
}

#[test]
fn others_go_on_where_a_number_is_not_given(rt: HostRuntime) -> Result<(), Fail> {
    expect_turns(&rt, few(2, 9), TWO_FIBERS)
}

#[test]
fn the_task_stands_before_a_change_that_is_not_made(rt: HostRuntime) -> Result<(), Fail> {
    expect_turns(&rt, few(3, 1), ONE_CHANGE)?;
    expect_turns(&rt, few(3, 2), TWO_CHANGES)
}

// What a fiber asks next.
#[derive(Clone, Copy, PartialEq)]
enum Wanted {
    Start,
    Unmask,
    Other,
}

// A program whose fiber reaches a refused move.
#[derive(Drop)]
struct Refused<'a> {
    program: &'a str,
    // The result of each turn.
    told: Told,
    marks: &'a [Mark],
    wanted: Wanted,
    // The number of changes that the fiber made to its cell.
    count: u64,
    // The number of its active masks.
    depth: u8,
}

// Whether three turns are refused with this result, and each changes nothing.
fn is_refused_thrice(
    registry: &Registry,
    code: &Code,
    most: u32,
    task: &mut FiberTask<'_>,
    case: &Refused<'_>,
) -> Result<bool, AllocError>
    requires { IsTaskOf registry.now code.now most task.old }
    ensures { IfOk result (λ _. IsTaskOf registry.now code.now most task.new) }
{
    'thrice: for _ in 0..3u32 {
        if turn_told(registry, code, most, task)? != case.told {
            return Ok(false);
        }
        if task.outcome().is_some() || task.trace() != case.marks {
            return Ok(false);
        }
    }
    Ok(true)
}

// A task's pass, and what its fiber asks.
fn parts_of(registry: &Registry, code: &Code, most: u32, task: FiberTask<'_>) -> (Pass, Wanted)
    requires { IsTaskOf registry.now code.now most task }
    ensures { IsOf registry.now result.0 }
{
    let (pass, config) = task.into_parts();
    let wanted = match config.ask() {
        Ask::Start => Wanted::Start,
        Ask::Unmask => Wanted::Unmask,
        _ => Wanted::Other,
    };
    (pass, wanted)
}

// Whether calls of the pass of fiber 0 on its own fiber have their replies.
fn requests_its_end(registry: &Registry, pass: &mut Pass) -> bool
    requires own { IsOf registry.now pass.old }
    requires limits { AreLimits registry.now.limits }
    ensures { IsOf registry.now pass.new }
{
    let first = registry.cancel(pass, 0);
    let second = registry.cancel(pass, 0);
    let end = registry.join(pass, 0);
    (first, second, end) == (CancelReply::Asked, CancelReply::Already, JoinReply::Waits)
}

// Whether calls of a pass on shared cells have their replies.
fn shares_cells(registry: &Registry, pass: &mut Pass) -> bool
    requires own { IsOf registry.now pass.old }
    requires limits { AreLimits registry.now.limits }
{
    let (five, six) = (Value::from_i32(5), Value::from_i32(6));
    if registry.new_ref(pass) != Ok(0) {
        return false;
    }
    let of_ref = (registry.modify(pass, 0, five), registry.get(pass, 0));
    if registry.new_deferred(pass) != Ok(0) {
        return false;
    }
    let of_deferred = (registry.complete(pass, 0, six), registry.read(pass, 0));
    (of_ref, of_deferred) == ((Value::ZERO, five), (true, Some(six)))
}

// Whether a task is refused three times, and its fiber's pass then goes on.
fn task_goes_on(
    registry: &Registry,
    code: &Code,
    most: u32,
    task: FiberTask<'_>,
    case: &Refused<'_>,
) -> Result<bool, AllocError>
    requires own { IsTaskOf registry.now code.now most task }
    requires limits { AreLimits registry.now.limits }
{
    let mut task = task;
    if !is_refused_thrice(registry, code, most, &mut task, case)? {
        return Ok(false);
    }
    let (mut pass, wanted) = parts_of(registry, code, most, task);
    let is_there = wanted == case.wanted
        && pass.count() == case.count
        && pass.depth() == case.depth;
    let requests = requests_its_end(registry, &mut pass);
    let shares = shares_cells(registry, &mut pass);
    Ok(is_there && requests && shares)
}

// Whether fiber 0 of a program is refused three times, and its pass then goes on.
fn goes_on(alloc: Global, limits: Limits, case: &Refused<'_>) -> Result<bool, Fail>
    requires { AreLimits limits }
{
    let (code, registry, pass) = opened(alloc, case.program, limits)?;
    let task = first(alloc, &registry, pass, &code, MOVES)?;
    Ok(task_goes_on(&registry, &code, MOVES, task, case)?)
}

#[test]
fn the_pass_goes_on_after_a_full_band(rt: HostRuntime) -> Result<(), Fail> {
    let marks = [Mark::Say(Value::from_i32(1))];
    let case = Refused {
        program: "(seq (say 1) (start f (pure 1) (pure 2)))",
        told: NO_FIBER,
        marks: marks.as_slice(),
        wanted: Wanted::Start,
        count: 0,
        depth: 0,
    };
    assert!(&rt; goes_on(rt.alloc(), few(1, 9), &case)?);
    Ok(())
}

#[test]
fn the_pass_goes_on_after_a_used_up_count(rt: HostRuntime) -> Result<(), Fail> {
    let marks = [Mark::Enter(0), Mark::Say(Value::from_i32(1))];
    let case = Refused {
        program: "(uncancelable p (say 1))",
        told: SPENT,
        marks: marks.as_slice(),
        wanted: Wanted::Unmask,
        count: 1,
        depth: 1,
    };
    assert!(&rt; goes_on(rt.alloc(), few(1, 1), &case)?);
    Ok(())
}

// Whether fiber 0 cancels fiber 1, and its join finds the end.
fn cancels_the_other(
    registry: &Registry,
    pass: &mut Pass,
    other: &mut FiberTask<'_>,
) -> Result<bool, AllocError>
    requires own { IsOf registry.now pass.old }
    requires two { 1 < registry.now.limits.fibers }
{
    let reply = registry.cancel(pass, 1);
    let before = registry.join(pass, 1);
    let (told, _) = answered(other.turn(64))?;
    let after = registry.join(pass, 1);
    let is_canceled = told == Told::Canceled && after == JoinReply::Ended(Outcome::Canceled);
    Ok((reply, before, is_canceled) == (CancelReply::Asked, JoinReply::Waits, true))
}

// Whether a turn of fiber 0 is refused with this result, and its pass then cancels fiber 1.
fn refused_cancels(
    registry: &Registry,
    code: &Code,
    most: u32,
    task: FiberTask<'_>,
    other: FiberTask<'_>,
    refusal: Told,
) -> Result<bool, AllocError>
    requires own { IsTaskOf registry.now code.now most task }
    requires two { 1 < registry.now.limits.fibers }
{
    let mut task = task;
    let mut other = other;
    if turn_told(registry, code, most, &mut task)? != refusal {
        return Ok(false);
    }
    let (mut pass, _) = parts_of(registry, code, most, task);
    cancels_the_other(registry, &mut pass, &mut other)
}

// Whether fiber 0 starts fiber 1, is refused with this result, and then cancels fiber 1.
fn cancels_after_refusal(alloc: Global, program: &str, refusal: Told) -> Result<bool, Fail> {
    let (code, registry, pass) = opened(alloc, program, few(2, 2))?;
    let mut task = first(alloc, &registry, pass, &code, MOVES)?;
    let other = child_of(&registry, &code, MOVES, &mut task)?;
    Ok(refused_cancels(&registry, &code, MOVES, task, other, refusal)?)
}

const REFUSALS: &[(&str, Told)] = &[
    ("(start f (never) (start g (pure 2) (pure 3)))", NO_MORE),
    ("(start f (never) (uncancelable p (say 1)))", SPENT),
];

#[test]
fn a_refused_fiber_cancels_another(rt: HostRuntime) -> Result<(), Fail> {
    for (program, refusal) in REFUSALS {
        assert!(&rt;
            cancels_after_refusal(rt.alloc(), program, *refusal)?,
            "{program}"
        );
    }
    Ok(())
}

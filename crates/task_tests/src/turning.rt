//! Tasks that are turned by hand, and what is gathered from them.

ghost use Rattle.std.specs.Prelude.{◌≡◌, ◌≢◌, ◌<◌, All, IfOk, IfSome, length, Ok as GoesWell, Err as Fails};
ghost use Rattle.cell_registry.specs.Cells.{AreLimits};
ghost use Rattle.cell_registry.specs.Passes.{first_pass};
ghost use Rattle.fiber_poll.specs.Tasks.{IsTaskOf};

use crate::programs::{is_replayed, is_text_of, opened};
use cell_registry::{Band, Limits, Pass, Registry, RunError};
use derived_ops::Code;
use effect_term::Outcome;
use fiber_poll::{FiberTask, Topic, Turn, first};
use outcome_trace::{FiberReport, FiberReports, Marks, Report};
use std::alloc::{AllocError, Global};
use std::process::Abort;
use std::test::Fail;
use steal_pool::gather;

/// The result of a turn, with the number of a started fiber in place of its task.
#[derive(Clone, Copy, PartialEq)]
pub enum Told {
    Succeeded(i64),
    Errored(i64),
    Canceled,
    Waits(Topic),
    Cedes,
    Started(u16),
    WakeFiber(u16),
    WakeTopic(Topic),
    OutOfMoves,
    Full(Band, u16),
    Spent(u16),
}

/// The result of a turn that ends a fiber with this outcome.
pub fn end_of(outcome: Outcome) -> Told {
    match outcome {
        Outcome::Succeeded(value) => Told::Succeeded(value.get()),
        Outcome::Errored(code) => Told::Errored(code.get()),
        Outcome::Canceled => Told::Canceled,
    }
}

// The result of a turn that met no fault, and the task of the fiber that it started.
fn told_by<'a>(turn: Turn<'a>) -> (Told, Option<FiberTask<'a>>)
    ensures { IfSome result.1 (λ child. turn.entry ≡ Turn.Started child) }
{
    match turn {
        Turn::Ended(outcome) => (end_of(outcome), None),
        Turn::Waits(topic) => (Told::Waits(topic), None),
        Turn::Cedes => (Told::Cedes, None),
        Turn::Started(child) => (Told::Started(child.number()), Some(child)),
        Turn::WakeFiber(fiber) => (Told::WakeFiber(fiber), None),
        Turn::WakeTopic(topic) => (Told::WakeTopic(topic), None),
        Turn::OutOfMoves => (Told::OutOfMoves, None),
    }
}

/// The result of a turn, and the task of the fiber that it started. Returns `AllocError` if memory ran out.
pub fn answered<'a>(
    answer: Result<Turn<'a>, RunError>,
) -> Result<(Told, Option<FiberTask<'a>>), AllocError>
    ensures child { IfOk result (λ it. IfSome it.1 (λ child. answer.entry ≡ GoesWell (Turn.Started child))) }
    ensures memory { IfOk result (λ _. answer.entry ≢ Fails RunError.NoMemory) }
{
    match answer {
        Ok(turn) => Ok(told_by(turn)),
        Err(RunError::Full(band, limit)) => Ok((Told::Full(band, limit), None)),
        Err(RunError::Spent(fiber)) => Ok((Told::Spent(fiber), None)),
        // No turn returns another fault.
        Err(_) => Err(AllocError),
    }
}

/// Makes a turn of a task of this registry and code, whose fiber 0 has `most` moves. The task still belongs to them,
/// and so does the task of the fiber that it started. Returns `AllocError` if memory ran out.
pub fn turned<'a>(
    registry: &Registry,
    code: &Code,
    most: u32,
    task: &mut FiberTask<'a>,
    budget: u32,
) -> Result<(Told, Option<FiberTask<'a>>), AllocError>
    requires budget { 1 < budget }
    requires own { IsTaskOf registry.now code.now most task.old }
    ensures own { IfOk result (λ _. IsTaskOf registry.now code.now most task.new) }
    ensures child { IfOk result (λ it. IfSome it.1 (IsTaskOf registry.now code.now most)) }
{
    answered(task.turn(budget))
}

/// The task of the fiber that the next turn of this one starts.
pub fn child_of<'a>(
    registry: &Registry,
    code: &Code,
    most: u32,
    task: &mut FiberTask<'a>,
) -> Result<FiberTask<'a>, Fail>
    requires { IsTaskOf registry.now code.now most task.old }
    ensures parent { IfOk result (λ _. IsTaskOf registry.now code.now most task.new) }
    ensures child { IfOk result (IsTaskOf registry.now code.now most) }
{
    match turned(registry, code, most, task, 64)? {
        (_, Some(child)) => Ok(child),
        (_, None) => Err(Fail::new("no fiber was started")),
    }
}

/// The result of a turn of a task of this registry and code, which still belongs to them. The task of a fiber that it
/// started is dropped.
pub fn turn_told(
    registry: &Registry,
    code: &Code,
    most: u32,
    task: &mut FiberTask<'_>,
) -> Result<Told, AllocError>
    requires { IsTaskOf registry.now code.now most task.old }
    ensures { IfOk result (λ _. IsTaskOf registry.now code.now most task.new) }
{
    let (told, _) = turned(registry, code, most, task, 64)?;
    Ok(told)
}

// Makes a turn of the fiber of this number. A started fiber's task is added at the end, at the place of its number.
fn turn_of<'a>(
    registry: &Registry,
    code: &Code,
    most: u32,
    tasks: &mut Vec<FiberTask<'a>>,
    number: usize,
    budget: u32,
) -> Result<Told, AllocError>
    requires there { number < length tasks.old.items }
    requires budget { 1 < budget }
    requires own { All (IsTaskOf registry.now code.now most) tasks.old.items }
    ensures own { IfOk result (λ _. All (IsTaskOf registry.now code.now most) tasks.new.items) }
{
    let (told, child) = turned(registry, code, most, &mut tasks[number], budget)?;
    if let Some(child) = child {
        tasks.push(child)?;
    }
    Ok(told)
}

/// A turn: the number of its fiber, its budget, and its result.
pub type Row = (usize, u32, Told);

// Whether these turns have these results.
fn tell<'a>(
    registry: &Registry,
    code: &Code,
    most: u32,
    tasks: &mut Vec<FiberTask<'a>>,
    turns: &[Row],
) -> Result<bool, Fail>
    requires { All (IsTaskOf registry.now code.now most) tasks.old.items }
    ensures { IfOk result (λ _. All (IsTaskOf registry.now code.now most) tasks.new.items) }
{
    for (number, budget, told) in turns {
        if *number >= tasks.len() || *budget < 2 {
            return Err(Fail::new("there is no such turn"));
        }
        if turn_of(registry, code, most, tasks, *number, *budget)? != *told {
            return Ok(false);
        }
    }
    Ok(true)
}

// The report of the fiber of a task.
fn line_of(alloc: Global, task: &FiberTask<'_>) -> Result<FiberReport, AllocError> {
    let marks = Vec::from_slice(alloc, task.trace())?;
    Ok(FiberReport {
        outcome: task.outcome(),
        marks: Marks::new(marks),
    })
}

// The report of the fibers of these tasks, from the tasks themselves.
fn report_of(alloc: Global, tasks: &[FiberTask<'_>]) -> Result<Report, AllocError> {
    let mut lines = Vec::new(alloc);
    for task in tasks {
        lines.push(line_of(alloc, task)?)?;
    }
    Ok(Report {
        fibers: FiberReports::new(lines),
    })
}

// Whether this is the text of the report from the tasks themselves.
fn is_told(alloc: Global, tasks: &[FiberTask<'_>], report: &str) -> Result<bool, Fail> {
    is_text_of(alloc, &report_of(alloc, tasks)?, report)
}

// Whether this is the text of the report that is gathered from these tasks, and of the report from the tasks
// themselves.
fn is_gathered<'a>(
    alloc: Global,
    registry: &Registry,
    code: &Code,
    most: u32,
    tasks: Vec<FiberTask<'a>>,
    report: &str,
) -> Result<bool, Fail>
    requires { All (IsTaskOf registry.now code.now most) tasks.items }
{
    if !is_told(alloc, tasks.as_slice(), report)? {
        return Ok(false);
    }
    is_text_of(alloc, &gather(alloc, registry, code, tasks)?, report)
}

// Whether these turns of the tasks have these results, and this is the report that is then gathered from them.
fn come_to<'a>(
    alloc: Global,
    registry: &Registry,
    code: &Code,
    most: u32,
    tasks: Vec<FiberTask<'a>>,
    turns: &[Row],
    report: &str,
) -> Result<bool, Fail>
    requires { All (IsTaskOf registry.now code.now most) tasks.items }
{
    let mut tasks = tasks;
    if !tell(registry, code, most, &mut tasks, turns)? {
        return Ok(false);
    }
    is_gathered(alloc, registry, code, most, tasks, report)
}

// Fiber 0's task, with `most` moves, as the only one.
fn only_first<'a>(
    alloc: Global,
    registry: &'a Registry,
    pass: Pass,
    code: &Code,
    moves: u32,
) -> Result<Vec<FiberTask<'a>>, AllocError>
    requires { pass ≡ first_pass registry.now }
    ensures { IfOk result (λ tasks. All (IsTaskOf registry.now code.now moves) tasks.items) }
{
    let mut tasks = Vec::new(alloc);
    tasks.push(first(alloc, registry, pass, code, moves)?)?;
    Ok(tasks)
}

/// Makes these turns of a program's fibers; fiber 0 has `most` moves. Whether they have these results, and this is the
/// text of the report that is then gathered from all tasks.
pub fn turn_by_turn(
    alloc: Global,
    text: &str,
    limits: Limits,
    moves: u32,
    turns: &[Row],
    report: &str,
) -> Result<bool, Fail>
    requires { AreLimits limits }
{
    let (code, registry, pass) = opened(alloc, text, limits)?;
    let tasks = only_first(alloc, &registry, pass, &code, moves)?;
    come_to(alloc, &registry, &code, moves, tasks, turns, report)
}

/// Turns of a program's fibers that are made by hand, and their results.
pub struct Turns<'a> {
    /// The rule that the turns show.
    pub rule: &'a str,
    pub program: &'a str,
    /// The number of moves of fiber 0. A child begins with those that are left at its start.
    pub moves: u32,
    pub turns: &'a [Row],
    /// A schedule of the moves of the turns, in their order: a turn that made n moves of fiber f is n entries of f. The
    /// refused move of a turn isn't an entry.
    pub schedule: &'a str,
    /// The report that is gathered from the tasks, which is the core's under the schedule.
    pub report: &'a str,
}

// Whether the turns have the expected results, and the gathered report and the core's report are the expected one.
fn is_met(alloc: Global, limits: Limits, case: &Turns<'_>) -> Result<bool, Fail>
    requires { AreLimits limits }
{
    if !turn_by_turn(
        alloc,
        case.program,
        limits,
        case.moves,
        case.turns,
        case.report,
    )? {
        return Ok(false);
    }
    is_replayed(alloc, case.program, limits, case.schedule, case.report)
}

/// Makes the turns of each case, and compares their results, and the gathered report and the core's.
pub fn expect_turns<R: Abort + AllocGlobal>(
    rt: &R,
    limits: Limits,
    cases: &[Turns<'_>],
) -> Result<(), Fail>
    requires { AreLimits limits }
{
    for case in cases {
        assert!(rt; is_met(rt.alloc(), limits, case)?, "{}", case.rule);
    }
    Ok(())
}

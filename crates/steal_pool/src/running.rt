//! A run: makes the registry, the bay and the workers, and finishes on one thread what they left.
ghost use Rattle.std.specs.Prelude.{◌≡◌, ◌⊎◌, ◌<◌, ℕ, All, IfErr, IfOk, None as Nobody, Some as Somebody};
ghost use Rattle.once_cell.specs.Once.{cell_name};
ghost use Rattle.cell_registry.specs.Cells.{AreLimits};
ghost use Rattle.cell_registry.specs.Passes.{first_pass};
ghost use Rattle.derived_ops.specs.Expansion.{code_of};
ghost use Rattle.derived_ops.specs.Reading.{source_of};
ghost use Rattle.fiber_poll.specs.Tasks.{IsTaskOf};
ghost use Rattle.ready_queues.specs.Faults.{IsFaultWithin};
ghost use Rattle.run_ends.specs.Ends.{HasUnended, IsEnd, IsNoRefusal, IsRunFault, TellsUnended};
ghost use Rattle.run_ends.specs.Gathering.{IsLawful};
ghost use Rattle.run_ends.specs.Leaving.{Gathered};
ghost use Rattle.scheduled_core.specs.Covers.{IsInEachCover};
ghost use Rattle.scheduled_core.specs.Finals.{IsFinalReport, IsSettledReport};
ghost use Rattle.scheduled_core.specs.Spending.{IsSpentReport};
ghost use Rattle.scheduled_core.specs.Stands.{IsOfSomeSchedule};
ghost use Rattle.steal_pool.specs.Runs.{limits_of};
ghost use Rattle.wait_bay.specs.Bays.{IsSeatOf};

use crate::gate::Gate;
use crate::options::Options;
use crate::watch::{Unrecorded, Watch};
use crate::worker::{Shared, Worker};
use crate::workers::Workers;
use cell_registry::{Pass, Registry, RunError};
use derived_ops::{Code, expand};
use effect_term::Program;
use fiber_poll::{FiberTask, first};
use once_cell::race::OnceBox;
use ready_queues::{FaultCell, FirstFault, InjectorEnd, Learned, empty_injector, within};
use run_ends::{Leavings, RunEnd};
use scheduled_core::{EntryLog, NoEntries, Report};
use std::alloc::Global;
use std::marker::Brand;
use std::sync::Wait;
use std::sync::atomic::AtomicU64;
use std::thread;
use std::thread::{JoinHandle, Threads};
use wait_bay::{Bay, BaySeat};

/// Runs a program on worker threads until no fiber can move, and returns the report of each fiber. A fiber that rests
/// at a wait that nothing ends, or has used up its moves, is unended. The report is one that the core has under some
/// schedule; [`run_told`] also returns whether it is complete. Fiber 0 makes at most the number of moves of the
/// options, and each other fiber at most as many as its parent had left.
///
/// The first fault of a worker ends the run. Returns `Full` or `Spent` if a call was refused, as the core refuses it
/// under some schedule, `NoMemory` if memory was refused, also for a push on a queue, and `Lost` if a fiber's task
/// wasn't in its place. Returns `NoWorker` if no thread could be started; if only some could, the run goes on with
/// these. All threads have ended when it returns.
pub fn run<R: Threads + Wait + Sync, G: Gate>(
    rt: &R,
    alloc: Global,
    program: Program,
    options: Options,
    gate: &G,
) -> Result<Report, RunError>
    requires limits { AreLimits (limits_of options) }
    requires budget { 1 < options.budget }
    ensures schedule { IfOk result (λ report. IsOfSomeSchedule (code_of (source_of program)) (limits_of options)
        report) }
    ensures spent { IfOk result (λ report. IsSpentReport (code_of (source_of program)) (limits_of options)
        options.moves report) }
    ensures complete { IfOk result (λ report.
        IsFinalReport (code_of (source_of program)) (limits_of options) report ⊎ HasUnended report) }
    ensures lawful { IfOk result (λ report. All IsLawful report.fibers) }
    ensures full { IfErr result (IsFaultWithin (limits_of options)) }
    ensures faults { IfErr result (IsRunFault (code_of (source_of program)) (limits_of options)) }
{
    match run_told(rt, alloc, program, options, gate) {
        Ok(end) => Ok(end.report),
        Err(fault) => Err(fault),
    }
}

/// Runs a program as [`run`] does, and also returns whether the report is complete.
///
/// Unless a fiber is reported to have used up its moves, the report is a final one: that of a schedule of the core
/// after which each fiber has ended, or rests at a wait that nothing ends. No further entries change the outcome or the
/// marks of a fiber, and none lead to a fault. What the workers did doesn't matter: once they have ended, one thread
/// moves the fibers on until none can move. If each wake arrived, that thread finds nothing to do. Each list that
/// contains all that schedules lead to, such as that of a complete exploration, contains this report.
pub fn run_told<R: Threads + Wait + Sync, G: Gate>(
    rt: &R,
    alloc: Global,
    program: Program,
    options: Options,
    gate: &G,
) -> Result<RunEnd, RunError>
    requires limits { AreLimits (limits_of options) }
    requires budget { 1 < options.budget }
    ensures schedule { IfOk result (λ it. IsOfSomeSchedule (code_of (source_of program)) (limits_of options)
        it.report) }
    ensures spent { IfOk result (λ it. IsSpentReport (code_of (source_of program)) (limits_of options)
        options.moves it.report) }
    ensures complete { IfOk result (λ it. it.stopped ≡ Nobody →
        IsFinalReport (code_of (source_of program)) (limits_of options) it.report) }
    ensures settled { IfOk result (λ it. it.stopped ≡ Nobody →
        IsSettledReport (code_of (source_of program)) (limits_of options) it.report) }
    ensures listed { IfOk result (λ it. it.stopped ≡ Nobody →
        IsInEachCover (code_of (source_of program)) (limits_of options) it.report) }
    ensures stopped { IfOk result (λ it. (f : ℕ) → it.stopped ≡ Somebody f → TellsUnended it.report f) }
    ensures lawful { IfOk result (λ it. All IsLawful it.report.fibers) }
    ensures full { IfErr result (IsFaultWithin (limits_of options)) }
    ensures faults { IfErr result (IsRunFault (code_of (source_of program)) (limits_of options)) }
{
    match attempt(
        rt,
        alloc,
        &program,
        options,
        &Unrecorded { gate },
        &mut NoEntries,
    ) {
        Ok(end) => Ok(end),
        Err(fault) => Err(within(options.limits(), fault)),
    }
}

/// Makes the registry of a run, and returns its end. What one thread does at the end is reported to this log.
pub(crate) fn attempt<R: Threads + Wait + Sync, W: Watch, L: EntryLog>(
    rt: &R,
    alloc: Global,
    program: &Program,
    options: Options,
    watch: &W,
    log: &mut L,
) -> Result<RunEnd, RunError>
    requires limits { AreLimits (limits_of options) }
    requires budget { 1 < options.budget }
    ensures ends { IfOk result (IsEnd (code_of (source_of program.now)) (limits_of options) options.moves) }
    ensures lawful { IfOk result (λ it. All IsLawful it.report.fibers) }
    ensures faults { IfErr result (IsRunFault (code_of (source_of program.now)) (limits_of options)) }
{
    let Options {
        fibers,
        refs,
        deferreds,
        count,
        ..
    } = options;
    let code = expand(alloc, program)?;
    let (registry, pass) = Registry::new(alloc, fibers, refs, deferreds, count)?;
    let (leavings, is_refused) = of_registry(rt, alloc, &registry, pass, &code, options, watch)?;
    if is_refused {
        return Err(leavings.refused(alloc, registry));
    }
    leavings.finish(alloc, registry, log)
}

// Makes the bay of a run. Returns what the workers leave, and whether the registry refused a call of one of them.
fn of_registry<R: Threads + Wait + Sync, W: Watch>(
    rt: &R,
    alloc: Global,
    registry: &Registry,
    pass: Pass,
    code: &Code,
    options: Options,
    watch: &W,
) -> Result<(Leavings, bool), RunError>
    requires pass { pass ≡ first_pass registry.now }
    requires some { 0 < options.fibers }
    requires budget { 1 < options.budget }
    ensures left { IfOk result (λ it. Gathered registry.now code.now options.moves it.0.met it.0.configs.items
        it.0.rests.items) }
    ensures none { IfErr result IsNoRefusal }
{
    let task = first(alloc, registry, pass, code, options.moves)?;
    let named = Some((registry, code, options.moves));
    let (bay, seat) = Bay::new(alloc, options.fibers, options.deferreds, named)?;
    of_bay(rt, alloc, registry, code, bay, seat, task, options, watch)
}

// Puts the first task into the bay of a run. Returns what the workers leave, and whether the registry refused a call of
// one of them.
fn of_bay<'a, R: Threads + Wait + Sync, W: Watch>(
    rt: &R,
    alloc: Global,
    registry: &Registry,
    code: &Code,
    bay: Bay<'a>,
    seat: BaySeat<'a>,
    task: FiberTask<'a>,
    options: Options,
    watch: &W,
) -> Result<(Leavings, bool), RunError>
    requires here { IsSeatOf bay seat }
    requires some { 0 < bay.fibers }
    requires named { bay.named ≡ Somebody record { home = registry.now; code = code.now; most = options.moves } }
    requires task { IsTaskOf registry.now code.now options.moves task }
    requires budget { 1 < options.budget }
    ensures left { IfOk result (λ it. Gathered registry.now code.now options.moves it.0.met it.0.configs.items
        it.0.rests.items) }
    ensures none { IfErr result IsNoRefusal }
{
    let mut seat = seat;
    if bay.put(rt, &mut seat, 0, task, true).is_err() {
        return Err(RunError::Lost(0));
    }
    let is_refused = is_refused(drive(rt, alloc, &bay, seat, options, watch)?)?;
    let leavings = Leavings::of(alloc, registry, code, bay.empty()?)?;
    Ok((leavings, is_refused))
}

// Whether the first fault of the workers is a call that the registry refused. Returns another fault as an error.
fn is_refused(first: Option<RunError>) -> Result<bool, RunError>
    ensures { IfErr result IsNoRefusal }
{
    match first {
        None => Ok(false),
        Some(RunError::Full(_, _)) | Some(RunError::Spent(_)) => Ok(true),
        Some(fault) => Err(fault),
    }
}

// Has workers run the tasks of a bay from fiber 0 on, and returns the first fault, if there was one.
fn drive<'b, 'a, R: Threads + Wait + Sync, W: Watch>(
    rt: &R,
    alloc: Global,
    bay: &'b Bay<'a>,
    seat: BaySeat<'a>,
    options: Options,
    watch: &W,
) -> Result<Option<RunError>, RunError>
    requires here { IsSeatOf bay.now seat }
    requires some { 0 < bay.now.fibers }
    requires budget { 1 < options.budget }
    ensures { IfErr result IsNoRefusal }
{
    let injector = empty_injector(alloc)?;
    if InjectorEnd::of(&injector).push(rt, 0).is_err() {
        return Err(RunError::NoMemory);
    }
    let workers = Workers::new(alloc, bay, seat, &injector, options.workers)?;
    let cell = OnceBox::new(alloc);
    start::<Brand, R, W>(rt, alloc, workers, &cell, options.budget, watch)
}

// Has these workers run, with this cell for their first fault, and returns that fault, if there was one.
fn start<'q, 'b, 'a, C: FaultCell + Send + Sync, R: Threads + Wait + Sync, W: Watch>(
    rt: &R,
    alloc: Global,
    all: Workers<'q, 'b, 'a>,
    cell: &OnceBox<RunError>,
    budget: u32,
    watch: &W,
) -> Result<Option<RunError>, RunError>
    requires cell { cell_name cell.now ≡ C.name }
    requires budget { 1 < budget }
    ensures { IfErr result IsNoRefusal }
{
    let Workers { workers, idle } = all;
    let threads = Vec::with_capacity(alloc, workers.len())?;
    let shared = Shared::<W, C> {
        watch,
        budget,
        active: AtomicU64::new(1),
        idle,
        first_fault: FirstFault::of(cell),
    };
    match start_all(rt, &shared, workers, threads) {
        Some(first) => Ok(first),
        None => Err(RunError::NoWorker),
    }
}

// Starts a thread for each worker, and returns the first fault, if there was one, once all have ended. There is room
// for all threads. Returns `None` if no thread could be started.
fn start_all<'q, 'b, 'a, C: FaultCell + Send + Sync, R: Threads + Wait + Sync, W: Watch>(
    rt: &R,
    shared: &Shared<'_, '_, W, C>,
    workers: Vec<Worker<'q, 'b, 'a>>,
    threads: Vec<JoinHandle<Learned<C>>>,
) -> Option<Option<RunError>> {
    thread::scope(thread::scope_env(), rt, move |scope| {
        let mut threads = threads;
        for worker in workers {
            if let Ok(thread) = scope.spawn(move || shared.work(rt, worker)) {
                let _ = threads.push(thread);
            }
        }
        join_all(rt, &shared.first_fault, threads)
    })
}

// Waits for the workers to end, and returns the first fault that one of them met. Returns `None` if there are none.
fn join_all<C: FaultCell, R: Threads>(
    rt: &R,
    first_fault: &FirstFault<'_, C>,
    threads: Vec<JoinHandle<Learned<C>>>,
) -> Option<Option<RunError>> {
    if threads.is_empty() {
        return None;
    }
    Some(first_fault.known_to_one(threads.into_iter().map(|thread| thread.join(rt))))
}

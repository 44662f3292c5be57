//! A run that returns its schedule.
ghost use Rattle.std.specs.Prelude.{◌≡◌, ◌<◌, ℕ, All, IfErr, IfOk, None as Nobody, Some as Somebody};
ghost use Rattle.cell_registry.specs.Cells.{AreLimits};
ghost use Rattle.derived_ops.specs.Expansion.{code_of};
ghost use Rattle.derived_ops.specs.Reading.{source_of};
ghost use Rattle.ready_queues.specs.Faults.{IsFaultWithin};
ghost use Rattle.run_ends.specs.Ends.{IsEnd, IsRunFault, TellsUnended, came_to};
ghost use Rattle.run_ends.specs.Gathering.{IsLawful};
ghost use Rattle.scheduled_core.specs.Core.{core, reported};
ghost use Rattle.scheduled_core.specs.Covers.{IsInEachCover};
ghost use Rattle.scheduled_core.specs.Finals.{IsFinalReport, IsSettledReport};
ghost use Rattle.scheduled_core.specs.Spending.{IsSpentReport};
ghost use Rattle.scheduled_core.specs.Stands.{IsOfSomeSchedule};
ghost use Rattle.steal_pool.specs.Runs.{limits_of};

use crate::gate::Gate;
use crate::options::Options;
use crate::running::{attempt, run_told};
use crate::watch::Recorder;
use cell_registry::RunError;
use effect_term::Program;
use ready_queues::within;
use run_ends::{Recorded, RunEnd, SettledEntries, certify};
use run_recording::{Gathered, NoSchedule};
use std::alloc::Global;
use std::sync::Wait;
use std::sync::atomic::AtomicU64;
use std::thread::Threads;

/// Runs a program as [`run_told`] does, and returns a schedule under which the core has the same end, this report or
/// this fault, under the limits of the run.
///
/// The workers note their calls, and a schedule is made from the notes. The schedule is replayed, and returned only if
/// the replay has the end of the run. The notes never make a run fail. That a schedule is found isn't promised.
pub fn run_recorded<R: Threads + Wait + Sync, G: Gate>(
    rt: &R,
    alloc: Global,
    program: Program,
    options: Options,
    gate: &G,
) -> Recorded
    requires limits { AreLimits (limits_of options) }
    requires budget { 1 < options.budget }
    ensures recorded { IfOk result.schedule (λ entries. reported (core (code_of (source_of program))
        (limits_of options) entries.items) ≡ came_to result.end) }
    ensures schedule { IfOk result.end (λ it. IsOfSomeSchedule (code_of (source_of program)) (limits_of options)
        it.report) }
    ensures spent { IfOk result.end (λ it. IsSpentReport (code_of (source_of program)) (limits_of options)
        options.moves it.report) }
    ensures complete { IfOk result.end (λ it. it.stopped ≡ Nobody →
        IsFinalReport (code_of (source_of program)) (limits_of options) it.report) }
    ensures settled { IfOk result.end (λ it. it.stopped ≡ Nobody →
        IsSettledReport (code_of (source_of program)) (limits_of options) it.report) }
    ensures listed { IfOk result.end (λ it. it.stopped ≡ Nobody →
        IsInEachCover (code_of (source_of program)) (limits_of options) it.report) }
    ensures stopped { IfOk result.end (λ it. (f : ℕ) → it.stopped ≡ Somebody f → TellsUnended it.report f) }
    ensures lawful { IfOk result.end (λ it. All IsLawful it.report.fibers) }
    ensures full { IfErr result.end (IsFaultWithin (limits_of options)) }
    ensures faults { IfErr result.end (IsRunFault (code_of (source_of program)) (limits_of options)) }
{
    let clock = AtomicU64::new(0);
    match Recorder::new(alloc, gate, &clock, options.workers, options.fibers) {
        Ok(recorder) => record_with(rt, alloc, program, options, &recorder),
        Err(_) => Recorded {
            end: run_told(rt, alloc, program, options, gate),
            schedule: Err(NoSchedule::NoMemory),
        },
    }
}

// Runs a program with this recorder, and makes its schedule.
fn record_with<'g, 'c, R: Threads + Wait + Sync, G: Gate>(
    rt: &R,
    alloc: Global,
    program: Program,
    options: Options,
    recorder: &Recorder<'g, 'c, G>,
) -> Recorded
    requires limits { AreLimits (limits_of options) }
    requires budget { 1 < options.budget }
    ensures recorded { IfOk result.schedule (λ entries. reported (core (code_of (source_of program))
        (limits_of options) entries.items) ≡ came_to result.end) }
    ensures ends { IfOk result.end (IsEnd (code_of (source_of program)) (limits_of options) options.moves) }
    ensures lawful { IfOk result.end (λ it. All IsLawful it.report.fibers) }
    ensures full { IfErr result.end (IsFaultWithin (limits_of options)) }
    ensures faults { IfErr result.end (IsRunFault (code_of (source_of program)) (limits_of options)) }
{
    let mut settled = SettledEntries::new(alloc);
    let end = end_of(rt, alloc, &program, options, recorder, &mut settled);
    let found = entries(alloc, options, recorder, &settled, fault_of(&end));
    certify(alloc, &program, options.limits(), found, end)
}

// The end of a run with this recorder.
fn end_of<'g, 'c, R: Threads + Wait + Sync, G: Gate>(
    rt: &R,
    alloc: Global,
    program: &Program,
    options: Options,
    recorder: &Recorder<'g, 'c, G>,
    settled: &mut SettledEntries,
) -> Result<RunEnd, RunError>
    requires limits { AreLimits (limits_of options) }
    requires budget { 1 < options.budget }
    ensures ends { IfOk result (IsEnd (code_of (source_of program.now)) (limits_of options) options.moves) }
    ensures lawful { IfOk result (λ it. All IsLawful it.report.fibers) }
    ensures full { IfErr result (IsFaultWithin (limits_of options)) }
    ensures faults { IfErr result (IsRunFault (code_of (source_of program.now)) (limits_of options)) }
{
    match attempt(rt, alloc, program, options, recorder, settled) {
        Ok(end) => Ok(end),
        Err(fault) => Err(within(options.limits(), fault)),
    }
}

// The fault of a run, if it ended with one.
fn fault_of(end: &Result<RunEnd, RunError>) -> Option<RunError> {
    match end {
        Ok(_) => None,
        Err(fault) => Some(*fault),
    }
}

// The entries of a schedule from these notes of a run, which ended with this fault or with none.
fn entries<'g, 'c, G: Gate>(
    alloc: Global,
    options: Options,
    recorder: &Recorder<'g, 'c, G>,
    settled: &SettledEntries,
    fault: Option<RunError>,
) -> Result<Vec<u16>, NoSchedule> {
    match fault {
        None | Some(RunError::Full(_, _)) | Some(RunError::Spent(_)) => {}
        Some(_) => return Err(NoSchedule::NotFound),
    }
    if recorder.has_lost() {
        return Err(NoSchedule::NoMemory);
    }
    let behind = settled.entries()?;
    let mut gathered = Gathered::new(alloc, options.fibers, options.moves)?;
    for notes in recorder.notes() {
        if let Some(notes) = notes.get() {
            gathered.add(notes, fault)?;
        }
    }
    gathered.schedule(behind)
}

//! A recorded run on workers, with its schedule as text.

ghost use Rattle.std.specs.Prelude.{◌≡◌, ◌<◌, All, IfErr, IfOk, string_bytes};
ghost use Rattle.cell_registry.specs.Cells.{AreLimits};
ghost use Rattle.command_line.specs.Recording.{IsRecord, SpellsFound};
ghost use Rattle.derived_ops.specs.Expansion.{code_of};
ghost use Rattle.derived_ops.specs.Reading.{source_of};
ghost use Rattle.ready_queues.specs.Faults.{IsFaultWithin};
ghost use Rattle.run_ends.specs.Ends.{IsRunFault, came_to};
ghost use Rattle.run_ends.specs.Gathering.{IsLawful};
ghost use Rattle.scheduled_core.specs.Spending.{IsSpentReport};
ghost use Rattle.steal_pool.specs.Runs.{limits_of};

use cell_registry::RunError;
use effect_term::Program;
use outcome_trace::{MOST_ENTRIES, schedule_text};
use std::alloc::Global;
use std::sync::Wait;
use std::thread::Threads;
use steal_pool::{NoSchedule, OpenGate, Options, Recorded, RunEnd, run_recorded};

/// The end of a recorded run, and the text of its schedule.
#[derive(Drop)]
pub struct Spelled {
    /// The end of the run.
    pub end: Result<RunEnd, RunError>,
    /// The text of a schedule under which a replay has the same end, or why there is none.
    pub schedule: Result<String, NoSchedule>,
}

/// Runs a program on workers that record their schedule, and spells the schedule.
pub fn run_spelled<R: Threads + Wait + Sync>(
    rt: &R,
    alloc: Global,
    program: Program,
    options: Options,
) -> Spelled
    requires limits { AreLimits (limits_of options) }
    requires budget { 1 < options.budget }
    ensures recorded { IfOk result.schedule (λ text. IsRecord (code_of (source_of program)) (limits_of options)
        (string_bytes text) (came_to result.end)) }
    ensures spent { IfOk result.end (λ it. IsSpentReport (code_of (source_of program)) (limits_of options) options.moves
        it.report) }
    ensures lawful { IfOk result.end (λ it. All IsLawful it.report.fibers) }
    ensures full { IfErr result.end (IsFaultWithin (limits_of options)) }
    ensures faults { IfErr result.end (IsRunFault (code_of (source_of program)) (limits_of options)) }
{
    let Recorded { end, schedule } = run_recorded(rt, alloc, program, options, &OpenGate);
    let schedule = spell(alloc, schedule);
    Spelled { end, schedule }
}

// The text of the entries of a schedule.
fn spell(alloc: Global, schedule: Result<Vec<u16>, NoSchedule>) -> Result<String, NoSchedule>
    ensures { IfOk result (λ text. SpellsFound schedule (string_bytes text)) }
{
    let entries = schedule?;
    if entries.len() > MOST_ENTRIES || !entries.iter().all(|fiber| *fiber < 1000) {
        return Err(NoSchedule::TooLong);
    }
    match schedule_text(alloc, entries.as_slice()) {
        Ok(text) => Ok(text),
        Err(_) => Err(NoSchedule::NoMemory),
    }
}

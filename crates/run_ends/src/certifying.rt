//! A schedule of a recorded run, certified by replaying it.
ghost use Rattle.std.specs.Prelude.{◌≡◌, ◌≢◌, IfOk, OnOk, false, true, Err as Fails, Ok as GoesWell};
ghost use Rattle.cell_registry.specs.Cells.{AreLimits};
ghost use Rattle.derived_ops.specs.Expansion.{code_of};
ghost use Rattle.derived_ops.specs.Reading.{source_of};
ghost use Rattle.scheduled_core.specs.Core.{core, reported};
ghost use Rattle.run_ends.specs.Ends.{came_to};

use crate::finishing::RunEnd;
use cell_registry::{Limits, RunError};
use effect_term::Program;
use run_recording::NoSchedule;
use scheduled_core::{Report, replay, same_end};
use std::alloc::Global;

/// The end of a recorded run, and its schedule.
#[derive(Drop)]
pub struct Recorded {
    /// The end, as `run_told` of `steal_pool` reports it.
    pub end: Result<RunEnd, RunError>,
    /// The entries of a schedule whose replay has that end, or why there is none.
    pub schedule: Result<Vec<u16>, NoSchedule>,
}

/// Certifies the schedule `found` for a run of the program within these limits: returns the run's end, and the entries
/// if their replay has that end.
///
/// Only the replay decides; how the entries were found doesn't matter. The schedule is `NotFound` if the replay ends
/// otherwise, and `NoMemory` if there is no memory for it.
pub fn certify(
    alloc: Global,
    program: &Program,
    limits: Limits,
    found: Result<Vec<u16>, NoSchedule>,
    end: Result<RunEnd, RunError>,
) -> Recorded
    requires limits { AreLimits limits }
    ensures recorded { IfOk result.schedule (λ entries. reported (core (code_of (source_of program.now)) limits
        entries.items) ≡ came_to end) }
    ensures same { result.end ≡ end }
{
    match end {
        Ok(end) => {
            let RunEnd {
                report,
                stopped,
                finished,
            } = end;
            let (schedule, report) = of_report(alloc, program, limits, found, report);
            let end = RunEnd {
                report,
                stopped,
                finished,
            };
            Recorded {
                end: Ok(end),
                schedule,
            }
        }
        Err(fault) => {
            let schedule = leading_to(alloc, program, limits, found, &Err(fault));
            Recorded {
                end: Err(fault),
                schedule,
            }
        }
    }
}

// Certifies the schedule `found` by replaying it to this report. Returns its entries, or why there are none, and the
// report.
fn of_report(
    alloc: Global,
    program: &Program,
    limits: Limits,
    found: Result<Vec<u16>, NoSchedule>,
    report: Report,
) -> (Result<Vec<u16>, NoSchedule>, Report)
    requires limits { AreLimits limits }
    ensures recorded { IfOk result.0 (λ entries. reported (core (code_of (source_of program.now)) limits
        entries.items) ≡ GoesWell report) }
    ensures same { result.1 ≡ report }
{
    let end = Ok(report);
    let schedule = leading_to(alloc, program, limits, found, &end);
    match end {
        Ok(report) => (schedule, report),
        Err(_) => unreachable!(),
    }
}

// Certifies the schedule `found` by replaying it to this end. Returns its entries, or why there are none.
fn leading_to(
    alloc: Global,
    program: &Program,
    limits: Limits,
    found: Result<Vec<u16>, NoSchedule>,
    end: &Result<Report, RunError>,
) -> Result<Vec<u16>, NoSchedule>
    requires limits { AreLimits limits }
    ensures { IfOk result (λ entries. reported (core (code_of (source_of program.now)) limits entries.items) ≡
        end.now) }
{
    let entries = found?;
    comes(alloc, program, limits, entries.as_slice(), end)?;
    Ok(entries)
}

// Checks that a replay under the entries has this end. Returns `NotFound` if it hasn't, and `NoMemory` if memory runs
// out.
#[tactic(auto, using(crate::proofs::Recording::replayed_comes))]
fn comes(
    alloc: Global,
    program: &Program,
    limits: Limits,
    entries: &[u16],
    end: &Result<Report, RunError>,
) -> Result<(), NoSchedule>
    requires limits { AreLimits limits }
    ensures { OnOk result (reported (core (code_of (source_of program.now)) limits entries.now) ≡ end.now) }
{
    let replayed = replay(alloc, program, entries, limits);
    if lacks_memory(&replayed) {
        return Err(NoSchedule::NoMemory);
    }
    if same_end(&replayed, end) {
        Ok(())
    } else {
        Err(NoSchedule::NotFound)
    }
}

// Whether memory was refused.
fn lacks_memory(end: &Result<Report, RunError>) -> bool
    ensures { result ≡ false → end.now ≢ Fails RunError.NoMemory }
{
    match end {
        Ok(_) => false,
        Err(fault) => *fault == RunError::NoMemory,
    }
}

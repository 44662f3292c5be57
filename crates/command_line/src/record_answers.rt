//! The answer to a program on workers that record their schedule: the answer without the record, then the line of the
//! schedule, and then a timeline if it is asked for.

ghost use Rattle.std.specs.Prelude.{◌≡◌, ◌++◌, ◌∷◌, ◌<◌, false, IfNone, IfOk, IfSome, OnOk};
ghost use Rattle.cell_registry.specs.Cells.{AreLimits};
ghost use Rattle.command_line.specs.Recording.{AreEntriesOf, IsRecordedAnswer, IsTimedAnswer, ended_status};
ghost use Rattle.command_line.specs.Recording.{has_line, is_found, line_behind, record_text, told_line};
ghost use Rattle.outcome_trace.specs.Lines.{run_line};
ghost use Rattle.outcome_trace.specs.ReplayAnswers.{report_status};
ghost use Rattle.outcome_trace.specs.ReportText.{text_of_fibers};
ghost use Rattle.steal_pool.specs.Runs.{limits_of};

use crate::run_answers::fault_answer;
use crate::spelling::{Spelled, run_spelled};
use cell_registry::RunError;
use command_words::limits_of;
use effect_term::Program;
use fiber_events::replay_events;
use outcome_trace::{Answer, Limits, Report, Status, read_program, read_schedule, report_answer};
use std::alloc::{AllocError, Global};
use std::sync::Wait;
use std::thread::Threads;
use steal_pool::{NoSchedule, Options, RunEnd};
use timelines::timeline;

// Adds the line of the schedule, or of why there is none.
fn add_line(text: &mut Vec<u8>, schedule: &Result<String, NoSchedule>) -> Result<(), AllocError>
    ensures { OnOk result (text.new.items ≡ text.old.items ++ told_line schedule.now) }
{
    match schedule {
        Ok(schedule) => {
            text.extend_from_slice(b"schedule ")?;
            text.extend_from_slice(schedule.as_bytes())?;
            text.extend_from_slice(b"\n")
        }
        Err(NoSchedule::TooLong) => {
            text.extend_from_slice(b"no schedule: it has more than 1000000 entries\n")
        }
        Err(NoSchedule::NotFound) => text.extend_from_slice(b"no schedule: none was found\n"),
        Err(NoSchedule::NoMemory) => text.extend_from_slice(b"no schedule: memory ran out\n"),
    }
}

// The answer to a run that ended with a report: its text and the line of the schedule, with the status of fiber 0's
// end.
fn report_told(
    alloc: Global,
    report: &Report,
    schedule: &Result<String, NoSchedule>,
) -> Result<Answer, AllocError>
    ensures line { IfOk result (λ a. a.text.items ≡ text_of_fibers report.now.fibers ++ told_line schedule.now) }
    ensures status { IfOk result (λ a. a.status ≡ report_status report.now.fibers) }
{
    let mut answer = report_answer(alloc, report)?;
    add_line(&mut answer.text, schedule)?;
    Ok(answer)
}

// The answer to a run that ended with a fault. A fault to which no schedule leads has no line of a schedule.
fn fault_told(
    alloc: Global,
    error: RunError,
    schedule: &Result<String, NoSchedule>,
) -> Result<Answer, AllocError>
    ensures line { IfOk result (λ a. a.text.items ≡ run_line error ++ line_behind error schedule.now) }
    ensures status { IfOk result (λ a. a.status ≡ Status.Fault) }
{
    let mut answer = fault_answer(alloc, error)?;
    match error {
        RunError::Full(_, _) | RunError::Spent(_) => add_line(&mut answer.text, schedule)?,
        RunError::NoMemory | RunError::Lost(_) | RunError::NoWorker => {}
    }
    Ok(answer)
}

// The answer to a recorded run that ended with `end`.
fn end_told(
    alloc: Global,
    end: &Result<RunEnd, RunError>,
    schedule: &Result<String, NoSchedule>,
) -> Result<Answer, AllocError>
    ensures text { IfOk result (λ a. a.text.items ≡ record_text end.now schedule.now) }
    ensures status { IfOk result (λ a. a.status ≡ ended_status end.now) }
{
    match end {
        Ok(ended) => report_told(alloc, &ended.report, schedule),
        Err(error) => fault_told(alloc, *error, schedule),
    }
}

/// The answer to a program on workers that record their schedule. `AllocError` if memory ran out for the text of the
/// answer.
pub fn record_answer<R: Threads + Wait + Sync>(
    rt: &R,
    alloc: Global,
    program: Program,
    options: Options,
) -> Result<Answer, AllocError>
    requires limits { AreLimits (limits_of options) }
    requires budget { 1 < options.budget }
    ensures { IfOk result (λ a. IsRecordedAnswer program options a.text.items a.status) }
{
    let Spelled { end, schedule } = run_spelled(rt, alloc, program, options);
    end_told(alloc, &end, &schedule)
}

/// The entries of the schedule of a recorded run, or `None` if it has no schedule. `AllocError` if memory ran out.
pub fn entries_of(
    alloc: Global,
    schedule: &Result<String, NoSchedule>,
) -> Result<Option<Vec<u16>>, AllocError>
    ensures some { IfOk result (λ found. IfSome found (λ entries. AreEntriesOf schedule.now entries.items)) }
    ensures none { IfOk result (λ found. IfNone found (is_found schedule.now ≡ false)) }
{
    match schedule {
        // The text spells a schedule, so that reading it fails only if memory runs out.
        Ok(text) => match read_schedule(alloc, text.as_str()) {
            Ok(entries) => Ok(Some(entries)),
            Err(_) => Err(AllocError),
        },
        Err(_) => Ok(None),
    }
}

// Whether the answer for this end has a line of a schedule.
fn has_line(end: &Result<RunEnd, RunError>) -> bool
    ensures { result ≡ has_line end.now }
{
    match end {
        Ok(_) | Err(RunError::Full(_, _)) | Err(RunError::Spent(_)) => true,
        Err(RunError::NoMemory) | Err(RunError::Lost(_)) | Err(RunError::NoWorker) => false,
    }
}

// The timeline of the program that a text spells. The program is read from the text, since a run consumes it.
fn text_timeline(
    alloc: Global,
    text: &[u8],
    entries: &[u16],
    limits: Limits,
) -> Result<String, AllocError>
    requires { AreLimits limits }
{
    let Ok(program) = read_program(alloc, text) else {
        return Err(AllocError);
    };
    let told = replay_events(alloc, &program, entries, limits)?;
    timeline(alloc, &told)
}

// The answer with a blank line and a timeline after it.
fn with_timeline(answer: Answer, rows: &str) -> Result<Answer, AllocError>
    ensures text { IfOk result (λ a. a.text.items ≡ answer.text.items ++ 10 ∷ rows.now) }
    ensures status { IfOk result (λ a. a.status ≡ answer.status) }
{
    let Answer { mut text, status } = answer;
    text.push(b'\n')?;
    text.extend_from_slice(rows.as_bytes())?;
    Ok(Answer { text, status })
}

/// The same as [`record_answer`] for the program that `text` spells. If the answer has a schedule, a blank line and the
/// timeline of its replay follow. `AllocError` if memory ran out outside of the run.
pub fn timed_answer<R: Threads + Wait + Sync>(
    rt: &R,
    alloc: Global,
    text: &[u8],
    program: Program,
    options: Options,
) -> Result<Answer, AllocError>
    requires limits { AreLimits (limits_of options) }
    requires budget { 1 < options.budget }
    ensures { IfOk result (λ a. IsTimedAnswer program options a.text.items a.status) }
{
    let Spelled { end, schedule } = run_spelled(rt, alloc, program, options);
    let answer = end_told(alloc, &end, &schedule)?;
    if !has_line(&end) {
        return Ok(answer);
    }
    match entries_of(alloc, &schedule)? {
        Some(entries) => {
            let rows = text_timeline(alloc, text, entries.as_slice(), limits_of(options))?;
            with_timeline(answer, rows.as_str())
        }
        None => Ok(answer),
    }
}

//! The answer to a program under a schedule, whose text is among the words or in front of the program's.

ghost use Rattle.std.specs.Prelude.{◌≡◌, ◌≢◌, ◌⊎◌, ◌<◌, ◌^◌, codes, false};
ghost use Rattle.cell_registry.specs.Cells.{AreLimits};
ghost use Rattle.command_line.specs.Replays.{ObeysInput, ObeysReplay, ObeysSchedule, RefusesAs};
ghost use Rattle.text_io.specs.Devices.{devices};

use crate::first_line::{first_line, read_input};
use crate::replay_forms::obey_entries;
use command_words::{AnswerForm, Replay, refuse_words};
use outcome_trace::{
    FromRead, Limits, ScheduleError, Status, TextIn, TextOut, read_schedule, tell_fault,
};
use reasons::explain_schedule;
use std::alloc::Global;
use text_io::refuse_schedule;

// What is written if the first line of the input isn't text, in `clap`'s terms.
const NOT_TEXT: &str = "invalid UTF-8 was detected in the schedule, the first line of the input";

// Writes that a schedule's text is bad, with or without reasons.
fn refuse_as<E: TextOut>(
    alloc: Global,
    explain: bool,
    schedule: &str,
    error: ScheduleError,
    err: &mut E,
) -> Status
    requires { (E.seen err.old).failed ≡ false }
    ensures { RefusesAs explain error (E.seen err.old) (E.seen err.new) result }
{
    if explain {
        explain_schedule(alloc, schedule, error, err)
    } else {
        refuse_schedule(error, err)
    }
}

// Answers the program's text under the schedule. A bad schedule is reported before the program's text is read.
fn obey_schedule<I: TextIn, O: TextOut, E: TextOut>(
    alloc: Global,
    schedule: &str,
    form: AnswerForm,
    explain: bool,
    limits: Limits,
    input: &mut I,
    out: &mut O,
    err: &mut E,
) -> Status
    requires input { (I.seen input.old).failed ≡ false }
    requires countable { (I.seen input.old).reads < 2 ^ 63 }
    requires out { (O.seen out.old).failed ≡ false }
    requires err { (E.seen err.old).failed ≡ false }
    requires limits { AreLimits limits }
    ensures obeyed { ObeysSchedule form explain schedule.now limits
        (devices (I.seen input.old) (O.seen out.old) (E.seen err.old))
        (devices (I.seen input.new) (O.seen out.new) (E.seen err.new)) result }
    ensures unread { result ≡ Status.Usage → input.new ≡ input.old }
{
    match read_schedule(alloc, schedule) {
        Ok(entries) => {
            let entries = entries.as_slice();
            obey_entries(alloc, form, explain, entries, limits, input, out, err)
        }
        Err(error) => refuse_as(alloc, explain, schedule, error, err),
    }
}

// Answers the program's text under the schedule in the first line of the input. The program's text follows that line.
fn obey_input<I: TextIn, O: TextOut, E: TextOut>(
    alloc: Global,
    form: AnswerForm,
    explain: bool,
    limits: Limits,
    input: &mut I,
    out: &mut O,
    err: &mut E,
) -> Status
    requires input { (I.seen input.old).failed ≡ false }
    requires countable { (I.seen input.old).reads < 2 ^ 63 }
    requires out { (O.seen out.old).failed ≡ false }
    requires err { (E.seen err.old).failed ≡ false }
    requires limits { AreLimits limits }
    ensures { ObeysInput form explain limits (devices (I.seen input.old) (O.seen out.old) (E.seen err.old))
        (devices (I.seen input.new) (O.seen out.new) (E.seen err.new)) result }
{
    let bytes = match read_input(alloc, input) {
        Ok(bytes) => bytes,
        Err(fault) => return tell_fault(fault, err),
    };
    let (line, text) = first_line(bytes.as_slice());
    match std::str::from_utf8(line) {
        Ok(schedule) => {
            let mut behind = FromRead::new(text);
            obey_schedule(
                alloc,
                schedule,
                form,
                explain,
                limits,
                &mut behind,
                out,
                err,
            )
        }
        Err(_) => refuse_words(alloc, NOT_TEXT, err),
    }
}

/// Obeys a replay. Returns the status of the answer, `Status::Usage` if the schedule is bad, or `Status::Fault` if a
/// device failed or memory ran out. All but the answer goes to `err`, also the reasons if they are asked for.
///
/// A schedule among the words is checked before the input is read.
pub fn obey_replay<I: TextIn, O: TextOut, E: TextOut>(
    alloc: Global,
    replay: Replay<'_>,
    input: &mut I,
    out: &mut O,
    err: &mut E,
) -> Status
    requires input { (I.seen input.old).failed ≡ false }
    requires countable { (I.seen input.old).reads < 2 ^ 63 }
    requires out { (O.seen out.old).failed ≡ false }
    requires err { (E.seen err.old).failed ≡ false }
    ensures obeyed { ObeysReplay replay.entry (devices (I.seen input.old) (O.seen out.old) (E.seen err.old))
        (devices (I.seen input.new) (O.seen out.new) (E.seen err.new)) result }
    ensures unread { result ≡ Status.Usage → replay.entry.schedule.now ≢ codes "-" → input.new ≡ input.old }
{
    let Replay {
        schedule,
        form,
        explain,
        limits,
    } = replay;
    match schedule {
        "-" => obey_input(alloc, form, explain, limits, input, out, err),
        schedule => obey_schedule(alloc, schedule, form, explain, limits, input, out, err),
    }
}

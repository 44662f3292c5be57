//! The answer to a text whose program workers run, in the requested form.
//!
//! A run is no `TextOrder`: threads share the runtime, and a trait's method can't require a runtime that threads can
//! share.

ghost use Rattle.std.specs.Prelude.{◌≡◌, ◌≢◌, ◌<◌, ◌^◌, false, IfOk};
ghost use Rattle.cell_registry.specs.Cells.{AreLimits};
ghost use Rattle.command_line.specs.Runs.{ObeysRun, comes_as, ran_as, refused_as};
ghost use Rattle.outcome_trace.specs.Answers.{IsRefused};
ghost use Rattle.steal_pool.specs.Runs.{limits_of};
ghost use Rattle.text_io.specs.Devices.{devices};
ghost use Rattle.text_io.specs.Exchange.{IsAnswered};
ghost use Rattle.text_io.specs.Telling.{Answered};

use crate::record_answers::{record_answer, timed_answer};
use crate::run_answers::{json_answer, run_answer, text_refusal};
use crate::run_reasons::explain_run;
use command_words::{RunForm, Running};
use effect_term::Program;
use json_answers::refusal_answer;
use outcome_trace::{
    Answer, Refused, Status, TextFault, TextIn, TextOut, read_program, read_text, tell_fault,
    write_text,
};
use std::alloc::{AllocError, Global};
use std::sync::Wait;
use std::thread::Threads;
use steal_pool::Options;

// The answer to the program that the text spells, on workers, in this form. `AllocError` if memory ran out outside of
// the run.
fn program_answer<R: Threads + Wait + Sync>(
    rt: &R,
    alloc: Global,
    text: &[u8],
    program: Program,
    form: RunForm,
    options: Options,
) -> Result<Answer, AllocError>
    requires limits { AreLimits (limits_of options) }
    requires budget { 1 < options.budget }
    ensures { IfOk result (λ a. comes_as form options program a.text.items a.status) }
{
    match form {
        RunForm::Report => run_answer(rt, alloc, program, options),
        RunForm::Record => record_answer(rt, alloc, program, options),
        RunForm::Timeline => timed_answer(rt, alloc, text, program, options),
        RunForm::Json => json_answer(rt, alloc, program, options),
    }
}

// The answer to a refused text, in this form. `AllocError` if memory ran out, also if that is why the text is refused.
fn refused_answer(
    alloc: Global,
    text: &[u8],
    form: RunForm,
    refused: Refused,
) -> Result<Answer, AllocError>
    requires { IsRefused text.now refused }
    ensures { IfOk result (λ a. refused_as form text.now a.text.items a.status) }
{
    match form {
        RunForm::Report => text_refusal(alloc, text, refused),
        RunForm::Record => text_refusal(alloc, text, refused),
        RunForm::Timeline => text_refusal(alloc, text, refused),
        RunForm::Json => refusal_answer(alloc, text, refused),
    }
}

// The answer to a text: its refusal, or the answer to its program. `AllocError` if memory ran out outside of the run.
fn text_answer<R: Threads + Wait + Sync>(
    rt: &R,
    alloc: Global,
    text: &[u8],
    form: RunForm,
    options: Options,
) -> Result<Answer, AllocError>
    requires limits { AreLimits (limits_of options) }
    requires budget { 1 < options.budget }
    ensures { IfOk result (λ a. ran_as form options text.now a.text.items a.status) }
{
    match read_program(alloc, text) {
        Ok(program) => program_answer(rt, alloc, text, program, form, options),
        Err(refused) => refused_answer(alloc, text, form, refused),
    }
}

// Reads a text, and writes its answer. Returns the answer's status. If memory runs out outside of the run, the reader
// fails, or the input doesn't end within `TEXT_BOUND` reads, nothing is written.
fn run_text<R: Threads + Wait + Sync, I: TextIn, O: TextOut>(
    rt: &R,
    alloc: Global,
    form: RunForm,
    options: Options,
    input: &mut I,
    out: &mut O,
) -> Result<Status, TextFault>
    requires input { (I.seen input.old).failed ≡ false }
    requires countable { (I.seen input.old).reads < 2 ^ 63 }
    requires out { (O.seen out.old).failed ≡ false }
    requires limits { AreLimits (limits_of options) }
    requires budget { 1 < options.budget }
    ensures { IsAnswered (ran_as form options) (I.seen input.old) (I.seen input.new) (O.seen out.old) (O.seen out.new)
        result }
{
    let text = read_text(alloc, input)?;
    let answer = text_answer(rt, alloc, text.as_slice(), form, options)?;
    write_text(answer.text.as_slice(), out)?;
    Ok(answer.status)
}

// The same, with the line of a fault written to `err`.
fn answer_run<R: Threads + Wait + Sync, I: TextIn, O: TextOut, E: TextOut>(
    rt: &R,
    alloc: Global,
    form: RunForm,
    options: Options,
    input: &mut I,
    out: &mut O,
    err: &mut E,
) -> Status
    requires input { (I.seen input.old).failed ≡ false }
    requires countable { (I.seen input.old).reads < 2 ^ 63 }
    requires out { (O.seen out.old).failed ≡ false }
    requires err { (E.seen err.old).failed ≡ false }
    requires limits { AreLimits (limits_of options) }
    requires budget { 1 < options.budget }
    ensures { Answered (ran_as form options) (devices (I.seen input.old) (O.seen out.old) (E.seen err.old))
        (devices (I.seen input.new) (O.seen out.new) (E.seen err.new)) result }
{
    match run_text(rt, alloc, form, options, input, out) {
        Ok(status) => status,
        Err(fault) => tell_fault(fault, err),
    }
}

/// Reads a text, has workers run its program, and writes the report, the line of the run's fault, or the line of the
/// text's refusal, in the requested form. Returns the answer's status: that of fiber 0's end, `Status::Fault` if the
/// run had a fault, also if memory ran out in it, and `Status::Refused` if the text is refused.
///
/// If a record is asked for, a line follows a report and a fault 18 or 19: that of a schedule under which the core
/// gives exactly this report or fault, or why there is none. If reasons are asked for, [`explain_run`] writes them.
///
/// The status is also `Status::Fault` if a device failed, the input didn't end within `TEXT_BOUND` reads, or memory ran
/// out outside of the run. The line of this fault goes to `err`.
pub fn obey_run<R: Threads + Wait + Sync, I: TextIn, O: TextOut, E: TextOut>(
    rt: &R,
    alloc: Global,
    running: Running,
    input: &mut I,
    out: &mut O,
    err: &mut E,
) -> Status
    requires input { (I.seen input.old).failed ≡ false }
    requires countable { (I.seen input.old).reads < 2 ^ 63 }
    requires out { (O.seen out.old).failed ≡ false }
    requires err { (E.seen err.old).failed ≡ false }
    ensures obeyed { ObeysRun running (devices (I.seen input.old) (O.seen out.old) (E.seen err.old))
        (devices (I.seen input.new) (O.seen out.new) (E.seen err.new)) result }
    ensures ends { result ≢ Status.Usage }
{
    if running.explain {
        explain_run(rt, alloc, running.options, input, out, err)
    } else {
        answer_run(rt, alloc, running.form, running.options, input, out, err)
    }
}

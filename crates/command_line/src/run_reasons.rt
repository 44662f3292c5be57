//! The reasons for a text whose program workers run.

ghost use Rattle.std.specs.Prelude.{◌≡◌, ◌⊎◌, ◌<◌, ◌^◌, false, Err as Fails, IfErr, IfOk, IfSome};
ghost use Rattle.cell_registry.specs.Cells.{AreLimits};
ghost use Rattle.command_line.specs.Recording.{ended_status, ended_text};
ghost use Rattle.command_line.specs.RunReasons.{AreRunReasons, ExplainsRun, IsRunKept, no_reasons_line};
ghost use Rattle.command_line.specs.Workers.{IsRunTextAnswer, IsWorkersAnswer};
ghost use Rattle.reasons.specs.Explained.{TellsReasons};
ghost use Rattle.outcome_trace.specs.Answers.{IsRefusalAnswer, IsRefused};
ghost use Rattle.outcome_trace.specs.ReplayAnswers.{IsReplayAnswer, IsRunAnswer};
ghost use Rattle.steal_pool.specs.Runs.{limits_of};
ghost use Rattle.text_io.specs.Devices.{devices};
ghost use Rattle.text_io.specs.Exchange.{IsAnswered};
ghost use Rattle.text_io.specs.Telling.{Told};

use crate::record_answers::entries_of;
use crate::run_answers::{fault_answer, text_refusal};
use crate::spelling::{Spelled, run_spelled};
use cell_registry::RunError;
use command_words::limits_of;
use effect_term::Program;
use outcome_trace::{
    Answer, Limits, Refused, ReplayOrder, Status, TextFault, TextIn, TextOrder, TextOut,
    read_program, read_text, report_answer, tell_fault, write_text,
};
use reasons::{ReplayReasons, tell_reasons};
use std::alloc::{AllocError, Global};
use std::sync::Wait;
use std::thread::Threads;
use steal_pool::{Options, RunEnd};

// The line that is written if a fiber hasn't ended and no schedule of the run was found.
const NO_REASONS: &[u8] = b"reasons can't be told: no schedule of this run was found\n";

// The greatest number of entries that are tried after the schedule of a run, so that each fiber reaches its wait. A
// recorded schedule leaves out the moves that show nothing.
const MORE_ENTRIES: usize = 100_000;

// The answer to a text, the entries of a schedule under which a replay gives the same answer, if some were found, and
// whether the answer is a report in which a fiber hasn't ended. Only such a fiber has a reason.
#[derive(Drop)]
struct Ran {
    answer: Answer,
    entries: Option<Vec<u16>>,
    unended: bool,
}

// A text and its answer.
#[derive(Drop)]
struct Kept {
    text: Vec<u8>,
    ran: Ran,
}

// The answer to a recorded run that ended with `end`.
fn ended_answer(alloc: Global, end: &Result<RunEnd, RunError>) -> Result<Answer, AllocError>
    ensures text { IfOk result (λ a. a.text.items ≡ ended_text end.now) }
    ensures status { IfOk result (λ a. a.status ≡ ended_status end.now) }
{
    match end {
        Ok(ended) => report_answer(alloc, &ended.report),
        Err(error) => fault_answer(alloc, *error),
    }
}

// Whether the run ended with a report in which a fiber hasn't ended.
fn is_unended(end: &Result<RunEnd, RunError>) -> bool {
    match end {
        Ok(ended) => ended
            .report
            .fibers
            .as_slice()
            .iter()
            .any(|it| it.outcome.is_none()),
        Err(_) => false,
    }
}

// The answer to a program on workers that record their schedule.
fn program_ran<R: Threads + Wait + Sync>(
    rt: &R,
    alloc: Global,
    program: Program,
    options: Options,
) -> Result<Ran, AllocError>
    requires limits { AreLimits (limits_of options) }
    requires budget { 1 < options.budget }
    ensures answers { IfOk result (λ ran. IsWorkersAnswer program options ran.answer.text.items ran.answer.status) }
    ensures replayed { IfOk result (λ ran. IfSome ran.entries (λ entries.
        IsRunAnswer program entries.items (limits_of options) ran.answer.text.items ran.answer.status)) }
{
    let Spelled { end, schedule } = run_spelled(rt, alloc, program, options);
    let answer = ended_answer(alloc, &end)?;
    let entries = entries_of(alloc, &schedule)?;
    Ok(Ran {
        answer,
        entries,
        unended: is_unended(&end),
    })
}

// The answer to a refused text. A replay under any schedule gives the same answer.
fn refused_ran(alloc: Global, text: &[u8], refused: Refused) -> Result<Ran, AllocError>
    requires { IsRefused text.now refused }
    ensures { IfOk result (λ ran. IsRefusalAnswer text.now ran.answer.text.items ran.answer.status) }
{
    let answer = text_refusal(alloc, text, refused)?;
    let entries = Some(Vec::new(alloc));
    Ok(Ran {
        answer,
        entries,
        unended: false,
    })
}

// The answer to a text: its refusal, or the answer to its program.
fn text_ran<R: Threads + Wait + Sync>(
    rt: &R,
    alloc: Global,
    text: &[u8],
    options: Options,
) -> Result<Ran, AllocError>
    requires limits { AreLimits (limits_of options) }
    requires budget { 1 < options.budget }
    ensures answers { IfOk result (λ ran. IsRunTextAnswer options text.now ran.answer.text.items ran.answer.status) }
    ensures replayed { IfOk result (λ ran. IfSome ran.entries (λ entries.
        IsReplayAnswer entries.items (limits_of options) text.now ran.answer.text.items ran.answer.status)) }
{
    match read_program(alloc, text) {
        Ok(program) => program_ran(rt, alloc, program, options),
        Err(refused) => refused_ran(alloc, text, refused),
    }
}

// Reads a text, writes its answer, and keeps both.
fn keep_run<R: Threads + Wait + Sync, I: TextIn, O: TextOut>(
    rt: &R,
    alloc: Global,
    options: Options,
    input: &mut I,
    out: &mut O,
) -> Result<Kept, TextFault>
    requires input { (I.seen input.old).failed ≡ false }
    requires countable { (I.seen input.old).reads < 2 ^ 63 }
    requires out { (O.seen out.old).failed ≡ false }
    requires limits { AreLimits (limits_of options) }
    requires budget { 1 < options.budget }
    ensures kept { IfOk result (λ kept. IsRunKept options (I.seen input.old) (I.seen input.new) (O.seen out.old)
        (O.seen out.new) kept.text.items kept.ran.answer.text.items kept.ran.answer.status) }
    ensures replayed { IfOk result (λ kept. IfSome kept.ran.entries (λ entries. IsReplayAnswer entries.items
        (limits_of options) kept.text.items kept.ran.answer.text.items kept.ran.answer.status)) }
    ensures fault { IfErr result (λ e. IsAnswered (IsRunTextAnswer options) (I.seen input.old) (I.seen input.new)
        (O.seen out.old) (O.seen out.new) (Fails e)) }
{
    let text = read_text(alloc, input)?;
    let ran = text_ran(rt, alloc, text.as_slice(), options)?;
    write_text(ran.answer.text.as_slice(), out)?;
    Ok(Kept { text, ran })
}

// `entries`, and after them rounds of one entry for each fiber, `MORE_ENTRIES` entries at most.
fn with_rounds(alloc: Global, entries: &[u16], fibers: u16) -> Result<Vec<u16>, AllocError> {
    let mut longer = Vec::new(alloc);
    longer.extend_from_slice(entries)?;
    for _ in 0..MORE_ENTRIES / usize::from(fibers).max(1) {
        for fiber in 0..fibers {
            longer.push(fiber)?;
        }
    }
    Ok(longer)
}

// The number of fibers in the text of a report, which has a line for each fiber.
fn fibers_of(report: &[u8]) -> u16 {
    let mut fibers = 0u16;
    for byte in report {
        if *byte == b'\n' {
            fibers = fibers.saturating_add(1);
        }
    }
    fibers
}

// `entries` with rounds after them, if a replay of the text under all of these gives `answer`.
fn rounds_under(
    alloc: Global,
    text: &[u8],
    entries: &[u16],
    answer: &Answer,
    limits: Limits,
) -> Result<Option<Vec<u16>>, AllocError>
    requires { AreLimits limits }
    ensures { IfOk result (λ found. IfSome found (λ longer.
        IsReplayAnswer longer.items limits text.now answer.now.text.items answer.now.status)) }
{
    let longer = with_rounds(alloc, entries, fibers_of(answer.text.as_slice()))?;
    let schedule = longer.as_slice();
    let replayed = ReplayOrder { schedule, limits }.answer(alloc, text)?;
    if replayed.text.as_slice() == answer.text.as_slice() && replayed.status == answer.status {
        Ok(Some(longer))
    } else {
        Ok(None)
    }
}

// The entries for the reasons: those of a longer schedule with the same answer, if there is one, or else `entries`.
fn rested(
    alloc: Global,
    text: &[u8],
    entries: Vec<u16>,
    answer: &Answer,
    limits: Limits,
) -> Vec<u16>
    requires limits { AreLimits limits }
    requires replayed { IsReplayAnswer entries.items limits text.now answer.now.text.items answer.now.status }
    ensures { IsReplayAnswer result.items limits text.now answer.now.text.items answer.now.status }
{
    match rounds_under(alloc, text, entries.as_slice(), answer, limits) {
        Ok(Some(longer)) => longer,
        Ok(None) | Err(_) => entries,
    }
}

// If a fiber hasn't ended, writes that there are no reasons. Otherwise there is nothing to explain.
fn tell_none<E: TextOut>(unended: bool, err: &mut E)
    requires err { (E.seen err.old).failed ≡ false }
    ensures told { Told no_reasons_line (E.seen err.old) (E.seen err.new) ⊎ (E.seen err.new ≡ E.seen err.old) }
    ensures ended { unended ≡ false → E.seen err.new ≡ E.seen err.old }
{
    if unended {
        let _ = write_text(NO_REASONS, err);
    }
}

// Writes the reasons for a text and its answer: those of a replay with the same answer, if there is one.
fn tell_kept<E: TextOut>(
    alloc: Global,
    limits: Limits,
    text: &[u8],
    answer: &Answer,
    entries: Option<Vec<u16>>,
    unended: bool,
    err: &mut E,
)
    requires err { (E.seen err.old).failed ≡ false }
    requires limits { AreLimits limits }
    requires replayed { IfSome entries (λ entries. IsReplayAnswer entries.items limits text.now
        answer.now.text.items answer.now.status) }
    ensures { TellsReasons (AreRunReasons limits text.now answer.now.text.items answer.now.status) (E.seen err.old)
        (E.seen err.new) }
{
    match entries {
        Some(entries) => {
            let longer = rested(alloc, text, entries, answer, limits);
            let schedule = longer.as_slice();
            tell_reasons(alloc, &ReplayReasons { schedule, limits }, text, err)
        }
        None => tell_none(unended, err),
    }
}

/// Reads a text, has workers run its program, and writes the answer that `run` writes without reasons. Then it writes
/// to `err` why the text is refused, or why each fiber hasn't ended under a schedule with the same answer. If a fiber
/// hasn't ended and no such schedule was found, it writes that instead.
///
/// The status is that of `run`. If there is a fault, only its line goes to `err`. If memory runs out for the reasons,
/// they are left out. If `err` fails, nothing more is written.
pub fn explain_run<R: Threads + Wait + Sync, I: TextIn, O: TextOut, E: TextOut>(
    rt: &R,
    alloc: Global,
    options: Options,
    input: &mut I,
    out: &mut O,
    err: &mut E,
) -> Status
    requires input { (I.seen input.old).failed ≡ false }
    requires countable { (I.seen input.old).reads < 2 ^ 63 }
    requires out { (O.seen out.old).failed ≡ false }
    requires err { (E.seen err.old).failed ≡ false }
    requires limits { AreLimits (limits_of options) }
    requires budget { 1 < options.budget }
    ensures { ExplainsRun options (devices (I.seen input.old) (O.seen out.old) (E.seen err.old))
        (devices (I.seen input.new) (O.seen out.new) (E.seen err.new)) result }
{
    match keep_run(rt, alloc, options, input, out) {
        Ok(Kept { text, ran }) => {
            let Ran {
                answer,
                entries,
                unended,
            } = ran;
            let limits = limits_of(options);
            tell_kept(
                alloc,
                limits,
                text.as_slice(),
                &answer,
                entries,
                unended,
                err,
            );
            answer.status
        }
        Err(fault) => tell_fault(fault, err),
    }
}

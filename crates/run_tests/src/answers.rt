//! The results of a run and of a replay of a program, as texts, and that the replay of a recorded run has the same
//! result.
ghost use Rattle.std.specs.Prelude.{◌≡◌, ◌<◌};
ghost use Rattle.cell_registry.specs.Cells.{AreLimits};
ghost use Rattle.steal_pool.specs.Runs.{limits_of};

use cell_registry::{Limits, RunError};
use derived_ops::program_of;
use effect_term::Program;
use outcome_trace::{Refused, Report, line, replay, text_of_report};
use std::alloc::{AllocError, Global};
use std::process::Abort;
use std::sync::Wait;
use std::test::Fail;
use std::thread::Threads;
use steal_pool::{Gate, NoSchedule, OpenGate, Options, Recorded, RunEnd, run_recorded, run_told};
use term_parse::parse;

/// The default options.
pub const USUAL: Options = Options {
    workers: 4,
    fibers: 1000,
    refs: 1000,
    deferreds: 1000,
    count: 1_099_511_627_775,
    budget: 64,
    moves: 100_000,
};

/// How a text is run: with these options, `times` times on each of these numbers of workers with each of these budgets.
#[derive(Clone, Copy)]
pub struct Runs<'a> {
    pub options: Options,
    pub workers: &'a [u8],
    pub budgets: &'a [u32],
    pub times: u32,
}

/// These options with this number of workers and this budget, each within its range.
pub fn within(options: Options, workers: u8, budget: u32) -> Options
    ensures limits { AreLimits (limits_of result) }
    ensures budget { 1 < result.budget }
{
    Options {
        workers,
        fibers: options.fibers.max(1).min(1000),
        refs: options.refs.max(1).min(1000),
        deferreds: options.deferreds.max(1).min(1000),
        count: options.count.max(1).min(1_099_511_627_775),
        budget: budget.max(2),
        moves: options.moves,
    }
}

/// The program that this text spells.
pub fn program(alloc: Global, text: &str) -> Result<Program, Fail> {
    let term = parse(alloc, text.as_bytes())?;
    Ok(program_of(alloc, term)?)
}

// The text of a report, or the line of a fault.
fn spelled(alloc: Global, answer: Result<Report, RunError>) -> Result<String, Fail> {
    match answer {
        Ok(report) => Ok(text_of_report(alloc, &report)?),
        Err(fault) => Ok(String::from_utf8(line(alloc, &Refused::Run(fault))?)?),
    }
}

// The text of the report of a run, or the line of its fault. If moves were made after the workers had ended, their
// number follows the report.
fn told(alloc: Global, answer: Result<RunEnd, RunError>) -> Result<String, Fail> {
    match answer {
        Ok(end) => {
            let mut text = spelled(alloc, Ok(end.report))?;
            if end.finished > 0 {
                let finished = end.finished;
                push_piece(&mut text, format!(in alloc; "finished {finished}\n"))?;
            }
            Ok(text)
        }
        Err(fault) => spelled(alloc, Err(fault)),
    }
}

/// The result of a run of the program that this text spells, with this gate. The text says whether the workers left
/// moves to be made.
pub fn run_past<R: Threads + Wait + Sync, G: Gate>(
    rt: &R,
    alloc: Global,
    text: &str,
    options: Options,
    gate: &G,
) -> Result<String, Fail>
    requires limits { AreLimits (limits_of options) }
    requires budget { 1 < options.budget }
{
    let program = program(alloc, text)?;
    told(alloc, run_told(rt, alloc, program, options, gate))
}

/// The result of a recorded run of the program that this text spells, with this gate, and the result of a replay under
/// its schedule. If it has no schedule, the second text is the reason.
pub fn recorded_past<R: Threads + Wait + Sync, G: Gate>(
    rt: &R,
    alloc: Global,
    text: &str,
    options: Options,
    gate: &G,
) -> Result<(String, String), Fail>
    requires limits { AreLimits (limits_of options) }
    requires budget { 1 < options.budget }
{
    let program = program(alloc, text)?;
    let Recorded { end, schedule } = run_recorded(rt, alloc, program, options, gate);
    let run = told(alloc, end)?;
    let replay = replayed(alloc, text, options, schedule)?;
    Ok((run, replay))
}

// The result of a replay under this schedule, or the reason why there is none.
fn replayed(
    alloc: Global,
    text: &str,
    options: Options,
    schedule: Result<Vec<u16>, NoSchedule>,
) -> Result<String, Fail>
    requires limits { AreLimits (limits_of options) }
{
    match schedule {
        Ok(entries) => {
            let program = program(alloc, text)?;
            replay_within(alloc, &program, entries.as_slice(), options.limits())
        }
        Err(why) => Ok(format!(in alloc; "no schedule: {why:?}")?),
    }
}

/// The fiber that has used up its moves in a run of the program that this text spells, if the run reports one.
pub fn stopped_in<R: Threads + Wait + Sync>(
    rt: &R,
    alloc: Global,
    text: &str,
    options: Options,
) -> Result<Option<u16>, Fail>
    requires limits { AreLimits (limits_of options) }
    requires budget { 1 < options.budget }
{
    let program = program(alloc, text)?;
    match run_told(rt, alloc, program, options, &OpenGate) {
        Ok(end) => Ok(end.stopped),
        Err(_) => Err(Fail::new("the run gave a fault")),
    }
}

/// The result of a replay of a program under a schedule, within the greatest limits.
pub fn replay_of(alloc: Global, program: &Program, schedule: &[u16]) -> Result<String, Fail> {
    let widest = Limits {
        fibers: 1000,
        refs: 1000,
        deferreds: 1000,
        count: 1_099_511_627_775,
    };
    replay_within(alloc, program, schedule, widest)
}

// The result of a replay of a program under a schedule, within these limits.
fn replay_within(
    alloc: Global,
    program: &Program,
    schedule: &[u16],
    limits: Limits,
) -> Result<String, Fail>
    requires limits { AreLimits limits }
{
    spelled(alloc, replay(alloc, program, schedule, limits))
}

/// Appends a piece to a text.
pub fn push_piece(text: &mut String, piece: Result<String, AllocError>) -> Result<(), AllocError> {
    text.push_str(piece?.as_str())
}

// Whether a text is one of these.
fn is_among(text: &str, wanted: &[&str]) -> bool {
    for want in wanted {
        if *want == text {
            return true;
        }
    }
    false
}

// Runs a text once, and checks that its result is one of these.
fn expect_run<R: Abort + Threads + Wait + Sync>(
    rt: &R,
    alloc: Global,
    text: &str,
    options: Options,
    wanted: &[&str],
) -> Result<(), Fail>
    requires limits { AreLimits (limits_of options) }
    requires budget { 1 < options.budget }
{
    let answer = run_past(rt, alloc, text, options, &OpenGate)?;
    assert!(rt;
        is_among(answer.as_str(), wanted),
        "{text} with {options:?}: {answer}"
    );
    Ok(())
}

/// Runs a text once and records it, and checks that a replay under its schedule has the same result.
pub fn expect_recorded<R: Abort + Threads + Wait + Sync>(
    rt: &R,
    alloc: Global,
    text: &str,
    options: Options,
) -> Result<(), Fail>
    requires limits { AreLimits (limits_of options) }
    requires budget { 1 < options.budget }
{
    let (run, replay) = recorded_past(rt, alloc, text, options, &OpenGate)?;
    assert!(rt;
        run.as_str() == replay.as_str(),
        "{text} with {options:?}: {run}but its replay: {replay}"
    );
    Ok(())
}

/// Runs a text as often as `Runs` says, and checks that each result is one of these. One more run on each number of
/// workers with each budget is recorded.
pub fn expect_runs<R: Abort + Threads + Wait + Sync>(
    rt: &R,
    alloc: Global,
    text: &str,
    runs: &Runs<'_>,
    wanted: &[&str],
) -> Result<(), Fail> {
    for workers in runs.workers {
        for budget in runs.budgets {
            let options = within(runs.options, *workers, *budget);
            for _ in 0..runs.times {
                expect_run(rt, alloc, text, options, wanted)?;
            }
            expect_recorded(rt, alloc, text, options)?;
        }
    }
    Ok(())
}

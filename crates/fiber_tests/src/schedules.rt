//! Programs under schedules. Their reports are worked out by hand.
ghost use Rattle.std.specs.Prelude.{◌<◌};
ghost use Rattle.cell_registry.specs.Cells.{AreLimits};

use cell_registry::{Limits, PlainRegistry, RunError};
use effect_term::Program;
use fiber_frames::Config;
use outcome_trace::{
    enter, first_fibers, read_schedule, replay, report_of_fibers, same_report, text_of_report,
};
use std::alloc::Global;
use std::test::Fail;
use term_parse::parse;

fn limits(count: u32) -> Limits
    requires { 0 < count }
    ensures { AreLimits result }
{
    Limits {
        fibers: 1000,
        refs: 1000,
        deferreds: 1000,
        count: u64::from(count),
    }
}

// The text of the report of a program under a schedule, or the fault.
fn report_text(
    alloc: Global,
    program: &Program,
    schedule: &[u16],
    count: u32,
) -> Result<String, RunError>
    requires { 0 < count }
{
    let report = replay(alloc, program, schedule, limits(count))?;
    Ok(text_of_report(alloc, &report)?)
}

// The same for their texts.
fn run(
    alloc: Global,
    program: &[u8],
    schedule: &str,
    count: u32,
) -> Result<Result<String, RunError>, Fail>
    requires { 0 < count }
{
    let program = Program::check(alloc, parse(alloc, program)?)?;
    let schedule = read_schedule(alloc, schedule)?;
    Ok(report_text(alloc, &program, schedule.as_slice(), count))
}

fn is_told(told: &Result<String, RunError>, want: &Result<&str, RunError>) -> bool {
    match (told, want) {
        (Ok(text), Ok(want)) => text.as_str() == *want,
        (Err(error), Err(fault)) => error == fault,
        _ => false,
    }
}

// A program, a schedule, the count, and the report or the fault.
type Row = (
    &'static [u8],
    &'static str,
    u32,
    Result<&'static str, RunError>,
);

const VALUE: &[u8] = b"(pure 7)";

const MASKED_REQUEST: &[u8] = b"(uncancelable p (canceled))";

const REQUEST_BEFORE_A_POLL: &[u8] =
    b"(uncancelable p (let a (canceled) (let b (say 1) (poll p (say 2)))))";

const RUNS: &[Row] = &[
    // A value is the outcome after its end.
    (VALUE, "0*2", 10, Ok("fiber 0 succeeded 7\n")),
    (VALUE, "0*1", 10, Ok("fiber 0 unended\n")),
    // A masked request has its effect at the end of the mask.
    (
        MASKED_REQUEST,
        "0*7",
        4,
        Ok("fiber 0 canceled: enter 0, leave 0, cut\n"),
    ),
    (
        MASKED_REQUEST,
        "0*6",
        4,
        Ok("fiber 0 unended: enter 0, leave 0, cut\n"),
    ),
    // A request is seen in a poll.
    (
        REQUEST_BEFORE_A_POLL,
        "0*99",
        10,
        Ok("fiber 0 canceled: enter 0, say 1, in 0, cut\n"),
    ),
    // Entries of fibers that weren't started change nothing.
    (
        b"(say 1)",
        "5 0 1 0 999 0 0",
        10,
        Ok("fiber 0 succeeded 0: say 1\n"),
    ),
    // A call past the limit of changes ends the run.
    (MASKED_REQUEST, "0*7", 1, Err(RunError::Spent(0))),
    (MASKED_REQUEST, "0*7", 2, Err(RunError::Spent(0))),
    (MASKED_REQUEST, "0*7", 3, Err(RunError::Spent(0))),
];

#[test]
fn runs_give_their_report_or_their_fault(rt: HostRuntime) -> Result<(), Fail> {
    for (program, schedule, count, want) in RUNS {
        assert!(rt; *count > 0);
        let told = run(rt.alloc(), program, schedule, *count)?;
        assert!(rt; is_told(&told, want), "{program:?} under {schedule}");
    }
    Ok(())
}

// The fibers of a program after the entries of a schedule.
fn fibers_after(
    alloc: Global,
    program: &Program,
    schedule: &[u16],
) -> Result<Vec<Config>, RunError> {
    let Limits {
        fibers,
        refs,
        deferreds,
        count,
    } = limits(10);
    let mut registry = PlainRegistry::new(alloc, fibers, refs, deferreds, count)?;
    let mut fibers = first_fibers(alloc, program)?;
    for number in schedule {
        enter(&mut fibers, &mut registry, *number)?;
    }
    Ok(fibers)
}

// Whether a program has the same report under two schedules. Each report is also that of its replay.
fn is_one_report(alloc: Global, program: &Program, one: &str, other: &str) -> Result<bool, Fail> {
    let one = read_schedule(alloc, one)?;
    let other = read_schedule(alloc, other)?;
    let Ok(fibers) = fibers_after(alloc, program, one.as_slice()) else {
        return Err(Fail::new("a fault"));
    };
    let Ok(others) = fibers_after(alloc, program, other.as_slice()) else {
        return Err(Fail::new("a fault"));
    };
    let is_one = same_report(fibers.as_slice(), others.as_slice());
    let text = text_of_report(alloc, &report_of_fibers(alloc, fibers)?)?;
    let replayed = report_text(alloc, program, one.as_slice(), 10);
    if is_told(&replayed, &Ok(text.as_str())) {
        Ok(is_one)
    } else {
        Err(Fail::new("a replay is another"))
    }
}

// A program, two schedules, and whether they lead to the same report.
const REPORTS: &[(&[u8], &str, &str, bool)] = &[
    // A look isn't in the report.
    (b"(say 1)", "", "0", true),
    // A mark is, and so is an end.
    (b"(say 1)", "0", "0*2", false),
    (b"(say 1)", "0*2", "0*3", true),
    (b"(say 1)", "0*3", "0*4", false),
    (b"(say 1)", "0*4", "0*5", true),
    // A started fiber is in the report.
    (b"(start f (pure 1) (pure 2))", "0", "0*2", false),
    // The order of two moves isn't.
    (b"(start f (say 1) (say 2))", "0*4 1*2", "0*2 1*2 0*2", true),
    (b"(start f (say 1) (say 2))", "0*4 1*2", "0*2 1*3 0", false),
];

#[test]
fn entries_lead_where_their_replay_does(rt: HostRuntime) -> Result<(), Fail> {
    for (program, one, other, is_one) in REPORTS {
        let program = Program::check(rt.alloc(), parse(rt.alloc(), program)?)?;
        let told = is_one_report(rt.alloc(), &program, one, other)?;
        assert_eq!(rt; told, *is_one, "{one} and {other}");
    }
    Ok(())
}

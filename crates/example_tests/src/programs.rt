//! A text that is read and printed, a fiber that is moved by hand, and programs that are replayed, explored and run, as
//! in the examples of `term_parse`, `fiber_frames`, `outcome_trace`, `every_schedule` and `steal_pool`.

ghost use Rattle.cell_registry.specs.Cells.{AreLimits};

use cell_registry::Limits;
use derived_ops::expand;
use effect_term::{Outcome, Program, Value};
use every_schedule::explore;
use fiber_frames::{Ask, Config, Mark, Reply};
use outcome_trace::{read_schedule, replay, text_of_report};
use std::alloc::Global;
use std::process::Abort;
use std::rt::HostRuntime;
use std::str;
use std::test::Fail;
use steal_pool::{OpenGate, Options, run};
use term_parse::{ParseError, parse, print};
use world_search::Bounds;

const RACE: &[u8] = b"(race (pure 4) (never))";

const WON: &str = "fiber 0 succeeded 4: enter 0, in 0, out 0, enter 1, leave 1, leave 0\n\
    fiber 1 succeeded 4: enter 0, in 0, out 0, leave 0\n\
    fiber 2 canceled: enter 0, in 0, cut\n";

const RAN: &str = "fiber 0 succeeded 7: say 2\n\
    fiber 1 succeeded 0: say 1\n";

fn program(alloc: Global, text: &[u8]) -> Result<Program, Fail> {
    Ok(Program::check(alloc, parse(alloc, text)?)?)
}

// Limits of a small program.
fn few() -> Limits
    ensures { AreLimits result }
{
    Limits {
        fibers: 3,
        refs: 1,
        deferreds: 1,
        count: 1000,
    }
}

// The number in a name is that of the binders around its own.
#[test]
fn a_text_is_read_and_printed(rt: HostRuntime) -> Result<(), Fail> {
    let alloc = rt.alloc();
    let term = parse(alloc, b"( let  x (pure 1)(pure x))")?;
    let text = print(alloc, &term)?;
    assert_eq!(rt;
        str::from_utf8(text.as_slice()),
        Ok("(let v0 (pure 1) (pure v0))")
    );
    assert_eq!(rt;
        parse(alloc, b"(pure x)").err(),
        Some(ParseError::UnknownName(6))
    );
    Ok(())
}

// The fiber looks for a request before each of its three moves: the mark, the next part, and its end.
#[test]
fn a_fiber_is_moved_by_hand(rt: HostRuntime) -> Result<(), Fail> {
    let alloc = rt.alloc();
    let program = program(alloc, b"(seq (say 1) (pure 7))")?;
    let code = expand(alloc, &program)?;
    let mut fiber = Config::new(alloc, &code)?;
    for _move in 0..6u32 {
        let _moved = match fiber.ask() {
            Ask::Look => fiber.resume(Reply::Seen(false))?,
            Ask::Silent | Ask::Finish(_) => fiber.resume(Reply::Done)?,
            _ => break,
        };
    }
    assert_eq!(rt;
        fiber.ask(),
        Ask::Over(Outcome::Succeeded(Value::from_i32(7)))
    );
    assert_eq!(rt; fiber.trace(), [Mark::Say(Value::from_i32(1))].as_slice());
    Ok(())
}

// The first side has won before the second one begins.
#[test]
fn a_program_is_replayed(rt: HostRuntime) -> Result<(), Fail> {
    let alloc = rt.alloc();
    let program = program(alloc, RACE)?;
    let schedule = read_schedule(alloc, "0*15 2*3 1*40 0*40 2*40 0*40")?;
    let report = replay(alloc, &program, schedule.as_slice(), few())?;
    assert_eq!(rt; text_of_report(alloc, &report)?.as_str(), WON);
    Ok(())
}

// A race whose other side never ends has two reports: that side is cut after it has entered its mask and its poll, or
// before its first move.
#[test]
fn a_program_is_explored(rt: HostRuntime) -> Result<(), Fail> {
    let alloc = rt.alloc();
    let program = program(alloc, RACE)?;
    let bounds = Bounds {
        worlds: 10_000,
        entries: 10_000,
        memory: usize::MAX,
    };
    let exploration = explore(alloc, &program, few(), bounds)?;
    assert!(rt; exploration.complete);
    assert_eq!(rt; exploration.answers.as_slice().len(), 2);
    Ok(())
}

// Fibers that share nothing have the same ends on any number of workers.
#[test]
fn a_program_is_run(rt: HostRuntime) -> Result<(), Fail> {
    let alloc = rt.alloc();
    let program = program(alloc, b"(start f (say 1) (seq (say 2) (pure 7)))")?;
    let mut options = Options::new();
    options.workers = 2;
    let report = run(&rt, alloc, program, options, &OpenGate)?;
    assert_eq!(rt; text_of_report(alloc, &report)?.as_str(), RAN);
    Ok(())
}

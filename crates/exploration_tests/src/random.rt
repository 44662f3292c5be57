//! Random programs: explorations with moves made at once, with all marks and for outcomes alone, compared with the
//! plain search, in which each move is an entry.

ghost use Rattle.cell_registry.specs.Cells.{AreLimits};

use crate::random_texts::random_text;
use crate::reduced::have_same_answers;
use crate::same_outcomes::have_same_outcomes;
use effect_term::Program;
use every_outcome::{Unwatched, explore_outcomes};
use every_schedule::{Answer, Bounds, explore, explore_full};
use outcome_trace::{Limits, read_program};
use std::alloc::Global;
use std::test::Fail;

// Limits of the programs.
fn limits() -> Limits
    ensures { AreLimits result }
{
    Limits {
        fibers: 8,
        refs: 8,
        deferreds: 8,
        count: 1000,
    }
}

// In a loop up to 100 moves are made behind each entry, and each of them is an entry of an answer's schedule.
const BOUNDS: Bounds = Bounds {
    worlds: 1000,
    entries: 1_000_000,
    memory: 1 << 30,
};

// The result of a comparison.
#[derive(Clone, Copy, PartialEq, Eq)]
enum Came {
    // All explorations have the same answers, more than one, and the plain search keeps more than 100 worlds.
    Same,
    // All have the same answers, at most one, or the plain search keeps at most 100 worlds.
    SameOfFew,
    Different,
    // The text is refused, or the plain search met a bound.
    Skipped,
}

// Whether the exploration that keeps all marks is complete, and has these answers.
fn has_answers(alloc: Global, program: &Program, answers: &[Answer]) -> Result<bool, Fail> {
    let Ok(found) = explore(alloc, program, limits(), BOUNDS) else {
        return Err(Fail::new("memory ran out"));
    };
    Ok(found.complete && have_same_answers(answers, found.answers.as_slice()))
}

// Whether the exploration of outcomes is complete, and has the outcomes and faults of these answers.
fn has_outcomes(alloc: Global, program: &Program, answers: &[Answer]) -> Result<bool, Fail> {
    let Ok(found) = explore_outcomes(alloc, program, limits(), BOUNDS, &mut Unwatched) else {
        return Err(Fail::new("memory ran out"));
    };
    Ok(found.complete && have_same_outcomes(answers, found.answers.as_slice()))
}

// Compares the explorations of a program.
fn compared(alloc: Global, text: &str) -> Result<Came, Fail> {
    let Ok(program) = read_program(alloc, text.as_bytes()) else {
        return Ok(Came::Skipped);
    };
    let Ok(full) = explore_full(alloc, &program, limits(), BOUNDS) else {
        return Err(Fail::new("memory ran out"));
    };
    // A program that met a bound isn't explored again: in an endless loop, the moves made at once behind each entry can
    // take much memory. In any other program no fiber uses up its count of 1000 changes, since each change leads to a
    // new world. So the exploration of outcomes, for which the count plays no part, has the same outcomes and faults.
    if !full.complete {
        return Ok(Came::Skipped);
    }
    let answers = full.answers.as_slice();
    if !has_answers(alloc, &program, answers)? || !has_outcomes(alloc, &program, answers)? {
        return Ok(Came::Different);
    }
    if full.worlds > 100 && answers.len() > 1 {
        Ok(Came::Same)
    } else {
        Ok(Came::SameOfFew)
    }
}

// Compares random programs until 125 or more have several answers and more than 100 worlds, and 125 or more don't.
fn compare_many(alloc: Global, first: u64) -> Result<(), Fail> {
    let mut rich = 0u32;
    let mut poor = 0u32;
    for number in 0..20_000u64 {
        if rich >= 125 && poor >= 125 {
            return Ok(());
        }
        let text = random_text(alloc, first.wrapping_add(number), 4)?;
        match compared(alloc, text.as_str())? {
            Came::Same => rich = rich.saturating_add(1),
            Came::SameOfFew => poor = poor.saturating_add(1),
            Came::Different => return Err(Fail::new(text.as_str())),
            Came::Skipped => {}
        }
    }
    Err(Fail::new("too few programs have several answers"))
}

// A test has at most a minute, and the machine can have other work, so the programs are split into eight tests.
#[test]
fn random_programs_have_the_answers_of_the_plain_search(rt: HostRuntime) -> Result<(), Fail> {
    compare_many(rt.alloc(), 1)
}

#[test]
fn second_random_programs_have_the_answers_of_the_plain_search(
    rt: HostRuntime,
) -> Result<(), Fail> {
    compare_many(rt.alloc(), 1_000_000)
}

#[test]
fn third_random_programs_have_the_answers_of_the_plain_search(rt: HostRuntime) -> Result<(), Fail> {
    compare_many(rt.alloc(), 2_000_000)
}

#[test]
fn fourth_random_programs_have_the_answers_of_the_plain_search(
    rt: HostRuntime,
) -> Result<(), Fail> {
    compare_many(rt.alloc(), 3_000_000)
}

#[test]
fn fifth_random_programs_have_the_answers_of_the_plain_search(rt: HostRuntime) -> Result<(), Fail> {
    compare_many(rt.alloc(), 4_000_000)
}

#[test]
fn sixth_random_programs_have_the_answers_of_the_plain_search(rt: HostRuntime) -> Result<(), Fail> {
    compare_many(rt.alloc(), 5_000_000)
}

#[test]
fn seventh_random_programs_have_the_answers_of_the_plain_search(
    rt: HostRuntime,
) -> Result<(), Fail> {
    compare_many(rt.alloc(), 6_000_000)
}

#[test]
fn eighth_random_programs_have_the_answers_of_the_plain_search(
    rt: HostRuntime,
) -> Result<(), Fail> {
    compare_many(rt.alloc(), 7_000_000)
}

//! A comparison of two programs, as in the example of `compared_ends`.

ghost use Rattle.cell_registry.specs.Cells.{AreLimits};

use cell_registry::Limits;
use compared_ends::{Basis, Comparison, Extra, compare_ends};
use effect_term::Program;
use every_schedule::Bounds;
use std::alloc::Global;
use std::rt::HostRuntime;
use std::test::Fail;
use term_parse::parse;

// Limits of a small program.
fn few() -> Limits
    ensures { AreLimits result }
{
    Limits {
        fibers: 3,
        refs: 1,
        deferreds: 1,
        count: 1000,
    }
}

// A race against a side that never ends, and the other side alone.
fn compared(alloc: Global, basis: Basis) -> Result<Comparison, Fail> {
    let race = Program::check(alloc, parse(alloc, b"(race (pure 4) (never))")?)?;
    let side = Program::check(alloc, parse(alloc, b"(pure 4)")?)?;
    let bounds = Bounds {
        worlds: 10_000,
        entries: 10_000,
        memory: 1 << 30,
    };
    Ok(compare_ends(alloc, &race, &side, few(), bounds, basis)?)
}

// Fiber 0 ends with 4 in both programs.
#[test]
fn programs_are_compared_by_fiber_0(rt: HostRuntime) -> Result<(), Fail> {
    let found = compared(rt.alloc(), Basis::FirstFiber)?;
    assert_eq!(rt; found.first_extra, Extra::Nothing);
    assert_eq!(rt; found.second_extra, Extra::Nothing);
    assert!(rt; found.first.complete && found.second.complete);
    Ok(())
}

// The race has three fibers, and the side alone has one.
#[test]
fn programs_are_compared_by_all_fibers(rt: HostRuntime) -> Result<(), Fail> {
    let found = compared(rt.alloc(), Basis::AllFibers)?;
    assert_eq!(rt; found.first_extra, Extra::Answer(0));
    assert_eq!(rt; found.second_extra, Extra::Answer(0));
    Ok(())
}

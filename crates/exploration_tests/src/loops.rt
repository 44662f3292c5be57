//! Searches for outcomes in loops that have masks and brackets in them.

ghost use Rattle.cell_registry.specs.Cells.{AreLimits};

use cell_registry::Limits;
use every_outcome::{Bounds, Unwatched, explore_outcomes};
use outcome_trace::read_program;
use std::test::Fail;

// A program with an endless loop.
struct Endless<'a> {
    program: &'a str,
    // The number of its answers.
    answers: usize,
}

const ENDLESS: &[Endless<'static>] = &[
    Endless {
        program: "(forever (say 1))",
        answers: 1,
    },
    Endless {
        program: "(forever (uncancelable p (poll p (cede))))",
        answers: 1,
    },
    Endless {
        program: "(forever (bracket x (pure 1) (cede) (say x)))",
        answers: 1,
    },
    // The worker is cut outside its mask, after it has run the whole body each time that it entered the mask.
    Endless {
        program: "(ref r 0 (start f (forever (uncancelable p (seq (set r 1) (set r 0)))) (seq (cancel f) (get r))))",
        answers: 1,
    },
    // A spin lock that the worker holds and gives back in each round; fiber 0 reads it.
    Endless {
        program: "(ref lock 0 (start f (forever (bracket x (set lock 1) (cede) (set lock 0))) (get lock)))",
        answers: 2,
    },
];

// Limits for small programs. `count` plays no part: the loops with masks change their cell more than once.
fn limits() -> Limits
    ensures { AreLimits result }
{
    Limits {
        fibers: 3,
        refs: 2,
        deferreds: 2,
        count: 1,
    }
}

#[test]
fn explorations_of_loops_with_masks_are_complete(rt: HostRuntime) -> Result<(), Fail> {
    let alloc = rt.alloc();
    let bounds = Bounds {
        worlds: 5_000,
        entries: 1000,
        memory: 1 << 30,
    };
    for it in ENDLESS {
        let Ok(program) = read_program(alloc, it.program.as_bytes()) else {
            return Err(Fail::new("the text is refused"));
        };
        let Ok(found) = explore_outcomes(alloc, &program, limits(), bounds, &mut Unwatched) else {
            return Err(Fail::new("memory ran out"));
        };
        assert!(rt; found.complete, "{}", it.program);
        assert_eq!(rt; found.answers.len(), it.answers, "{}", it.program);
    }
    Ok(())
}

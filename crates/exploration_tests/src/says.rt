//! Programs whose fibers say values: which outcomes and says a search lists.

ghost use Rattle.cell_registry.specs.Cells.{AreLimits};

use cell_registry::Limits;
use every_outcome::{Bounds, Unwatched, explore_outcomes, explore_says};
use outcome_trace::read_program;
use std::test::Fail;

// A program, and what the searches find.
struct Saying<'a> {
    program: &'a str,
    // Whether the search with says ends.
    complete: bool,
    // The number of answers with says, if it ends.
    says: usize,
    // The number of answers without marks.
    outcomes: usize,
}

const SAYING: &[Saying<'static>] = &[
    // Fiber 0 reads the ref before or after it is set.
    Saying {
        program: "(ref r 0 (start f (set r 1) (let v (get r) (say v))))",
        complete: true,
        says: 2,
        outcomes: 1,
    },
    // The worker is cut before the bracket, it is cut in it or behind it, or it ends. The last two say 1.
    Saying {
        program: "(start f (bracket x (pure 1) (cede) (say x)) (cancel f))",
        complete: true,
        says: 3,
        outcomes: 2,
    },
    // The worker is cut before its finalizer is there, or the finalizer's error is dropped.
    Saying {
        program: "(start f (guarantee (never) (raise 7)) (cancel f))",
        complete: true,
        says: 2,
        outcomes: 1,
    },
    // A loop with a mask and a poll leads back to a known world.
    Saying {
        program: "(seq (say 1) (forever (uncancelable p (poll p (cede)))))",
        complete: true,
        says: 1,
        outcomes: 1,
    },
    // A spin lock that the worker holds and gives back in each round; fiber 0 says what it reads.
    Saying {
        program: "(ref lock 0 (start f (forever (bracket x (set lock 1) (cede) (set lock 0))) (let v (get lock) (say v))))",
        complete: true,
        says: 2,
        outcomes: 1,
    },
    // A loop that says a value leads to a new world in each turn.
    Saying {
        program: "(forever (say 1))",
        complete: false,
        says: 0,
        outcomes: 1,
    },
];

// Limits for small programs. `count` plays no part: the loops with masks change their cell more than once.
fn limits() -> Limits
    ensures { AreLimits result }
{
    Limits {
        fibers: 3,
        refs: 2,
        deferreds: 2,
        count: 1,
    }
}

#[test]
fn says_tell_answers_apart_and_other_marks_do_not(rt: HostRuntime) -> Result<(), Fail> {
    let alloc = rt.alloc();
    let bounds = Bounds {
        worlds: 5_000,
        entries: 1000,
        memory: 1 << 24,
    };
    for it in SAYING {
        let Ok(program) = read_program(alloc, it.program.as_bytes()) else {
            return Err(Fail::new("the text is refused"));
        };
        let Ok(said) = explore_says(alloc, &program, limits(), bounds, &mut Unwatched) else {
            return Err(Fail::new("memory ran out"));
        };
        let Ok(bare) = explore_outcomes(alloc, &program, limits(), bounds, &mut Unwatched) else {
            return Err(Fail::new("memory ran out"));
        };
        assert_eq!(rt; said.complete, it.complete, "{}", it.program);
        assert_eq!(rt; said.answers.as_slice().len(), it.says, "{}", it.program);
        assert!(rt; bare.complete, "{}", it.program);
        assert_eq!(rt; bare.answers.len(), it.outcomes, "{}", it.program);
    }
    Ok(())
}

//! Explorations with moves made at once, compared with full ones, in which each move is an entry.

ghost use Rattle.cell_registry.specs.Cells.{AreLimits};

use every_schedule::{Answer, Bounds, Exploration, explore, explore_full};
use outcome_trace::{Limits, read_program, same_end};
use std::alloc::Global;
use std::test::Fail;

// A program whose answers are the same in both explorations.
struct Compared<'a> {
    // The rule that the program shows.
    rule: &'a str,
    program: &'a str,
    fibers: u16,
    count: u64,
    // The number of answers.
    answers: usize,
}

const COMPARED: &[Compared<'static>] = &[
    Compared {
        rule: "a release that is lost where the request comes between acquisition and guarantee",
        program: "(ref open 0 (start worker (let connection (modify open 1) (guarantee (never) (modify open -1))) \
            (seq (cancel worker) (get open))))",
        fibers: 16,
        count: 1000,
        answers: 3,
    },
    Compared {
        rule: "two fibers that each wait for the other never end",
        program: "(deferred d (deferred e (start f (seq (await d) (complete e 1)) (seq (await e) (complete d 1)))))",
        fibers: 16,
        count: 1000,
        answers: 1,
    },
    Compared {
        rule: "two fibers that change a ref, in either order",
        program: "(ref r 1 (start f (modify r 1) (let a (modify r 2) (join f x (pure a) y (raise y) (never)))))",
        fibers: 16,
        count: 1000,
        answers: 2,
    },
    Compared {
        rule: "a fiber that is canceled while it isn't masked, and cut or not",
        program: "(start f (seq (say 1) (say 2)) (cancel f))",
        fibers: 16,
        count: 1000,
        answers: 4,
    },
    Compared {
        rule: "a masked fiber that is canceled says all it has to say",
        program: "(start f (uncancelable p (seq (say 1) (say 2))) (cancel f))",
        fibers: 16,
        count: 1000,
        answers: 3,
    },
    Compared {
        rule: "a finalizer behind the one that runs can still set a ref",
        program: "(ref r 0 (start f (oncancel (oncancel (seq (canceled) (never)) (get r)) (set r 7)) \
            (let a (get r) (say a))))",
        fibers: 16,
        count: 1000,
        answers: 2,
    },
    Compared {
        rule: "a finalizer of a wait can still set a ref",
        program: "(ref r 0 (start f (oncancel (never) (set r 7)) (start c (cancel f) (let a (get r) (say a)))))",
        fibers: 16,
        count: 1000,
        answers: 2,
    },
    Compared {
        rule: "two fibers complete a deferred that nobody awaits, in either order",
        program: "(deferred d (start f (let x (complete d 1) (say x)) (let y (complete d 2) (say y))))",
        fibers: 16,
        count: 1000,
        answers: 2,
    },
    Compared {
        rule: "a fault of a start, and none without it",
        program: "(ref r 0 (start f (modify r 1) (let a (get r) (seq (start g (pure 1) (pure a)) (pure a)))))",
        fibers: 2,
        count: 1000,
        answers: 1,
    },
    Compared {
        rule: "a mask that can't be left is a fault, and moves that are made at once end before it",
        program: "(uncancelable p (pure 1))",
        fibers: 16,
        count: 1,
        answers: 1,
    },
    Compared {
        rule: "a race, whose loser is cut before it has registered its finalizer, or has its finalizer run",
        program: "(race (pure 4) (oncancel (never) (say 9)))",
        fibers: 16,
        count: 1000,
        answers: 3,
    },
    Compared {
        rule: "brackets in a fiber that is canceled: cut before, within or behind each of them, or not cut",
        program: "(start f (bracket a (pure 1) (bracket b (pure 2) (bracket c (pure 3) (say c) (say c)) (say b)) \
            (say a)) (cancel f))",
        fibers: 16,
        count: 1000,
        answers: 9,
    },
    Compared {
        rule: "a fiber that goes round under a mask",
        program: "(ref r 0 (start f (uncancelable p (forever (pure 1))) (start g (set r 1) (get r))))",
        fibers: 16,
        count: 1000,
        answers: 2,
    },
    Compared {
        rule: "two fibers that each add twice to a ref, of which the last to end is read",
        program: "(ref r 0 (start f0 (repeat 2 (modify r 1)) (start f1 (repeat 2 (modify r 1)) (join f0 x0 \
            (join f1 x1 (get r) y1 (pure 8) (pure 9)) y0 (pure 8) (pure 9)))))",
        fibers: 16,
        count: 1000,
        answers: 1,
    },
    Compared {
        rule: "two fibers that read a ref and then set it: an addition may be lost",
        program: "(ref r 0 (start f0 (let x (get r) (let y (add x 1) (set r y))) (start f1 (let x (get r) \
            (let y (add x 1) (set r y))) (join f0 x0 (join f1 x1 (get r) y1 (pure 8) (pure 9)) y0 \
            (pure 8) (pure 9)))))",
        fibers: 16,
        count: 1000,
        answers: 2,
    },
    Compared {
        rule: "two fibers that complete a deferred: both read what the first one gave",
        program: "(deferred d (start f0 (seq (complete d 0) (await d)) (start f1 (seq (complete d 1) \
            (await d)) (join f0 x0 (join f1 x1 (await d) y1 (pure 8) (pure 9)) y0 (pure 8) (pure \
            9)))))",
        fibers: 16,
        count: 1000,
        answers: 2,
    },
    Compared {
        rule: "a fiber that sets a ref twice, and one that reads it twice: it never reads an older value later",
        program: "(ref r 0 (start f0 (seq (set r 1) (set r 2)) (start f1 (let x (get r) (let y (get r) \
            (seq (say x) (say y)))) (join f0 x0 (join f1 x1 (pure 0) y1 (pure 8) (pure 9)) y0 (pure \
            8) (pure 9)))))",
        fibers: 16,
        count: 1000,
        answers: 6,
    },
    Compared {
        rule: "a fiber that waits for another one, and for whose end fiber 0 waits",
        program: "(start f0 (pure 1) (start f1 (join f0 x (add x 1) y (pure 8) (pure 9)) (join f1 x (pure \
            x) y (pure 8) (pure 9))))",
        fibers: 16,
        count: 1000,
        answers: 1,
    },
    Compared {
        rule: "a deferred that one fiber completes and another one awaits",
        program: "(ref s 0 (deferred d0 (start f0 (complete d0 1) (start f1 (let x (await d0) (modify s \
            x)) (join f0 x0 (join f1 x1 (get s) y1 (pure 8) (pure 9)) y0 (pure 8) (pure 9))))))",
        fibers: 16,
        count: 1000,
        answers: 1,
    },
    Compared {
        rule: "a bracket that is canceled",
        program: "(ref r 0 (start f0 (bracket x (modify r 1) (say 7) (modify r -1)) (seq (cancel f0) (get \
            r))))",
        fibers: 16,
        count: 1000,
        answers: 5,
    },
    Compared {
        rule: "a fiber and a ref of one number, which a third fiber cancels, and does nothing with",
        program: "(ref a 0 (ref b 0 (start f (seq (set b 1) (say 1)) (start g (cancel f) (get b)))))",
        fibers: 16,
        count: 1000,
        answers: 6,
    },
    Compared {
        rule: "two fibers that each add twice to a ref, beside one that goes round without end",
        program: "(ref r 0 (start f (forever (pure 1)) (start g (seq (modify r 1) (modify r 1)) \
            (seq (modify r 1) (modify r 1) (get r)))))",
        fibers: 16,
        count: 1000,
        answers: 5,
    },
];

// Limits for small programs, with these numbers of fibers (1 to 16) and own changes (1 to 1000).
fn limits(fibers: u16, count: u64) -> Limits
    ensures { AreLimits result }
{
    Limits {
        fibers: fibers.max(1).min(16),
        refs: 16,
        deferreds: 16,
        count: count.max(1).min(1000),
    }
}

// Whether an answer has the same end as one of the others.
fn is_among(one: &Answer, others: &[Answer]) -> bool {
    for other in others {
        if same_end(&one.end, &other.end) {
            return true;
        }
    }
    false
}

// Whether each answer has the same end as one of the others.
fn are_among(ones: &[Answer], others: &[Answer]) -> bool {
    for one in ones {
        if !is_among(one, others) {
            return false;
        }
    }
    true
}

/// Whether both lists have the same ends.
pub fn have_same_answers(ones: &[Answer], others: &[Answer]) -> bool {
    are_among(ones, others) && are_among(others, ones)
}

// The full exploration of a program, and the reduced one.
#[derive(Drop)]
struct Both {
    full: Exploration,
    reduced: Exploration,
}

// Both explorations of a program.
fn explored_twice(alloc: Global, text: &str, limits: Limits) -> Result<Both, Fail>
    requires { AreLimits limits }
{
    let Ok(program) = read_program(alloc, text.as_bytes()) else {
        return Err(Fail::new("the text is refused"));
    };
    let bounds = Bounds {
        worlds: 10_000,
        entries: 1000,
        memory: usize::MAX,
    };
    let Ok(full) = explore_full(alloc, &program, limits, bounds) else {
        return Err(Fail::new("memory ran out"));
    };
    let Ok(reduced) = explore(alloc, &program, limits, bounds) else {
        return Err(Fail::new("memory ran out"));
    };
    Ok(Both { full, reduced })
}

// Whether both explorations are complete and have the same answers, as many as the row says, and the reduced one keeps
// no more worlds.
fn is_same(alloc: Global, it: &Compared<'_>) -> Result<bool, Fail> {
    let both = explored_twice(alloc, it.program, limits(it.fibers, it.count))?;
    let ones = both.full.answers.as_slice();
    let others = both.reduced.answers.as_slice();
    Ok(
        both.full.complete
            && both.reduced.complete
            && both.reduced.worlds <= both.full.worlds
            && ones.len() == it.answers
            && others.len() == it.answers
            && have_same_answers(ones, others),
    )
}

#[test]
fn reduced_explorations_have_the_answers_of_full_ones(rt: HostRuntime) -> Result<(), Fail> {
    for it in COMPARED {
        assert!(rt; is_same(rt.alloc(), it)?, "{}", it.rule);
    }
    Ok(())
}

// A program with one fiber, and its numbers of worlds, counted by hand.
struct Counted<'a> {
    program: &'a str,
    // The first world, and one after each entry.
    full: usize,
    // The first world, and one after each entry with the own moves behind it.
    reduced: usize,
}

const COUNTED: &[Counted<'static>] = &[
    // A look, and the end.
    Counted {
        program: "(pure 1)",
        full: 3,
        reduced: 2,
    },
    // A look, a move without a shared call, a look, and the end.
    Counted {
        program: "(seq (pure 1) (pure 2))",
        full: 5,
        reduced: 2,
    },
    // A look, the mask entered and left, a look, and the end.
    Counted {
        program: "(uncancelable p (pure 1))",
        full: 6,
        reduced: 2,
    },
    // A look; a request for its own cancellation, a look that sees it, the cut, and the end.
    Counted {
        program: "(canceled)",
        full: 6,
        reduced: 3,
    },
];

// Whether both explorations have the row's numbers of worlds.
fn is_counted(alloc: Global, it: &Counted<'_>) -> Result<bool, Fail> {
    let both = explored_twice(alloc, it.program, limits(16, 1000))?;
    Ok(both.full.worlds == it.full && both.reduced.worlds == it.reduced)
}

#[test]
fn numbers_of_worlds_are_as_counted_by_hand(rt: HostRuntime) -> Result<(), Fail> {
    for it in COUNTED {
        assert!(rt; is_counted(rt.alloc(), it)?, "{}", it.program);
    }
    Ok(())
}

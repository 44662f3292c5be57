//! Programs that always end: their outcomes are those of the exploration that keeps all marks.

ghost use Rattle.cell_registry.specs.Cells.{AreLimits};

use cell_registry::Limits;
use effect_term::Outcome;
use every_outcome::{OutcomeAnswer, Unwatched, explore_outcomes};
use every_schedule::{Answer, Bounds, explore_full};
use outcome_trace::read_program;
use scheduled_core::FiberReport;
use std::test::Fail;

const PROGRAMS: &[&'static str] = &[
    "(seq (say 1) (pure 7))",
    "(start f (seq (say 1) (say 2)) (cancel f))",
    "(start f (uncancelable p (seq (say 1) (say 2))) (cancel f))",
    "(start f (uncancelable p (seq (say 1) (poll p (say 2)))) (cancel f))",
    "(race (pure 4) (never))",
    "(race (pure 4) (oncancel (never) (say 9)))",
    "(ref r 0 (start f0 (bracket x (modify r 1) (say 7) (modify r -1)) (seq (cancel f0) (get r))))",
    "(ref r 0 (start f (guarantee (never) (raise 5)) (seq (cancel f) (get r))))",
    "(deferred d (deferred e (start f (seq (await d) (complete e 1)) (seq (await e) (complete d 1)))))",
    "(ref r 0 (start f (modify r 1) (let a (get r) (seq (start g (pure 1) (pure a)) (pure a)))))",
    "(uncancelable p (uncancelable q (poll p (poll q (seq (canceled) (pure 1))))))",
    "(ref r 0 (seq (set r 1) (modify r 2) (get r)))",
    "(ref r 0 (ref q 0 (start f (seq (set q 1) (set r 1)) (let a (get r) (let b (get q) (add a b))))))",
    "(ref r 0 (start f (seq (modify r 1) (modify r 1)) (seq (modify r 1) (start g (get r) (pure 1)))))",
    "(deferred d (start f (seq (complete d 4) (pure 1)) (let a (await d) (seq (complete d 5) (pure a)))))",
    "(start f (uncancelable p (pure 3)) (seq (cancel f) (join f x (pure x) y (pure y) (pure 9))))",
    "(uncancelable p (start f (poll p (seq (canceled) (pure 3))) (join f x (pure x) y (raise y) (pure 9))))",
];

// Limits for small programs.
fn limits() -> Limits
    ensures { AreLimits result }
{
    Limits {
        fibers: 5,
        refs: 2,
        deferreds: 3,
        count: 1000,
    }
}

// Whether a report has these outcomes.
fn has_outcomes(fibers: &[FiberReport], outcomes: &[Option<Outcome>]) -> bool {
    if fibers.len() != outcomes.len() {
        return false;
    }
    for (index, fiber) in fibers.iter().enumerate() {
        if fiber.outcome != outcomes[index] {
            return false;
        }
    }
    true
}

// Whether an answer with marks and one without end alike.
fn is_alike(one: &Answer, other: &OutcomeAnswer) -> bool {
    match (&one.end, &other.end) {
        (Ok(report), Ok(outcomes)) => {
            has_outcomes(report.fibers.as_slice(), outcomes.as_slice())
        }
        (Err(fault), Err(second)) => *fault == *second,
        _ => false,
    }
}

// Whether an answer with marks ends like one of those without.
fn is_among(one: &Answer, others: &[OutcomeAnswer]) -> bool {
    for other in others {
        if is_alike(one, other) {
            return true;
        }
    }
    false
}

// Whether an answer without marks ends like one of those with marks.
fn has_alike(ones: &[Answer], other: &OutcomeAnswer) -> bool {
    for one in ones {
        if is_alike(one, other) {
            return true;
        }
    }
    false
}

/// Whether each answer with marks ends like one without, and the other way round.
pub fn have_same_outcomes(ones: &[Answer], others: &[OutcomeAnswer]) -> bool {
    for one in ones {
        if !is_among(one, others) {
            return false;
        }
    }
    for other in others {
        if !has_alike(ones, other) {
            return false;
        }
    }
    true
}

#[test]
fn programs_that_end_have_the_same_outcomes(rt: HostRuntime) -> Result<(), Fail> {
    let alloc = rt.alloc();
    let bounds = Bounds {
        worlds: 100_000,
        entries: 1000,
        memory: 1 << 30,
    };
    for text in PROGRAMS {
        let Ok(program) = read_program(alloc, text.as_bytes()) else {
            return Err(Fail::new("the text is refused"));
        };
        let Ok(full) = explore_full(alloc, &program, limits(), bounds) else {
            return Err(Fail::new("memory ran out"));
        };
        let Ok(found) = explore_outcomes(alloc, &program, limits(), bounds, &mut Unwatched) else {
            return Err(Fail::new("memory ran out"));
        };
        assert!(rt; full.complete && found.complete, "{}", text);
        assert!(rt; found.worlds <= full.worlds, "{}", text);
        assert!(rt;
            have_same_outcomes(full.answers.as_slice(), found.answers.as_slice()),
            "{}",
            text
        );
    }
    Ok(())
}

//! A semaphore of two permits. A search in which each move is an entry keeps hundreds of thousands of worlds, and a
//! search that makes own moves at once some thousands.

ghost use Rattle.cell_registry.specs.Cells.{AreLimits};

use cell_registry::Limits;
use effect_term::{Outcome, Value};
use every_outcome::{Bounds, OutcomeAnswer, Unwatched, explore_outcomes};
use outcome_trace::read_program;
use std::test::Fail;

// Three workers take a permit each, and one of them is canceled. Worker 3 sets `bad` if it finds two others inside.
// Fiber 0 reads `bad` when all workers have ended.
const SEMAPHORE: &'static str = "
(ref s 2 (ref in 0 (ref bad 0 (deferred g
  (start w1 (let n (modify s -1) (seq (if0 n (await g) (pure 0)) (modify in 1) (cede) (modify in -1)
    (let o (modify s 1) (let t (add o 1) (if0 t (complete g 1) (pure 0))))))
  (start w2 (let n (modify s -1) (seq (if0 n (await g) (pure 0)) (modify in 1) (cede) (modify in -1)
    (let o (modify s 1) (let t (add o 1) (if0 t (complete g 1) (pure 0))))))
  (start w3 (let n (modify s -1) (seq (if0 n (await g) (pure 0))
    (let i (modify in 1) (let j (add i -2) (if0 j (set bad 1) (pure 0)))) (cede) (modify in -1)
    (let o (modify s 1) (let t (add o 1) (if0 t (complete g 1) (pure 0))))))
  (start k (cancel w1)
    (seq (join w1 x (pure 0) e (pure 0) (pure 0)) (join w2 x (pure 0) e (pure 0) (pure 0))
      (join w3 x (pure 0) e (pure 0) (pure 0)) (get bad))))))))))";

// The limits of this program.
fn limits() -> Limits
    ensures { AreLimits result }
{
    Limits {
        fibers: 5,
        refs: 3,
        deferreds: 1,
        count: 1000,
    }
}

// Whether fiber 0 waits for a worker for ever, or has read that the third worker never found two others inside.
fn is_kept(answer: &OutcomeAnswer) -> bool {
    match &answer.end {
        Ok(outcomes) => match outcomes.as_slice().first() {
            Some(None) => true,
            Some(Some(outcome)) => *outcome == Outcome::Succeeded(Value::from_i32(0)),
            None => false,
        },
        Err(_) => false,
    }
}

#[test]
fn a_semaphore_keeps_a_third_worker_out(rt: HostRuntime) -> Result<(), Fail> {
    let alloc = rt.alloc();
    let bounds = Bounds {
        worlds: 10_000,
        entries: 1000,
        memory: 1 << 30,
    };
    let Ok(program) = read_program(alloc, SEMAPHORE.as_bytes()) else {
        return Err(Fail::new("the text is refused"));
    };
    let Ok(found) = explore_outcomes(alloc, &program, limits(), bounds, &mut Unwatched) else {
        return Err(Fail::new("memory ran out"));
    };
    assert!(rt; found.complete);
    for answer in found.answers.iter() {
        assert!(rt; is_kept(answer));
    }
    Ok(())
}

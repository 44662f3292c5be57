//! Families of programs, each explored completely within a number of worlds.

ghost use Rattle.cell_registry.specs.Cells.{AreLimits};

use every_schedule::{Bounds, explore};
use outcome_trace::{Limits, read_program};
use std::alloc::Global;
use std::test::Fail;

// A program, and the most worlds that its exploration is allowed to keep: 1.25 times the worlds that another search,
// written independently, kept with the same moves made at once.
struct Family<'a> {
    what: &'a str,
    program: &'a str,
    worlds: usize,
}

const FAMILIES: &[Family<'static>] = &[
    Family {
        what: "four fibers that each add twice to a ref",
        program: "(ref r 0 (start f0 (repeat 2 (modify r 1)) (start f1 (repeat 2 (modify r 1)) (start f2 \
            (repeat 2 (modify r 1)) (start f3 (repeat 2 (modify r 1)) (join f0 x0 (join f1 x1 (join \
            f2 x2 (join f3 x3 (get r) y3 (pure 8) (pure 9)) y2 (pure 8) (pure 9)) y1 (pure 8) (pure \
            9)) y0 (pure 8) (pure 9)))))))",
        worlds: 320,
    },
    Family {
        what: "four fibers that read a ref and then set it",
        program: "(ref r 0 (start f0 (let x (get r) (let y (add x 1) (set r y))) (start f1 (let x (get r) \
            (let y (add x 1) (set r y))) (start f2 (let x (get r) (let y (add x 1) (set r y))) \
            (start f3 (let x (get r) (let y (add x 1) (set r y))) (join f0 x0 (join f1 x1 (join f2 \
            x2 (join f3 x3 (get r) y3 (pure 8) (pure 9)) y2 (pure 8) (pure 9)) y1 (pure 8) (pure 9)) \
            y0 (pure 8) (pure 9)))))))",
        worlds: 1_520,
    },
    Family {
        what: "four philosophers",
        program: "(ref t0 0 (deferred d0 (ref t1 0 (deferred d1 (ref t2 0 (deferred d2 (ref t3 0 (deferred \
            d3 (start f0 (seq (let t (modify t0 1) (if0 t (pure 0) (await d0))) (let t (modify t1 1) \
            (if0 t (pure 0) (await d1))) (complete d0 0) (complete d1 0)) (start f1 (seq (let t \
            (modify t1 1) (if0 t (pure 0) (await d1))) (let t (modify t2 1) (if0 t (pure 0) (await \
            d2))) (complete d1 0) (complete d2 0)) (start f2 (seq (let t (modify t2 1) (if0 t (pure \
            0) (await d2))) (let t (modify t3 1) (if0 t (pure 0) (await d3))) (complete d2 0) \
            (complete d3 0)) (start f3 (seq (let t (modify t3 1) (if0 t (pure 0) (await d3))) (let t \
            (modify t0 1) (if0 t (pure 0) (await d0))) (complete d3 0) (complete d0 0)) (join f0 x0 \
            (join f1 x1 (join f2 x2 (join f3 x3 (pure 1) y3 (pure 8) (pure 9)) y2 (pure 8) (pure 9)) \
            y1 (pure 8) (pure 9)) y0 (pure 8) (pure 9))))))))))))))",
        worlds: 600,
    },
    Family {
        what: "three fibers that each complete a deferred, and three that add what they await",
        program: "(ref s 0 (deferred d0 (deferred d1 (deferred d2 (start f0 (complete d0 1) (start f1 \
            (complete d1 2) (start f2 (complete d2 3) (start f3 (let x (await d0) (modify s x)) \
            (start f4 (let x (await d1) (modify s x)) (start f5 (let x (await d2) (modify s x)) \
            (join f0 x0 (join f1 x1 (join f2 x2 (join f3 x3 (join f4 x4 (join f5 x5 (get s) y5 (pure \
            8) (pure 9)) y4 (pure 8) (pure 9)) y3 (pure 8) (pure 9)) y2 (pure 8) (pure 9)) y1 (pure \
            8) (pure 9)) y0 (pure 8) (pure 9))))))))))))",
        worlds: 1_008,
    },
    Family {
        what: "four brackets that are canceled",
        program: "(ref r 0 (start f0 (bracket x (modify r 1) (say 7) (modify r -1)) (start f1 (bracket x \
            (modify r 1) (say 7) (modify r -1)) (start f2 (bracket x (modify r 1) (say 7) (modify r \
            -1)) (start f3 (bracket x (modify r 1) (say 7) (modify r -1)) (seq (cancel f0) (cancel \
            f1) (cancel f2) (cancel f3) (get r)))))))",
        worlds: 23_921,
    },
    Family {
        what: "a race of three",
        program: "(race (pure 1) (race (pure 2) (pure 3)))",
        worlds: 1_626,
    },
    Family {
        what: "a pool of two permits for four fibers, of which one is canceled",
        program: "(ref u 0 (start f0 (bracket o (modify u 1) (if0 o (say 1) (let o0 (add o -1) (if0 o0 \
            (say 1) (say 0)))) (modify u -1)) (start f1 (bracket o (modify u 1) (if0 o (say 1) (let \
            o0 (add o -1) (if0 o0 (say 1) (say 0)))) (modify u -1)) (start f2 (bracket o (modify u \
            1) (if0 o (say 1) (let o0 (add o -1) (if0 o0 (say 1) (say 0)))) (modify u -1)) (start f3 \
            (bracket o (modify u 1) (if0 o (say 1) (let o0 (add o -1) (if0 o0 (say 1) (say 0)))) \
            (modify u -1)) (seq (cancel f0) (join f0 x0 (join f1 x1 (join f2 x2 (join f3 x3 (get u) \
            y3 (pure 8) (pure 9)) y2 (pure 8) (pure 9)) y1 (pure 8) (pure 9)) y0 (pure 8) (pure \
            9))))))))",
        worlds: 10_053,
    },
    Family {
        what: "a fiber that sets a ref twice, and two that read it twice",
        program: "(ref r 0 (start f0 (seq (set r 1) (set r 2)) (start f1 (let x (get r) (let y (get r) \
            (seq (say x) (say y)))) (start f2 (let x (get r) (let y (get r) (seq (say x) (say y)))) \
            (join f0 x0 (join f1 x1 (join f2 x2 (pure 0) y2 (pure 8) (pure 9)) y1 (pure 8) (pure 9)) \
            y0 (pure 8) (pure 9))))))",
        worlds: 431,
    },
    Family {
        what: "six fibers, of which each waits for the one before",
        program: "(start f0 (pure 1) (start f1 (join f0 x (add x 1) y (pure 8) (pure 9)) (start f2 (join \
            f1 x (add x 1) y (pure 8) (pure 9)) (start f3 (join f2 x (add x 1) y (pure 8) (pure 9)) \
            (start f4 (join f3 x (add x 1) y (pure 8) (pure 9)) (start f5 (join f4 x (add x 1) y \
            (pure 8) (pure 9)) (join f5 x (pure x) y (pure 8) (pure 9))))))))",
        worlds: 8,
    },
    Family {
        what: "both of three",
        program: "(ref r 0 (both (modify r 1) (both (modify r 1) (modify r 1) x y (add x y)) x y (add x \
            y)))",
        worlds: 4_502,
    },
    Family {
        what: "four fibers that complete one deferred",
        program: "(deferred d (start f0 (seq (complete d 0) (await d)) (start f1 (seq (complete d 1) \
            (await d)) (start f2 (seq (complete d 2) (await d)) (start f3 (seq (complete d 3) (await \
            d)) (join f0 x0 (join f1 x1 (join f2 x2 (join f3 x3 (await d) y3 (pure 8) (pure 9)) y2 \
            (pure 8) (pure 9)) y1 (pure 8) (pure 9)) y0 (pure 8) (pure 9)))))))",
        worlds: 81,
    },
];

// Limits for all families.
fn limits() -> Limits
    ensures { AreLimits result }
{
    Limits {
        fibers: 16,
        refs: 16,
        deferreds: 16,
        count: 1000,
    }
}

// Whether the exploration is complete within the family's number of worlds.
fn is_within(alloc: Global, it: &Family<'_>) -> Result<bool, Fail> {
    let Ok(program) = read_program(alloc, it.program.as_bytes()) else {
        return Err(Fail::new("the text is refused"));
    };
    let bounds = Bounds {
        worlds: it.worlds,
        entries: 10_000,
        memory: 1 << 30,
    };
    let Ok(found) = explore(alloc, &program, limits(), bounds) else {
        return Err(Fail::new("memory ran out"));
    };
    Ok(found.complete)
}

#[test]
fn explorations_keep_few_worlds(rt: HostRuntime) -> Result<(), Fail> {
    for it in FAMILIES {
        assert!(rt; is_within(rt.alloc(), it)?, "{}", it.what);
    }
    Ok(())
}

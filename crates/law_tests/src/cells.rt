//! The laws of refs and deferreds, which `GenConcurrent` makes.

use crate::sides::{BY_ITSELF, EVERYWHERE, Law, UNCANCELED, holds};
use std::test::Fail;

const LAWS: &[Law<'static>] = &[
    Law {
        law: "a ref holds what it is made with",
        left: "(ref s 5 (get s))",
        right: "(pure 5)",
        within: EVERYWHERE,
    },
    Law {
        law: "ref: two gets are one",
        left: "(let a (get r) (let b (get r) (add a b)))",
        right: "(let a (get r) (add a a))",
        within: EVERYWHERE,
    },
    Law {
        law: "ref: get behind set is what was set",
        left: "(seq (set r 5) (get r))",
        right: "(seq (set r 5) (pure 5))",
        within: EVERYWHERE,
    },
    Law {
        law: "ref: the last set counts",
        left: "(seq (set r 1) (set r 2))",
        right: "(set r 2)",
        within: UNCANCELED,
    },
    Law {
        law: "ref: to set what was got is unit",
        left: "(let a (get r) (set r a))",
        right: "(pure 0)",
        within: EVERYWHERE,
    },
    Law {
        law: "ref: modify is get and set, where nobody else changes it",
        left: "(seq (set r 3) (modify r 4))",
        right: "(seq (set r 3) (let a (get r) (let b (add a 4) (seq (set r b) (pure a)))))",
        within: EVERYWHERE,
    },
    Law {
        law: "ref: two modifies at once both count",
        left: "(start g (modify r 1) (seq (modify r 2) (join g x (pure 0) e (raise e) (pure 0)) (get r)))",
        right: "(seq (modify r 3) (get r))",
        within: UNCANCELED,
    },
    Law {
        law: "deferred: get behind complete is what it was completed with",
        left: "(deferred d (seq (complete d 5) (await d)))",
        right: "(pure 5)",
        within: EVERYWHERE,
    },
    Law {
        law: "deferred: the first complete is true",
        left: "(deferred d (complete d 5))",
        right: "(pure 1)",
        within: EVERYWHERE,
    },
    Law {
        law: "deferred: the second complete is false",
        left: "(deferred d (seq (complete d 5) (complete d 6)))",
        right: "(pure 0)",
        within: EVERYWHERE,
    },
    Law {
        law: "deferred: the second complete changes nothing",
        left: "(deferred d (seq (complete d 5) (complete d 6) (await d)))",
        right: "(pure 5)",
        within: EVERYWHERE,
    },
    Law {
        law: "deferred: get of one that nobody completes never ends",
        left: "(deferred d (await d))",
        right: "(never)",
        within: EVERYWHERE,
    },
    Law {
        law: "deferred: get waits until another completes it",
        left: "(deferred d (start g (complete d 5) (await d)))",
        right: "(pure 5)",
        within: EVERYWHERE,
    },
    Law {
        law: "deferred: each that waits gets the value",
        left: "(deferred d (start g (await d) (start h (await d) (seq (complete d 5) \
            (join g x (join h y (add x y) e (raise e) (pure -1)) e (raise e) (pure -1))))))",
        right: "(pure 10)",
        within: BY_ITSELF,
    },
    Law {
        law: "deferred: of two completes at once one is true",
        left: "(deferred d (start g (complete d 1) (let a (complete d 2) (join g b (add a b) e (raise e) (pure -1)))))",
        right: "(pure 1)",
        within: UNCANCELED,
    },
];

#[test]
fn laws_of_cells_hold(rt: HostRuntime) -> Result<(), Fail> {
    for law in LAWS {
        for within in law.within {
            assert!(rt;
                holds(rt.alloc(), law, *within)?,
                "{} in {}",
                law.law,
                *within
            );
        }
    }
    Ok(())
}

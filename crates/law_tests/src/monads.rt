//! The laws of `Monad` and `MonadError`, which `MonadCancel` inherits, and of `forceR`.

use crate::sides::{EVERYWHERE, Law, holds};
use std::test::Fail;

const LAWS: &[Law<'static>] = &[
    Law {
        law: "monad left identity",
        left: "(let x (pure 5) (add x x))",
        right: "(add 5 5)",
        within: EVERYWHERE,
    },
    Law {
        law: "monad right identity",
        left: "(let x (seq (modify r 1) (get r)) (pure x))",
        right: "(seq (modify r 1) (get r))",
        within: EVERYWHERE,
    },
    Law {
        law: "flatMap is associative",
        left: "(let y (let x (get r) (add x 1)) (set r y))",
        right: "(let x (get r) (let y (add x 1) (set r y)))",
        within: EVERYWHERE,
    },
    Law {
        law: "raiseError is a left zero of flatMap",
        left: "(seq (raise 3) (set r 1))",
        right: "(raise 3)",
        within: EVERYWHERE,
    },
    Law {
        law: "handleErrorWith handles what is raised",
        left: "(handle (raise 3) x (add x 1))",
        right: "(add 3 1)",
        within: EVERYWHERE,
    },
    Law {
        law: "handleErrorWith leaves what is pure",
        left: "(handle (pure 3) x (set r x))",
        right: "(pure 3)",
        within: EVERYWHERE,
    },
    Law {
        law: "handleErrorWith doesn't see cancelation",
        left: "(handle (canceled) x (set r 1))",
        right: "(canceled)",
        within: EVERYWHERE,
    },
    Law {
        law: "forceR discards pure",
        left: "(seq (handle (pure 1) e (pure 0)) (modify r 1))",
        right: "(modify r 1)",
        within: EVERYWHERE,
    },
    Law {
        law: "forceR discards error",
        left: "(seq (handle (raise 1) e (pure 0)) (modify r 1))",
        right: "(modify r 1)",
        within: EVERYWHERE,
    },
    Law {
        law: "forceR canceled short-circuits",
        left: "(seq (handle (canceled) e (pure 0)) (modify r 1))",
        right: "(seq (canceled) (modify r 1))",
        within: EVERYWHERE,
    },
    Law {
        law: "forceR is associative",
        left: "(seq (handle (modify r 1) e (pure 0)) (seq (handle (raise 1) e (pure 0)) (modify r 10)))",
        right: "(seq (handle (seq (handle (modify r 1) e (pure 0)) (raise 1)) e (pure 0)) (modify r 10))",
        within: EVERYWHERE,
    },
];

#[test]
fn laws_of_monads_hold(rt: HostRuntime) -> Result<(), Fail> {
    for law in LAWS {
        for within in law.within {
            assert!(rt;
                holds(rt.alloc(), law, *within)?,
                "{} in {}",
                law.law,
                *within
            );
        }
    }
    Ok(())
}

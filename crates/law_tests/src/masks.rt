//! The laws of `uncancelable` and `poll`.

use crate::sides::{EVERYWHERE, Law, UNCANCELED, holds};
use std::test::Fail;

const LAWS: &[Law<'static>] = &[
    Law {
        law: "uncancelable poll is identity: a value",
        left: "(uncancelable p (poll p (pure 1)))",
        right: "(pure 1)",
        within: EVERYWHERE,
    },
    Law {
        law: "uncancelable poll is identity: an error",
        left: "(uncancelable p (poll p (raise 2)))",
        right: "(raise 2)",
        within: EVERYWHERE,
    },
    Law {
        law: "uncancelable poll is identity: cancelation",
        left: "(uncancelable p (poll p (canceled)))",
        right: "(canceled)",
        within: EVERYWHERE,
    },
    Law {
        law: "uncancelable poll is identity: what never ends",
        left: "(uncancelable p (poll p (never)))",
        right: "(never)",
        within: EVERYWHERE,
    },
    Law {
        law: "uncancelable poll is identity: two changes",
        left: "(uncancelable p (poll p (seq (modify r 1) (modify r 10))))",
        right: "(seq (modify r 1) (modify r 10))",
        within: EVERYWHERE,
    },
    Law {
        law: "uncancelable poll is identity: a finalizer",
        left: "(uncancelable p (poll p (oncancel (modify r 1) (modify r 10))))",
        right: "(oncancel (modify r 1) (modify r 10))",
        within: EVERYWHERE,
    },
    Law {
        law: "uncancelable ignored poll eliminates nesting: two changes",
        left: "(uncancelable p (uncancelable q (seq (modify r 1) (modify r 10))))",
        right: "(uncancelable p (seq (modify r 1) (modify r 10)))",
        within: EVERYWHERE,
    },
    Law {
        law: "uncancelable ignored poll eliminates nesting: an error",
        left: "(uncancelable p (uncancelable q (raise 2)))",
        right: "(uncancelable p (raise 2))",
        within: EVERYWHERE,
    },
    Law {
        law: "uncancelable ignored poll eliminates nesting: cancelation",
        left: "(uncancelable p (uncancelable q (seq (canceled) (modify r 1))))",
        right: "(uncancelable p (seq (canceled) (modify r 1)))",
        within: EVERYWHERE,
    },
    Law {
        law: "uncancelable poll inverse nest is uncancelable: two changes",
        left: "(uncancelable p (uncancelable q (poll p (poll q (seq (modify r 1) (modify r 10))))))",
        right: "(uncancelable p (seq (modify r 1) (modify r 10)))",
        within: EVERYWHERE,
    },
    Law {
        law: "uncancelable poll inverse nest is uncancelable: cancelation",
        left: "(uncancelable p (uncancelable q (poll p (poll q (seq (canceled) (modify r 1))))))",
        right: "(uncancelable p (seq (canceled) (modify r 1)))",
        within: EVERYWHERE,
    },
    Law {
        law: "polls in the order of their masks undo both",
        left: "(uncancelable p (uncancelable q (poll q (poll p (seq (modify r 1) (modify r 10))))))",
        right: "(seq (modify r 1) (modify r 10))",
        within: EVERYWHERE,
    },
    Law {
        law: "poll is idempotent",
        left: "(uncancelable p (poll p (poll p (seq (modify r 1) (modify r 10)))))",
        right: "(uncancelable p (poll p (seq (modify r 1) (modify r 10))))",
        within: EVERYWHERE,
    },
    Law {
        law: "uncancelable canceled associates right over flatMap: a change",
        left: "(uncancelable p (let a (seq (canceled) (pure 5)) (modify r a)))",
        right: "(seq (handle (uncancelable p (modify r 5)) e (pure 0)) (canceled))",
        within: UNCANCELED,
    },
    Law {
        law: "uncancelable canceled associates right over flatMap: an error",
        left: "(uncancelable p (let a (seq (canceled) (pure 5)) (raise a)))",
        right: "(seq (handle (uncancelable p (raise 5)) e (pure 0)) (canceled))",
        within: UNCANCELED,
    },
];

#[test]
fn laws_of_masks_hold(rt: HostRuntime) -> Result<(), Fail> {
    for law in LAWS {
        for within in law.within {
            assert!(rt;
                holds(rt.alloc(), law, *within)?,
                "{} in {}",
                law.law,
                *within
            );
        }
    }
    Ok(())
}

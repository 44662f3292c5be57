//! The laws of `GenSpawn`.

use crate::sides::{EVERYWHERE, Law, UNCANCELED, holds};
use std::test::Fail;

const LAWS: &[Law<'static>] = &[
    Law {
        law: "a fiber of pure is completed by it",
        left: "(start g (pure 5) (join g x (pure x) e (raise e) (pure -1)))",
        right: "(pure 5)",
        within: EVERYWHERE,
    },
    Law {
        law: "a fiber of an error is errored by it",
        left: "(start g (raise 5) (join g x (raise x) e (pure e) (raise -1)))",
        right: "(pure 5)",
        within: EVERYWHERE,
    },
    Law {
        law: "a fiber that is canceled from outside has the outcome canceled",
        left: "(start g (never) (seq (cancel g) (join g x (raise x) e (raise e) (pure 9))))",
        right: "(pure 9)",
        within: UNCANCELED,
    },
    Law {
        law: "a fiber that cancels itself has the outcome canceled",
        left: "(start g (canceled) (join g x (raise x) e (raise e) (pure 9)))",
        right: "(pure 9)",
        within: EVERYWHERE,
    },
    Law {
        law: "the join of a fiber that never ends never ends",
        left: "(start g (never) (join g x (pure x) e (raise e) (pure 9)))",
        right: "(never)",
        within: EVERYWHERE,
    },
    Law {
        law: "the start of never is unit",
        left: "(start g (never) (pure 0))",
        right: "(pure 0)",
        within: EVERYWHERE,
    },
    Law {
        law: "never dominates over flatMap: a change",
        left: "(seq (never) (modify r 1))",
        right: "(never)",
        within: EVERYWHERE,
    },
    Law {
        law: "never dominates over flatMap: an error",
        left: "(seq (never) (raise 1))",
        right: "(never)",
        within: EVERYWHERE,
    },
    Law {
        law: "forceR never is never",
        left: "(seq (handle (never) e (pure 0)) (modify r 1))",
        right: "(never)",
        within: EVERYWHERE,
    },
    Law {
        law: "cede is unit",
        left: "(seq (modify r 1) (cede) (modify r 10))",
        right: "(seq (modify r 1) (pure 0) (modify r 10))",
        within: EVERYWHERE,
    },
    Law {
        law: "start and join, where nobody cancels, is the term: a change",
        left: "(start g (modify r 1) (join g x (pure x) e (raise e) (canceled)))",
        right: "(modify r 1)",
        within: UNCANCELED,
    },
    Law {
        law: "start and join, where nobody cancels, is the term: an error",
        left: "(start g (raise 4) (join g x (pure x) e (raise e) (canceled)))",
        right: "(raise 4)",
        within: UNCANCELED,
    },
    Law {
        law: "start and join, where nobody cancels, is the term: cancelation",
        left: "(start g (canceled) (join g x (pure x) e (raise e) (canceled)))",
        right: "(canceled)",
        within: UNCANCELED,
    },
    Law {
        law: "cancel is idempotent",
        left: "(start g (never) (seq (cancel g) (cancel g)))",
        right: "(start g (never) (cancel g))",
        within: EVERYWHERE,
    },
    Law {
        law: "cancel waits for finalizers",
        left: "(start g (uncancelable p (seq (modify r 1) (modify r 10))) \
            (seq (join g x (pure x) e (raise e) (pure 0)) (cancel g) (get r)))",
        right: "(seq (modify r 11) (get r))",
        within: UNCANCELED,
    },
    Law {
        law: "cancel of a fiber that has ended is unit",
        left: "(start g (pure 1) (seq (join g x (pure x) e (raise e) (never)) (cancel g)))",
        right: "(pure 0)",
        within: UNCANCELED,
    },
    Law {
        law: "cancel in an uncancelable region cancels",
        left: "(start g (never) (seq (uncancelable p (cancel g)) (join g x (raise x) e (raise e) (pure 9))))",
        right: "(pure 9)",
        within: UNCANCELED,
    },
    Law {
        law: "a fiber that is started in an uncancelable region is cancelable",
        left: "(uncancelable p (start g (never) (cancel g)))",
        right: "(pure 0)",
        within: EVERYWHERE,
    },
];

#[test]
fn laws_of_fibers_hold(rt: HostRuntime) -> Result<(), Fail> {
    for law in LAWS {
        for within in law.within {
            assert!(rt;
                holds(rt.alloc(), law, *within)?,
                "{} in {}",
                law.law,
                *within
            );
        }
    }
    Ok(())
}

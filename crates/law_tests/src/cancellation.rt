//! The laws of `canceled` and `onCancel`.

use crate::sides::{BY_ITSELF, CANCELED, EVERYWHERE, Law, UNCANCELED, holds};
use std::test::Fail;

const LAWS: &[Law<'static>] = &[
    Law {
        law: "onCancel doesn't run its finalizer on success",
        left: "(oncancel (modify r 1) (modify r 10))",
        right: "(modify r 1)",
        within: UNCANCELED,
    },
    Law {
        law: "onCancel doesn't run its finalizer on error",
        left: "(oncancel (raise 3) (modify r 10))",
        right: "(raise 3)",
        within: UNCANCELED,
    },
    Law {
        law: "onCancel associates over uncancelable boundary: a value",
        left: "(uncancelable p (oncancel (modify r 1) (modify r 10)))",
        right: "(oncancel (uncancelable p (modify r 1)) (modify r 10))",
        within: UNCANCELED,
    },
    Law {
        law: "onCancel associates over uncancelable boundary: an error",
        left: "(uncancelable p (oncancel (raise 3) (modify r 10)))",
        right: "(oncancel (uncancelable p (raise 3)) (modify r 10))",
        within: UNCANCELED,
    },
    Law {
        law: "onCancel associates over uncancelable boundary: what never ends",
        left: "(uncancelable p (oncancel (never) (modify r 10)))",
        right: "(oncancel (uncancelable p (never)) (modify r 10))",
        within: UNCANCELED,
    },
    Law {
        law: "onCancel associates over uncancelable boundary: cancelation, by its outcome",
        left: "(uncancelable p (oncancel (canceled) (modify r 10)))",
        right: "(oncancel (uncancelable p (canceled)) (modify r 10))",
        within: BY_ITSELF,
    },
    Law {
        law: "onCancel implies uncancelable: a fiber that cancels itself",
        left: "(oncancel (oncancel (canceled) (uncancelable p (modify r 1))) (set r 7))",
        right: "(oncancel (oncancel (canceled) (modify r 1)) (set r 7))",
        within: EVERYWHERE,
    },
    Law {
        law: "onCancel implies uncancelable: a finalizer that cancels",
        left: "(oncancel (oncancel (canceled) (uncancelable p (seq (canceled) (modify r 1)))) (modify r 10))",
        right: "(oncancel (oncancel (canceled) (seq (canceled) (modify r 1))) (modify r 10))",
        within: EVERYWHERE,
    },
    Law {
        law: "onCancel implies uncancelable: what never ends",
        left: "(oncancel (oncancel (never) (uncancelable p (modify r 1))) (modify r 10))",
        right: "(oncancel (oncancel (never) (modify r 1)) (modify r 10))",
        within: EVERYWHERE,
    },
    Law {
        law: "canceled associates left over flatMap: a change",
        left: "(seq (canceled) (modify r 1))",
        right: "(canceled)",
        within: EVERYWHERE,
    },
    Law {
        law: "canceled associates left over flatMap: an error",
        left: "(seq (canceled) (raise 1))",
        right: "(canceled)",
        within: EVERYWHERE,
    },
    Law {
        law: "canceled associates left over flatMap: what never ends",
        left: "(seq (canceled) (never))",
        right: "(canceled)",
        within: EVERYWHERE,
    },
    Law {
        law: "canceled sequences onCancel in order: notes",
        left: "(oncancel (oncancel (canceled) (say 1)) (say 2))",
        right: "(seq (uncancelable p (seq (say 1) (say 2))) (canceled))",
        within: UNCANCELED,
    },
    Law {
        law: "canceled sequences onCancel in order: changes",
        left: "(oncancel (oncancel (canceled) (set r 1)) (modify r 10))",
        right: "(seq (uncancelable p (seq (set r 1) (modify r 10))) (canceled))",
        within: UNCANCELED,
    },
    Law {
        law: "canceled sequences onCancel in order: an error in the first",
        left: "(oncancel (oncancel (canceled) (raise 1)) (modify r 10))",
        right: "(seq (uncancelable p (seq (handle (raise 1) e (pure 0)) (modify r 10))) (canceled))",
        within: UNCANCELED,
    },
    Law {
        law: "finalizers are uncancelable",
        left: "(oncancel (canceled) (uncancelable p (seq (canceled) (modify r 1))))",
        right: "(oncancel (canceled) (seq (canceled) (modify r 1)))",
        within: EVERYWHERE,
    },
];

#[test]
fn laws_of_cancellation_hold(rt: HostRuntime) -> Result<(), Fail> {
    for law in LAWS {
        for within in law.within {
            assert!(rt;
                holds(rt.alloc(), law, *within)?,
                "{} in {}",
                law.law,
                *within
            );
        }
    }
    Ok(())
}

// Terms that differ. They show that a comparison of two sides can fail.
const OTHERWISE: &[Law<'static>] = &[
    Law {
        law: "a mask is seen by whoever cancels",
        left: "(uncancelable p (seq (modify r 1) (modify r 10)))",
        right: "(seq (modify r 1) (modify r 10))",
        within: BY_ITSELF,
    },
    Law {
        law: "a finalizer is seen where a fiber cancels itself",
        left: "(oncancel (canceled) (modify r 1))",
        right: "(canceled)",
        within: BY_ITSELF,
    },
    Law {
        law: "the order of finalizers is seen",
        left: "(oncancel (oncancel (canceled) (set r 1)) (set r 2))",
        right: "(oncancel (oncancel (canceled) (set r 2)) (set r 1))",
        within: BY_ITSELF,
    },
];

#[test]
fn terms_that_are_not_equal_have_different_ends(rt: HostRuntime) -> Result<(), Fail> {
    for law in OTHERWISE {
        assert!(rt; !holds(rt.alloc(), law, CANCELED)?, "{}", law.law);
    }
    Ok(())
}

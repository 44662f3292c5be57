//! The laws of `race` and `both`.

use crate::sides::{BY_ITSELF, Law, holds};
use std::test::Fail;

const RACES: &[Law<'static>] = &[
    Law {
        law: "race with what is canceled is the other side, left: a value",
        left: "(race (canceled) (pure 4))",
        right: "(pure 4)",
        within: BY_ITSELF,
    },
    Law {
        law: "race with what is canceled is the other side, left: what never ends",
        left: "(race (canceled) (never))",
        right: "(never)",
        within: BY_ITSELF,
    },
    Law {
        law: "race with what is canceled is the other side, right: an error",
        left: "(race (raise 4) (canceled))",
        right: "(raise 4)",
        within: BY_ITSELF,
    },
    Law {
        law: "race of two that are canceled is canceled",
        left: "(race (canceled) (canceled))",
        right: "(canceled)",
        within: BY_ITSELF,
    },
    Law {
        law: "race with never is the other side, left: a value",
        left: "(race (never) (pure 4))",
        right: "(pure 4)",
        within: BY_ITSELF,
    },
    Law {
        law: "race with never is the other side, right: an error",
        left: "(race (raise 4) (never))",
        right: "(raise 4)",
        within: BY_ITSELF,
    },
    Law {
        law: "race of never and never is never",
        left: "(race (never) (never))",
        right: "(never)",
        within: BY_ITSELF,
    },
    Law {
        law: "race commutes",
        left: "(race (pure 1) (pure 2))",
        right: "(race (pure 2) (pure 1))",
        within: BY_ITSELF,
    },
];

#[test]
fn laws_of_races_hold(rt: HostRuntime) -> Result<(), Fail> {
    for law in RACES {
        for within in law.within {
            assert!(rt;
                holds(rt.alloc(), law, *within)?,
                "{} in {}",
                law.law,
                *within
            );
        }
    }
    Ok(())
}

// Races in an uncancelable region, and pairs.
const PAIRS: &[Law<'static>] = &[
    Law {
        law: "uncancelable race displaces canceled",
        left: "(uncancelable p (race (never) (canceled)))",
        right: "(never)",
        within: BY_ITSELF,
    },
    Law {
        law: "uncancelable race with a polled canceled is the other side, left",
        left: "(uncancelable p (race (poll p (canceled)) (pure 4)))",
        right: "(uncancelable p (pure 4))",
        within: BY_ITSELF,
    },
    Law {
        law: "uncancelable race with a polled canceled is the other side, right",
        left: "(uncancelable p (race (pure 4) (poll p (canceled))))",
        right: "(uncancelable p (pure 4))",
        within: BY_ITSELF,
    },
    Law {
        law: "both of two values has both",
        left: "(both (pure 1) (pure 2) x y (add x y))",
        right: "(pure 3)",
        within: BY_ITSELF,
    },
    Law {
        law: "both with an error is the error",
        left: "(both (never) (raise 4) x y (add x y))",
        right: "(raise 4)",
        within: BY_ITSELF,
    },
    Law {
        law: "both with what is canceled is canceled",
        left: "(both (canceled) (never) x y (add x y))",
        right: "(canceled)",
        within: BY_ITSELF,
    },
    Law {
        law: "both with never never ends",
        left: "(both (pure 1) (never) x y (add x y))",
        right: "(never)",
        within: BY_ITSELF,
    },
];

#[test]
fn laws_of_pairs_hold(rt: HostRuntime) -> Result<(), Fail> {
    for law in PAIRS {
        for within in law.within {
            assert!(rt;
                holds(rt.alloc(), law, *within)?,
                "{} in {}",
                law.law,
                *within
            );
        }
    }
    Ok(())
}

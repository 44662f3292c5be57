//! The laws of `guarantee` and `bracket`.

use crate::sides::{EVERYWHERE, Law, UNCANCELED, holds};
use std::test::Fail;

const LAWS: &[Law<'static>] = &[
    Law {
        law: "guarantee is guaranteeCase: a value",
        left: "(guarantee (modify r 1) (modify r 10))",
        right: "(bracketcase u (pure 0) (modify r 1) y (modify r 10) z (modify r 10) (modify r 10))",
        within: EVERYWHERE,
    },
    Law {
        law: "guarantee is guaranteeCase: an error",
        left: "(guarantee (raise 3) (modify r 10))",
        right: "(bracketcase u (pure 0) (raise 3) y (modify r 10) z (modify r 10) (modify r 10))",
        within: EVERYWHERE,
    },
    Law {
        law: "guarantee is guaranteeCase: cancelation",
        left: "(guarantee (canceled) (modify r 10))",
        right: "(bracketcase u (pure 0) (canceled) y (modify r 10) z (modify r 10) (modify r 10))",
        within: EVERYWHERE,
    },
    Law {
        law: "guarantee is guaranteeCase: what never ends",
        left: "(guarantee (never) (modify r 10))",
        right: "(bracketcase u (pure 0) (never) y (modify r 10) z (modify r 10) (modify r 10))",
        within: EVERYWHERE,
    },
    Law {
        law: "guarantee is guaranteeCase: a finalizer that raises",
        left: "(guarantee (modify r 1) (raise 4))",
        right: "(bracketcase u (pure 0) (modify r 1) y (raise 4) z (raise 4) (raise 4))",
        within: EVERYWHERE,
    },
    Law {
        law: "guaranteeCase invokes the finalizer of a success",
        left: "(bracketcase u (pure 0) (pure 3) y (modify r y) z (modify r 10) (modify r 100))",
        right: "(seq (modify r 3) (pure 3))",
        within: UNCANCELED,
    },
    Law {
        law: "guaranteeCase invokes the finalizer of an error",
        left: "(bracketcase u (pure 0) (raise 3) y (modify r 10) z (modify r z) (modify r 100))",
        right: "(seq (modify r 3) (raise 3))",
        within: UNCANCELED,
    },
    Law {
        law: "guaranteeCase invokes the finalizer of cancelation",
        left: "(bracketcase u (pure 0) (canceled) y (modify r 1) z (modify r 10) (modify r 100))",
        right: "(seq (modify r 100) (canceled))",
        within: UNCANCELED,
    },
    Law {
        law: "bracket is bracketCase",
        left: "(bracket x (modify r 1) (modify r 10) (modify r 100))",
        right: "(bracketcase x (modify r 1) (modify r 10) y (modify r 100) z (modify r 100) (modify r 100))",
        within: EVERYWHERE,
    },
    Law {
        law: "bracketCase is bracketFull that ignores its poll",
        left: "(bracketcase x (modify r 1) (never) y (modify r 10) z (modify r 100) (modify r 1000))",
        right: "(bracketfull p x (modify r 1) (never) y (modify r 10) z (modify r 100) (modify r 1000))",
        within: EVERYWHERE,
    },
    Law {
        law: "bracket releases nothing where the acquisition fails",
        left: "(bracket x (raise 3) (modify r 10) (modify r 100))",
        right: "(uncancelable p (raise 3))",
        within: EVERYWHERE,
    },
];

#[test]
fn laws_of_brackets_hold(rt: HostRuntime) -> Result<(), Fail> {
    for law in LAWS {
        for within in law.within {
            assert!(rt;
                holds(rt.alloc(), law, *within)?,
                "{} in {}",
                law.law,
                *within
            );
        }
    }
    Ok(())
}

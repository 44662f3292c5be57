//! Programs whose fibers are turned in several orders, each with a schedule that is worked out by hand.
//!
//! The schedule has one entry of the fiber for each move of a turn. Outside masks and finalizers each word takes two
//! moves, a look and its own, and so does the end of a fiber; in a mask it takes one. A turn makes as many moves as its
//! budget, or ends with the first move that has an event. So `(0, 2, ..)` is `0*2`, and a turn that starts a fiber,
//! waits or ends has the entries up to the move that does so.

use crate::programs::ample;
use crate::turning::{Told, Turns, expect_turns};
use fiber_poll::Topic;
use std::test::Fail;

const ENDED: Told = Told::Succeeded(0);

// The parent joins the child, and says its value.
const JOINING: &str = "(start f (say 1) (join f x (say x) e (raise e) (pure -1)))";

const JOINED: &str = "fiber 0 succeeded 0: say 0\nfiber 1 succeeded 0: say 1\n";

const JOIN_ORDERS: &[Turns<'static>] = &[
    Turns {
        rule: "the child first",
        program: JOINING,
        moves: 99,
        turns: &[(0, 64, Told::Started(1)), (1, 64, ENDED), (0, 64, ENDED)],
        schedule: "0*2 1*4 0*6",
        report: JOINED,
    },
    Turns {
        rule: "the parent first",
        program: JOINING,
        moves: 99,
        turns: &[
            (0, 64, Told::Started(1)),
            (0, 64, Told::Waits(Topic::Fiber(1))),
            (1, 64, ENDED),
            (0, 64, ENDED),
        ],
        schedule: "0*4 1*4 0*6",
        report: JOINED,
    },
    Turns {
        rule: "two moves each",
        program: JOINING,
        moves: 99,
        turns: &[
            (0, 2, Told::Started(1)),
            (1, 2, Told::Cedes),
            (0, 2, Told::Waits(Topic::Fiber(1))),
            (1, 2, ENDED),
            (0, 2, Told::Cedes),
            (0, 2, Told::Cedes),
            (0, 2, ENDED),
        ],
        schedule: "0*2 1*2 0*2 1*2 0*6",
        report: JOINED,
    },
];

// The child adds to a ref before, between or after the parent's two additions.
const ADDING: &str =
    "(ref r 0 (start f (modify r 1) (let x (modify r 2) (let y (modify r 4) (seq (say x) (say y))))))";

const ADD_ORDERS: &[Turns<'static>] = &[
    Turns {
        rule: "the child first",
        program: ADDING,
        moves: 99,
        turns: &[(0, 64, Told::Started(1)), (1, 64, ENDED), (0, 64, ENDED)],
        schedule: "0*8 1*4 0*16",
        report: "fiber 0 succeeded 0: say 1, say 3\nfiber 1 succeeded 0\n",
    },
    Turns {
        rule: "the parent first",
        program: ADDING,
        moves: 99,
        turns: &[
            (0, 64, Told::Started(1)),
            (0, 64, ENDED),
            (1, 64, Told::Succeeded(6)),
        ],
        schedule: "0*24 1*4",
        report: "fiber 0 succeeded 0: say 0, say 2\nfiber 1 succeeded 6\n",
    },
    Turns {
        rule: "two moves each, and eight at last",
        program: ADDING,
        moves: 99,
        turns: &[
            (0, 8, Told::Started(1)),
            (0, 2, Told::Cedes),
            (1, 2, Told::Cedes),
            (0, 2, Told::Cedes),
            (1, 2, Told::Succeeded(2)),
            (0, 8, Told::Cedes),
            (0, 8, ENDED),
        ],
        schedule: "0*8 0*2 1*2 0*2 1*2 0*12",
        report: "fiber 0 succeeded 0: say 0, say 3\nfiber 1 succeeded 2\n",
    },
];

// The parent cancels the child, which is masked except in a poll.
const CANCELING: &str =
    "(start f (uncancelable p (seq (say 1) (poll p (say 2)) (say 3))) (cancel f))";

const CANCEL_ORDERS: &[Turns<'static>] = &[
    Turns {
        rule: "the child first",
        program: CANCELING,
        moves: 99,
        turns: &[(0, 64, Told::Started(1)), (1, 64, ENDED), (0, 64, ENDED)],
        schedule: "0*2 1*14 0*6",
        report: "fiber 0 succeeded 0: enter 0, leave 0\n\
            fiber 1 succeeded 0: enter 0, say 1, in 0, say 2, out 0, say 3, leave 0\n",
    },
    Turns {
        rule: "the parent first",
        program: CANCELING,
        moves: 99,
        turns: &[
            (0, 64, Told::Started(1)),
            (0, 64, Told::WakeFiber(1)),
            (0, 64, Told::Waits(Topic::Fiber(1))),
            (1, 64, Told::Canceled),
            (0, 64, ENDED),
        ],
        schedule: "0*6 1*3 0*4",
        report: "fiber 0 succeeded 0: enter 0, leave 0\nfiber 1 canceled: cut\n",
    },
    Turns {
        rule: "two moves each",
        program: CANCELING,
        moves: 99,
        turns: &[
            (0, 2, Told::Started(1)),
            (1, 2, Told::Cedes),
            (0, 2, Told::Cedes),
            (1, 2, Told::Cedes),
            (0, 2, Told::WakeFiber(1)),
            (1, 2, Told::Cedes),
            (0, 2, Told::Waits(Topic::Fiber(1))),
            (1, 2, Told::Canceled),
            (0, 2, Told::Cedes),
            (0, 2, ENDED),
        ],
        schedule: "0*2 1*2 0*2 1*2 0*1 1*2 0*1 1*2 0*4",
        report: "fiber 0 succeeded 0: enter 0, leave 0\nfiber 1 canceled: enter 0, say 1, in 0, cut\n",
    },
];

#[test]
fn a_join_waits_in_any_order(rt: HostRuntime) -> Result<(), Fail> {
    expect_turns(&rt, ample(), JOIN_ORDERS)
}

#[test]
fn updates_come_in_the_order_of_the_turns(rt: HostRuntime) -> Result<(), Fail> {
    expect_turns(&rt, ample(), ADD_ORDERS)
}

#[test]
fn a_cancellation_meets_the_fiber_where_its_turns_left_it(rt: HostRuntime) -> Result<(), Fail> {
    expect_turns(&rt, ample(), CANCEL_ORDERS)
}

//! The events that end a turn, each returned once and after its own move.

ghost use Rattle.std.specs.Prelude.{◌<◌};

use crate::programs::{ample, replayed};
use crate::turning::{Told, Turns, expect_turns, turn_by_turn};
use fiber_poll::Topic;
use std::alloc::Global;
use std::test::Fail;

const ENDED: Told = Told::Succeeded(0);

const ENDS: &[Turns<'static>] = &[
    Turns {
        rule: "a fiber that has ended answers its value again, though it has no moves left",
        program: "(pure 7)",
        moves: 2,
        turns: &[
            (0, 64, Told::Succeeded(7)),
            (0, 2, Told::Succeeded(7)),
            (0, 64, Told::Succeeded(7)),
        ],
        schedule: "0*2",
        report: "fiber 0 succeeded 7\n",
    },
    Turns {
        rule: "an error is told",
        program: "(raise 9)",
        moves: 99,
        turns: &[(0, 64, Told::Errored(9)), (0, 64, Told::Errored(9))],
        schedule: "0*2",
        report: "fiber 0 errored 9\n",
    },
    Turns {
        rule: "to request one's own cancellation wakes nobody",
        program: "(uncancelable p (canceled))",
        moves: 99,
        turns: &[(0, 64, Told::Canceled), (0, 64, Told::Canceled)],
        schedule: "0*7",
        report: "fiber 0 canceled: enter 0, leave 0, cut\n",
    },
];

const WAITS: &[Turns<'static>] = &[
    Turns {
        rule: "who awaits an empty deferred waits for it, each time anew",
        program: "(deferred d (await d))",
        moves: 99,
        turns: &[
            (0, 64, Told::Waits(Topic::Deferred(0))),
            (0, 64, Told::Waits(Topic::Deferred(0))),
        ],
        schedule: "0*6",
        report: "fiber 0 unended\n",
    },
    Turns {
        rule: "who waits without end is told so",
        program: "(seq (say 1) (never))",
        moves: 99,
        turns: &[
            (0, 64, Told::Waits(Topic::Never)),
            (0, 64, Told::Waits(Topic::Never)),
        ],
        schedule: "0*8",
        report: "fiber 0 unended: say 1\n",
    },
    Turns {
        rule: "a masked wait is told with each of its moves",
        program: "(uncancelable p (never))",
        moves: 4,
        turns: &[
            (0, 64, Told::Waits(Topic::Never)),
            (0, 64, Told::Waits(Topic::Never)),
            (0, 64, Told::OutOfMoves),
        ],
        schedule: "0*4",
        report: "fiber 0 unended: enter 0\n",
    },
];

const YIELDS: &[Turns<'static>] = &[
    Turns {
        rule: "a fiber yields at a cede, and nowhere before",
        program: "(seq (say 1) (cede) (say 2))",
        moves: 99,
        turns: &[(0, 64, Told::Cedes)],
        schedule: "0*6",
        report: "fiber 0 unended: say 1\n",
    },
    Turns {
        rule: "a fiber goes on after a cede",
        program: "(seq (say 1) (cede) (say 2))",
        moves: 99,
        turns: &[(0, 64, Told::Cedes), (0, 64, ENDED)],
        schedule: "0*12",
        report: "fiber 0 succeeded 0: say 1, say 2\n",
    },
    Turns {
        rule: "a fiber yields once the budget's moves are made",
        program: "(forever (say 1))",
        moves: 99,
        turns: &[
            (0, 7, Told::Cedes),
            (0, 2, Told::Cedes),
            (0, 3, Told::Cedes),
        ],
        schedule: "0*12",
        report: "fiber 0 unended: say 1, say 1\n",
    },
];

const WAKES: &[Turns<'static>] = &[
    Turns {
        rule: "the first to request a cancellation wakes the fiber, and no later one does",
        program: "(start f (never) (start g (cancel f) (cancel f)))",
        moves: 99,
        turns: &[
            (0, 64, Told::Started(1)),
            (0, 64, Told::Started(2)),
            (1, 64, Told::Waits(Topic::Never)),
            (0, 64, Told::WakeFiber(1)),
            (2, 64, Told::Waits(Topic::Fiber(1))),
            (0, 64, Told::Waits(Topic::Fiber(1))),
            (1, 64, Told::Canceled),
            (2, 64, ENDED),
            (0, 64, ENDED),
        ],
        schedule: "0*4 1*2 0*3 2*4 0*1 1*3 2*4 0*4",
        report: "fiber 0 succeeded 0: enter 0, leave 0\nfiber 1 canceled: cut\nfiber 2 succeeded 0: enter 0, leave 0\n",
    },
    Turns {
        rule: "who completes a deferred wakes those that wait for it, and who comes late wakes nobody",
        program: "(deferred d (start f (await d) (seq (complete d 5) (complete d 6))))",
        moves: 99,
        turns: &[
            (0, 64, Told::Started(1)),
            (1, 64, Told::Waits(Topic::Deferred(0))),
            (0, 64, Told::WakeTopic(Topic::Deferred(0))),
            (0, 64, ENDED),
            (1, 64, Told::Succeeded(5)),
        ],
        schedule: "0*4 1*2 0*8 1*4",
        report: "fiber 0 succeeded 0\nfiber 1 succeeded 5\n",
    },
];

const USED_UP: &[Turns<'static>] = &[
    Turns {
        rule: "a task with no moves makes none",
        program: "(say 1)",
        moves: 0,
        turns: &[(0, 64, Told::OutOfMoves), (0, 64, Told::OutOfMoves)],
        schedule: "",
        report: "fiber 0 unended\n",
    },
    Turns {
        rule: "a task that has made its moves makes no more",
        program: "(say 1)",
        moves: 3,
        turns: &[(0, 64, Told::OutOfMoves), (0, 64, Told::OutOfMoves)],
        schedule: "0*3",
        report: "fiber 0 unended: say 1\n",
    },
    Turns {
        rule: "a budget that ends with the moves is told first",
        program: "(say 1)",
        moves: 2,
        turns: &[(0, 2, Told::Cedes), (0, 2, Told::OutOfMoves)],
        schedule: "0*2",
        report: "fiber 0 unended: say 1\n",
    },
];

#[test]
fn an_end_is_told_again(rt: HostRuntime) -> Result<(), Fail> {
    expect_turns(&rt, ample(), ENDS)
}

#[test]
fn a_wait_is_told_with_its_topic(rt: HostRuntime) -> Result<(), Fail> {
    expect_turns(&rt, ample(), WAITS)
}

#[test]
fn a_fiber_yields(rt: HostRuntime) -> Result<(), Fail> {
    expect_turns(&rt, ample(), YIELDS)
}

#[test]
fn the_first_to_come_wakes(rt: HostRuntime) -> Result<(), Fail> {
    expect_turns(&rt, ample(), WAKES)
}

#[test]
fn used_up_moves_are_told(rt: HostRuntime) -> Result<(), Fail> {
    expect_turns(&rt, ample(), USED_UP)
}

const SAYING: &str = "(start f (seq (say 1) (say 2)) (seq (say 3) (say 4)))";

// Whether both fibers make the moves that are left after the start, as in the core.
fn shares_moves(alloc: Global, left: u32) -> Result<bool, Fail>
    requires { left < 99 }
{
    let last = if left < 8 { Told::OutOfMoves } else { ENDED };
    let turns = [(0, 64, Told::Started(1)), (1, 64, last), (0, 64, last)];
    let core = core_report(alloc, left)?;
    turn_by_turn(
        alloc,
        SAYING,
        ample(),
        left + 2,
        turns.as_slice(),
        core.as_str(),
    )
}

// Both fibers need eight moves after the start.
#[test]
fn a_child_begins_with_the_moves_that_are_left(rt: HostRuntime) -> Result<(), Fail> {
    for left in 1..11u32 {
        assert!(&rt; shares_moves(rt.alloc(), left)?, "{left}");
    }
    Ok(())
}

// The core's report if each fiber makes `left` moves after the start.
fn core_report(alloc: Global, left: u32) -> Result<String, Fail> {
    let schedule = format!(in alloc; "0*2 1*{left} 0*{left}")?;
    replayed(alloc, SAYING, ample(), schedule.as_str())
}

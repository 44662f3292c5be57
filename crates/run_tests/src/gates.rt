//! Gates that hold fibers, and that count how workers make turns: two at once, and none after a fault.

use crate::answers::{USUAL, run_past, within};
use std::process::Abort;
use std::rt::Clock;
use std::sync::Wait;
use std::sync::atomic::{AtomicBool, AtomicU64, Ordering};
use std::test::Fail;
use std::thread;
use std::thread::Threads;
use std::time::{Duration, Instant};
use steal_pool::{Gate, Options};

// How often a worker checks for the other fiber.
const LOOKS: u32 = 200_000_000;

/// A fiber, a turn of it, another fiber and a turn of that one. The turn of the first is held until the other begins
/// its turn, and so has made the one before. The turns of a fiber are numbered from 1.
pub type Hold = (u16, u64, u16, u64);

/// Holds turns of fibers 0 to 2; gives up after some time.
#[derive(Drop)]
pub struct Holding<'a> {
    holds: &'a [Hold],
    // The last turn that each fiber has begun.
    turns: [AtomicU64; 3],
    gave_up: AtomicBool,
}

impl<'a> Holding<'a> {
    /// A gate before any turn.
    pub fn new(holds: &'a [Hold]) -> Holding<'a> {
        Holding {
            holds,
            turns: [AtomicU64::new(0), AtomicU64::new(0), AtomicU64::new(0)],
            gave_up: AtomicBool::new(false),
        }
    }

    /// Whether a turn was held until the gate gave up.
    pub fn gave_up(&self) -> bool {
        self.gave_up.load(Ordering::SeqCst)
    }

    // Counts a turn of a fiber, and returns its number.
    fn come(&self, fiber: u16) -> u64 {
        match self.turns.get(usize::from(fiber)) {
            Some(turn) => turn.fetch_add(1, Ordering::SeqCst).wrapping_add(1),
            None => 0,
        }
    }

    // The last turn that a fiber has begun.
    fn turn_of(&self, fiber: u16) -> u64 {
        match self.turns.get(usize::from(fiber)) {
            Some(turn) => turn.load(Ordering::SeqCst),
            None => 0,
        }
    }

    // Waits for a fiber to begin a turn.
    fn wait(&self, fiber: u16, turn: u64) {
        for _ in 0..LOOKS {
            if self.turn_of(fiber) >= turn {
                return;
            }
        }
        self.gave_up.store(true, Ordering::SeqCst);
    }
}

impl<'a> Gate for Holding<'a> {
    fn enter(&self, _worker: u8, fiber: u16) {
        let turn = self.come(fiber);
        for (held, at, other, until) in self.holds {
            if *held == fiber && *at == turn {
                self.wait(*other, *until);
            }
        }
    }
}

// Fibers 1 and 2 wait for each other.
const MEETING: &[Hold] = &[(1, 1, 2, 1), (2, 1, 1, 1)];

// Runs two fibers that meet.
fn expect_meeting<R: Abort + AllocGlobal + Threads + Wait + Sync>(
    rt: &R,
    workers: u8,
) -> Result<(), Fail> {
    let text = "(start f (say 1) (start g (say 2) (pure 0)))";
    let want = "fiber 0 succeeded 0\nfiber 1 succeeded 0: say 1\nfiber 2 succeeded 0: say 2\n";
    let gate = Holding::new(MEETING);
    let report = run_past(rt, rt.alloc(), text, within(USUAL, workers, 64), &gate)?;
    assert!(rt; !gate.gave_up(), "on {workers}");
    assert!(rt; report.as_str() == want, "on {workers}: {report}");
    Ok(())
}

#[test]
fn two_workers_are_inside_at_once(rt: HostRuntime) -> Result<(), Fail> {
    expect_meeting(&rt, 2)?;
    expect_meeting(&rt, 3)?;
    expect_meeting(&rt, 16)
}

// Counts the turns.
#[derive(Drop)]
struct Turns {
    made: AtomicU64,
}

impl Gate for Turns {
    fn enter(&self, _worker: u8, _fiber: u16) {
        self.made.fetch_add(1, Ordering::SeqCst);
    }
}

// Five hundred fibers that yield for ever would make five hundred million moves.
const BUSY: &str =
    "(start f (forever (uncancelable p (pure 0))) (seq (repeat 500 (start g (forever (cede)) (pure 0))) (forever \
    (cede))))";

// The fault of fiber 1 ends the run in time.
fn expect_fault_in_time<R: Abort + AllocGlobal + Clock + Threads + Wait + Sync>(
    rt: &R,
    workers: u8,
    gate: &Turns,
) -> Result<(), Fail> {
    let busy = Options {
        moves: 1_000_000,
        count: 1000,
        ..USUAL
    };
    let begun = Instant::now(rt)?;
    let answer = run_past(rt, rt.alloc(), BUSY, within(busy, workers, 64), gate)?;
    assert!(rt;
        answer.as_str() == "fault 19 Spent 1\n",
        "on {workers}: {answer}"
    );
    assert!(rt;
        begun.elapsed(rt)? < Duration::from_secs(10),
        "on {workers}"
    );
    Ok(())
}

// No thread makes a turn after the run has ended.
fn expect_no_thread_left<R: Abort + AllocGlobal + Clock + Threads + Wait + Sync>(
    rt: &R,
    workers: u8,
) -> Result<(), Fail> {
    let gate = Turns {
        made: AtomicU64::new(0),
    };
    expect_fault_in_time(rt, workers, &gate)?;
    let made = gate.made.load(Ordering::SeqCst);
    thread::sleep(rt, Duration::from_millis(20));
    assert_eq!(rt;
        gate.made.load(Ordering::SeqCst),
        made,
        "a thread of {workers} is left"
    );
    Ok(())
}

#[test]
fn a_fault_ends_all_workers(rt: HostRuntime) -> Result<(), Fail> {
    expect_no_thread_left(&rt, 1)?;
    expect_no_thread_left(&rt, 2)?;
    expect_no_thread_left(&rt, 4)?;
    expect_no_thread_left(&rt, 16)
}

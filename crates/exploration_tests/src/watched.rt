//! The progress that an exploration writes, and explorations that their watcher ends.
//!
//! A program with one fiber has one schedule, so each entry leads, with the moves made at once behind it, to one new
//! world: n entries lead to world n, counted from 0, and n + 1 worlds are known there. A fiber's request for its own
//! cancellation isn't made at once, so each request is an entry, and there is one entry before them.
//!
//! The watcher is asked at the worlds 99, 199 and so on, and where the counted bytes have grown by 1,048,576. At world n
//! of the long program, from 2 on, 2,249 + 1,553 * n bytes are counted: see `STOPPED`. So the bytes have grown by
//! 1,048,576 first at world 674, and then at each 676th world. At or before world n the watcher is asked
//! (n + 1) / 100 + (n + 2) / 676 times, each quotient rounded down: no world is one of both kinds.

ghost use Rattle.std.specs.Prelude.{true};

use crate::answers::exploring;
use every_schedule::{Bounds, Exploration, TimeLimit, Unwatched, Watcher, explore_watched};
use exploration_text::{TimedOrder, obey_watched};
use outcome_trace::{FromRead, Status, ToWrite, obey_text, read_program};
use std::alloc::Global;
use std::cell::Cell;
use std::io;
use std::io::{ErrorKind, Write};
use std::process::Abort;
use std::test::Fail;
use std::time::{Clock, Duration};

// A program with one fiber, which has more worlds than the bound.
const LONG: &str = "(uncancelable p (repeat 90000 (canceled)))";

// The answers to a program that is explored before the watcher is asked, and to a text that is refused.
const SHORT: &str = "explored 2 worlds: 1 report, 0 faults\n\nunder \"0*2\"\nfiber 0 succeeded 1\n";

const REFUSED: &str = "refused 6 UnknownWord at 1\n";

// The lines that are written with a clock that advances 15 milliseconds each time it is read: once at the beginning,
// and then whenever the watcher is asked. The first line is written at the 67th time, after 1,005 milliseconds, the
// next one at the 134th, a second later, and so on. The 67th time is at world 5,899 (59 + 8), the 134th at 11,699
// (117 + 17), the 201st at 17,574 (175 + 26). No 268th time comes: at world 20,499, the last, it is the 235th.
const TOLD: &str = "explored 5900 worlds, 5870 a second, depth 5899\n\
    explored 11700 worlds, 5820 a second, depth 11699\n\
    explored 17575 worlds, 5829 a second, depth 17574\n";

// The lines that are written in two seconds, which have passed at the 134th time.
const TOLD_IN_TIME: &str = "explored 5900 worlds, 5870 a second, depth 5899\n\
    explored 11700 worlds, 5820 a second, depth 11699\n";

// The answer then, with 2,249 + 1,553 * 11,699 bytes.
const OUT_OF_TIME: &str = "stopped by time at 11700 worlds: 0 reports, 0 faults, 18170796 bytes\n";

// A world takes 13 bytes, its row in the store 36, and its one fiber 8. Each entry but the last one leads to another
// world, and takes 8. Each entry adds three states of the fiber: one after the entry, and two after the moves made at
// once. With the first state there are 61,501 states of 480 bytes. All but the first two have the mark of the mask,
// which takes 16. The registry has three states: the first one, one under the mask, and one with the request. Each
// takes 160 bytes, 32 for the fiber, 8 for each of 16 refs and 16 for each of 16 deferreds.
//
// So each world with its row and its fiber adds 57 bytes, the entry to it 8, and the entry's states 3 * 496: together
// 1,553. At world 0 there are 57 bytes of the world and 480 of its state. The registries take 3 * 576 bytes from world 2
// on, and two states have no mark, of which one is the first: 57 + 480 + 1,728 - 16 = 2,249.
const STOPPED: &str = "stopped at 20500 worlds: 0 reports, 0 faults, 31838684 bytes\n";

// A clock that advances `step` milliseconds each time it is read, or fails.
#[derive(Drop)]
struct Steps {
    step: u64,
    now: Cell<u64>,
    fails: bool,
}

impl Clock for Steps {
    fn monotonic(&self) -> io::Result<Duration> {
        if self.fails {
            return Err(io::Error::from(ErrorKind::Other));
        }
        let now = self.now.get();
        self.now.set(now.wrapping_add(self.step));
        Ok(Duration::from_millis(now))
    }

    fn since_1970(&self) -> io::Result<Duration> {
        self.monotonic()
    }
}

// A clock that advances `step` milliseconds each time it is read.
fn stepping(step: u64) -> Steps {
    Steps {
        step,
        now: Cell::new(7000),
        fails: false,
    }
}

// A clock that fails.
fn failing() -> Steps {
    Steps {
        step: 0,
        now: Cell::new(0),
        fails: true,
    }
}

/// A watcher that ends the search when it is asked for the time with the number `most`, and keeps the last numbers it
/// got.
#[derive(Drop)]
pub struct Ends {
    most: usize,
    asked: usize,
    heard: (usize, usize),
}

impl Ends {
    /// A watcher that is asked `most` times.
    pub fn new(most: usize) -> Ends {
        Ends {
            most,
            asked: 0,
            heard: (0, 0),
        }
    }

    /// The number of times that it was asked.
    pub fn asked(&self) -> usize {
        self.asked
    }
}

impl Watcher for Ends {
    ghost can_stop = { λ it. true };

    ghost has_stopped = { λ it. true };

    fn goes_on(&mut self, worlds: usize, depth: usize) -> bool {
        self.asked = self.asked.wrapping_add(1);
        self.heard = (worlds, depth);
        self.asked < self.most
    }
}

// A device whose writes fail.
#[derive(Drop)]
struct Closed;

impl Write for Closed {
    fn write(&mut self, _bytes: &[u8]) -> io::Result<usize> {
        Err(io::Error::from(ErrorKind::BrokenPipe))
    }

    fn flush(&mut self) -> io::Result<()> {
        Ok(())
    }
}

// Explores a program with at most 20,500 worlds in at most `seconds`, writes to these devices, and returns the status.
fn watched<O: Write + Drop, E: Write + Drop>(
    alloc: Global,
    program: &str,
    clock: &Steps,
    seconds: Option<u64>,
    out: O,
    err: E,
) -> Status {
    obey_watched(
        clock,
        alloc,
        &exploring(alloc, 1, 20_500, 30_000),
        seconds,
        &mut FromRead::new(program.as_bytes()),
        &mut ToWrite::new(out),
        &mut ToWrite::new(err),
    )
}

// Runs an exploration, and compares its status and all that it writes.
fn expect<R: Abort + AllocGlobal>(
    rt: &R,
    rule: &str,
    program: &str,
    clock: &Steps,
    wanted: (Status, &str, &str),
) {
    let mut out = Vec::new(rt.alloc());
    let mut err = Vec::new(rt.alloc());
    let status = watched(rt.alloc(), program, clock, None, &mut out, &mut err);
    assert_eq!(rt;
        (status, out.as_slice(), err.as_slice()),
        (wanted.0, wanted.1.as_bytes(), wanted.2.as_bytes()),
        "{rule}"
    );
}

#[test]
fn progress_is_written_once_a_second(rt: HostRuntime) {
    let rows = [
        (15, LONG, Status::Unended, STOPPED, TOLD),
        (0, LONG, Status::Unended, STOPPED, ""),
        (1500, "(pure 1)", Status::Succeeded, SHORT, ""),
        (1500, "(pur 1)", Status::Refused, REFUSED, ""),
    ];
    for (step, program, status, out, err) in rows {
        expect(&rt, program, program, &stepping(step), (status, out, err));
    }
}

#[test]
fn with_a_failing_clock_there_is_no_progress_and_no_time_limit(rt: HostRuntime) {
    let mut out = Vec::new(rt.alloc());
    let mut err = Vec::new(rt.alloc());
    let status = watched(rt.alloc(), LONG, &failing(), Some(1), &mut out, &mut err);
    assert_eq!(rt;
        (status, out.as_slice(), err.as_slice()),
        (Status::Unended, STOPPED.as_bytes(), b"".as_slice())
    );
}

#[test]
fn a_failing_standard_error_leaves_answer_and_status(rt: HostRuntime) {
    let mut out = Vec::new(rt.alloc());
    let status = watched(rt.alloc(), LONG, &stepping(15), None, &mut out, Closed);
    assert_eq!(rt;
        (status, out.as_slice()),
        (Status::Unended, STOPPED.as_bytes())
    );
}

#[test]
fn an_exploration_ends_when_its_time_is_over(rt: HostRuntime) {
    let mut out = Vec::new(rt.alloc());
    let mut err = Vec::new(rt.alloc());
    let status = watched(rt.alloc(), LONG, &stepping(15), Some(2), &mut out, &mut err);
    assert_eq!(rt;
        (status, out.as_slice(), err.as_slice()),
        (
            Status::Unended,
            OUT_OF_TIME.as_bytes(),
            TOLD_IN_TIME.as_bytes()
        )
    );
}

#[test]
fn the_time_limit_holds_without_progress(rt: HostRuntime) {
    let clock = stepping(15);
    let order = TimedOrder {
        clock: &clock,
        seconds: Some(2),
        order: exploring(rt.alloc(), 1, 20_500, 30_000),
    };
    let mut out = Vec::new(rt.alloc());
    let mut err = Vec::new(rt.alloc());
    let status = obey_text(
        rt.alloc(),
        &order,
        &mut FromRead::new(LONG.as_bytes()),
        &mut ToWrite::new(&mut out),
        &mut ToWrite::new(&mut err),
    );
    assert_eq!(rt;
        (status, out.as_slice(), err.as_slice()),
        (Status::Unended, OUT_OF_TIME.as_bytes(), b"".as_slice())
    );
}

// What an exploration of the long program finds with this watcher.
fn found_while<V: Watcher>(alloc: Global, watcher: &mut V) -> Result<Exploration, Fail> {
    let order = exploring(alloc, 1, 20_500, 30_000);
    let bounds: Bounds = order.bounds;
    let Ok(program) = read_program(alloc, LONG.as_bytes()) else {
        return Err(Fail::new("the program is refused"));
    };
    match explore_watched(alloc, &program, order.limits, bounds, watcher) {
        Ok(found) => Ok(found),
        Err(_) => Err(Fail::new("memory ran out")),
    }
}

// The watcher is asked at the worlds 99, 199, 299, 399, 499, 599, 674 and 699 for the first eight times. It is asked for
// the 205th time at world 17,899 (179 + 26), and for the 235th and last time at world 20,499 (205 + 30), the last world
// within the bound.
#[test]
fn a_watcher_ends_the_search(rt: HostRuntime) -> Result<(), Fail> {
    let rows = [
        (1, 99),
        (3, 299),
        (6, 599),
        (7, 674),
        (8, 699),
        (205, 17_899),
        (235, 20_499),
    ];
    for (most, world) in rows {
        let mut ends = Ends::new(most);
        let found = found_while(rt.alloc(), &mut ends)?;
        assert_eq!(rt;
            (found.complete, found.halted, found.worlds),
            (false, true, world + 1)
        );
        assert_eq!(rt; (ends.asked(), ends.heard), (most, (world + 1, world)));
    }
    let mut ends = Ends::new(236);
    let found = found_while(rt.alloc(), &mut ends)?;
    assert_eq!(rt;
        (found.halted, found.worlds, ends.asked()),
        (false, 20_500, 235)
    );
    Ok(())
}

#[test]
fn an_unwatched_search_runs_to_its_bound(rt: HostRuntime) -> Result<(), Fail> {
    let found = found_while(rt.alloc(), &mut Unwatched)?;
    assert_eq!(rt;
        (found.complete, found.halted, found.worlds),
        (false, false, 20_500)
    );
    let clock = stepping(1000);
    let found = found_while(rt.alloc(), &mut TimeLimit::new(&clock, None))?;
    assert_eq!(rt;
        (found.complete, found.halted, found.worlds),
        (false, false, 20_500)
    );
    Ok(())
}

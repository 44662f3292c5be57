//! Programs whose reports depend on the schedule. All possible reports are worked out by hand: an exploration finds
//! exactly these, each with a schedule whose replay has it, and each run has one of them.

use crate::answers::{Runs, USUAL, expect_runs, program, replay_of};
use cell_registry::Limits;
use effect_term::Program;
use every_schedule::{Answer, Bounds, explore};
use outcome_trace::text_of_report;
use std::alloc::{AllocError, Global};
use std::process::Abort;
use std::sync::Wait;
use std::test::Fail;
use std::thread::Threads;

// Limits that none of these programs reaches.
const LIMITS: Limits = Limits {
    fibers: 16,
    refs: 16,
    deferreds: 16,
    count: 1_099_511_627_775,
};

// Bounds that none of these explorations reaches.
const BOUNDS: Bounds = Bounds {
    worlds: 100_000,
    entries: 10_000,
    memory: usize::MAX,
};

// How each program here is run.
const RUNS: Runs<'static> = Runs {
    options: USUAL,
    workers: &[1, 2, 3, 4, 16],
    budgets: &[2, 3, 64],
    times: 40,
};

// A program with several reports.
struct Race<'a> {
    // The rule that it shows.
    rule: &'a str,
    text: &'a str,
    // Its reports.
    wanted: &'a [&'a str],
}

const UPDATES: &[Race<'static>] = &[
    Race {
        rule: "two fibers update a ref",
        text: "(ref r 0 (start f (modify r 1) (start g (modify r 2) (join f x (join g y (add x y) e (raise e) \
        (pure -1)) e (raise e) (pure -1)))))",
        wanted: &[
            "fiber 0 succeeded 1\nfiber 1 succeeded 0\nfiber 2 succeeded 1\n",
            "fiber 0 succeeded 2\nfiber 1 succeeded 2\nfiber 2 succeeded 0\n",
        ],
    },
    Race {
        rule: "a get and a set apart lose an update",
        text: "(ref r 0 (start f (let x (get r) (let y (add x 1) (set r y))) (start g (let x (get r) \
        (let y (add x 10) (set r y))) (seq (join f x (pure x) e (raise e) (pure -1)) \
        (join g x (pure x) e (raise e) (pure -1)) (get r)))))",
        wanted: &[
            "fiber 0 succeeded 11\nfiber 1 succeeded 0\nfiber 2 succeeded 0\n",
            "fiber 0 succeeded 10\nfiber 1 succeeded 0\nfiber 2 succeeded 0\n",
            "fiber 0 succeeded 1\nfiber 1 succeeded 0\nfiber 2 succeeded 0\n",
        ],
    },
    Race {
        rule: "one completion counts",
        text: "(deferred d (start f (complete d 1) (start g (complete d 2) (await d))))",
        wanted: &[
            "fiber 0 succeeded 1\nfiber 1 succeeded 1\nfiber 2 succeeded 0\n",
            "fiber 0 succeeded 2\nfiber 1 succeeded 0\nfiber 2 succeeded 1\n",
        ],
    },
    Race {
        rule: "numbers are given in the order of starts",
        text: "(start f (start h (say 1) (pure 0)) (start g (say 2) (pure 0)))",
        wanted: &[
            "fiber 0 succeeded 0\nfiber 1 succeeded 0\nfiber 2 succeeded 0: say 1\nfiber 3 succeeded 0: say 2\n",
            "fiber 0 succeeded 0\nfiber 1 succeeded 0\nfiber 2 succeeded 0: say 2\nfiber 3 succeeded 0: say 1\n",
        ],
    },
];

const REQUESTS: &[Race<'static>] = &[
    Race {
        rule: "a request is observed in the poll or outside the mask",
        text: "(start f (uncancelable p (seq (say 1) (poll p (say 2)) (say 3))) (cancel f))",
        wanted: &[
            "fiber 0 succeeded 0: enter 0, leave 0\nfiber 1 canceled: cut\n",
            "fiber 0 succeeded 0: enter 0, leave 0\nfiber 1 canceled: enter 0, say 1, in 0, cut\n",
            "fiber 0 succeeded 0: enter 0, leave 0\nfiber 1 canceled: enter 0, say 1, in 0, say 2, cut\n",
            "fiber 0 succeeded 0: enter 0, leave 0\n\
        fiber 1 canceled: enter 0, say 1, in 0, say 2, out 0, say 3, leave 0, cut\n",
            "fiber 0 succeeded 0: enter 0, leave 0\n\
        fiber 1 succeeded 0: enter 0, say 1, in 0, say 2, out 0, say 3, leave 0\n",
        ],
    },
    Race {
        rule: "a request is observed where each mask is undone",
        text: "(start f (uncancelable p (uncancelable q (seq (say 1) (poll q (say 2)) (poll q \
        (poll p (say 3))) (say 4)))) (cancel f))",
        wanted: &[
            "fiber 0 succeeded 0: enter 0, leave 0\nfiber 1 canceled: cut\n",
            "fiber 0 succeeded 0: enter 0, leave 0\n\
        fiber 1 canceled: enter 0, enter 1, say 1, in 1, say 2, out 1, in 1, in 0, cut\n",
            "fiber 0 succeeded 0: enter 0, leave 0\n\
        fiber 1 canceled: enter 0, enter 1, say 1, in 1, say 2, out 1, in 1, in 0, say 3, cut\n",
            "fiber 0 succeeded 0: enter 0, leave 0\n\
        fiber 1 canceled: enter 0, enter 1, say 1, in 1, say 2, out 1, in 1, in 0, say 3, out 0, out 1, say 4, leave \
        1, leave 0, cut\n",
            "fiber 0 succeeded 0: enter 0, leave 0\n\
        fiber 1 succeeded 0: enter 0, enter 1, say 1, in 1, say 2, out 1, in 1, in 0, say 3, out 0, out 1, say 4, \
        leave 1, leave 0\n",
        ],
    },
    Race {
        rule: "what is acquired is released",
        text: "(start f (bracket x (say 1) (say 2) (say 3)) (cancel f))",
        wanted: &[
            "fiber 0 succeeded 0: enter 0, leave 0\nfiber 1 canceled: cut\n",
            "fiber 0 succeeded 0: enter 0, leave 0\n\
        fiber 1 canceled: enter 0, say 1, acquired 0, enter 1, in 1, in 0, cut, releasing 0, say 3, released 0\n",
            "fiber 0 succeeded 0: enter 0, leave 0\n\
        fiber 1 canceled: enter 0, say 1, acquired 0, enter 1, in 1, in 0, say 2, cut, releasing 0, say 3, released \
        0\n",
            "fiber 0 succeeded 0: enter 0, leave 0\n\
        fiber 1 canceled: enter 0, say 1, acquired 0, enter 1, in 1, in 0, say 2, out 0, out 1, releasing 0, say 3, \
        released 0, leave 1, leave 0, cut\n",
            "fiber 0 succeeded 0: enter 0, leave 0\n\
        fiber 1 succeeded 0: enter 0, say 1, acquired 0, enter 1, in 1, in 0, say 2, out 0, out 1, releasing 0, say \
        3, released 0, leave 1, leave 0\n",
        ],
    },
    Race {
        rule: "a finalizer runs while it is registered",
        text: "(ref r 0 (start f (oncancel (say 1) (set r 5)) (seq (cancel f) (get r))))",
        wanted: &[
            "fiber 0 succeeded 0: enter 0, leave 0\nfiber 1 canceled: cut\n",
            "fiber 0 succeeded 5: enter 0, leave 0\nfiber 1 canceled: cut\n",
            "fiber 0 succeeded 5: enter 0, leave 0\nfiber 1 canceled: say 1, cut\n",
            "fiber 0 succeeded 0: enter 0, leave 0\nfiber 1 canceled: say 1, cut\n",
            "fiber 0 succeeded 0: enter 0, leave 0\nfiber 1 succeeded 0: say 1\n",
        ],
    },
    Race {
        rule: "a fiber that cedes is canceled",
        text: "(start f (seq (say 1) (cede) (say 2)) (start g (cede) (cancel f)))",
        wanted: &[
            "fiber 0 succeeded 0: enter 0, leave 0\nfiber 1 canceled: cut\nfiber 2 succeeded 0\n",
            "fiber 0 succeeded 0: enter 0, leave 0\nfiber 1 canceled: say 1, cut\nfiber 2 succeeded 0\n",
            "fiber 0 succeeded 0: enter 0, leave 0\nfiber 1 canceled: say 1, say 2, cut\nfiber 2 succeeded 0\n",
            "fiber 0 succeeded 0: enter 0, leave 0\nfiber 1 succeeded 0: say 1, say 2\nfiber 2 succeeded 0\n",
        ],
    },
];

const WAITS: &[Race<'static>] = &[
    Race {
        rule: "a wait ends by its deferred or by a request",
        text: "(deferred d (start f (await d) (start g (complete d 7) (cancel f))))",
        wanted: &[
            "fiber 0 succeeded 0: enter 0, leave 0\nfiber 1 canceled: cut\nfiber 2 succeeded 1\n",
            "fiber 0 succeeded 0: enter 0, leave 0\nfiber 1 succeeded 7\nfiber 2 succeeded 1\n",
        ],
    },
    Race {
        rule: "a canceled join leaves the joined fiber",
        text: "(start f (seq (cede) (pure 3)) (start g (join f x (pure x) e (pure -1) (pure -2)) (cancel g)))",
        wanted: &[
            "fiber 0 succeeded 0: enter 0, leave 0\nfiber 1 succeeded 3\nfiber 2 canceled: cut\n",
            "fiber 0 succeeded 0: enter 0, leave 0\nfiber 1 succeeded 3\nfiber 2 succeeded 3\n",
        ],
    },
    Race {
        rule: "a fiber that cancels is canceled",
        text: "(start f (say 1) (start g (cancel f) (cancel g)))",
        wanted: &[
            "fiber 0 succeeded 0: enter 0, leave 0\nfiber 1 succeeded 0: say 1\nfiber 2 canceled: cut\n",
            "fiber 0 succeeded 0: enter 0, leave 0\nfiber 1 canceled: cut\nfiber 2 canceled: enter 0, leave 0, cut\n",
            "fiber 0 succeeded 0: enter 0, leave 0\nfiber 1 canceled: cut\nfiber 2 succeeded 0: enter 0, leave 0\n",
            "fiber 0 succeeded 0: enter 0, leave 0\n\
        fiber 1 canceled: say 1, cut\n\
        fiber 2 canceled: enter 0, leave 0, cut\n",
            "fiber 0 succeeded 0: enter 0, leave 0\nfiber 1 canceled: say 1, cut\n\
             fiber 2 succeeded 0: enter 0, leave 0\n",
            "fiber 0 succeeded 0: enter 0, leave 0\nfiber 1 succeeded 0: say 1\n\
             fiber 2 canceled: enter 0, leave 0, cut\n",
            "fiber 0 succeeded 0: enter 0, leave 0\nfiber 1 succeeded 0: say 1\n\
             fiber 2 succeeded 0: enter 0, leave 0\n",
        ],
    },
];

const RACE: &[Race<'static>] = &[Race {
    rule: "either side wins a race",
    text: "(race (pure 4) (pure 5))",
    wanted: &[
        "fiber 0 succeeded 4: enter 0, in 0, out 0, enter 1, leave 1, leave 0\n\
        fiber 1 succeeded 4: enter 0, in 0, out 0, leave 0\n\
        fiber 2 canceled: cut\n",
        "fiber 0 succeeded 4: enter 0, in 0, out 0, enter 1, leave 1, leave 0\n\
        fiber 1 succeeded 4: enter 0, in 0, out 0, leave 0\n\
        fiber 2 canceled: enter 0, in 0, cut\n",
        "fiber 0 succeeded 4: enter 0, in 0, out 0, enter 1, leave 1, leave 0\n\
        fiber 1 succeeded 4: enter 0, in 0, out 0, leave 0\n\
        fiber 2 canceled: enter 0, in 0, out 0, leave 0, cut\n",
        "fiber 0 succeeded 4: enter 0, in 0, out 0, enter 1, leave 1, leave 0\n\
        fiber 1 succeeded 4: enter 0, in 0, out 0, leave 0\n\
        fiber 2 succeeded 5: enter 0, in 0, out 0, leave 0\n",
        "fiber 0 succeeded 5: enter 0, in 0, out 0, enter 1, leave 1, leave 0\n\
        fiber 1 canceled: cut\n\
        fiber 2 succeeded 5: enter 0, in 0, out 0, leave 0\n",
        "fiber 0 succeeded 5: enter 0, in 0, out 0, enter 1, leave 1, leave 0\n\
        fiber 1 canceled: enter 0, in 0, cut\n\
        fiber 2 succeeded 5: enter 0, in 0, out 0, leave 0\n",
        "fiber 0 succeeded 5: enter 0, in 0, out 0, enter 1, leave 1, leave 0\n\
        fiber 1 canceled: enter 0, in 0, out 0, leave 0, cut\n\
        fiber 2 succeeded 5: enter 0, in 0, out 0, leave 0\n",
        "fiber 0 succeeded 5: enter 0, in 0, out 0, enter 1, leave 1, leave 0\n\
        fiber 1 succeeded 4: enter 0, in 0, out 0, leave 0\n\
        fiber 2 succeeded 5: enter 0, in 0, out 0, leave 0\n",
    ],
}];

const BOTH: &[Race<'static>] = &[Race {
    rule: "either side fails first",
    text: "(both (raise 5) (raise 6) x y (pure 0))",
    wanted: &[
        "fiber 0 errored 5: enter 0, in 0, out 0, enter 1, leave 1, leave 0\n\
        fiber 1 errored 5: enter 0, in 0, out 0, leave 0\n\
        fiber 2 canceled: cut\n",
        "fiber 0 errored 5: enter 0, in 0, out 0, enter 1, leave 1, leave 0\n\
        fiber 1 errored 5: enter 0, in 0, out 0, leave 0\n\
        fiber 2 canceled: enter 0, in 0, cut\n",
        "fiber 0 errored 5: enter 0, in 0, out 0, enter 1, leave 1, leave 0\n\
        fiber 1 errored 5: enter 0, in 0, out 0, leave 0\n\
        fiber 2 canceled: enter 0, in 0, out 0, leave 0, cut\n",
        "fiber 0 errored 5: enter 0, in 0, out 0, enter 1, leave 1, leave 0\n\
        fiber 1 errored 5: enter 0, in 0, out 0, leave 0\n\
        fiber 2 errored 6: enter 0, in 0, out 0, leave 0\n",
        "fiber 0 errored 6: enter 0, in 0, out 0, enter 1, leave 1, leave 0\n\
        fiber 1 canceled: cut\n\
        fiber 2 errored 6: enter 0, in 0, out 0, leave 0\n",
        "fiber 0 errored 6: enter 0, in 0, out 0, enter 1, leave 1, leave 0\n\
        fiber 1 canceled: enter 0, in 0, cut\n\
        fiber 2 errored 6: enter 0, in 0, out 0, leave 0\n",
        "fiber 0 errored 6: enter 0, in 0, out 0, enter 1, leave 1, leave 0\n\
        fiber 1 canceled: enter 0, in 0, out 0, leave 0, cut\n\
        fiber 2 errored 6: enter 0, in 0, out 0, leave 0\n",
        "fiber 0 errored 6: enter 0, in 0, out 0, enter 1, leave 1, leave 0\n\
        fiber 1 errored 5: enter 0, in 0, out 0, leave 0\n\
        fiber 2 errored 6: enter 0, in 0, out 0, leave 0\n",
    ],
}];

const NEVER: &[Race<'static>] = &[Race {
    rule: "the side that never ends loses",
    text: "(race (never) (pure 5))",
    wanted: &[
        "fiber 0 succeeded 5: enter 0, in 0, out 0, enter 1, leave 1, leave 0\n\
        fiber 1 canceled: cut\n\
        fiber 2 succeeded 5: enter 0, in 0, out 0, leave 0\n",
        "fiber 0 succeeded 5: enter 0, in 0, out 0, enter 1, leave 1, leave 0\n\
        fiber 1 canceled: enter 0, in 0, cut\n\
        fiber 2 succeeded 5: enter 0, in 0, out 0, leave 0\n",
    ],
}];

// Marks the report as met, if it is one of the wanted ones.
fn note(report: &str, wanted: &[&str], met: &mut [bool]) -> bool {
    let mut found = false;
    for (want, seen) in wanted.iter().zip(met.iter_mut()) {
        if *want == report {
            found = true;
            *seen = true;
        }
    }
    found
}

// The text of the report of an answer, empty if it is a fault.
fn spelled(alloc: Global, answer: &Answer) -> Result<String, Fail> {
    match &answer.end {
        Ok(report) => Ok(text_of_report(alloc, report)?),
        Err(_) => Ok(String::new(alloc)),
    }
}

// Checks that an answer is one of the wanted reports, which is marked, and that the replay of its schedule has it.
fn expect_answer<R: Abort>(
    rt: &R,
    alloc: Global,
    program: &Program,
    answer: &Answer,
    wanted: &[&str],
    met: &mut [bool],
) -> Result<(), Fail> {
    let report = spelled(alloc, answer)?;
    assert!(rt; note(report.as_str(), wanted, met), "{report}");
    let replayed = replay_of(alloc, program, answer.schedule.as_slice())?;
    assert!(rt; replayed.as_str() == report.as_str(), "{replayed}");
    Ok(())
}

// An exploration finds exactly the wanted reports, each of them once.
fn expect_explored<R: Abort>(rt: &R, alloc: Global, race: &Race<'_>) -> Result<(), Fail> {
    let program = program(alloc, race.text)?;
    let Ok(found) = explore(alloc, &program, LIMITS, BOUNDS) else {
        return Err(Fail::from(AllocError));
    };
    let answers = found.answers.as_slice();
    assert!(rt; found.complete, "{}", race.rule);
    assert!(rt; answers.len() == race.wanted.len(), "{}", race.rule);
    let mut met = vec![in alloc; false; race.wanted.len()]?;
    for answer in answers {
        expect_answer(rt, alloc, &program, answer, race.wanted, met.as_mut_slice())?;
    }
    assert!(rt; !met.contains(&false), "{}: {met:?}", race.rule);
    Ok(())
}

// An exploration of these programs finds their reports, and each run has one of them.
fn expect_races<R: Abort + Threads + Wait + Sync>(
    rt: &R,
    alloc: Global,
    races: &[Race<'_>],
) -> Result<(), Fail> {
    for race in races {
        expect_explored(rt, alloc, race)?;
        expect_runs(rt, alloc, race.text, &RUNS, race.wanted)?;
    }
    Ok(())
}

#[test]
fn refs_deferreds_and_numbers_are_shared(rt: HostRuntime) -> Result<(), Fail> {
    expect_races(&rt, rt.alloc(), UPDATES)
}

#[test]
fn a_request_is_observed_where_the_fiber_is_unmasked(rt: HostRuntime) -> Result<(), Fail> {
    expect_races(&rt, rt.alloc(), REQUESTS)
}

#[test]
fn a_wait_ends_in_one_of_two_ways(rt: HostRuntime) -> Result<(), Fail> {
    expect_races(&rt, rt.alloc(), WAITS)
}

#[test]
fn either_side_wins_a_race(rt: HostRuntime) -> Result<(), Fail> {
    expect_races(&rt, rt.alloc(), RACE)
}

#[test]
fn either_side_fails_first(rt: HostRuntime) -> Result<(), Fail> {
    expect_races(&rt, rt.alloc(), BOTH)
}

#[test]
fn the_side_that_never_ends_loses(rt: HostRuntime) -> Result<(), Fail> {
    expect_races(&rt, rt.alloc(), NEVER)
}

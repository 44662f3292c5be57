//! Logs that are made up, and the schedules that follow from them.

use cell_registry::{Band, RunError};
use effect_term::{CancelReply, JoinReply, Outcome, Reply, Value};
use fiber_frames::Ask;
use fiber_poll::CallLog;
use run_recording::{Gathered, NoSchedule, WorkerLog};
use std::alloc::Global;
use std::process::Abort;
use std::sync::atomic::AtomicU64;
use std::test::Fail;

// A call and its reply.
#[derive(Clone, Copy)]
enum Made {
    Start,
    NewRef,
    NewDeferred,
    LooksAndSeesNone,
    LooksAndSeesIt,
    CancelsFirst(u16),
    CancelsAgain(u16),
    FindsTheEnd(u16),
    Ends,
    // Calls on ref 0, and on deferred 0.
    GetsMost,
    GetsZero,
    SetsMost,
    SetsZero,
    ReadsZero,
    Completes,
}

// What a log receives: a call of a fiber that had a number of moves left before it, and the clock before it; a turn of
// a fiber, the number of moves left after it, and whether it made a mark; a last move that waited, and whether a mask
// was active.
#[derive(Clone, Copy)]
enum Told {
    Call(u16, u32, Made, u64),
    Turn(u16, u32, bool),
    Wait(u16, u32, bool),
    Refused(u16, RunError),
}

// A log, and the schedule that is made of it.
struct MadeUp<'a> {
    // The rule that it shows.
    rule: &'a str,
    // The number of moves of fiber 0 at first.
    moves: u32,
    told: &'a [Told],
    fault: Option<RunError>,
    // The entries that one thread makes at the end.
    settled: &'a [u16],
    want: Result<&'a [u16], NoSchedule>,
}

const FULL: RunError = RunError::Full(Band::Refs, 1);

// Fiber 0 starts fiber 1 by its first move, so that fiber 1 has 9 moves.
const LOGS: &[MadeUp<'static>] = &[
    MadeUp {
        rule: "a request comes behind the last look without it, and waits fall away with their looks",
        moves: 10,
        told: &[
            Told::Call(0, 10, Made::Start, 0),
            Told::Call(1, 9, Made::LooksAndSeesNone, 0),
            Told::Wait(1, 7, false),
            Told::Call(1, 7, Made::LooksAndSeesNone, 0),
            Told::Wait(1, 5, false),
            Told::Call(0, 8, Made::CancelsFirst(1), 0),
            Told::Call(1, 5, Made::LooksAndSeesIt, 0),
            Told::Call(1, 3, Made::Ends, 0),
            Told::Turn(1, 2, false),
            Told::Call(0, 7, Made::FindsTheEnd(1), 0),
            Told::Call(0, 6, Made::Ends, 0),
            Told::Turn(0, 5, false),
        ],
        fault: None,
        settled: &[],
        want: Ok(&[0, 0, 0, 1, 1, 1, 0, 0]),
    },
    MadeUp {
        rule: "where its looks see nothing until late, the request waits for them",
        moves: 10,
        told: &[
            Told::Call(0, 10, Made::Start, 0),
            Told::Call(0, 9, Made::CancelsFirst(1), 0),
            Told::Call(1, 7, Made::LooksAndSeesNone, 0),
            Told::Call(1, 5, Made::Ends, 0),
            Told::Call(0, 8, Made::CancelsAgain(1), 0),
            Told::Call(0, 7, Made::Ends, 0),
            Told::Turn(0, 6, false),
            Told::Turn(1, 4, false),
        ],
        fault: None,
        settled: &[],
        want: Ok(&[0, 1, 1, 1, 1, 0, 0, 0, 1]),
    },
    MadeUp {
        rule: "what is behind the last call that others may see falls away",
        moves: 10,
        told: &[
            Told::Call(0, 10, Made::Start, 0),
            Told::Turn(0, 1, false),
            Told::Turn(1, 0, false),
        ],
        fault: None,
        settled: &[],
        want: Ok(&[0]),
    },
    MadeUp {
        rule: "and what is behind the last mark",
        moves: 10,
        told: &[
            Told::Call(0, 10, Made::Start, 0),
            Told::Turn(0, 1, false),
            Told::Turn(1, 7, true),
            Told::Turn(1, 0, false),
        ],
        fault: None,
        settled: &[],
        want: Ok(&[0, 1, 1]),
    },
    MadeUp {
        rule: "all moves of a fiber stay that one thread goes on with, and those entries come last",
        moves: 10,
        told: &[
            Told::Call(0, 10, Made::Start, 0),
            Told::Turn(0, 1, false),
            Told::Turn(1, 7, false),
        ],
        fault: None,
        settled: &[1, 1],
        want: Ok(&[0, 1, 1, 1, 1]),
    },
    MadeUp {
        rule: "a refused call is the last entry, behind all moves of its fiber",
        moves: 10,
        told: &[
            Told::Call(0, 10, Made::NewRef, 0),
            Told::Turn(0, 7, false),
            Told::Refused(0, FULL),
        ],
        fault: Some(FULL),
        settled: &[],
        want: Ok(&[0, 0, 0, 0]),
    },
    MadeUp {
        rule: "calls on a ref whose windows overlap are ordered by what they found",
        moves: 10,
        told: &[
            Told::Call(0, 10, Made::NewRef, 0),
            Told::Call(0, 9, Made::Start, 0),
            Told::Call(0, 8, Made::GetsMost, 0),
            Told::Call(1, 8, Made::SetsMost, 0),
            Told::Turn(0, 7, true),
            Told::Turn(1, 7, true),
        ],
        fault: None,
        settled: &[],
        want: Ok(&[0, 0, 1, 0]),
    },
    MadeUp {
        rule: "one that had ended doesn't come behind one that begins",
        moves: 10,
        told: &[
            Told::Call(0, 10, Made::NewRef, 0),
            Told::Call(0, 9, Made::Start, 0),
            Told::Call(0, 8, Made::GetsMost, 0),
            Told::Call(1, 8, Made::SetsMost, 1),
            Told::Turn(0, 7, true),
            Told::Turn(1, 7, true),
        ],
        fault: None,
        settled: &[],
        want: Err(NoSchedule::NotFound),
    },
    MadeUp {
        rule: "where the order that is tried first leads nowhere, the search goes back",
        moves: 10,
        told: &[
            Told::Call(0, 10, Made::NewRef, 0),
            Told::Call(0, 9, Made::Start, 0),
            Told::Call(0, 8, Made::SetsMost, 0),
            Told::Call(1, 8, Made::SetsZero, 0),
            Told::Call(0, 7, Made::GetsMost, 2),
            Told::Call(0, 6, Made::SetsZero, 3),
            Told::Call(0, 5, Made::GetsZero, 4),
            Told::Turn(0, 4, true),
            Told::Turn(1, 7, false),
        ],
        fault: None,
        settled: &[],
        want: Ok(&[0, 0, 1, 0, 0, 0, 0]),
    },
    MadeUp {
        rule: "a deferred is found full behind its completion",
        moves: 10,
        told: &[
            Told::Call(0, 10, Made::NewDeferred, 0),
            Told::Call(0, 9, Made::Start, 0),
            Told::Call(0, 8, Made::ReadsZero, 0),
            Told::Call(1, 8, Made::Completes, 0),
            Told::Turn(0, 7, true),
            Told::Turn(1, 7, false),
        ],
        fault: None,
        settled: &[],
        want: Ok(&[0, 0, 1, 0]),
    },
];

// What a call asks, and its reply.
fn asked(made: Made) -> (Ask, Reply) {
    match made {
        Made::Start => (Ask::Start, Reply::Number(1)),
        Made::NewRef => (Ask::NewRef, Reply::Number(0)),
        Made::NewDeferred => (Ask::NewDeferred, Reply::Number(0)),
        Made::LooksAndSeesNone => (Ask::Look, Reply::Seen(false)),
        Made::LooksAndSeesIt => (Ask::Look, Reply::Seen(true)),
        Made::CancelsFirst(fiber) => (Ask::Cancel(fiber), Reply::Cancel(CancelReply::Asked)),
        Made::CancelsAgain(fiber) => (Ask::Cancel(fiber), Reply::Cancel(CancelReply::Already)),
        Made::FindsTheEnd(fiber) => {
            (
                Ask::Join(fiber),
                Reply::Join(JoinReply::Ended(Outcome::Canceled)),
            )
        }
        Made::Ends => (Ask::Finish(Outcome::Canceled), Reply::Done),
        Made::GetsMost => (Ask::Get(0), Reply::Value(Value::MAX)),
        Made::GetsZero => (Ask::Get(0), Reply::Value(Value::ZERO)),
        Made::SetsMost => (Ask::Set(0, Value::MAX), Reply::Done),
        Made::SetsZero => (Ask::Set(0, Value::ZERO), Reply::Done),
        Made::ReadsZero => (Ask::Read(0), Reply::Read(Some(Value::ZERO))),
        Made::Completes => (Ask::Complete(0, Value::ZERO), Reply::Completed(true)),
    }
}

// Passes this to a log.
fn tell(log: &mut WorkerLog<'_>, told: Told) {
    match told {
        Told::Call(by, left, made, before) => {
            let (ask, reply) = asked(made);
            log.made(by, left, &ask, &reply, before);
        }
        Told::Turn(by, left, marked) => log.moved(by, left, marked),
        Told::Wait(by, left, masked) => log.waited(by, left, masked),
        Told::Refused(by, fault) => log.refused(by, fault),
    }
}

// The schedule that is made of a log.
fn put_together(alloc: Global, row: &MadeUp<'_>) -> Result<Vec<u16>, NoSchedule> {
    let clock = AtomicU64::new(0);
    let mut log = WorkerLog::new(alloc, &clock, 4);
    for told in row.told {
        tell(&mut log, *told);
    }
    let notes = log.into_notes();
    let mut gathered = Gathered::new(alloc, 4, row.moves)?;
    gathered.add(&notes, row.fault)?;
    gathered.schedule(row.settled)
}

// Whether the schedule is the wanted one.
fn is_wanted(found: &Result<Vec<u16>, NoSchedule>, want: Result<&[u16], NoSchedule>) -> bool {
    match found {
        Ok(entries) => match want {
            Ok(wanted) => entries.as_slice() == wanted,
            Err(_) => false,
        },
        Err(why) => match want {
            Ok(_) => false,
            Err(wanted) => *why == wanted,
        },
    }
}

fn expect_schedule<R: Abort>(rt: &R, alloc: Global, row: &MadeUp<'_>) {
    let found = put_together(alloc, row);
    let rule = row.rule;
    assert!(rt; is_wanted(&found, row.want), "{rule}: {found:?}");
}

#[test]
fn each_rule_is_kept(rt: HostRuntime) -> Result<(), Fail> {
    for row in LOGS {
        expect_schedule(&rt, rt.alloc(), row);
    }
    Ok(())
}

// Whether each schedule is as it should be, unless memory ran out.
fn are_right_or_lack_memory(alloc: Global) -> bool {
    LOGS.iter().all(|row| {
        let found = put_together(alloc, row);
        is_wanted(&found, row.want) || is_wanted(&found, Err(NoSchedule::NoMemory))
    })
}

#[test]
fn each_schedule_is_right_or_memory_ran_out(rt: HostRuntime) {
    assert!(rt; are_right_or_lack_memory(rt.alloc()));
}

//! The events of replays.

use crate::answers::limits;
use cell_registry::{Band, Call, RunError};
use effect_term::{CancelReply, Outcome, Reply, Value};
use fiber_events::{Deed, Event, Told, replay_events};
use fiber_frames::Mark;
use outcome_trace::{read_program, read_schedule};
use std::alloc::Global;
use std::test::Fail;

// The events of a program under a schedule, with this number of fibers, and how the replay ended.
fn told(alloc: Global, program: &str, schedule: &str, fibers: u16) -> Result<Told, Fail> {
    let Ok(program) = read_program(alloc, program.as_bytes()) else {
        return Err(Fail::new("no program"));
    };
    let entries = read_schedule(alloc, schedule)?;
    Ok(replay_events(alloc, &program, entries.as_slice(), limits(fibers))?)
}

// A move of fiber 0 that makes a call.
fn called(entry: usize, call: Call, reply: Reply, mark: Option<Mark>) -> Event {
    Event {
        entry,
        fiber: 0,
        deed: Deed::Called(call, reply),
        mark,
    }
}

// A move of fiber 0 that makes no call.
fn own(entry: usize, deed: Deed, mark: Option<Mark>) -> Event {
    Event {
        entry,
        fiber: 0,
        deed,
        mark,
    }
}

// The events are looks, a request, a cut and an end, with their replies.
#[test]
fn events_of_a_request_have_its_replies(rt: HostRuntime) -> Result<(), Fail> {
    let told = told(rt.alloc(), "(canceled)", "0*6", 16)?;
    let asked = Reply::Cancel(CancelReply::Asked);
    let wanted = [
        called(1, Call::Look, Reply::Seen(false), None),
        called(2, Call::Cancel(0), asked, None),
        called(3, Call::Look, Reply::Seen(true), None),
        called(4, Call::Cut, Reply::Done, Some(Mark::Cut)),
        called(5, Call::Finish(Outcome::Canceled), Reply::Done, None),
    ];
    assert!(rt; told.events.as_slice() == &wanted[..]);
    assert!(rt; told.made == 6);
    assert!(rt; told.end.is_ok());
    Ok(())
}

// The events are a look, a mask, moves that make no call, and a wait without end; an entry that moves no fiber has
// none.
#[test]
fn own_moves_have_events(rt: HostRuntime) -> Result<(), Fail> {
    let told = told(
        rt.alloc(),
        "(uncancelable p (seq (say 0) (never)))",
        "0 3 0*4",
        16,
    )?;
    let wanted = [
        called(1, Call::Look, Reply::Seen(false), None),
        called(3, Call::Mask, Reply::Done, Some(Mark::Enter(0))),
        own(4, Deed::Alone, Some(Mark::Say(Value::ZERO))),
        own(5, Deed::Alone, None),
        own(6, Deed::Rested, None),
    ];
    assert!(rt; told.events.as_slice() == &wanted[..]);
    assert!(rt; told.made == 6);
    assert!(rt; told.end.is_ok());
    Ok(())
}

// A refused entry has no event, and no entry after it has one.
#[test]
fn events_end_before_a_fault(rt: HostRuntime) -> Result<(), Fail> {
    let told = told(rt.alloc(), "(start f (pure 1) (pure 2))", "0*5", 1)?;
    let wanted = [called(1, Call::Look, Reply::Seen(false), None)];
    assert!(rt; told.events.as_slice() == &wanted[..]);
    assert!(rt; told.made == 1);
    let fault = told.end.err();
    assert!(rt; fault == Some(RunError::Full(Band::Fibers, 1)));
    Ok(())
}

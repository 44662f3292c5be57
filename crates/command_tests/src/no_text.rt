//! Bytes that are no text, or no schedule.

use crate::answers::answered;
use command_line::refuse_words;
use outcome_trace::ToWrite;
use std::process::Abort;
use std::rt::Files;
use std::sync::Wait;
use std::thread::Threads;
use std::time::Clock;

// A replay whose schedule is the first line of the input.
const FROM_INPUT: &[&str] = &["fiber_cli", "replay", "--schedule", "-"];

// Inputs whose first line is no schedule, and the text on standard error. A carriage return is no part of a schedule.
const INPUTS: &[(&[u8], &str)] = &[
    (
        b"0 \xff\n(pure 7)",
        "error: invalid UTF-8 was detected in the schedule, the first line of the input\
        \n\nUsage: fiber_cli <COMMAND>\
        \n\nFor more information, try '--help'.\
        \n",
    ),
    (b"0 1*3\r\n(pure 7)", "fault 27 BadSchedule 2\n"),
];

// Replays an input, and checks that it is refused with this text.
fn expect_refusal<R: Abort + AllocGlobal + Clock + Files + Threads + Wait + Sync>(
    rt: &R,
    input: &[u8],
    err: &str,
) {
    let answer = answered(rt, FROM_INPUT, input);
    assert_eq!(rt;
        (answer.status, answer.out.len(), answer.err.as_slice()),
        (64, 0, err.as_bytes())
    );
}

#[test]
fn a_first_line_that_is_no_schedule_is_a_usage_fault(rt: HostRuntime) {
    for (input, err) in INPUTS {
        expect_refusal(&rt, *input, err);
    }
}

#[test]
fn refuses_words_that_are_no_text(rt: HostRuntime) {
    let mut told = Vec::new(rt.alloc());
    let status = refuse_words(
        rt.alloc(),
        "invalid UTF-8 was detected in one or more arguments",
        &mut ToWrite::new(&mut told),
    );
    let text = "error: invalid UTF-8 was detected in one or more arguments\
        \n\nUsage: fiber_cli <COMMAND>\
        \n\nFor more information, try '--help'.\
        \n";
    assert_eq!(rt; (status.code(), told.as_slice()), (64, text.as_bytes()));
}

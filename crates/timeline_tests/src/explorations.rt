//! The timelines of explorations.

use crate::answers::{exploration, explored_with_timelines, with_timeline};
use outcome_trace::TextOrder;
use std::alloc::Global;
use std::str;
use std::test::Fail;

// Programs with more than one report, and without a fault.
const BRANCHING: &[&str] = &[
    "(ref r 0 (start f (set r 1) (get r)))",
    "(start f (say 1) (cancel f))",
];

// The text of an exploration in which each answer is replaced by that of a replay, with its timeline, under the
// answer's schedule.
fn replayed(alloc: Global, program: &str, explored: &str) -> Result<Vec<u8>, Fail> {
    let mut text = Vec::new(alloc);
    for (place, part) in explored.split("\nunder \"").enumerate() {
        if place == 0 {
            text.extend_from_slice(part.as_bytes())?;
        } else if let Some((schedule, _)) = part.split_once('"') {
            let answer = with_timeline(alloc, program, schedule, 16)?;
            text.extend_from_slice(b"\nunder \"")?;
            text.extend_from_slice(schedule.as_bytes())?;
            text.extend_from_slice(b"\"\n")?;
            text.extend_from_slice(answer.text.as_slice())?;
        }
    }
    Ok(text)
}

// Whether a program has more than one report, and each comes with the timeline of its schedule.
fn has_each_timeline(alloc: Global, program: &str) -> Result<bool, Fail> {
    let explored = exploration(alloc, 16, &[])?.answer(alloc, program.as_bytes())?;
    let told = explored_with_timelines(alloc, program, 16, &[])?;
    let Ok(text) = str::from_utf8(explored.text.as_slice()) else {
        return Ok(false);
    };
    let wanted = replayed(alloc, program, text)?;
    let several = text.matches("\nunder ").count() > 1;
    Ok(several && told.text.as_slice() == wanted.as_slice() && told.status == explored.status)
}

#[test]
fn each_answer_has_the_timeline_of_its_schedule(rt: HostRuntime) -> Result<(), Fail> {
    for program in BRANCHING {
        assert!(rt; has_each_timeline(rt.alloc(), program)?, "{program}");
    }
    Ok(())
}

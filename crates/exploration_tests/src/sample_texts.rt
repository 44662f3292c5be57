//! Whole texts of samples of programs that have only one schedule. `golden/samples_of_one_schedule.fiber` has the
//! samples that a command can ask for.

use crate::sample_answers::order;
use outcome_trace::{FromRead, Status, TextOrder, ToWrite, answer_text};
use std::alloc::{AllocError, Global};

// A sample, and its answer.
struct Sampled<'a> {
    // The rule that the sample shows.
    rule: &'a str,
    program: &'a str,
    fibers: u16,
    times: u32,
    entries: u32,
    status: Status,
    text: &'a str,
}

// Only fiber 0 moves in each program, so all of its schedules are the same.
const SAMPLED: &[Sampled<'static>] = &[
    Sampled {
        rule: "one entry more than there may be",
        program: "(pure 1)",
        fibers: 16,
        times: 2,
        entries: 1,
        status: Status::Succeeded,
        text: "sampled 2 schedules: 1 report, 0 faults\n\n\
            came 2 times, cut short, first under \"0\"\nfiber 0 unended\n",
    },
    Sampled {
        rule: "no entry at all",
        program: "(pure 1)",
        fibers: 16,
        times: 1,
        entries: 0,
        status: Status::Succeeded,
        text: "sampled 1 schedule: 1 report, 0 faults\n\n\
            came 1 time, cut short, first under \"\"\nfiber 0 unended\n",
    },
    Sampled {
        rule: "no entry at all, where nothing moves: nothing is cut short",
        program: "(never)",
        fibers: 16,
        times: 1,
        entries: 0,
        status: Status::Succeeded,
        text: "sampled 1 schedule: 1 report, 0 faults\n\ncame 1 time, first under \"\"\nfiber 0 unended\n",
    },
    Sampled {
        rule: "no schedule is drawn",
        program: "(pure 1)",
        fibers: 16,
        times: 0,
        entries: 100,
        status: Status::Succeeded,
        text: "sampled 0 schedules: 0 reports, 0 faults\n",
    },
    Sampled {
        rule: "a start where there may be one fiber: the call that is refused is in the schedule",
        program: "(start f (pure 1) (pure 2))",
        fibers: 1,
        times: 4,
        entries: 100,
        status: Status::Errored,
        text: "sampled 4 schedules: 0 reports, 1 fault\n\ncame 4 times, first under \"0*2\"\nfault 18 Full fibers 1\n",
    },
    Sampled {
        rule: "a text that is refused",
        program: "(pure 01)",
        fibers: 16,
        times: 4,
        entries: 100,
        status: Status::Refused,
        text: "refused 8 BadNumber at 6\n",
    },
];

// Whether the expected text is written, with the expected status.
fn is_written(alloc: Global, it: &Sampled<'_>) -> bool {
    let mut out = Vec::new(alloc);
    let answered = answer_text(
        alloc,
        &order(alloc, it.fibers, 1, it.times, it.entries),
        &mut FromRead::new(it.program.as_bytes()),
        &mut ToWrite::new(&mut out),
    );
    answered == Ok(it.status) && out.as_slice() == it.text.as_bytes()
}

#[test]
fn samples_have_the_expected_text(rt: HostRuntime) {
    for it in SAMPLED {
        assert!(rt; is_written(rt.alloc(), it), "{}", it.rule);
    }
}

// Whether the answer is the expected one, or memory ran out.
fn is_answered_if_at_all(alloc: Global, it: &Sampled<'_>) -> bool {
    match order(alloc, it.fibers, 1, it.times, it.entries).answer(alloc, it.program.as_bytes()) {
        Ok(answer) => answer.text.as_slice() == it.text.as_bytes() && answer.status == it.status,
        Err(AllocError) => true,
    }
}

// Holds with every request for memory refused in turn.
#[test]
fn a_text_is_sampled_or_memory_ran_out(rt: HostRuntime) {
    for it in SAMPLED {
        assert!(rt; is_answered_if_at_all(rt.alloc(), it), "{}", it.rule);
    }
}

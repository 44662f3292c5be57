//! What samples of small programs find, compared with explorations and replays.

use crate::sample_answers::{explored, replayed, sampled};
use std::alloc::Global;
use std::str;
use std::test::Fail;

// Programs that are explored completely. A sample of each finds all of its answers, also those of rare interleavings.
const PROGRAMS: &[(&str, &str)] = &[
    (
        "a release that is lost where the request comes between acquisition and guarantee",
        "(ref open 0 (start worker (let connection (modify open 1) (guarantee (never) (modify open -1))) \
            (seq (cancel worker) (get open))))",
    ),
    (
        "a race of two fibers that note",
        "(race (seq (say 1) (pure 1)) (seq (say 2) (pure 2)))",
    ),
    (
        "two fibers that each wait for the other",
        "(deferred d (deferred e (start f (seq (await d) (complete e 1)) (seq (await e) (complete d 1)))))",
    ),
    (
        "two fibers that change a ref",
        "(ref r 1 (start f (modify r 1) (let a (modify r 2) (join f x (pure a) y (raise y) (never)))))",
    ),
    (
        "two locks that are taken in opposite orders, with try and wait",
        "(deferred a (deferred b (start f (seq (complete a 1) (await b)) \
            (start g (seq (complete b 1) (await a)) (seq (complete a 2) (join f x (pure x) y (raise y) (never)))))))",
    ),
    (
        "a bracket that is canceled",
        "(start f (bracket x (say 1) (never) (say 2)) (seq (cancel f) (pure 0)))",
    ),
];

// The schedule of an answer, and the text behind the schedule.
fn parts<'a>(answer: &'a str, heading: &str) -> Option<(&'a str, &'a str)> {
    let (_, rest) = answer.split_once(heading)?;
    rest.split_once("\"\n")
}

// Whether a replay of the answer's schedule gives its report, and the exploration `all` lists the report.
fn is_found(alloc: Global, program: &str, answer: &str, all: &str) -> Result<bool, Fail> {
    let Some((schedule, report)) = parts(answer, "first under \"") else {
        return Ok(false);
    };
    let replay = replayed(alloc, program, schedule)?;
    let mut listed = false;
    for other in all.split("\n\n") {
        if let Some((_, told)) = parts(other, "under \"") {
            listed = listed || told.trim_end() == report.trim_end();
        }
    }
    Ok(listed && replay.text.as_slice().strip_suffix(b"\n") == Some(report.trim_end().as_bytes()))
}

// The number of answers of a sample. `None` if the exploration `all` doesn't list each of them.
fn found(alloc: Global, program: &str, text: &str, all: &str) -> Result<Option<usize>, Fail> {
    let mut told = 0usize;
    for answer in text.split("\n\n").skip(1) {
        if !is_found(alloc, program, answer, all)? {
            return Ok(None);
        }
        told = told.saturating_add(1);
    }
    Ok(Some(told))
}

// Whether a sample finds the answers of the exploration, and no others.
fn is_all_found(alloc: Global, program: &str) -> Result<bool, Fail> {
    let sample = sampled(alloc, program, 7, 2000)?;
    let all = explored(alloc, program)?;
    let Ok(text) = str::from_utf8(sample.text.as_slice()) else {
        return Ok(false);
    };
    let Ok(all) = str::from_utf8(all.text.as_slice()) else {
        return Ok(false);
    };
    let told = found(alloc, program, text, all)?;
    Ok(all.starts_with("explored ") && told == Some(all.split("\n\n").skip(1).count()))
}

#[test]
fn samples_find_what_explorations_list(rt: HostRuntime) -> Result<(), Fail> {
    for (rule, program) in PROGRAMS {
        assert!(rt; is_all_found(rt.alloc(), *program)?, "{rule}");
    }
    Ok(())
}

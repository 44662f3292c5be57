//! Searches from places of the graph, and what each of them finds.

use crate::places::{Places, start};
use std::alloc::{AllocError, Global};
use std::test::Fail;
use world_search::{Answer, Bounds, Found, Landing, Unwatched, search};

// A search, and what it finds.
struct Row {
    // The first place.
    first: u8,
    // The most places that are kept, and the most entries of a schedule.
    most: usize,
    entries: usize,
    complete: bool,
    // The number of places that are kept.
    kept: usize,
    // The schedules, and the place or fault to which each leads.
    answers: &'static [(&'static [u16], u8)],
}

// Each row is worked out by hand. Places are met in the order of the entries, fiber 0 first.
const ROWS: [Row; 17] = [
    // a line
    Row {
        first: 0,
        most: 10,
        entries: 10,
        complete: true,
        kept: 3,
        answers: &[(&[0, 0], 2)],
    },
    // exactly as many places and entries as the bounds allow
    Row {
        first: 0,
        most: 3,
        entries: 3,
        complete: true,
        kept: 3,
        answers: &[(&[0, 0], 2)],
    },
    // one place less
    Row {
        first: 0,
        most: 2,
        entries: 3,
        complete: false,
        kept: 2,
        answers: &[],
    },
    // one entry less: where entries lead from the last place isn't known
    Row {
        first: 0,
        most: 3,
        entries: 2,
        complete: false,
        kept: 3,
        answers: &[],
    },
    // no entry
    Row {
        first: 0,
        most: 3,
        entries: 0,
        complete: false,
        kept: 1,
        answers: &[],
    },
    // no place: the first one is kept in any case
    Row {
        first: 0,
        most: 0,
        entries: 3,
        complete: false,
        kept: 1,
        answers: &[],
    },
    // two ways to one place
    Row {
        first: 3,
        most: 10,
        entries: 10,
        complete: true,
        kept: 4,
        answers: &[(&[0, 1], 6)],
    },
    // a cycle of two places with one report
    Row {
        first: 7,
        most: 10,
        entries: 10,
        complete: true,
        kept: 2,
        answers: &[(&[], 7)],
    },
    // a cycle of two places with different reports: the search is complete, and has no answer
    Row {
        first: 9,
        most: 10,
        entries: 10,
        complete: true,
        kept: 2,
        answers: &[],
    },
    // two faults
    Row {
        first: 11,
        most: 10,
        entries: 10,
        complete: true,
        kept: 3,
        answers: &[(&[0, 1], 13), (&[1], 100), (&[0, 0], 101)],
    },
    // a short way and a long one
    Row {
        first: 14,
        most: 5,
        entries: 10,
        complete: true,
        kept: 5,
        answers: &[(&[0], 15), (&[1, 0, 0], 18)],
    },
    // the end of the long way isn't kept
    Row {
        first: 14,
        most: 4,
        entries: 10,
        complete: false,
        kept: 4,
        answers: &[(&[0], 15)],
    },
    // two places of the long way aren't kept
    Row {
        first: 14,
        most: 3,
        entries: 10,
        complete: false,
        kept: 3,
        answers: &[(&[0], 15)],
    },
    // the long way has too many entries
    Row {
        first: 14,
        most: 10,
        entries: 2,
        complete: false,
        kept: 4,
        answers: &[(&[0], 15)],
    },
    // the short way has too many entries
    Row {
        first: 14,
        most: 10,
        entries: 1,
        complete: false,
        kept: 3,
        answers: &[],
    },
    // two places of one report
    Row {
        first: 19,
        most: 10,
        entries: 10,
        complete: true,
        kept: 3,
        answers: &[(&[0], 20)],
    },
    // one fault by two ways
    Row {
        first: 22,
        most: 10,
        entries: 10,
        complete: true,
        kept: 2,
        answers: &[(&[0], 100)],
    },
];

// The place or fault of an end.
fn end_of(places: &Places, end: Landing) -> Option<u8> {
    match end {
        Landing::World(number) => places.places.get(number).copied(),
        Landing::Fault(number) => places.faults.get(number).copied(),
    }
}

// Whether an answer is the expected one.
fn is_answer(places: &Places, answer: &Answer, wanted: &(&'static [u16], u8)) -> bool {
    answer.schedule.as_slice() == wanted.0 && end_of(places, answer.end) == Some(wanted.1)
}

// Whether the answers are the expected ones, in this order.
fn are_answers(places: &Places, answers: &[Answer], wanted: &[(&'static [u16], u8)]) -> bool {
    if answers.len() != wanted.len() {
        return false;
    }
    for (answer, one) in answers.iter().zip(wanted) {
        if !is_answer(places, answer, one) {
            return false;
        }
    }
    true
}

// Whether the search finds what the row says.
fn finds(alloc: Global, row: &Row) -> Result<bool, AllocError> {
    let mut places = start(alloc, row.first)?;
    let bounds = Bounds {
        worlds: row.most,
        entries: row.entries,
        memory: usize::MAX,
    };
    let found: Found = search(alloc, &mut places, bounds, &mut Unwatched)?;
    Ok(
        found.complete == row.complete
            && found.worlds == row.kept
            && are_answers(&places, found.answers.as_slice(), row.answers),
    )
}

#[test]
fn rows(rt: HostRuntime) -> Result<(), Fail> {
    for (index, row) in ROWS.iter().enumerate() {
        assert!(rt; finds(rt.alloc(), row)?, "row {index}");
    }
    Ok(())
}

// A bound on bytes, and what a search from place 0 has found within it: whether it is complete, the number of places,
// and the number of bytes. A place takes 14 bytes, one of them in its store, and each of the two entries that lead to a
// new place takes 8. That is 14 before the entries of the first place are made, 2 * 14 + 8 after them, and
// 3 * 14 + 2 * 8 after those of the second place.
const BYTES: [(usize, bool, usize, usize); 7] = [
    (0, false, 1, 14),
    (14, false, 1, 14),
    (15, false, 2, 36),
    (36, false, 2, 36),
    (37, false, 3, 58),
    (58, false, 3, 58),
    (59, true, 3, 58),
];

#[test]
fn a_search_stops_at_its_bound_on_bytes(rt: HostRuntime) -> Result<(), Fail> {
    for (memory, complete, worlds, bytes) in BYTES {
        let mut places = start(rt.alloc(), 0)?;
        let bounds = Bounds {
            worlds: 10,
            entries: 10,
            memory,
        };
        let found = search(rt.alloc(), &mut places, bounds, &mut Unwatched)?;
        assert_eq!(rt;
            (found.complete, found.worlds, found.bytes),
            (complete, worlds, bytes)
        );
    }
    Ok(())
}

//! A store of the places of a small graph.

ghost use Rattle.std.specs.Prelude.{◌≡◌, ◌≢◌, ℕ, ◌+◌, ◌*◌, ◌<◌, ◌≤◌, List, length, max, slice_index_or, Ok as GoesWell};
ghost use Rattle.std.specs.Prelude.{Err as Fails};
ghost use Rattle.std.specs.Prelude.{IfOk, OnOk, IfSome, Some, true, false};
ghost use Rattle.std.specs.List.{slice_get};
ghost use Rattle.world_search.specs.Landings.{EntersAt, IsNext};
ghost use Rattle.world_search.specs.Lists.{IsMore};

use std::alloc::{AllocError, Global};
use world_search::{Entered, Landing, Worlds};

// For each place, where an entry of fiber 0 and one of fiber 1 lead: to a place or, from 100 on, to a fault.
const MOVES: [u8; 48] = [
    // 0 to 2: a line
    1, 0, //
    2, 1, //
    2, 2, //
    // 3 to 6: two ways to one place
    4, 5, //
    4, 6, //
    6, 5, //
    6, 6, //
    // 7, 8: a cycle of one report
    8, 7, //
    7, 8, //
    // 9, 10: a cycle of two reports
    10, 9, //
    9, 10, //
    // 11 to 13: two faults
    12, 100, //
    101, 13, //
    13, 13, //
    // 14 to 18: a short way and a long one
    15, 16, //
    15, 15, //
    17, 16, //
    18, 17, //
    18, 18, //
    // 19 to 21: two places of one report
    20, 21, //
    20, 20, //
    21, 21, //
    // 22, 23: one fault by two ways
    100, 23, //
    100, 23, //
];

const REPORTS: [u8; 24] = [
    1, 2, 3, // the line
    0, 1, 2, 3, // two ways to one place
    7, 7, // one report
    7, 8, // two reports
    0, 0, 0, // two faults
    0, 1, 2, 3, 4, // a short way and a long one
    0, 5, 5, // two places of one report
    0, 0, // one fault
];

/// The places that were met, and the faults.
#[derive(Drop)]
pub(crate) struct Places {
    pub(crate) places: Vec<u8>,
    pub(crate) faults: Vec<u8>,
}

/// A store with this place alone.
pub(crate) fn start(alloc: Global, place: u8) -> Result<Places, AllocError>
    ensures { IfOk result (λ it. length it.places.items ≡ 1) }
{
    let mut places = Vec::new(alloc);
    places.push(place)?;
    Ok(Places {
        places,
        faults: Vec::new(alloc),
    })
}

// The number at this index of a table, 0 past its end.
fn read(table: &[u8], index: usize) -> u8
    ensures { result ≡ slice_index_or table.now index 0 }
{
    match table.get(index) {
        Some(number) => *number,
        None => 0,
    }
}

// The first index of a number among others.
fn find(all: &[u8], one: u8) -> Option<usize>
    ensures { IfSome result (λ i. slice_get all.now i ≡ Some one) }
{
    for (i, it) in all.iter().enumerate() {
        if *it == one {
            return Some(i);
        }
    }
    None
}

// Returns the index of a place among those kept. A new place is added first; `Full` if `most` are kept already.
fn keep(places: &mut Vec<u8>, place: u8, most: usize) -> Result<Entered, AllocError>
    ensures more { OnOk result (IsMore places.old.items places.new.items) }
    ensures lands { IfOk result (λ it. (faults : List ℕ) → EntersAt places.new.items faults it (GoesWell place)) }
    ensures room { OnOk result (length places.new.items ≤ max most (length places.old.items)) }
    ensures next { IfOk result (IsNext (length places.old.items) (length places.new.items) most) }
{
    if let Some(number) = find(places.as_slice(), place) {
        return Ok(Entered::At(Landing::World(number)));
    }
    let number = places.len();
    if number >= most {
        return Ok(Entered::Full);
    }
    places.push(place)?;
    Ok(Entered::At(Landing::World(number)))
}

// Returns the index of a fault among those kept. A new fault is added first.
fn note(faults: &mut Vec<u8>, fault: u8) -> Result<Entered, AllocError>
    ensures more { OnOk result (IsMore faults.old.items faults.new.items) }
    ensures lands { IfOk result (λ it. (places : List ℕ) → EntersAt places faults.new.items it (Fails fault)) }
    ensures next { IfOk result (λ it. (before : ℕ) (most : ℕ) → IsNext before before most it) }
{
    if let Some(number) = find(faults.as_slice(), fault) {
        return Ok(Entered::At(Landing::Fault(number)));
    }
    let number = faults.len();
    faults.push(fault)?;
    Ok(Entered::At(Landing::Fault(number)))
}

impl Worlds for Places {
    ghost use Rattle.std.specs.Prelude.{slice_index_or};
    ghost use Rattle.exploration_tests.specs.Moves.{moved};
    ghost use Rattle.exploration_tests.specs.declared.places.TheConstants.{MOVES, REPORTS};

    type World = u8;

    type Fault = u8;

    type Report = u8;

    ghost worlds = { λ it. it.places.items };

    ghost faults = { λ it. it.faults.items };

    ghost step = { moved MOVES };

    ghost report = { λ place. slice_index_or REPORTS place 0 };

    ghost report_digest = { λ report. report };

    ghost most_born = { 2 };

    ghost bytes = { λ it. length it.places.items + length it.faults.items };

    fn born(&self, world: usize) -> u16 {
        let _ = self.places[world];
        2
    }

    fn enter(&mut self, world: usize, fiber: u16, most: usize) -> Result<Entered, AllocError> {
        if fiber >= 2 {
            return Ok(Entered::At(Landing::World(world)));
        }
        let code = read(&MOVES, 2 * self.places[world] as usize + fiber as usize);
        if code < 100 {
            keep(&mut self.places, code, most)
        } else {
            note(&mut self.faults, code)
        }
    }

    fn same_report(&self, one: usize, other: usize) -> bool {
        read(&REPORTS, self.places[one] as usize) == read(&REPORTS, self.places[other] as usize)
    }

    fn report_digest(&self, world: usize) -> u64 {
        u64::from(read(&REPORTS, self.places[world] as usize))
    }

    fn len(&self) -> usize {
        self.places.len()
    }

    fn bytes(&self) -> usize {
        self.places.len() + self.faults.len()
    }
}

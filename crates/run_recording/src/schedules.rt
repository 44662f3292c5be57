//! From the notes of all workers to a schedule.

use crate::merging::Merge;
use crate::notes::{CallKind, Notes, RefCall, Seen, UNSEEN, Whole};
use crate::own_moves::{NeededCall, Own, Placed, own_moves};
use crate::ref_order::ref_order;
use cell_registry::RunError;
use std::alloc::{AllocError, AllocFailed, Global};

/// Why a recorded run has no schedule.
#[derive(Clone, Copy, PartialEq, Eq, Debug)]
pub enum NoSchedule {
    /// The schedule has more than 1,000,000 entries, or a worker noted more than 1,000,000 calls.
    TooLong,
    /// No schedule was found whose replay has the run's end, or the run ended with a fault of its workers or its
    /// memory, which no schedule has.
    NotFound,
    /// There wasn't memory for the notes, the schedule or its replay.
    NoMemory,
}

impl From<AllocError> for NoSchedule {
    fn from(_: AllocError) -> NoSchedule {
        NoSchedule::NoMemory
    }
}

impl<T: Drop> From<AllocFailed<T>> for NoSchedule {
    fn from(_: AllocFailed<T>) -> NoSchedule {
        NoSchedule::NoMemory
    }
}

/// The notes of all workers of a run.
#[derive(Drop)]
pub struct Gathered {
    alloc: Global,
    calls: Vec<Placed>,
    refs: Vec<RefCall>,
    // For each fiber, by its number: how many moves it had at first, what was seen of it, and whether all of its moves
    // are needed.
    firsts: Vec<u32>,
    seen: Vec<Seen>,
    all: Vec<bool>,
    refused: Option<(u16, RunError)>,
}

impl Gathered {
    /// Without notes, for a run with at most `fibers` fibers, whose fiber 0 had `moves` moves.
    pub fn new(alloc: Global, fibers: u16, moves: u32) -> Result<Gathered, AllocError> {
        let mut gathered = Gathered {
            alloc,
            calls: Vec::new(alloc),
            refs: Vec::new(alloc),
            firsts: Vec::new(alloc),
            seen: Vec::new(alloc),
            all: Vec::new(alloc),
            refused: None,
        };
        let many = usize::from(fibers);
        gathered.firsts.resize(many, moves)?;
        gathered.seen.resize(many, UNSEEN)?;
        gathered.all.resize(many, false)?;
        Ok(gathered)
    }

    /// Adds the notes of one worker. Returns `TooLong` or `NoMemory` if those notes aren't complete, and `NoMemory` if
    /// there is no room for them.
    ///
    /// If a call was refused with this fault, it is the last entry of the schedule.
    pub fn add(&mut self, notes: &Notes, fault: Option<RunError>) -> Result<(), NoSchedule> {
        match notes.whole {
            Whole::Yes => {}
            Whole::TooLong => return Err(NoSchedule::TooLong),
            Whole::NoMemory => return Err(NoSchedule::NoMemory),
        }
        for (fiber, seen) in notes.fibers.iter().enumerate() {
            if let Some(slot) = self.seen.get_mut(fiber) {
                slot.look = slot.look.min(seen.look);
                slot.made = slot.made.min(seen.made);
                slot.marked = slot.marked.min(seen.marked);
            }
        }
        if let Some((fiber, met)) = notes.refused {
            if Some(met) == fault {
                self.refused = Some((fiber, met));
            }
        }
        self.add_calls(notes)
    }

    // Adds the calls of one worker.
    fn add_calls(&mut self, notes: &Notes) -> Result<(), NoSchedule> {
        let mut on_refs = notes.refs.iter();
        for call in notes.calls.iter() {
            let place = self.refs.len();
            if call.kind.is_on_ref() {
                if let Some(on_ref) = on_refs.next() {
                    self.refs.push(*on_ref)?;
                }
            }
            if call.kind == CallKind::Start {
                if let Some(first) = self.firsts.get_mut(usize::from(call.named)) {
                    *first = call.left.saturating_sub(1);
                }
            }
            self.calls.push(Placed {
                fiber: call.fiber,
                named: call.named,
                kind: call.kind,
                left: call.left,
                place: narrow(place),
            })?;
        }
        Ok(())
    }

    /// A schedule in which each call has the reply that it had, followed by the entries `settled`, which one thread
    /// made once the workers had ended.
    pub fn schedule(self, settled: &[u16]) -> Result<Vec<u16>, NoSchedule> {
        let mut gathered = self;
        for fiber in settled {
            gathered.need_all(*fiber);
        }
        let refused = gathered.refused;
        if let Some((fiber, _)) = refused {
            gathered.need_all(fiber);
        }
        let mut needed = Vec::new(gathered.alloc);
        let owns = gathered.owns(&mut needed)?;
        let ranks = ranks(gathered.alloc, needed.as_slice(), gathered.refs.as_slice())?;
        let mut merge = Merge::new(
            gathered.alloc,
            owns.as_slice(),
            needed.as_slice(),
            ranks.as_slice(),
        )?;
        merge.sweep()?;
        if let Some((fiber, _)) = refused {
            merge.enter(fiber, 1)?;
        }
        for fiber in settled {
            merge.enter(*fiber, 1)?;
        }
        let Merge { entries, .. } = merge;
        Ok(entries)
    }

    // Marks all moves of a fiber as needed.
    fn need_all(&mut self, fiber: u16) {
        if let Some(all) = self.all.get_mut(usize::from(fiber)) {
            *all = true;
        }
    }

    // The needed moves of each fiber.
    fn owns(&mut self, needed: &mut Vec<NeededCall>) -> Result<Vec<Own>, AllocError> {
        self.calls
            .sort_unstable_by_key(|call| (call.fiber, u32::MAX - call.left));
        let mut owns = Vec::new(self.alloc);
        let mut rest = self.calls.as_slice();
        for (number, seen) in self.seen.iter().enumerate() {
            let many = rest
                .iter()
                .take_while(|call| usize::from(call.fiber) == number)
                .count();
            let (calls, behind) = split(rest, many);
            rest = behind;
            let first = self.firsts.get(number).copied().unwrap_or(0);
            let all = self.all.get(number).copied().unwrap_or(false);
            owns.push(own_moves(calls, first, *seen, all, needed)?)?;
        }
        Ok(owns)
    }
}

// The first `many`, or all, and the rest.
fn split<T>(all: &[T], many: usize) -> (&[T], &[T]) {
    if many > all.len() {
        return (all, &[]);
    }
    all.split_at(many)
}

// A place in 32 bits.
fn narrow(place: usize) -> u32 {
    match u32::try_from(place) {
        Ok(place) => place,
        Err(_) => u32::MAX,
    }
}

// For each call on a ref, the number of earlier calls on the same ref.
fn ranks(alloc: Global, needed: &[NeededCall], refs: &[RefCall]) -> Result<Vec<u32>, NoSchedule> {
    let mut on_refs = Vec::new(alloc);
    for call in needed {
        if call.kind.is_on_ref() {
            let begun = match refs.get(call.place as usize) {
                Some(call) => call.begun,
                None => 0,
            };
            on_refs.push((call.named, begun, call.place))?;
        }
    }
    on_refs.sort_unstable();
    let mut ranks = Vec::new(alloc);
    ranks.resize(refs.len(), u32::MAX)?;
    let mut rest = on_refs.as_slice();
    for _ in 0..on_refs.len() {
        let Some(first) = rest.first() else {
            break;
        };
        let many = rest.iter().take_while(|call| call.0 == first.0).count();
        let (calls, behind) = split(rest, many);
        rest = behind;
        rank(alloc, calls, refs, &mut ranks)?;
    }
    Ok(ranks)
}

// The ranks of the calls on one ref.
fn rank(
    alloc: Global,
    calls: &[(u16, u64, u32)],
    refs: &[RefCall],
    ranks: &mut Vec<u32>,
) -> Result<(), NoSchedule> {
    let mut places = Vec::with_capacity(alloc, calls.len())?;
    for call in calls {
        places.push(call.2)?;
    }
    let order = ref_order(alloc, places.as_slice(), refs)?;
    for (rank, place) in order.iter().enumerate() {
        if let Some(slot) = ranks.get_mut(*place as usize) {
            *slot = narrow(rank);
        }
    }
    Ok(())
}

//! Which answers of a search are listed in any case, and how many bytes each answer takes.
ghost use Rattle.std.specs.Prelude.{◌≡◌, IfOk};

use crate::core_worlds::CoreWorlds;
use effect_term::Outcome;
use std::alloc::{AllocError, Global};
use world_search::{Answer, Landing};

// The greatest number of outcomes of fiber 0 for each of which one report is listed in any case.
const OUTCOMES: usize = 100;

/// Whether an answer is listed in any case, and its size.
#[derive(Clone, Copy)]
pub(crate) struct Worth {
    /// Whether it is listed in any case: it is a fault, or the first report with its outcome of fiber 0.
    pub(crate) first: bool,
    // The approximate number of bytes of its report and of the report's text.
    bytes: usize,
}

impl Worth {
    /// The approximate number of bytes of the answer with a schedule of `entries` entries. The texts of both are counted.
    pub(crate) fn bytes_with(self, entries: usize) -> usize {
        self.bytes.saturating_add(entries.saturating_mul(6))
    }
}

/// The worths of all answers of a search, and the number of bytes at which their list ends.
#[derive(Drop)]
pub(crate) struct Worths {
    worths: Vec<Worth>,
    /// The number of bytes at which the list ends; `usize::MAX` for no bound.
    pub(crate) room: usize,
}

impl Worths {
    /// Returns the worths of the answers `found` of a search. Their list ends at `room` bytes.
    pub(crate) fn of(
        alloc: Global,
        worlds: &CoreWorlds,
        found: &[Answer],
        room: usize,
    ) -> Result<Worths, AllocError>
        ensures { IfOk result (λ it. it.room ≡ room) }
    {
        let mut worths = Vec::with_capacity(alloc, found.len())?;
        let mut known = Vec::new(alloc);
        for i in 0..found.len() {
            worths.push(worth_of(worlds, found[i].end, &mut known)?)?;
        }
        Ok(Worths { worths, room })
    }

    /// The worth of the answer with the index `place`. Without such an answer it is that of a fault.
    pub(crate) fn at(&self, place: usize) -> Worth {
        match self.worths.get(place) {
            Some(worth) => *worth,
            None => Worth {
                first: true,
                bytes: 0,
            },
        }
    }
}

// The worth of an answer with this end. `known` has the outcomes of fiber 0 in the answers before this answer. The
// outcome of this answer is added.
fn worth_of(
    worlds: &CoreWorlds,
    end: Landing,
    known: &mut Vec<Option<Outcome>>,
) -> Result<Worth, AllocError> {
    match end {
        Landing::Fault(_) => Ok(Worth {
            first: true,
            bytes: 0,
        }),
        Landing::World(world) => Ok(Worth {
            first: is_first(worlds.first_outcome(world), known)?,
            bytes: worlds.report_bytes(world),
        }),
    }
}

// Adds an outcome of fiber 0, unless it is known or 100 outcomes are. Returns whether the outcome was added.
fn is_first(
    outcome: Option<Outcome>,
    known: &mut Vec<Option<Outcome>>,
) -> Result<bool, AllocError> {
    if known.len() >= OUTCOMES || known.as_slice().contains(&outcome) {
        return Ok(false);
    }
    known.push(outcome)?;
    Ok(true)
}

//! The number of a world, with the refs that were set before.
ghost use Rattle.std.specs.Prelude.{◌≡◌, true};

use crate::pool::Pooled;
use std::alloc::{AllocError, Global};
use std::marker::Model;

// About how many bytes a row takes without the numbers of refs.
const SEEN_ROW: usize = 64;

/// The number of a world, and the refs that were set before, in the order of their first sets.
#[derive(Drop)]
pub(crate) struct SeenRow {
    world: usize,
    seen: Vec<u16>,
}

impl Model for SeenRow {
    ghost use Rattle.every_schedule.specs.Private.Seen.{Marked};

    ghost Value = { Marked };

    ghost view = { λ r. record { world = r.world; seen = r.seen.items } };
}

impl SeenRow {
    /// Returns the row of this world and these refs.
    pub(crate) fn new(world: usize, seen: Vec<u16>) -> SeenRow
        ensures { result ≡ record { world = world; seen = seen.items } }
    {
        SeenRow { world, seen }
    }

    /// The number of the world.
    pub(crate) fn world(&self) -> usize
        ensures { result ≡ self.now.world }
    {
        self.world
    }

    /// The refs that were set before.
    pub(crate) fn seen(&self) -> &[u16]
        ensures { result.now ≡ self.now.seen }
    {
        self.seen.as_slice()
    }
}

impl Pooled for SeenRow {
    ghost use Rattle.every_schedule.specs.Sizes.{seen_row_size};

    ghost size = { seen_row_size };

    fn again(&self, alloc: Global) -> Result<SeenRow, AllocError> {
        Ok(SeenRow {
            world: self.world,
            seen: Vec::from_slice(alloc, self.seen.as_slice())?,
        })
    }

    fn is(&self, other: &SeenRow) -> bool {
        self.world == other.world && self.seen.as_slice() == other.seen.as_slice()
    }

    fn key(&self) -> u64 {
        let mut key = self.world as u64;
        for number in self.seen.iter() {
            let product = (key ^ u64::from(*number)).wrapping_mul(0x9E37_79B9_7F4A_7C15);
            key = product ^ (product >> 32);
        }
        key
    }

    fn size(&self) -> usize {
        self.seen.len().saturating_mul(2).saturating_add(SEEN_ROW)
    }
}

//! A hash table of numbers.
ghost use Rattle.std.specs.Prelude.{◌<◌, length};

use std::alloc::{AllocError, Global};

// The least number of slots of a table that has any.
const FIRST: usize = 64;

/// An open-addressing table of numbers, each filed under a key. No contract says which numbers it returns: the caller
/// checks each number that it gets.
#[derive(Drop)]
pub(crate) struct Table {
    // No slots, or a power of two. A free slot is 0, a taken one is its number plus 1.
    slots: Vec<u32>,
    filed: usize,
}

impl Table {
    /// Returns an empty table.
    pub(crate) fn new(alloc: Global) -> Table {
        Table {
            slots: Vec::new(alloc),
            filed: 0,
        }
    }

    /// Returns a table of twice the size, where each place of `keys` is filed under the key there.
    pub(crate) fn refiled(&self, alloc: Global, keys: &[u64]) -> Result<Table, AllocError>
        requires { length keys.now < 4294967295 }
    {
        let mut larger = self.larger(alloc)?;
        for (number, key) in keys.iter().enumerate() {
            larger.file(*key, number as u32);
        }
        Ok(larger)
    }

    /// Returns an empty table of twice the size.
    pub(crate) fn larger(&self, alloc: Global) -> Result<Table, AllocError> {
        let many = self.slots.len().saturating_mul(2).max(FIRST);
        Ok(Table {
            slots: vec![in alloc; 0; many]?,
            filed: 0,
        })
    }

    /// Whether the table has to grow before the next number: three quarters of the slots are taken.
    pub(crate) fn is_full(&self) -> bool {
        self.filed / 3 >= self.slots.len() / 4
    }

    /// The number in the slot `behind` places after the first slot of a key, or `None` if that slot is free.
    #[inline(always)]
    pub(crate) fn get(&self, key: u64, behind: usize) -> Option<u32> {
        let found = *self.slots.get(slot(key, behind, self.slots.len()))?;
        found.checked_sub(1)
    }

    /// Files a number under a key. Drops the number if all slots are taken.
    pub(crate) fn file(&mut self, key: u64, number: u32) {
        let many = self.slots.len();
        for behind in 0..many {
            if let Some(free) = self.slots.get_mut(slot(key, behind, many)) {
                if *free == 0 {
                    *free = number.saturating_add(1);
                    self.filed = self.filed.saturating_add(1);
                    return;
                }
            }
        }
    }
}

// The slot `behind` places after the first slot of a key, in a table of `many` slots.
#[inline(always)]
fn slot(key: u64, behind: usize, many: usize) -> usize {
    (key as usize).wrapping_add(behind) & many.wrapping_sub(1)
}

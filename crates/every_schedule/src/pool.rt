//! States that are kept once, each with a number.
ghost use Rattle.std.specs.Prelude.{◌≡◌, ◌+◌, ◌++◌, ℕ, [], ◌∷◌, length, true, IfOk, IfSome, OnErr, OnOk, Some};
ghost use Rattle.std.specs.List.{slice_get};
ghost use Rattle.world_search.specs.Lists.{IsMore};
ghost use Rattle.every_schedule.specs.Sizes.{capped};

use crate::table::Table;
use cell_registry::PlainRegistry;
use fiber_frames::Config;
use std::alloc::{AllocError, Global};

// About how many bytes a fiber takes without its marks.
const FIBER: usize = 480;

// About how many bytes a registry takes without its cells.
const REGISTRY: usize = 160;

/// A state that can be looked up among others.
pub(crate) trait Pooled: Drop {
    // About how many bytes a state takes.
    ghost size: { Self → ℕ };

    /// Returns a copy of the state.
    fn again(&self, alloc: Global) -> Result<Self, AllocError>
        ensures { IfOk result (λ it. it ≡ self.now) };

    /// Whether two states are equal: `true` means that they are, `false` is possible for two equal ones.
    fn is(&self, other: &Self) -> bool
        ensures { result ≡ true → self.now ≡ other.now };

    /// A hash: equal for two states for which `is` returns `true`.
    fn key(&self) -> u64;

    /// About how many bytes the state takes in a pool.
    fn size(&self) -> usize
        ensures { result ≡ size self.now };
}

impl Pooled for Config {
    ghost use Rattle.every_schedule.specs.Sizes.{fiber_size};

    ghost size = { fiber_size };

    fn again(&self, alloc: Global) -> Result<Config, AllocError> {
        self.copy(alloc)
    }

    fn is(&self, other: &Config) -> bool {
        self.same(other)
    }

    fn key(&self) -> u64 {
        self.digest()
    }

    fn size(&self) -> usize {
        self.trace().len().saturating_mul(16).saturating_add(FIBER)
    }
}

impl Pooled for PlainRegistry {
    ghost use Rattle.every_schedule.specs.Sizes.{registry_size};

    ghost size = { registry_size };

    fn again(&self, alloc: Global) -> Result<PlainRegistry, AllocError> {
        self.copy(alloc)
    }

    fn is(&self, other: &PlainRegistry) -> bool {
        self.same(other)
    }

    fn key(&self) -> u64 {
        self.digest()
    }

    fn size(&self) -> usize {
        let limits = self.limits();
        REGISTRY
            + 32 * limits.fibers as usize
            + 8 * limits.refs as usize
            + 16 * limits.deferreds as usize
    }
}

/// States, each numbered by its place and filed by its key. Whatever the table returns, a lookup returns only a state
/// that is equal to the one that it looks for.
#[derive(Drop)]
pub(crate) struct Pool<T> {
    alloc: Global,
    pub(crate) items: Vec<T>,
    // The key of each state.
    keys: Vec<u64>,
    table: Table,
    /// About how many bytes all states take.
    pub(crate) bytes: usize,
}

impl<T: Pooled> Pool<T> {
    /// Returns an empty pool.
    pub(crate) fn new(alloc: Global) -> Pool<T>
        ensures none { result.items.items ≡ [] }
        ensures bytes { result.bytes ≡ 0 }
    {
        Pool {
            alloc,
            items: Vec::new(alloc),
            keys: Vec::new(alloc),
            table: Table::new(alloc),
            bytes: 0,
        }
    }

    /// The number of a kept state that `is` finds equal to this one, whose key is `key`.
    pub(crate) fn find(&self, key: u64, wanted: &T) -> Option<u32>
        ensures { IfSome result (λ n. slice_get self.now.items.items n ≡ Some wanted.now) }
    {
        for behind in 0..self.items.len() {
            let number = self.table.get(key, behind)?;
            if *self.keys.get(number as usize)? == key
                && self.items.get(number as usize)?.is(wanted)
            {
                return Some(number);
            }
        }
        None
    }

    /// Keeps a state under its key and returns its number, the next one. `AllocError` past 2^32 - 1 states.
    pub(crate) fn add(&mut self, key: u64, item: T) -> Result<u32, AllocError>
        ensures added { OnOk result (self.new.items.items ≡ self.old.items.items ++ item ∷ []) }
        ensures number { IfOk result (λ n. n ≡ length self.old.items.items) }
        ensures kept { OnErr result (self.new.items.items ≡ self.old.items.items) }
        ensures counted { OnOk result (self.new.bytes ≡ capped (self.old.bytes + T.size item)) }
    {
        let place = self.items.len();
        if place >= u32::MAX as usize || self.keys.len() != place {
            return Err(AllocError);
        }
        if self.table.is_full() {
            self.table = self.table.refiled(self.alloc, self.keys.as_slice())?;
        }
        let number = place as u32;
        self.bytes = self.bytes.saturating_add(item.size());
        self.keys.push(key)?;
        self.items.push(item)?;
        self.table.file(key, number);
        Ok(number)
    }

    /// Returns the number of a state, and keeps the state unless an equal one is found.
    pub(crate) fn number(&mut self, item: T) -> Result<u32, AllocError>
        ensures more { IsMore self.old.items.items self.new.items.items }
        ensures number { IfOk result (λ n. slice_get self.new.items.items n ≡ Some item) }
    {
        let key = item.key();
        if let Some(number) = self.find(key, &item) {
            return Ok(number);
        }
        self.add(key, item)
    }

    /// Returns the number of a state, and keeps a copy of the state unless an equal one is found.
    pub(crate) fn number_of(&mut self, alloc: Global, item: &T) -> Result<u32, AllocError>
        ensures more { IsMore self.old.items.items self.new.items.items }
        ensures number { IfOk result (λ n. slice_get self.new.items.items n ≡ Some item.now) }
    {
        let key = item.key();
        if let Some(number) = self.find(key, item) {
            return Ok(number);
        }
        let copy = item.again(alloc)?;
        self.add(key, copy)
    }
}

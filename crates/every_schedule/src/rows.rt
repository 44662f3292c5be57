//! Worlds, as rows of the numbers of their states.
ghost use Rattle.std.specs.Prelude.{◌≡◌, ◌≤◌, ◌<◌, ◌++◌, [], ◌∷◌, length, true, max, IfOk, IfSome, OnErr, OnOk, Some};
ghost use Rattle.std.specs.List.{slice_get};
ghost use Rattle.world_search.specs.Landings.{IsNext};
ghost use Rattle.every_schedule.specs.Private.Keeping.{IsKept};
ghost use Rattle.every_schedule.specs.Private.Numbered.{MayAdd, Numbers};

use crate::table::Table;
use std::alloc::{AllocError, Global};
use std::marker::Model;
use world_search::{Entered, Landing};

// The most bytes that a row takes without the numbers of its fibers, and the most bytes of one such number. A list has
// room for at most twice its items, and the table has at most 8/3 slots for each row.
const ROW: usize = 36;

const NUMBER: usize = 8;

/// The number of a world's registry, and where the numbers of its fibers' states begin and end.
#[derive(Clone, Copy)]
pub(crate) struct Head {
    registry: u32,
    begin: u32,
    end: u32,
}

/// The rows of all worlds: for each, the number of its registry and the numbers of its fibers' states.
#[derive(Drop)]
pub(crate) struct Rows {
    alloc: Global,
    heads: Vec<Head>,
    numbers: Vec<u32>,
    table: Table,
}

impl Model for Rows {
    ghost use Rattle.std.specs.Prelude.{◌+◌, ◌*◌, ◌≤◌, length, map};
    ghost use Rattle.every_schedule.specs.Sizes.{capped};
    ghost use Rattle.every_schedule.specs.Private.Packed.{AreWithin, Packed, row_of};

    ghost Value = { Packed };

    ghost view = { λ r. record {
      rows = map (row_of r.numbers.items) r.heads.items;
      bytes = capped (36 * length r.heads.items + 8 * length r.numbers.items);
    } };

    ghost invariant = { λ r. AreWithin (length r.numbers.items) r.heads.items };
}

impl Rows {
    /// Returns a list of one row.
    pub(crate) fn first(alloc: Global, registry: u32, fibers: &[u32]) -> Result<Rows, AllocError>
        ensures { IfOk result (λ it. it.rows ≡ record { registry = registry; fibers = fibers.now } ∷ []) }
    {
        let mut rows = Rows {
            alloc,
            heads: Vec::new(alloc),
            numbers: Vec::new(alloc),
            table: Table::new(alloc),
        };
        rows.add(key(registry, fibers), registry, fibers)?;
        Ok(rows)
    }

    /// The number of rows.
    pub(crate) fn len(&self) -> usize
        ensures { result ≡ length self.now.rows }
    {
        self.heads.len()
    }

    /// About how many bytes the rows take.
    pub(crate) fn bytes(&self) -> usize
        ensures { result ≡ self.now.bytes }
    {
        let heads = self.heads.len().saturating_mul(ROW);
        let numbers = self.numbers.len().saturating_mul(NUMBER);
        heads.saturating_add(numbers)
    }

    /// The number of a world's registry.
    pub(crate) fn registry(&self, world: usize) -> u32
        requires { world < length self.now.rows }
        ensures { (n : Numbers) → slice_get self.now.rows world ≡ Some n → result ≡ n.registry }
    {
        self.heads[world].registry
    }

    /// The numbers of the states of a world's fibers.
    pub(crate) fn fibers(&self, world: usize) -> &[u32]
        requires { world < length self.now.rows }
        ensures { (n : Numbers) → slice_get self.now.rows world ≡ Some n → result.now ≡ n.fibers }
    {
        let head = self.heads[world];
        &self.numbers[head.begin as usize..head.end as usize]
    }

    // The number of the world with this registry and these fibers, if it is kept.
    fn find(&self, key: u64, registry: u32, fibers: &[u32]) -> Option<u32>
        ensures { IfSome result (λ i. slice_get self.now.rows i ≡
            Some record { registry = registry; fibers = fibers.now }) }
    {
        for behind in 0..self.heads.len() {
            let world = self.table.get(key, behind)?;
            if self.is(world as usize, registry, fibers) {
                return Some(world);
            }
        }
        None
    }

    // Whether a world has this registry and these fibers.
    fn is(&self, world: usize, registry: u32, fibers: &[u32]) -> bool
        ensures { result ≡ true → slice_get self.now.rows world ≡
            Some record { registry = registry; fibers = fibers.now } }
    {
        if world >= self.len() {
            return false;
        }
        let known = self.registry(world);
        known == registry && are_same(self.fibers(world), fibers)
    }

    // Adds a row and returns its number. `AllocError` past 2^32 - 1 rows, or numbers of fibers in all.
    fn add(&mut self, key: u64, registry: u32, fibers: &[u32]) -> Result<usize, AllocError>
        ensures added { OnOk result (self.new.rows ≡
            self.old.rows ++ record { registry = registry; fibers = fibers.now } ∷ []) }
        ensures number { IfOk result (λ n. n ≡ length self.old.rows) }
        ensures kept { OnErr result (self.new.rows ≡ self.old.rows) }
    {
        let world = self.heads.len();
        let begin = self.numbers.len();
        let end = begin.saturating_add(fibers.len());
        if world >= u32::MAX as usize || end > u32::MAX as usize {
            return Err(AllocError);
        }
        if self.table.is_full() {
            self.table = refiled(self.alloc, &*self)?;
        }
        self.numbers.extend_from_slice(fibers)?;
        self.heads.push(Head {
            registry,
            begin: begin as u32,
            end: end as u32,
        })?;
        self.table.file(key, world as u32);
        Ok(world)
    }

    /// Returns the number of a world, and adds the world if it is new. `Full` if it is new and there are `most` rows.
    pub(crate) fn keep(
        &mut self,
        registry: u32,
        fibers: &[u32],
        most: usize,
    ) -> Result<Entered, AllocError>
        ensures adds { MayAdd self.old.rows self.new.rows record { registry = registry; fibers = fibers.now } }
        ensures kept { IfOk result (λ it. IsKept self.new.rows it
            record { registry = registry; fibers = fibers.now }) }
        ensures room { OnOk result (length self.new.rows ≤ max most (length self.old.rows)) }
        ensures next { IfOk result (IsNext (length self.old.rows) (length self.new.rows) most) }
    {
        let key = key(registry, fibers);
        if let Some(world) = self.find(key, registry, fibers) {
            return Ok(Entered::At(Landing::World(world as usize)));
        }
        if self.heads.len() >= most {
            return Ok(Entered::Full);
        }
        let world = self.add(key, registry, fibers)?;
        Ok(Entered::At(Landing::World(world)))
    }
}

// Whether the two lists are equal.
fn are_same(one: &[u32], other: &[u32]) -> bool
    ensures { result ≡ true → one.now ≡ other.now }
{
    one == other
}

// The hash under which a world is filed.
fn key(registry: u32, fibers: &[u32]) -> u64 {
    let mut key = u64::from(registry).wrapping_mul(0x9E37_79B9_7F4A_7C15);
    for number in fibers {
        let product = (key ^ u64::from(*number)).wrapping_mul(0x9E37_79B9_7F4A_7C15);
        key = product ^ (product >> 32);
    }
    key
}

// Returns a table of twice the size, with these rows filed.
fn refiled(alloc: Global, rows: &Rows) -> Result<Table, AllocError>
    requires { length rows.now.rows < 4294967295 }
{
    let mut larger = rows.table.larger(alloc)?;
    for world in 0..rows.len() {
        let key = key(rows.registry(world), rows.fibers(world));
        larger.file(key, world as u32);
    }
    Ok(larger)
}

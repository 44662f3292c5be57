//! The worlds that a search for claims has found, each with the refs that were set before.
ghost use Rattle.std.specs.Prelude.{◌≡◌, ◌++◌, ◌<◌, ◌≤◌, ◌⊎◌, [], ◌∷◌, length, max, IfOk, OnOk, Some};
ghost use Rattle.std.specs.List.{slice_get};
ghost use Rattle.derived_ops.specs.Expansion.{code_of};
ghost use Rattle.derived_ops.specs.Reading.{source_of};
ghost use Rattle.cell_registry.specs.Cells.{AreLimits};
ghost use Rattle.world_search.specs.Landings.{EntersAt, IsNext};
ghost use Rattle.world_search.specs.Lists.{IsMore};
ghost use Rattle.every_schedule.specs.Claims.{View, first_view, noted, viewed};
ghost use Rattle.every_schedule.specs.Places.{first_place};
ghost use Rattle.every_schedule.specs.Reduced.{leapt};
ghost use Rattle.every_schedule.specs.Private.Keeping.{IsKept};
ghost use Rattle.every_schedule.specs.Private.Numbered.{MayAdd};
ghost use Rattle.every_schedule.specs.Private.Seen.{IsRowAdded, IsRowMet};
ghost use Rattle.every_schedule.specs.Private.Stopping.{meets_here};

use crate::claims::{Claim, SeenWorld};
use crate::core_worlds::{CoreWorlds, NONE};
use crate::leaping::AtOnce;
use crate::pool::{Pool, Pooled};
use crate::seen_row::SeenRow;
use cell_registry::{Limits, RunError};
use effect_term::Program;
use std::alloc::{AllocError, Global};
use std::marker::Model;
use world_search::{Claims, Entered, Landing, Worlds};

/// The moves that are made at once after an entry: births, and own moves that set or change no ref. So each value of a
/// ref is that of a kept world.
pub(crate) const STILL: AtOnce = AtOnce {
    rounds: 10,
    most: 10,
    stores: false,
    births: true,
    chosen: false,
};

/// All worlds and faults that were found. A world of the core can be kept several times, with different refs.
#[derive(Drop)]
pub(crate) struct SeenWorlds {
    alloc: Global,
    worlds: CoreWorlds,
    rows: Pool<SeenRow>,
    // The entries that the last step made.
    trail: Vec<u16>,
}

impl Model for SeenWorlds {
    ghost use Rattle.std.specs.Prelude.{◌+◌, map};
    ghost use Rattle.std.specs.Coded.{codes};
    ghost use Rattle.derived_ops.specs.Stored.{tree_code};
    ghost use Rattle.fiber_frames.specs.contracts.ask.Look as the_look;
    ghost use Rattle.fiber_frames.specs.contracts.mark.Mark as the_mark;
    ghost use Rattle.every_schedule.specs.Sizes.{capped};
    ghost use Rattle.every_schedule.specs.Private.Seen.{AreThere, KeptViews, view_of};

    ghost Value = { KeptViews };

    ghost coded = { Prim.hlevel (codes, tree_code, the_look.the_row.coded, the_mark.the_row.coded) };

    ghost view = { λ s. record {
      views = map (view_of s.worlds.places) s.rows.items.items;
      faults = s.worlds.faults;
      bytes = capped (s.worlds.bytes + s.rows.bytes);
    } };

    ghost invariant = { λ s. AreThere s.worlds.places s.rows.items.items };
}

impl SeenWorlds {
    /// Returns the store of the first world of a program.
    pub(crate) fn new(
        alloc: Global,
        program: &Program,
        limits: Limits,
    ) -> Result<SeenWorlds, AllocError>
        requires { AreLimits limits }
        ensures { IfOk result (λ s. s.views ≡
            first_view (first_place (code_of (source_of program.now)) limits) ∷ []) }
    {
        let worlds = CoreWorlds::new(alloc, program, limits)?;
        let mut rows = Pool::new(alloc);
        let none = Vec::new(alloc);
        let first = SeenRow::new(0, none);
        rows.add(first.key(), first)?;
        Ok(SeenWorlds {
            alloc,
            worlds,
            rows,
            trail: Vec::new(alloc),
        })
    }

    // The number of fibers that are born in a world.
    fn many(&self, world: usize) -> u16
        requires { world < length self.now.views }
        ensures born { (v : View) → slice_get self.now.views world ≡ Some v → result ≡ length v.place.world.fibers }
        ensures few { result ≤ 1000 }
    {
        let row = &self.rows.items[world];
        let number = row.world();
        self.worlds.born_at(number)
    }

    // Makes the entry of a fiber at a world, then moves as `at_once` allows, and notes the ref that the entry sets.
    fn made(
        &mut self,
        world: usize,
        fiber: u16,
        most: usize,
        at_once: AtOnce,
    ) -> Result<Entered, AllocError>
        requires { world < length self.old.views }
        ensures worlds { OnOk result (IsMore self.old.views self.new.views) }
        ensures faults { OnOk result (IsMore self.old.faults self.new.faults) }
        ensures lands { IfOk result (λ it. (v : View) → slice_get self.old.views world ≡ Some v →
            EntersAt self.new.views self.new.faults it (viewed (leapt at_once) v fiber)) }
        ensures room { OnOk result (length self.new.views ≤ max most (length self.old.views)) }
        ensures next { IfOk result (IsNext (length self.old.views) (length self.new.views) most) }
    {
        let row = &self.rows.items[world];
        let number = row.world();
        let stored = self.worlds.stored(number, fiber);
        let seen = seen_after(self.alloc, row.seen(), stored)?;
        let room = room(self.rows.items.len(), most);
        let came = self
            .worlds
            .entry(number, fiber, room, at_once, &mut self.trail)?;
        row_met(&mut self.rows, came, seen, most)
    }

    // Whether a world meets a claim.
    fn is_met(&self, world: usize, claim: &Claim) -> Result<bool, AllocError>
        requires { world < length self.now.views }
        ensures { IfOk result (λ it. (v : View) → slice_get self.now.views world ≡ Some v →
            it ≡ meets_here v claim.now) }
    {
        let row = &self.rows.items[world];
        let number = row.world();
        let core = self.worlds.world(number)?;
        let seen = Vec::from_slice(self.alloc, row.seen())?;
        let here = SeenWorld::new(core, seen);
        here.meets(self.alloc, claim)
    }
}

/// Returns the refs that were set before (`seen`), in the order of their first sets, with the one that the next move
/// sets (`stored`), if there is one.
pub fn seen_after(alloc: Global, seen: &[u16], stored: Option<u16>) -> Result<Vec<u16>, AllocError>
    ensures { IfOk result (λ it. it.items ≡ noted seen.now stored) }
{
    let mut after = Vec::from_slice(alloc, seen)?;
    note_ref(&mut after, stored)?;
    Ok(after)
}

/// Adds a ref, if there is one and it isn't in the list.
pub(crate) fn note_ref(seen: &mut Vec<u16>, stored: Option<u16>) -> Result<(), AllocError>
    ensures { OnOk result (seen.new.items ≡ noted seen.old.items stored) }
{
    match stored {
        None => Ok(()),
        Some(number) => {
            if seen.as_slice().contains(&number) {
                return Ok(());
            }
            seen.push(number)?;
            Ok(())
        }
    }
}

// The most worlds of the core: unlimited if there is room for one more row, otherwise 0.
fn room(rows: usize, most: usize) -> usize
    ensures none { most ≤ rows → result ≡ 0 }
{
    if rows < most { usize::MAX } else { 0 }
}

// The result of an entry without room in the core: `AllocError` if there is room for one more row, otherwise `Full`.
fn full(rows: usize, most: usize) -> Result<Entered, AllocError>
    ensures next { IfOk result (λ it. IsNext rows rows most it) }
    ensures full { IfOk result (λ it. it ≡ Entered.Full) }
{
    if rows < most {
        return Err(AllocError);
    }
    Ok(Entered::Full)
}

// Returns the number of a row, and keeps the row if it is new. `Full` if it is new and there are `most` rows.
fn keep<T: Pooled>(rows: &mut Pool<T>, row: T, most: usize) -> Result<Entered, AllocError>
    ensures adds { MayAdd rows.old.items.items rows.new.items.items row }
    ensures kept { IfOk result (λ it. IsKept rows.new.items.items it row) }
    ensures room { OnOk result (length rows.new.items.items ≤ max most (length rows.old.items.items)) }
    ensures next { IfOk result (IsNext (length rows.old.items.items) (length rows.new.items.items) most) }
{
    let key = row.key();
    if let Some(number) = rows.find(key, &row) {
        return Ok(Entered::At(Landing::World(number as usize)));
    }
    if rows.items.len() >= most {
        return Ok(Entered::Full);
    }
    let number = rows.add(key, row)?;
    Ok(Entered::At(Landing::World(number as usize)))
}

// The result of an entry, from its result `came` in the core and the refs that are set after it.
fn row_met(
    rows: &mut Pool<SeenRow>,
    came: Entered,
    seen: Vec<u16>,
    most: usize,
) -> Result<Entered, AllocError>
    ensures adds { IsRowAdded rows.old.items.items rows.new.items.items came seen.items }
    ensures met { IfOk result (λ it. IsRowMet rows.new.items.items it came seen.items) }
    ensures room { OnOk result (length rows.new.items.items ≤ max most (length rows.old.items.items)) }
    ensures next { IfOk result (IsNext (length rows.old.items.items) (length rows.new.items.items) most) }
{
    match came {
        Entered::Full => full(rows.items.len(), most),
        Entered::At(Landing::Fault(fault)) => Ok(Entered::At(Landing::Fault(fault))),
        Entered::At(Landing::World(world)) => {
            let row = SeenRow::new(world, seen);
            keep(rows, row, most)
        }
    }
}

impl Worlds for SeenWorlds {
    type World = SeenWorld;

    type Fault = RunError;

    type Report = ();

    ghost use Rattle.every_schedule.specs.Claims.{viewed};
    ghost use Rattle.every_schedule.specs.Reduced.{hundred_still, leapt};

    ghost worlds = { λ s. s.views };

    ghost faults = { λ s. s.faults };

    ghost step = { viewed (leapt hundred_still) };

    ghost report = { λ v. tt };

    ghost report_digest = { λ r. 0 };

    ghost most_born = { 1000 };

    ghost bytes = { λ s. s.bytes };

    fn born(&self, world: usize) -> u16 {
        self.many(world)
    }

    fn enter(&mut self, world: usize, fiber: u16, most: usize) -> Result<Entered, AllocError> {
        self.made(world, fiber, most, STILL)
    }

    fn same_report(&self, one: usize, other: usize) -> bool {
        let _ = &self.rows.items[one];
        let _ = &self.rows.items[other];
        true
    }

    fn report_digest(&self, world: usize) -> u64 {
        let _ = &self.rows.items[world];
        0
    }

    fn len(&self) -> usize {
        self.rows.items.len()
    }

    fn bytes(&self) -> usize {
        self.worlds.counted().saturating_add(self.rows.bytes)
    }
}

impl Claims for SeenWorlds {
    type Claim = Claim;

    ghost use Rattle.every_schedule.specs.Private.Stopping.{meets_here};

    ghost meets = { meets_here };

    fn meets(&self, world: usize, claim: &Claim) -> Result<bool, AllocError> {
        self.is_met(world, claim)
    }
}

/// The same worlds, where no move is made at once.
#[derive(Drop)]
pub(crate) struct StrictWorlds {
    worlds: SeenWorlds,
}

impl Model for StrictWorlds {
    ghost use Rattle.std.specs.Coded.{codes};
    ghost use Rattle.derived_ops.specs.Stored.{tree_code};
    ghost use Rattle.fiber_frames.specs.contracts.ask.Look as the_look;
    ghost use Rattle.fiber_frames.specs.contracts.mark.Mark as the_mark;
    ghost use Rattle.every_schedule.specs.Private.Seen.{KeptViews};

    ghost Value = { KeptViews };

    ghost coded = { Prim.hlevel (codes, tree_code, the_look.the_row.coded, the_mark.the_row.coded) };

    ghost view = { λ s. s.worlds };
}

impl StrictWorlds {
    /// Returns the store of the first world of a program.
    pub(crate) fn new(
        alloc: Global,
        program: &Program,
        limits: Limits,
    ) -> Result<StrictWorlds, AllocError>
        requires { AreLimits limits }
        ensures { IfOk result (λ s. s.views ≡
            first_view (first_place (code_of (source_of program.now)) limits) ∷ []) }
    {
        let worlds = SeenWorlds::new(alloc, program, limits)?;
        Ok(StrictWorlds { worlds })
    }
}

impl Worlds for StrictWorlds {
    type World = SeenWorld;

    type Fault = RunError;

    type Report = ();

    ghost use Rattle.every_schedule.specs.Claims.{viewed};
    ghost use Rattle.every_schedule.specs.Places.{stepped};

    ghost worlds = { λ s. s.views };

    ghost faults = { λ s. s.faults };

    ghost step = { viewed stepped };

    ghost report = { λ v. tt };

    ghost report_digest = { λ r. 0 };

    ghost most_born = { 1000 };

    ghost bytes = { λ s. s.bytes };

    fn born(&self, world: usize) -> u16 {
        self.worlds.many(world)
    }

    fn enter(&mut self, world: usize, fiber: u16, most: usize) -> Result<Entered, AllocError> {
        self.worlds.made(world, fiber, most, NONE)
    }

    fn same_report(&self, one: usize, other: usize) -> bool {
        self.worlds.same_report(one, other)
    }

    fn report_digest(&self, world: usize) -> u64 {
        self.worlds.report_digest(world)
    }

    fn len(&self) -> usize {
        self.worlds.len()
    }

    fn bytes(&self) -> usize {
        self.worlds.bytes()
    }
}

impl Claims for StrictWorlds {
    type Claim = Claim;

    ghost use Rattle.every_schedule.specs.Private.Stopping.{meets_here};

    ghost meets = { meets_here };

    fn meets(&self, world: usize, claim: &Claim) -> Result<bool, AllocError> {
        self.worlds.is_met(world, claim)
    }
}

//! The worlds that a search of outcomes has found, each with a number.
ghost use Rattle.std.specs.Prelude.{◌≡◌, ◌++◌, ◌<◌, ◌≤◌, [], ◌∷◌, length, max, IfOk, IfSome, OnErr, OnOk, Some};
ghost use Rattle.std.specs.List.{slice_get};
ghost use Rattle.derived_ops.specs.Expansion.{code_of};
ghost use Rattle.derived_ops.specs.Reading.{source_of};
ghost use Rattle.fiber_frames.specs.Fiber.{begins};
ghost use Rattle.fiber_frames.specs.Reached.{Reached};
ghost use Rattle.cell_registry.specs.Cells.{AreLimits};
ghost use Rattle.world_search.specs.Landings.{IsNext};
ghost use Rattle.world_search.specs.Lists.{IsMore};
ghost use Rattle.every_outcome.specs.Places.{Place, first_place, report_at, with_says};
ghost use Rattle.every_outcome.specs.Private.Keeping.{AreSingle, IsKept};

use crate::faults::Faults;
use crate::world::SeenWorld;
use cell_registry::{Limits, RunError};
use effect_term::Program;
use every_schedule::frame_bytes;
use scheduled_core::Report;
use std::alloc::{AllocError, Global};
use std::collections::HashMap;
use std::marker::Model;
use world_search::{Entered, Landing, Worlds};

/// All worlds and faults that were found. `last` has the number of the last world with a digest, and `earlier` names
/// for each world the one before it with the same digest. A lookup follows these numbers and compares the worlds. With 1
/// for `SAYS` the worlds keep the says of the fibers, with 0 they have no marks.
#[derive(Drop)]
pub(crate) struct SeenWorlds<const SAYS: u8> {
    alloc: Global,
    worlds: Vec<SeenWorld<SAYS>>,
    faults: Faults,
    last: HashMap<u64, usize>,
    earlier: Vec<Option<usize>>,
    bytes: usize,
    // The bytes of the frames of a fiber.
    each: usize,
}

impl<const SAYS: u8> Model for SeenWorlds<SAYS> {
    ghost use Rattle.std.specs.Coded.{codes};
    ghost use Rattle.derived_ops.specs.Stored.{tree_code};
    ghost use Rattle.fiber_frames.specs.contracts.ask.Look as the_look;
    ghost use Rattle.fiber_frames.specs.contracts.mark.Mark as the_mark;
    ghost use Rattle.every_outcome.specs.Places.{Kept};

    ghost Value = { Kept };

    ghost coded = { Prim.hlevel (codes, tree_code, the_look.the_row.coded, the_mark.the_row.coded) };

    ghost view = { λ s. record { places = s.worlds.items; faults = s.faults; bytes = s.bytes } };
}

impl<const SAYS: u8> SeenWorlds<SAYS> {
    /// Returns a store with the first world of a program alone.
    pub(crate) fn new(
        alloc: Global,
        program: &Program,
        limits: Limits,
    ) -> Result<SeenWorlds<SAYS>, AllocError>
        requires { AreLimits limits }
        ensures places { IfOk result (λ s. s.places ≡
            first_place (with_says SAYS) (code_of (source_of program.now)) limits ∷ []) }
        ensures faults { IfOk result (λ s. s.faults ≡ []) }
        ensures reached { IfOk result (λ _. Reached (begins 0 (code_of (source_of program.now)))) }
    {
        let first = SeenWorld::first(alloc, program, limits)?;
        let mut all = SeenWorlds {
            alloc,
            worlds: Vec::new(alloc),
            faults: Faults::new(alloc),
            last: HashMap::new(alloc),
            earlier: Vec::new(alloc),
            bytes: 0,
            each: frame_bytes(program, limits),
        };
        all.file(first)?;
        Ok(all)
    }

    // Adds a world, which gets the next number.
    fn file(&mut self, world: SeenWorld<SAYS>) -> Result<(), AllocError>
        ensures places { OnOk result (self.new.places ≡ self.old.places ++ world.entry ∷ []) }
        ensures kept { OnErr result (self.new.places ≡ self.old.places) }
        ensures faults { self.new.faults ≡ self.old.faults }
    {
        let before = self.last.insert(world.digest(), self.worlds.len())?;
        self.bytes = self.bytes.saturating_add(world.size(self.each));
        self.earlier.push(before)?;
        self.worlds.push(world)?;
        Ok(())
    }

    // The number of a kept world that `same` finds equal to this world.
    fn find(&self, world: &SeenWorld<SAYS>) -> Option<usize>
        ensures { IfSome result (λ i. slice_get self.now.places i ≡ Some world.now) }
    {
        let mut next = self.last.get(&world.digest()).copied();
        for _ in 0..self.worlds.len() {
            let place = next?;
            if self.worlds.get(place)?.same(world) {
                return Some(place);
            }
            next = *self.earlier.get(place)?;
        }
        None
    }

    // Adds the world if it is new, unless there are at least `most` worlds already.
    fn keep(&mut self, world: SeenWorld<SAYS>, most: usize) -> Result<Entered, AllocError>
        ensures faults { self.new.faults ≡ self.old.faults }
        ensures places { OnOk result (IsMore self.old.places self.new.places) }
        ensures kept { IfOk result (λ it. IsKept self.new.places it world.entry) }
        ensures room { OnOk result (length self.new.places ≤ max most (length self.old.places)) }
        ensures next { IfOk result (IsNext (length self.old.places) (length self.new.places) most) }
    {
        if let Some(place) = self.find(&world) {
            return Ok(Entered::At(Landing::World(place)));
        }
        let place = self.worlds.len();
        if place >= most {
            return Ok(Entered::Full);
        }
        self.file(world)?;
        Ok(Entered::At(Landing::World(place)))
    }

    /// The report of a world.
    pub(crate) fn report(&self, world: usize) -> Result<Report, AllocError>
        requires { world < length self.now.places }
        ensures { IfOk result (λ it. (p : Place) → slice_get self.now.places world ≡ Some p →
            it ≡ report_at (with_says SAYS) p) }
    {
        self.worlds[world].report(self.alloc)
    }

    /// The fault of this number.
    pub(crate) fn fault(&self, number: usize) -> RunError
        requires { number < length self.now.faults }
        ensures { slice_get self.now.faults number ≡ Some result }
    {
        self.faults.get(number)
    }

    /// The number of faults that were met. No fault is kept twice.
    pub(crate) fn many_faults(&self) -> usize
        ensures many { result ≡ length self.now.faults }
        ensures single { AreSingle self.now.faults }
    {
        self.faults.len()
    }
}

impl<const SAYS: u8> Worlds for SeenWorlds<SAYS> {
    type World = SeenWorld<SAYS>;

    type Fault = RunError;

    type Report = Report;

    ghost use Rattle.std.specs.Prelude.{true};
    ghost use Rattle.every_schedule.specs.Digests.{report_digest as the_digest};
    ghost use Rattle.every_outcome.specs.Places.{report_at as the_report, with_says};
    ghost use Rattle.every_outcome.specs.Private.Reduced.{leapt};

    ghost worlds = { λ s. s.places };

    ghost faults = { λ s. s.faults };

    ghost step = { leapt (with_says SAYS) true };

    ghost report = { the_report (with_says SAYS) };

    ghost report_digest = { the_digest };

    ghost most_born = { 1000 };

    ghost bytes = { λ s. s.bytes };

    fn born(&self, world: usize) -> u16 {
        self.worlds[world].born()
    }

    fn enter(&mut self, world: usize, fiber: u16, most: usize) -> Result<Entered, AllocError> {
        match self.worlds[world].after(self.alloc, fiber, true) {
            Ok(next) => self.keep(next, most),
            Err(RunError::Full(band, limit)) => {
                let number = self.faults.note(RunError::Full(band, limit))?;
                Ok(Entered::At(Landing::Fault(number)))
            }
            Err(_) => Err(AllocError),
        }
    }

    fn same_report(&self, one: usize, other: usize) -> bool {
        self.worlds[one].same_report(&self.worlds[other])
    }

    fn report_digest(&self, world: usize) -> u64 {
        self.worlds[world].report_digest()
    }

    fn len(&self) -> usize {
        self.worlds.len()
    }

    fn bytes(&self) -> usize {
        self.bytes
    }
}

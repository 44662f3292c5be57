//! The worlds that a search for claims has found, each with the refs that were set before.
ghost use Rattle.std.specs.Prelude.{◌≡◌, ◌⊎◌, ◌++◌, ◌<◌, ◌≤◌, [], ◌∷◌, ℕ, length, max, true, false};
ghost use Rattle.std.specs.Prelude.{IfErr, IfOk, IfSome, OnErr, OnOk, Some};
ghost use Rattle.std.specs.Prelude.{Ok as GoesWell, Err as Fails};
ghost use Rattle.std.specs.List.{slice_get};
ghost use Rattle.derived_ops.specs.Expansion.{code_of};
ghost use Rattle.derived_ops.specs.Reading.{source_of};
ghost use Rattle.fiber_frames.specs.Fiber.{begins};
ghost use Rattle.fiber_frames.specs.Reached.{Reached};
ghost use Rattle.cell_registry.specs.Cells.{AreLimits};
ghost use Rattle.every_schedule.specs.Claims.{first_view, is_met, viewed};
ghost use Rattle.world_search.specs.Landings.{IsNext};
ghost use Rattle.world_search.specs.Lists.{IsMore};
ghost use Rattle.every_outcome.specs.Places.{first_place};
ghost use Rattle.every_outcome.specs.Private.Keeping.{IsKept};
ghost use Rattle.every_outcome.specs.Private.Reduced.{leapt};

use crate::faults::Faults;
use crate::world::SeenWorld;
use cell_registry::{Limits, RunError};
use effect_term::Program;
use every_schedule::{Claim, Progress, frame_bytes, seen_after};
use std::alloc::{AllocError, Global};
use std::collections::HashMap;
use std::marker::Model;
use world_search::{Claims, Entered, Landing, Worlds};

/// A world, and the refs that were set before, in the order of their first sets.
#[derive(Drop)]
pub(crate) struct ClaimWorld {
    world: SeenWorld<0>,
    seen: Vec<u16>,
}

impl Model for ClaimWorld {
    ghost use Rattle.std.specs.Coded.{codes};
    ghost use Rattle.derived_ops.specs.Stored.{tree_code};
    ghost use Rattle.fiber_frames.specs.contracts.ask.Look as the_look;
    ghost use Rattle.fiber_frames.specs.contracts.mark.Mark as the_mark;
    ghost use Rattle.every_schedule.specs.Claims.{View};

    ghost Value = { View };

    ghost coded = { Prim.hlevel (codes, tree_code, the_look.the_row.coded, the_mark.the_row.coded) };

    ghost view = { λ w. record { place = w.world; seen = w.seen.items } };
}

impl ClaimWorld {
    // The world of a program before the first move.
    fn first(alloc: Global, program: &Program, limits: Limits) -> Result<ClaimWorld, AllocError>
        requires { AreLimits limits }
        ensures first { IfOk result (λ w. w ≡ first_view (first_place false (code_of (source_of program.now)) limits)) }
        ensures reached { IfOk result (λ w. Reached (begins 0 (code_of (source_of program.now)))) }
    {
        let world = SeenWorld::<0>::first(alloc, program, limits)?;
        let seen = Vec::new(alloc);
        Ok(ClaimWorld { world, seen })
    }

    // The world after the entry of a fiber and the own moves that follow, none of which sets or changes a ref.
    fn after(&self, alloc: Global, fiber: u16) -> Result<ClaimWorld, RunError>
        ensures goes { IfOk result (λ w. viewed (leapt false false) self.now fiber ≡ GoesWell w) }
        ensures stops { IfErr result (λ e. (e ≡ RunError.NoMemory) ⊎ (viewed (leapt false false) self.now fiber ≡ Fails e)) }
    {
        let seen = seen_after(alloc, self.seen.as_slice(), self.world.stored_by(fiber))?;
        let world = self.world.after(alloc, fiber, false)?;
        Ok(ClaimWorld { world, seen })
    }

    // The number of fibers that were started. An entry of another fiber changes nothing.
    fn born(&self) -> u16
        ensures rests { (f : ℕ) → result ≤ f → viewed (leapt false false) self.now f ≡ GoesWell self.now }
        ensures most { result ≤ 1000 }
    {
        self.world.born()
    }

    // Whether the world meets a claim, if some fiber can go on.
    fn meets(&self, alloc: Global, claim: &Claim) -> Result<bool, AllocError>
        ensures { IfOk result (λ it. it ≡ is_met Progress.GoesOn self.now claim.now) }
    {
        self.world.meets(alloc, self.seen.as_slice(), claim)
    }

    // Whether two worlds are equal: `true` means that they are. The result can be `false` for equal worlds.
    fn same(&self, other: &ClaimWorld) -> bool
        ensures { result ≡ true → self.now ≡ other.now }
    {
        self.seen.as_slice() == other.seen.as_slice() && self.world.same(&other.world)
    }

    // A number that is the same for worlds that `same` finds equal.
    fn digest(&self) -> u64 {
        let mut digest = self.world.digest();
        for number in self.seen.as_slice() {
            digest = digest.rotate_left(7) ^ u64::from(*number);
        }
        digest
    }

    // The approximate number of bytes that the world takes; `each` is that of the frames of a fiber.
    fn size(&self, each: usize) -> usize {
        self.world
            .size(each)
            .saturating_add(self.seen.len().saturating_mul(2))
    }
}

/// All worlds and faults that were found. `last` has the number of the last world with a digest, and `earlier` names
/// for each world the one before it with the same digest. A lookup follows these numbers and compares the worlds.
#[derive(Drop)]
pub(crate) struct ClaimWorlds {
    alloc: Global,
    worlds: Vec<ClaimWorld>,
    faults: Faults,
    last: HashMap<u64, usize>,
    earlier: Vec<Option<usize>>,
    bytes: usize,
    // The bytes of the frames of a fiber.
    each: usize,
}

impl Model for ClaimWorlds {
    ghost use Rattle.std.specs.Coded.{codes};
    ghost use Rattle.derived_ops.specs.Stored.{tree_code};
    ghost use Rattle.fiber_frames.specs.contracts.ask.Look as the_look;
    ghost use Rattle.fiber_frames.specs.contracts.mark.Mark as the_mark;
    ghost use Rattle.every_outcome.specs.Private.Keeping.{KeptViews};

    ghost Value = { KeptViews };

    ghost coded = { Prim.hlevel (codes, tree_code, the_look.the_row.coded, the_mark.the_row.coded) };

    ghost view = { λ s. record { views = s.worlds.items; faults = s.faults; bytes = s.bytes } };
}

impl ClaimWorlds {
    /// Returns a store with the first world of a program alone.
    pub(crate) fn new(
        alloc: Global,
        program: &Program,
        limits: Limits,
    ) -> Result<ClaimWorlds, AllocError>
        requires { AreLimits limits }
        ensures views { IfOk result (λ s. s.views ≡
            first_view (first_place false (code_of (source_of program.now)) limits) ∷ []) }
        ensures reached { IfOk result (λ _. Reached (begins 0 (code_of (source_of program.now)))) }
    {
        let first = ClaimWorld::first(alloc, program, limits)?;
        let mut all = ClaimWorlds {
            alloc,
            worlds: Vec::new(alloc),
            faults: Faults::new(alloc),
            last: HashMap::new(alloc),
            earlier: Vec::new(alloc),
            bytes: 0,
            each: frame_bytes(program, limits),
        };
        all.file(first)?;
        Ok(all)
    }

    // Adds a world, which gets the next number.
    fn file(&mut self, world: ClaimWorld) -> Result<(), AllocError>
        ensures views { OnOk result (self.new.views ≡ self.old.views ++ world ∷ []) }
        ensures kept { OnErr result (self.new.views ≡ self.old.views) }
        ensures faults { self.new.faults ≡ self.old.faults }
    {
        let before = self.last.insert(world.digest(), self.worlds.len())?;
        self.bytes = self.bytes.saturating_add(world.size(self.each));
        self.earlier.push(before)?;
        self.worlds.push(world)?;
        Ok(())
    }

    // The number of a kept world that `same` finds equal to this world.
    fn find(&self, world: &ClaimWorld) -> Option<usize>
        ensures { IfSome result (λ i. slice_get self.now.views i ≡ Some world.now) }
    {
        let mut next = self.last.get(&world.digest()).copied();
        for _ in 0..self.worlds.len() {
            let place = next?;
            if self.worlds.get(place)?.same(world) {
                return Some(place);
            }
            next = *self.earlier.get(place)?;
        }
        None
    }

    // Adds the world if it is new, unless there are at least `most` worlds already.
    fn keep(&mut self, world: ClaimWorld, most: usize) -> Result<Entered, AllocError>
        ensures faults { self.new.faults ≡ self.old.faults }
        ensures views { OnOk result (IsMore self.old.views self.new.views) }
        ensures kept { IfOk result (λ it. IsKept self.new.views it world) }
        ensures room { OnOk result (length self.new.views ≤ max most (length self.old.views)) }
        ensures next { IfOk result (IsNext (length self.old.views) (length self.new.views) most) }
    {
        if let Some(place) = self.find(&world) {
            return Ok(Entered::At(Landing::World(place)));
        }
        let place = self.worlds.len();
        if place >= most {
            return Ok(Entered::Full);
        }
        self.file(world)?;
        Ok(Entered::At(Landing::World(place)))
    }
}

impl Worlds for ClaimWorlds {
    type World = ClaimWorld;

    type Fault = RunError;

    type Report = ();

    ghost use Rattle.std.specs.Prelude.{false};
    ghost use Rattle.every_schedule.specs.Claims.{viewed};
    ghost use Rattle.every_outcome.specs.Private.Reduced.{leapt};

    ghost worlds = { λ s. s.views };

    ghost faults = { λ s. s.faults };

    ghost step = { viewed (leapt false false) };

    ghost report = { λ v. tt };

    ghost report_digest = { λ r. 0 };

    ghost most_born = { 1000 };

    ghost bytes = { λ s. s.bytes };

    fn born(&self, world: usize) -> u16 {
        self.worlds[world].born()
    }

    fn enter(&mut self, world: usize, fiber: u16, most: usize) -> Result<Entered, AllocError> {
        match self.worlds[world].after(self.alloc, fiber) {
            Ok(next) => self.keep(next, most),
            Err(RunError::Full(band, limit)) => {
                let number = self.faults.note(RunError::Full(band, limit))?;
                Ok(Entered::At(Landing::Fault(number)))
            }
            Err(_) => Err(AllocError),
        }
    }

    fn same_report(&self, one: usize, other: usize) -> bool {
        let _ = &self.worlds[one];
        let _ = &self.worlds[other];
        true
    }

    fn report_digest(&self, world: usize) -> u64 {
        let _ = &self.worlds[world];
        0
    }

    fn len(&self) -> usize {
        self.worlds.len()
    }

    fn bytes(&self) -> usize {
        self.bytes
    }
}

impl Claims for ClaimWorlds {
    type Claim = Claim;

    ghost use Rattle.every_schedule.specs.Claims.{is_met};
    ghost use Rattle.every_schedule.specs.declared.progress.Progress.TheVariants.{GoesOn};

    ghost meets = { is_met GoesOn };

    fn meets(&self, world: usize, claim: &Claim) -> Result<bool, AllocError> {
        self.worlds[world].meets(self.alloc, claim)
    }
}

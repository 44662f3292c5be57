//! The worlds that a search for ends has found, each with a number.
ghost use Rattle.std.specs.Prelude.{◌≡◌, ◌<◌, [], ◌∷◌, length, IfOk, Some};
ghost use Rattle.std.specs.List.{slice_get};
ghost use Rattle.world_search.specs.Landings.{EntersAt};
ghost use Rattle.world_search.specs.Lists.{IsMore};
ghost use Rattle.derived_ops.specs.Expansion.{code_of};
ghost use Rattle.derived_ops.specs.Reading.{source_of};
ghost use Rattle.cell_registry.specs.Cells.{AreLimits};
ghost use Rattle.every_schedule.specs.Places.{Place, first_place, stepped};
ghost use Rattle.every_schedule.specs.Private.Trails.{MakesAtOnce};
ghost use Rattle.every_schedule.specs.Reduced.{hundred_own, leapt};

use crate::core_world::CoreWorld;
use crate::core_worlds::{CoreWorlds, NONE};
use crate::leaping::AtOnce;
use cell_registry::{Limits, RunError};
use effect_term::Program;
use fair_ends::Made;
use scheduled_core::Report;
use std::alloc::{AllocError, Global};
use world_search::{Entered, Worlds};

// The moves that are made at once after an entry: up to 100 own moves of each fiber. Births aren't among them: a birth
// doesn't commute with the first entry of the fiber that it starts, and fair schedules count each entry.
const AT_ONCE: AtOnce = AtOnce {
    rounds: 100,
    most: 1,
    stores: true,
    births: false,
    chosen: false,
};

/// All worlds and faults that were found, where own moves follow each entry at once.
#[derive(Drop)]
pub(crate) struct EndingWorlds {
    alloc: Global,
    pub(crate) worlds: CoreWorlds,
    // The entries that the last step made.
    trail: Vec<u16>,
}

impl EndingWorlds {
    /// Returns the store of the first world of a program.
    pub(crate) fn new(
        alloc: Global,
        program: &Program,
        limits: Limits,
    ) -> Result<EndingWorlds, AllocError>
        requires { AreLimits limits }
        ensures places { IfOk result (λ s. s.worlds.places ≡
            first_place (code_of (source_of program.now)) limits ∷ []) }
        ensures faults { IfOk result (λ s. s.worlds.faults ≡ []) }
    {
        let worlds = CoreWorlds::new(alloc, program, limits)?;
        Ok(EndingWorlds {
            alloc,
            worlds,
            trail: Vec::new(alloc),
        })
    }

    /// Makes the entry of a fiber at a world, then own moves. Returns where they lead, and all these entries.
    pub(crate) fn made(&mut self, world: usize, fiber: u16, most: usize) -> Result<Made, AllocError>
        requires { world < length self.old.worlds.places }
        ensures worlds { IsMore self.old.worlds.places self.new.worlds.places }
        ensures lands { IfOk result (λ it. (p : Place) → slice_get self.old.worlds.places world ≡ Some p →
            EntersAt self.new.worlds.places self.new.worlds.faults it.to (leapt hundred_own p fiber)) }
        ensures makes { IfOk result (λ it. (p : Place) → slice_get self.old.worlds.places world ≡ Some p →
            MakesAtOnce hundred_own p fiber it.entries.items) }
    {
        let mut entries = Vec::new(self.alloc);
        let to = self
            .worlds
            .entry(world, fiber, most, AT_ONCE, &mut entries)?;
        Ok(Made { to, entries })
    }

    /// Makes the entry of a fiber at a world, without own moves after it.
    pub(crate) fn alone(
        &mut self,
        world: usize,
        fiber: u16,
        most: usize,
    ) -> Result<Entered, AllocError>
        requires { world < length self.old.worlds.places }
        ensures worlds { IsMore self.old.worlds.places self.new.worlds.places }
        ensures lands { IfOk result (λ it. (p : Place) → slice_get self.old.worlds.places world ≡ Some p →
            EntersAt self.new.worlds.places self.new.worlds.faults it (stepped p fiber)) }
    {
        self.worlds.entry(world, fiber, most, NONE, &mut self.trail)
    }
}

impl Worlds for EndingWorlds {
    type World = CoreWorld;

    type Fault = RunError;

    type Report = Report;

    ghost use Rattle.every_schedule.specs.Digests.{report_digest as the_digest};
    ghost use Rattle.every_schedule.specs.Places.{report_at as the_report};
    ghost use Rattle.every_schedule.specs.Reduced.{hundred_own, leapt};

    ghost worlds = { λ s. s.worlds.places };

    ghost faults = { λ s. s.worlds.faults };

    ghost step = { leapt hundred_own };

    ghost report = { the_report };

    ghost report_digest = { the_digest };

    ghost most_born = { 1000 };

    ghost bytes = { λ s. s.worlds.bytes };

    fn born(&self, world: usize) -> u16 {
        self.worlds.born_at(world)
    }

    fn enter(&mut self, world: usize, fiber: u16, most: usize) -> Result<Entered, AllocError> {
        self.worlds
            .entry(world, fiber, most, AT_ONCE, &mut self.trail)
    }

    fn same_report(&self, one: usize, other: usize) -> bool {
        self.worlds.same_report(one, other)
    }

    fn report_digest(&self, world: usize) -> u64 {
        self.worlds.report_digest(world)
    }

    fn len(&self) -> usize {
        self.worlds.len()
    }

    fn bytes(&self) -> usize {
        self.worlds.counted()
    }
}

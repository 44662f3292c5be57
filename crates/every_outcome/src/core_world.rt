//! One world of the core.
ghost use Rattle.std.specs.Prelude.{◌≡◌, ◌⊎◌, ℕ, Bool, IfOk, IfErr, OnOk, Some};
ghost use Rattle.std.specs.Prelude.{Ok as GoesWell, Err as Fails};
ghost use Rattle.std.specs.List.{slice_get};
ghost use Rattle.derived_ops.specs.Expansion.{code_of};
ghost use Rattle.derived_ops.specs.Reading.{source_of};
ghost use Rattle.fiber_frames.specs.Fiber.{Fiber, begins};
ghost use Rattle.fiber_frames.specs.Reached.{Reached};
ghost use Rattle.cell_registry.specs.Cells.{AreLimits};
ghost use Rattle.scheduled_core.specs.Fitting.{AllFit};
ghost use Rattle.every_outcome.specs.Places.{first_place, stepped, unmarked_place};
ghost use Rattle.every_outcome.specs.Private.Keeping.{IsFull};

use cell_registry::{Limits, PlainRegistry, RunError};
use effect_term::{Program, facts_of};
use fiber_frames::Config;
use scheduled_core::{enter, first_fibers};
use std::alloc::{AllocError, Global};
use std::marker::Model;

/// The fibers that were started, and the registry that they share.
#[derive(Drop)]
pub(crate) struct CoreWorld {
    fibers: Vec<Config>,
    registry: PlainRegistry,
}

impl Model for CoreWorld {
    ghost use Rattle.std.specs.Coded.{codes};
    ghost use Rattle.derived_ops.specs.Stored.{tree_code};
    ghost use Rattle.fiber_frames.specs.contracts.ask.Look as the_look;
    ghost use Rattle.fiber_frames.specs.contracts.mark.Mark as the_mark;
    ghost use Rattle.scheduled_core.specs.Fitting.{world_of};
    ghost use Rattle.every_outcome.specs.Places.{Place};

    ghost Value = { Place };

    ghost coded = { Prim.hlevel (codes, tree_code, the_look.the_row.coded, the_mark.the_row.coded) };

    ghost view = { λ w. record {
      limits = w.registry.limits;
      world = world_of w.fibers.items w.registry.state;
    } };
}

impl CoreWorld {
    /// The world of a program before the first move.
    pub(crate) fn first(
        alloc: Global,
        program: &Program,
        limits: Limits,
    ) -> Result<CoreWorld, AllocError>
        requires { AreLimits limits }
        ensures first { IfOk result (λ w. (says : Bool) →
            unmarked_place says w ≡ first_place says (code_of (source_of program.now)) limits) }
        ensures fits { IfOk result (λ w. AllFit w.world) }
        ensures reached { IfOk result (λ _. Reached (begins 0 (code_of (source_of program.now)))) }
    {
        let fibers = first_fibers(alloc, program)?;
        facts_of(fibers[0].ask());
        let registry = PlainRegistry::new(
            alloc,
            limits.fibers,
            limits.refs,
            limits.deferreds,
            limits.count,
        )?;
        Ok(CoreWorld { fibers, registry })
    }

    /// Returns a copy of the world.
    pub(crate) fn copy(&self, alloc: Global) -> Result<CoreWorld, AllocError>
        ensures { IfOk result (λ copy. copy ≡ self.now) }
    {
        let fibers = copy_fibers(alloc, self.fibers.as_slice())?;
        let registry = self.registry.copy(alloc)?;
        Ok(CoreWorld { fibers, registry })
    }

    /// Makes the entry of a fiber. [`RunError::NoMemory`] where memory is refused, or where the fiber has used up its
    /// count of changes, which is at most 2^40 - 1. After an error nothing is known of the world.
    pub(crate) fn enter(&mut self, fiber: u16) -> Result<(), RunError>
        requires { AllFit self.old.world }
        ensures fits { OnOk result (AllFit self.new.world) }
        ensures goes { OnOk result ((says : Bool) →
            stepped says (unmarked_place says self.old) fiber ≡ GoesWell (unmarked_place says self.new)) }
        ensures stops { IfErr result (λ e. (e ≡ RunError.NoMemory) ⊎
            ((says : Bool) → stepped says (unmarked_place says self.old) fiber ≡ Fails e)) }
    {
        // The registry is within its limits, and the fiber is reached.
        facts_of(self.registry.limits());
        reaches(self.fibers.as_slice(), fiber);
        match enter(&mut self.fibers, &mut self.registry, fiber) {
            Ok(()) => {}
            Err(fault) => return Err(full_or_memory(fault)),
        }
        Ok(())
    }

    /// The fibers of the world.
    pub(crate) fn fibers(&self) -> &[Config]
        ensures { result.now ≡ self.now.world.fibers }
    {
        self.fibers.as_slice()
    }

    /// The registry of the world.
    pub(crate) fn registry(&self) -> &PlainRegistry
        ensures { result.now ≡ record { limits = self.now.limits; state = self.now.world.cells } }
    {
        &self.registry
    }

    /// The approximate number of bytes that the world takes; `each` is that of the frames of a fiber.
    pub(crate) fn size(&self, each: usize) -> usize {
        let mut size = size_of_registry(self.registry.limits());
        for fiber in self.fibers.iter() {
            let marks = fiber.trace().len().saturating_mul(16);
            let parts = marks.saturating_add(each);
            size = size.saturating_add(parts).saturating_add(FIBER);
        }
        size
    }
}

// The approximate number of bytes that a fiber takes without its marks and its frames.
const FIBER: usize = 480;

// The approximate number of bytes that a registry takes.
fn size_of_registry(limits: Limits) -> usize {
    160 + 32 * limits.fibers as usize + 8 * limits.refs as usize + 16 * limits.deferreds as usize
}

// Returns the fault if the numbers of a band are used up, and `NoMemory` otherwise.
fn full_or_memory(fault: RunError) -> RunError
    ensures { (result ≡ RunError.NoMemory) ⊎ ((result ≡ fault) × IsFull fault) }
{
    match fault {
        RunError::Full(_, _) => fault,
        RunError::Spent(_) | RunError::NoMemory | RunError::Lost(_) | RunError::NoWorker => {
            RunError::NoMemory
        }
    }
}

// Shows that the fiber of this number, if there is one, is reached.
fn reaches(fibers: &[Config], fiber: u16)
    ensures { (g : Fiber) → slice_get fibers.now fiber ≡ Some g → Reached g }
{
    match fibers.get(usize::from(fiber)) {
        None => {}
        Some(it) => facts_of(it.ask()),
    }
}

// Copies the fibers.
fn copy_fibers(alloc: Global, fibers: &[Config]) -> Result<Vec<Config>, AllocError>
    ensures { IfOk result (λ copies. copies.items ≡ fibers.now) }
{
    let mut copies = Vec::with_capacity(alloc, fibers.len())?;
    for fiber in fibers {
        copies.push(fiber.copy(alloc)?)?;
    }
    Ok(copies)
}

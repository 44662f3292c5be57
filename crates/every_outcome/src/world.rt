//! One world of the core, as a search of outcomes sees it.
ghost use Rattle.std.specs.Prelude.{◌≡◌, ◌≢◌, ◌⊎◌, ◌≤◌, ℕ, Bool, map, IfOk, IfErr, true, false};
ghost use Rattle.std.specs.Prelude.{Ok as GoesWell, Err as Fails, None as Nothing};
ghost use Rattle.std.specs.List.{slice_get};
ghost use Rattle.derived_ops.specs.Expansion.{code_of};
ghost use Rattle.derived_ops.specs.Reading.{source_of};
ghost use Rattle.every_schedule.specs.Claims.{is_met, stored_by as the_stored_by};
ghost use Rattle.every_schedule.specs.Digests.{report_digest};
ghost use Rattle.fiber_frames.specs.Fiber.{begins, outcome_of};
ghost use Rattle.fiber_frames.specs.Reached.{Reached};
ghost use Rattle.cell_registry.specs.Cells.{AreLimits};
ghost use Rattle.scheduled_core.specs.Fitting.{AllFit};
ghost use Rattle.every_outcome.specs.Places.{first_place, report_at, unmarked_place, with_says};
ghost use Rattle.every_outcome.specs.Private.Reduced.{leapt};

use crate::core_world::CoreWorld;
use crate::leaping::leap;
use crate::own_moves::stored_by;
use crate::says::{digest_of, reports_of};
use crate::shape::WorldShape;
use cell_registry::{Limits, RunError};
use effect_term::{Program, facts_of};
use every_schedule::{Claim, Progress};
use fiber_frames::Config;
use scheduled_core::{FiberReports, Report, outcome};
use std::alloc::{AllocError, Global};
use std::marker::Model;

/// A world of the core, and its shape. Contracts see the shape. With 1 for `SAYS` the shape has the says of the fibers,
/// with 0 it has no marks.
#[derive(Drop)]
pub(crate) struct SeenWorld<const SAYS: u8> {
    core: CoreWorld,
    shape: WorldShape,
}

impl<const SAYS: u8> Model for SeenWorld<SAYS> {
    ghost use Rattle.std.specs.Prelude.{◌≡◌};
    ghost use Rattle.std.specs.Coded.{codes};
    ghost use Rattle.derived_ops.specs.Stored.{tree_code};
    ghost use Rattle.fiber_frames.specs.contracts.ask.Look as the_look;
    ghost use Rattle.fiber_frames.specs.contracts.mark.Mark as the_mark;
    ghost use Rattle.scheduled_core.specs.Fitting.{AllFit};
    ghost use Rattle.every_outcome.specs.Places.{Place, unmarked_place, with_says};

    ghost Value = { Place };

    ghost coded = { Prim.hlevel (codes, tree_code, the_look.the_row.coded, the_mark.the_row.coded) };

    ghost view = { λ w. unmarked_place (with_says SAYS) w.core };

    ghost invariant = { λ w. AllFit w.core.world × (w.shape ≡ unmarked_place (with_says SAYS) w.core) };
}

impl<const SAYS: u8> SeenWorld<SAYS> {
    /// The world of a program before the first move.
    pub(crate) fn first(
        alloc: Global,
        program: &Program,
        limits: Limits,
    ) -> Result<SeenWorld<SAYS>, AllocError>
        requires { AreLimits limits }
        ensures first { IfOk result (λ w. w ≡ first_place (with_says SAYS) (code_of (source_of program.now)) limits) }
        ensures reached { IfOk result (λ w. Reached (begins 0 (code_of (source_of program.now)))) }
    {
        let core = CoreWorld::first(alloc, program, limits)?;
        SeenWorld::new(alloc, core)
    }

    // Adds the shape to a world.
    fn new(alloc: Global, core: CoreWorld) -> Result<SeenWorld<SAYS>, AllocError>
        requires { AllFit core.world }
        ensures { IfOk result (λ it. it ≡ unmarked_place (with_says SAYS) core) }
    {
        let shape = WorldShape::of(alloc, core.fibers(), core.registry(), SAYS)?;
        Ok(SeenWorld { core, shape })
    }

    /// The number of fibers that were started. An entry of another fiber changes nothing.
    pub(crate) fn born(&self) -> u16
        ensures rests { (stores : Bool) (f : ℕ) → result ≤ f → leapt (with_says SAYS) stores self.now f ≡ GoesWell self.now }
        ensures none { (f : ℕ) → result ≤ f → slice_get self.now.world.fibers f ≡ Nothing }
        ensures most { result ≤ 1000 }
    {
        // The registry is within its limits, and has given each fiber its number.
        facts_of(self.core.registry().limits());
        self.core.fibers().len() as u16
    }

    /// The world after the entry of a fiber and the own moves that follow; `stores` is that of [`leap`].
    /// [`RunError::NoMemory`] where memory is refused, or where a fiber has used up its count of changes, which is at
    /// most 2^40 - 1.
    pub(crate) fn after(
        &self,
        alloc: Global,
        fiber: u16,
        stores: bool,
    ) -> Result<SeenWorld<SAYS>, RunError>
        ensures goes { IfOk result (λ w. leapt (with_says SAYS) stores self.now fiber ≡ GoesWell w) }
        ensures stops { IfErr result (λ e. (e ≡ RunError.NoMemory) ⊎ (leapt (with_says SAYS) stores self.now fiber ≡ Fails e)) }
    {
        let mut next = self.core.copy(alloc)?;
        let mut trail = Vec::new(alloc);
        leap(&mut next, fiber, stores, &mut trail)?;
        Ok(SeenWorld::new(alloc, next)?)
    }

    /// The ref that the next move of a fiber sets or changes, if there is one.
    pub(crate) fn stored_by(&self, fiber: u16) -> Option<u16>
        ensures { result ≡ the_stored_by (slice_get self.now.world.fibers fiber) }
    {
        stored_by(&self.core, fiber)
    }

    /// Whether the world meets a claim, if these refs were set before and some fiber can go on.
    pub(crate) fn meets(
        &self,
        alloc: Global,
        seen: &[u16],
        claim: &Claim,
    ) -> Result<bool, AllocError>
        ensures { IfOk result (λ it. it ≡ is_met Progress.GoesOn record { place = self.now; seen = seen.now } claim.now) }
    {
        let registry = self.core.registry().copy(alloc)?;
        claim.is_met(alloc, registry, Progress::GoesOn, seen)
    }

    /// Whether two worlds are equal: `true` means that they are. The result can be `false` for equal worlds.
    pub(crate) fn same(&self, other: &SeenWorld<SAYS>) -> bool
        ensures { result ≡ true → self.now ≡ other.now }
    {
        self.shape.same(&other.shape)
    }

    /// A number that is the same for worlds that `same` finds equal.
    pub(crate) fn digest(&self) -> u64 {
        self.shape.digest()
    }

    /// Whether two worlds have the same report.
    pub(crate) fn same_report(&self, other: &SeenWorld<SAYS>) -> bool
        ensures yes { result ≡ true → report_at (with_says SAYS) self.now ≡ report_at (with_says SAYS) other.now }
        ensures no { result ≡ false → report_at (with_says SAYS) self.now ≢ report_at (with_says SAYS) other.now }
    {
        if !same_ends(self.core.fibers(), other.core.fibers()) {
            return false;
        }
        self.shape.has_marks_of(&other.shape)
    }

    /// The digest of the world's report.
    pub(crate) fn report_digest(&self) -> u64
        ensures { result ≡ report_digest (report_at (with_says SAYS) self.now) }
    {
        digest_of(self.core.fibers(), SAYS)
    }

    /// The report of the world, with the marks that are kept.
    pub(crate) fn report(&self, alloc: Global) -> Result<Report, AllocError>
        ensures { IfOk result (λ it. it ≡ report_at (with_says SAYS) self.now) }
    {
        let reports = reports_of(alloc, self.core.fibers(), SAYS)?;
        Ok(Report {
            fibers: FiberReports::new(reports),
        })
    }

    /// The approximate number of bytes that the world and its shape take, each half of them; `each` is that of the
    /// frames of a fiber.
    pub(crate) fn size(&self, each: usize) -> usize {
        self.core.size(each).saturating_mul(2)
    }
}

// Whether fibers have the same outcomes.
fn same_ends(one: &[Config], other: &[Config]) -> bool
    ensures yes { result ≡ true → map outcome_of one.now ≡ map outcome_of other.now }
    ensures no { result ≡ false → map outcome_of one.now ≢ map outcome_of other.now }
{
    if one.len() != other.len() {
        return false;
    }
    for (index, fiber) in one.iter().enumerate() {
        if outcome(fiber) != outcome(&other[index]) {
            return false;
        }
    }
    true
}

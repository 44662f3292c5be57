//! A fiber's cell, in the form that the registry for one thread keeps.
ghost use Rattle.std.specs.Prelude.{◌≡◌, ◌+◌, ◌<◌, ◌^◌, map, IfErr, IfOk, Some, None};
ghost use Rattle.cell_registry.specs.Words.{has_ended};
ghost use Rattle.cell_registry.specs.Cells.{awaited, cancel_reply, cut, finished, fresh, join_reply, masked};
ghost use Rattle.cell_registry.specs.Cells.{requested, spent, unawaited, uncounted, unmasked};
ghost use Rattle.cell_registry.specs.declared.cell.Stage.TheVariants.{Ended, Finalizing, Running};
ghost use Rattle.cell_registry.specs.Private.Kept.{has_value};

use crate::limits::CellError;
use crate::phase::Phase;
use crate::sameness::{Same, mixed};
use effect_term::{CancelReply, JoinReply, Outcome, Value};
use std::marker::Model;
use std::mem::size_of;

/// A cell in 24 bytes, which changes in place. With a field of type `Stage` it would have 40, since a stage and its
/// outcome each have a tag. Contracts see a [`Cell`].
#[derive(Clone, Copy)]
pub(crate) struct KeptCell {
    count: u64,
    // What the fiber ended with, if it succeeded or errored.
    value: Value,
    phase: Phase,
    depth: u8,
    request: bool,
    waited: bool,
}

const _: () = prove!(size_of::<KeptCell>() == 24);

impl Model for KeptCell {
    ghost use Rattle.cell_registry.specs.declared.cell.Cell.{Cell};
    ghost use Rattle.cell_registry.specs.Private.Kept.{stage_of};

    ghost Value = { Cell };

    ghost view = { λ k. record {
      stage = stage_of k.phase k.value;
      depth = k.depth;
      request = k.request;
      waited = k.waited;
      count = k.count;
    } };
}

impl KeptCell {
    /// A cell at the opening.
    pub(crate) fn fresh() -> KeptCell
        ensures { result ≡ fresh }
    {
        KeptCell {
            count: 0,
            value: Value::ZERO,
            phase: Phase::Running,
            depth: 0,
            request: false,
            waited: false,
        }
    }

    /// The cell of a fiber that runs.
    pub(crate) fn running(depth: u8, request: bool, waited: bool, count: u64) -> KeptCell
        ensures { result ≡ record {
          stage = Running;
          depth = depth;
          request = request;
          waited = waited;
          count = count;
        } }
    {
        KeptCell {
            count,
            value: Value::ZERO,
            phase: Phase::Running,
            depth,
            request,
            waited,
        }
    }

    /// The fiber finalizes.
    #[inline(always)]
    pub(crate) fn finalize(&mut self)
        ensures { self.new ≡ record self.old { stage = Finalizing } }
    {
        self.phase = Phase::Finalizing;
    }

    /// The fiber has ended with this outcome.
    #[inline(always)]
    pub(crate) fn end(&mut self, outcome: Outcome)
        ensures { self.new ≡ record self.old { stage = Ended outcome } }
    {
        let (phase, value) = Phase::ended(outcome, self.value);
        self.phase = phase;
        self.value = value;
    }

    /// Whether the fiber's cancellation is requested.
    #[inline(always)]
    pub(crate) fn is_requested(&self) -> bool
        ensures { result ≡ self.now.request }
    {
        self.request
    }

    /// Whether the fiber has ended.
    pub(crate) fn has_ended(&self) -> bool
        ensures { result ≡ has_ended self.now.stage }
    {
        match self.phase {
            Phase::Running | Phase::Finalizing => false,
            Phase::Succeeded | Phase::Errored | Phase::Canceled => true,
        }
    }

    // Whether the fiber has ended with a value or an error code.
    fn has_value(&self) -> bool
        ensures { result ≡ has_value self.now.stage }
    {
        match self.phase {
            Phase::Running | Phase::Finalizing | Phase::Canceled => false,
            Phase::Succeeded | Phase::Errored => true,
        }
    }

    /// Requests the fiber's cancellation.
    #[inline(always)]
    pub(crate) fn request(&mut self) -> CancelReply
        ensures cell { self.new ≡ requested self.old }
        ensures reply { result ≡ cancel_reply self.old.stage self.old.request }
    {
        let before = self.request;
        self.request = true;
        match self.phase {
            Phase::Running | Phase::Finalizing => {
                if before {
                    CancelReply::Already
                } else {
                    CancelReply::Asked
                }
            }
            Phase::Succeeded | Phase::Errored | Phase::Canceled => CancelReply::Ended,
        }
    }

    /// Notes that another fiber waits for the fiber's end.
    #[inline(always)]
    pub(crate) fn join(&mut self) -> JoinReply
        ensures cell { self.new ≡ awaited self.old }
        ensures reply { result ≡ join_reply self.old.stage }
    {
        self.waited = true;
        match self.phase {
            Phase::Running | Phase::Finalizing => JoinReply::Waits,
            Phase::Succeeded => JoinReply::Ended(Outcome::Succeeded(self.value)),
            Phase::Errored => JoinReply::Ended(Outcome::Errored(self.value)),
            Phase::Canceled => JoinReply::Ended(Outcome::Canceled),
        }
    }

    /// Forgets whether the fiber was joined.
    #[inline(always)]
    pub(crate) fn forget_wait(&mut self)
        ensures { self.new ≡ unawaited self.old }
    {
        self.waited = false;
    }

    /// Forgets how often its owner has changed it.
    pub(crate) fn forget_count(&mut self)
        ensures { self.new ≡ uncounted self.old }
    {
        self.count = 0;
    }

    /// Refuses if the count of changes is the limit.
    #[inline(always)]
    pub(crate) fn refuse_if_spent(&self, limit: u64) -> Result<(), CellError>
        ensures room { IfOk result (λ _. spent self.now.count limit ≡ None) }
        ensures refused { IfErr result (λ e. spent self.now.count limit ≡ Some e) }
    {
        if self.count == limit {
            return Err(CellError::Spent(self.count));
        }
        Ok(())
    }

    /// Enters a mask.
    #[inline(always)]
    pub(crate) fn mask(&mut self)
        requires depth { self.old.depth < 255 }
        requires count { self.old.count + 1 < 2 ^ 64 }
        ensures { self.new ≡ masked self.old }
    {
        self.depth += 1;
        self.count += 1;
    }

    /// Leaves a mask.
    #[inline(always)]
    pub(crate) fn unmask(&mut self)
        requires depth { 0 < self.old.depth }
        requires count { self.old.count + 1 < 2 ^ 64 }
        ensures { self.new ≡ unmasked self.old }
    {
        self.depth -= 1;
        self.count += 1;
    }

    /// Observes the request, and enters the mask of the finalizers.
    #[inline(always)]
    pub(crate) fn cut(&mut self)
        requires depth { self.old.depth ≡ 0 }
        requires count { self.old.count + 1 < 2 ^ 64 }
        ensures { self.new ≡ cut self.old }
    {
        self.finalize();
        self.depth = 1;
        self.count += 1;
    }

    /// Ends the fiber.
    #[inline(always)]
    pub(crate) fn finish(&mut self, outcome: Outcome)
        requires { self.old.count + 1 < 2 ^ 64 }
        ensures { self.new ≡ finished outcome self.old }
    {
        self.end(outcome);
        self.count += 1;
    }
}

/// Forgets of each of these cells whether its fiber was joined.
pub(crate) fn forget_waits(cells: &mut Vec<KeptCell>)
    ensures { cells.new.items ≡ map unawaited cells.old.items }
{
    forget_each(cells.as_mut_slice());
}

// The same for a slice of cells.
fn forget_each(cells: &mut [KeptCell])
    ensures { cells.new ≡ map unawaited cells.old }
{
    for cell in cells.iter_mut() {
        cell.forget_wait();
    }
}

/// Forgets of each of these cells how often its owner has changed it.
pub(crate) fn forget_counts(cells: &mut Vec<KeptCell>)
    ensures { cells.new.items ≡ map uncounted cells.old.items }
{
    forget_each_count(cells.as_mut_slice());
}

// The same for a slice of cells.
fn forget_each_count(cells: &mut [KeptCell])
    ensures { cells.new ≡ map uncounted cells.old }
{
    for cell in cells.iter_mut() {
        cell.forget_count();
    }
}

impl Same for KeptCell {
    fn same(&self, other: &KeptCell) -> bool {
        self.count == other.count
            && self.phase == other.phase
            && self.depth == other.depth
            && self.request == other.request
            && self.waited == other.waited
            && (!self.has_value() || self.value.same(&other.value))
    }

    fn mixed_into(&self, digest: u64) -> u64 {
        let bits = u64::from(self.request) + 2 * u64::from(self.waited);
        let word = (self.phase as u64) << 16 | u64::from(self.depth) << 8 | bits;
        let digest = mixed(digest, word);
        self.value.mixed_into(mixed(digest, self.count))
    }
}

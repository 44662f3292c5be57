//! The calls by which a fiber changes its own cell: masks, its cut, and its end.
ghost use Rattle.std.specs.Prelude.{◌≡◌, ◌≢◌, ◌+◌, ◌-◌, ◌<◌, IfErr, IfOk, true};
ghost use Rattle.control_word.specs.Word.{bit};
ghost use Rattle.cell_registry.specs.declared.limits.CellError.TheVariants.{Spent};
ghost use Rattle.cell_registry.specs.declared.call.Call.TheVariants as call;
ghost use Rattle.cell_registry.specs.declared.cell.Stage.TheVariants as at;
ghost use Rattle.cell_registry.specs.Cells.{IsOpen, MayFinish, MayUnmask};
ghost use Rattle.cell_registry.specs.Cancellation.{CutsAfterCancel};
ghost use Rattle.cell_registry.specs.Words.{phase_at};
ghost use Rattle.cell_registry.specs.Passes.{Changes, IsOf, IsPass, IsSpent};

use crate::cell::Stage;
use crate::limits::CellError;
use crate::pass::Pass;
use crate::phase::Phase;
use crate::registry::Registry;
use crate::rule;
use crate::words::{cell_place, outcome_word, value_place};
use control_word::{cut_amount, finish_amount, mask_amount, unmask_amount};
use effect_term::Outcome;

// Refuses if the count of changes is the limit.
fn refuse_if_spent(count: u64, limit: u64) -> Result<(), CellError>
    ensures room { IfOk result (λ _. count ≢ limit) }
    ensures spent { IfErr result (λ e. (e ≡ Spent count) × (count ≡ limit)) }
{
    if count == limit {
        return Err(CellError::Spent(count));
    }
    Ok(())
}

fn is_finalizing(stage: Stage) -> bool
    requires open { IsOpen stage }
    ensures phase { phase_at stage ≡ bit result }
{
    match stage {
        Stage::Running => false,
        Stage::Finalizing => true,
        Stage::Ended(_) => unreachable!(),
    }
}

/// Each call adds 1 to the count of the caller's changes. The call returns `Spent(count)` exactly if the count is the
/// limit, and then changes nothing: the pass is as it was, and nothing was stored in the fiber's value word.
impl Registry {
    /// Enters a mask, as in Cats Effect 3's `MonadCancel`. The fiber hasn't ended, and is in fewer than 255 masks.
    pub fn mask(&self, pass: &mut Pass) -> Result<(), CellError>
        requires own { IsOf self.now pass.old }
        requires open { IsOpen pass.old.stage }
        requires depth { pass.old.depth < 255 }
        ensures lawful { IsPass pass.new }
        ensures masked { IfOk result (λ _. Changes pass.old call.Mask pass.old.stage (pass.old.depth + 1) pass.new) }
        ensures spent { IfErr result (λ e. IsSpent pass.old e pass.new) }
    {
        refuse_if_spent(pass.count, self.limits.count)?;
        self.table
            .shared
            .fetch_add::<rule::Masks>(&mut pass.seat, cell_place(pass.number), mask_amount());
        pass.depth += 1;
        pass.count += 1;
        Ok(())
    }

    /// Leaves a mask. The fiber hasn't ended, and is in a mask; while it finalizes, in one besides that of its cut.
    pub fn unmask(&self, pass: &mut Pass) -> Result<(), CellError>
        requires own { IsOf self.now pass.old }
        requires masked { MayUnmask pass.old.stage pass.old.depth }
        ensures lawful { IsPass pass.new }
        ensures unmasked { IfOk result (λ _. Changes pass.old call.Unmask pass.old.stage (pass.old.depth - 1)
            pass.new) }
        ensures spent { IfErr result (λ e. IsSpent pass.old e pass.new) }
    {
        refuse_if_spent(pass.count, self.limits.count)?;
        self.table
            .shared
            .fetch_sub::<rule::Unmasks>(&mut pass.seat, cell_place(pass.number), unmask_amount());
        pass.depth -= 1;
        pass.count += 1;
        Ok(())
    }

    /// Observes the request for cancellation: the fiber becomes finalizing, in one mask. The fiber is running and
    /// unmasked, and its last look saw the request.
    pub fn cut(&self, pass: &mut Pass) -> Result<(), CellError>
        requires own { IsOf self.now pass.old }
        requires running { pass.old.stage ≡ at.Running }
        requires unmasked { pass.old.depth ≡ 0 }
        requires requested { pass.old.saw ≡ true }
        ensures lawful { IsPass pass.new }
        ensures cut { IfOk result (λ _. Changes pass.old call.Cut at.Finalizing 1 pass.new) }
        ensures after_cancel { IfOk result (λ _. CutsAfterCancel pass.new.seen) }
        ensures spent { IfErr result (λ e. IsSpent pass.old e pass.new) }
    {
        refuse_if_spent(pass.count, self.limits.count)?;
        self.table
            .shared
            .fetch_add::<rule::Cuts>(&mut pass.seat, cell_place(pass.number), cut_amount());
        pass.phase = Phase::Finalizing;
        pass.depth = 1;
        pass.count += 1;
        Ok(())
    }

    /// Ends the fiber. A running fiber is unmasked and doesn't end as canceled; a finalizing fiber is in the mask of
    /// its cut only, and ends as canceled. The outcome's number is stored in the fiber's value word first, which no
    /// other fiber reads before the end.
    pub fn finish(&self, pass: &mut Pass, outcome: Outcome) -> Result<(), CellError>
        requires own { IsOf self.now pass.old }
        requires may { MayFinish pass.old.stage pass.old.depth outcome }
        ensures lawful { IsPass pass.new }
        ensures ended { IfOk result (λ _. Changes pass.old (call.Finish outcome) (at.Ended outcome) pass.old.depth
            pass.new) }
        ensures spent { IfErr result (λ e. IsSpent pass.old e pass.new) }
    {
        let value = outcome_word(&outcome);
        refuse_if_spent(pass.count, self.limits.count)?;
        let place = value_place(self.limits, pass.number);
        let amount = finish_amount(is_finalizing(pass.phase.stage(pass.value)), outcome);
        self.table
            .shared
            .store::<rule::Stores>(&mut pass.seat, place, value);
        self.table
            .shared
            .fetch_add::<rule::Finishes>(&mut pass.seat, cell_place(pass.number), amount);
        let (phase, value) = Phase::ended(outcome, pass.value);
        pass.phase = phase;
        pass.value = value;
        pass.count += 1;
        Ok(())
    }
}

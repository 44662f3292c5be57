//! The outcomes of a program, and its outcomes and says, with schedules within the bounds.
ghost use Rattle.std.specs.Prelude.{◌<◌, IfOk};
ghost use Rattle.std.specs.List.{All};
ghost use Rattle.derived_ops.specs.Expansion.{code_of};
ghost use Rattle.derived_ops.specs.Reading.{source_of};
ghost use Rattle.outcome_answers.specs.OutcomesFound.{IsOutcomesOf};
ghost use Rattle.outcome_answers.specs.SaysFound.{IsSaysOf};

use crate::shortening::short_says;
use effect_term::Program;
use every_outcome::{OutcomeExploration, Watcher, explore_outcomes, explore_says, shortened};
use every_schedule::Exploration;
use exploration_text::ExploreOrder;
use std::alloc::{AllocError, Global};

/// The outcomes that the fibers of a program can have under every schedule, within the limits and bounds of an order.
///
/// An answer whose schedule has more entries than the bounds allow is left out; then the exploration isn't complete.
/// `AllocError` if memory ran out.
pub fn find_outcomes<V: Watcher>(
    alloc: Global,
    program: &Program,
    order: &ExploreOrder,
    watcher: &mut V,
) -> Result<OutcomeExploration, AllocError>
    ensures found { IfOk result (IsOutcomesOf (code_of (source_of program.now)) order.now.limits order.now.bounds
        (V.can_stop watcher.old)) }
    ensures numbers { IfOk result (λ it. All (λ a. All (λ f. f < 1000) a.schedule) it.answers.items) }
{
    let Ok(found) = explore_outcomes(alloc, program, order.limits, order.bounds, watcher) else {
        return Err(AllocError);
    };
    Ok(shortened(found, order.bounds.entries))
}

/// The outcomes and *says* that the fibers of a program can have under every schedule, within the limits and bounds of
/// an order. The says of a fiber are the values that it said, and the codes that were dropped. The reports of the
/// answers have no other marks.
///
/// An answer whose schedule has more entries than the bounds allow is left out; then the exploration isn't complete.
/// `AllocError` if memory ran out.
pub fn find_says<V: Watcher>(
    alloc: Global,
    program: &Program,
    order: &ExploreOrder,
    watcher: &mut V,
) -> Result<Exploration, AllocError>
    ensures found { IfOk result (IsSaysOf (code_of (source_of program.now)) order.now.limits order.now.bounds
        (V.can_stop watcher.old)) }
    ensures numbers { IfOk result (λ it. All (λ a. All (λ f. f < 1000) a.schedule) it.answers) }
{
    let Ok(found) = explore_says(alloc, program, order.limits, order.bounds, watcher) else {
        return Err(AllocError);
    };
    let kept = short_says(alloc, &found, order.bounds.entries)?;
    Ok(kept)
}

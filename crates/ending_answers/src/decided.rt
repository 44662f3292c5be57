//! An exploration of a program, with the decision on its fair schedules.
ghost use Rattle.std.specs.Prelude.{◌≡◌, ◌<◌, ◌≤◌, ◌⊎◌, ℕ, IfOk, length, true};
ghost use Rattle.std.specs.List.{All};
ghost use Rattle.derived_ops.specs.Expansion.{code_of};
ghost use Rattle.derived_ops.specs.Reading.{source_of};
ghost use Rattle.exploration_text.specs.ExplorationText.{IsSpellable};
ghost use Rattle.exploration_text.specs.ExploreAnswers.{IsExplorationOf};
ghost use Rattle.ending_answers.specs.Decisions.{IsEndingOf, IsShort};

use effect_term::Program;
use every_schedule::{Cycle, Ending, Exploration, Watcher, explore_ends, explore_watched};
use exploration_text::ExploreOrder;
use std::alloc::{AllocError, Global};

/// An exploration of a program, and whether every fair schedule of the program ends.
#[derive(Drop)]
pub struct Decided {
    /// The exploration.
    pub exploration: Exploration,
    /// Whether every fair schedule ends. It is undecided if the exploration isn't complete.
    pub ending: Ending,
}

/// Explores a program. If the exploration is complete, decides whether every fair schedule ends.
///
/// Both searches are within the bounds of the order. If the second one meets a bound, or the two schedules of a cycle
/// have together more entries than a schedule can have, the ending is undecided. `AllocError` if memory ran out.
pub fn decide<V: Watcher>(
    alloc: Global,
    program: &Program,
    order: &ExploreOrder,
    watcher: &mut V,
) -> Result<Decided, AllocError>
    ensures explored { IfOk result (λ it. IsExplorationOf (code_of (source_of program.now)) order.now.limits
        order.now.bounds (V.can_stop watcher.old) it.exploration) }
    ensures spellable { IfOk result (λ it. All IsSpellable it.exploration.answers) }
    ensures ending { IfOk result (λ it. IsEndingOf (code_of (source_of program.now)) order.now.limits it.ending) }
    ensures short { IfOk result (λ it. IsShort order.now.bounds.entries it.ending) }
{
    let Ok(exploration) = explore_watched(alloc, program, order.limits, order.bounds, &mut *watcher)
    else {
        return Err(AllocError);
    };
    let ending = ending_of(alloc, program, order, exploration.complete, watcher)?;
    Ok(Decided {
        exploration,
        ending,
    })
}

// Whether every fair schedule of a program ends. It is undecided if the exploration isn't complete.
fn ending_of<V: Watcher>(
    alloc: Global,
    program: &Program,
    order: &ExploreOrder,
    complete: bool,
    watcher: &mut V,
) -> Result<Ending, AllocError>
    ensures ending { IfOk result (IsEndingOf (code_of (source_of program.now)) order.now.limits) }
    ensures short { IfOk result (IsShort order.now.bounds.entries) }
{
    if !complete {
        return Ok(Ending::Undecided);
    }
    let Ok(ending) = explore_ends(alloc, program, order.limits, order.bounds, watcher) else {
        return Err(AllocError);
    };
    Ok(shortened(ending, order.bounds.entries))
}

// The same ending, but undecided if its schedules have together more than `entries` entries.
fn shortened(ending: Ending, entries: usize) -> Ending
    ensures same { (result ≡ ending) ⊎ (result ≡ Ending.Undecided) }
    ensures short { IsShort entries result }
{
    match ending {
        Ending::Ends => Ending::Ends,
        Ending::Repeats(cycle) => {
            if is_short(&cycle, entries) {
                Ending::Repeats(cycle)
            } else {
                Ending::Undecided
            }
        }
        Ending::Undecided => Ending::Undecided,
    }
}

// Whether the schedules of a cycle have only numbers of fibers, and together at most `entries` entries.
fn is_short(cycle: &Cycle, entries: usize) -> bool
    ensures stem { result ≡ true → All (λ f. f < 1000) cycle.now.stem.items }
    ensures cycle { result ≡ true → All (λ f. f < 1000) cycle.now.cycle.items }
    ensures stem_short { result ≡ true → length cycle.now.stem.items ≤ entries }
    ensures cycle_short { result ≡ true → length cycle.now.cycle.items ≤ entries }
{
    let stem = cycle.stem.as_slice();
    let again = cycle.cycle.as_slice();
    stem.len() <= entries
        && again.len() <= entries - stem.len()
        && are_fibers(stem)
        && are_fibers(again)
}

// Whether each entry is the number of a fiber.
fn are_fibers(schedule: &[u16]) -> bool
    ensures { result ≡ true → All (λ f. f < 1000) schedule.now }
{
    schedule.iter().all(|fiber| *fiber < 1000)
}

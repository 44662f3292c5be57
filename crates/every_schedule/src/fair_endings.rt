//! Whether every fair schedule of a program ends.
ghost use Rattle.std.specs.Prelude.{◌≡◌, ℕ, IfErr, IfOk};
ghost use Rattle.derived_ops.specs.Expansion.{code_of};
ghost use Rattle.derived_ops.specs.Reading.{source_of};
ghost use Rattle.cell_registry.specs.Cells.{AreLimits};
ghost use Rattle.fair_ends.specs.declared.ending.Cycle.{Cycle as TheCycle};
ghost use Rattle.fair_ends.specs.Fair.{IsFair};
ghost use Rattle.every_schedule.specs.Fairness.{Ends, IsForever};

use crate::ending_worlds::EndingWorlds;
use cell_registry::{Limits, RunError};
use effect_term::Program;
use fair_ends::{Ending, decide_ends};
use std::alloc::Global;
use world_search::{Bounds, Watcher};

/// Decides whether every fair schedule of a program ends: in a fault, or in a final world, where each fiber has ended
/// or rests at a wait that nothing can end.
///
/// Schedules are infinite here. A schedule is fair if each fiber has entries again and again; an entry of a fiber that
/// waits or has ended changes nothing. A deadlock is an end. An endless loop isn't, with or without new marks; nor is a
/// loop that an entry at the right moment would end, if a fair schedule can miss that moment for ever.
///
/// [`Ending::Repeats`] has the entries to a cycle and the entries of the cycle: `replay` takes the first, then the
/// others any number of times. The search makes own moves at once, as [`explore`](crate::explore) does; the promise is
/// about schedules in which each entry is one move. [`Ending::Undecided`] is returned at the bound on worlds or on
/// memory, if the watcher ends the search, or if a check fails; the bound on entries isn't used. The limits are in
/// their ranges ([`Limits`]). [`RunError::NoMemory`] is the only error.
///
/// ```
/// let program = Program::check(alloc, parse(alloc, b"(race (pure 4) (never))")?)?;
/// let ending = explore_ends(alloc, &program, limits, bounds, &mut Unwatched)?;
/// assert!(matches!(ending, Ending::Ends));
/// ```
pub fn explore_ends<V: Watcher>(
    alloc: Global,
    program: &Program,
    limits: Limits,
    bounds: Bounds,
    watcher: &mut V,
) -> Result<Ending, RunError>
    requires limits { AreLimits limits }
    ensures ends { IfOk result (λ it. it ≡ Ending.Ends → (schedule : ℕ → ℕ) → IsFair 1000 schedule →
        Ends (code_of (source_of program.now)) limits schedule) }
    ensures repeats { IfOk result (λ it. (c : TheCycle) → it ≡ Ending.Repeats c →
        IsForever (code_of (source_of program.now)) limits c.stem.items c.cycle.items) }
    ensures watches { V.can_stop watcher.new ≡ V.can_stop watcher.old }
    ensures memory { IfErr result (λ e. e ≡ RunError.NoMemory) }
{
    let mut worlds = EndingWorlds::new(alloc, program, limits)?;
    let ending = decide_ends(alloc, &mut worlds, bounds, watcher)?;
    Ok(ending)
}

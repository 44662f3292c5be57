//! Lists the outcomes that a program can have under every schedule.
ghost use Rattle.std.specs.Prelude.{◌≡◌, ◌<◌, ◌≤◌, ℕ, List, max, IfOk, IfErr, true, false};
ghost use Rattle.std.specs.Prelude.{Ok as GoesWell};
ghost use Rattle.std.specs.List.{All};
ghost use Rattle.derived_ops.specs.Expansion.{code_of};
ghost use Rattle.derived_ops.specs.Reading.{source_of};
ghost use Rattle.cell_registry.specs.Cells.{AreLimits};
ghost use Rattle.scheduled_core.specs.Core.{World, core};
ghost use Rattle.scheduled_core.specs.Finals.{IsSettled};
ghost use Rattle.world_search.specs.Answers.{IsAtBound};
ghost use Rattle.every_outcome.specs.Outcomes.{IsCovered, IsListed, IsReached, ListOnce, counted};
ghost use Rattle.every_outcome.specs.Outcomes.{outcomes};

use crate::bare_answers::bare_answers;
use crate::outcomes::OutcomeExploration;
use crate::reporting::search_reports;
use cell_registry::{Limits, RunError};
use effect_term::Program;
use std::alloc::Global;
use world_search::{Bounds, Watcher};

/// Lists the outcomes that a program can have under every schedule and every count of changes: the outcomes that no
/// further entry changes, and the bands of numbers that can be used up. Each comes with a schedule that leads to it.
///
/// A complete exploration lists each [`RunError::Full`], the outcomes of every settled world (`settled`), and the
/// outcomes of each world that a schedule leads to, if no further entries change them under any count (`all`). If the
/// exploration isn't complete, it met the bound on worlds or on bytes, it has more worlds than the bound on entries, or
/// the watcher ended it; each answer is still right (`each`). A loop that says a value in each turn has outcomes that
/// stay, but no settled report.
///
/// The bound on entries counts those of the search, each of which can have further moves after it. The schedule of an
/// answer has every move as an entry, so it can be longer than the bound.
///
/// Worlds count as one if they differ only in the marks of fibers, the numbers of masks, the counts of changes, and the
/// notes of who was joined. So the count of the limits has no effect, and no answer is [`RunError::Spent`]. The
/// schedule of an answer leads to it under each count that is at least the number of its entries.
///
/// No outcomes and no fault are listed twice. The limits are in their ranges ([`Limits`]); a world takes memory for
/// each fiber, ref and deferred that they allow. [`RunError::NoMemory`] is the only error.
pub fn explore_outcomes<V: Watcher>(
    alloc: Global,
    program: &Program,
    limits: Limits,
    bounds: Bounds,
    watcher: &mut V,
) -> Result<OutcomeExploration, RunError>
    requires limits { AreLimits limits }
    ensures all { IfOk result (λ it. it.complete ≡ true → (count : ℕ) (schedule : List ℕ) →
        IsCovered limits it.answers.items (core (code_of (source_of program.now)) (counted limits count) schedule)) }
    ensures settled { IfOk result (λ it. it.complete ≡ true → (count : ℕ) (schedule : List ℕ) (w : World) →
        core (code_of (source_of program.now)) (counted limits count) schedule ≡ GoesWell w →
        IsSettled (counted limits count) w → IsListed it.answers.items (outcomes (GoesWell w))) }
    ensures each { IfOk result (λ it. All (IsReached (code_of (source_of program.now)) limits) it.answers.items) }
    ensures once { IfOk result (λ it. ListOnce it.answers.items) }
    ensures stopped { IfOk result (λ it. it.complete ≡ false → it.halted ≡ false →
        IsAtBound bounds it.worlds it.bytes) }
    ensures halted { IfOk result (λ it. it.halted ≡ true → V.has_stopped watcher.new ≡ true) }
    ensures may { IfOk result (λ it. it.halted ≡ true → V.can_stop watcher.old ≡ true) }
    ensures apart { IfOk result (λ it. it.complete ≡ true → it.halted ≡ false) }
    ensures room { IfOk result (λ it. it.worlds ≤ max bounds.worlds 1) }
    ensures spare { IfOk result (λ it. it.complete ≡ true → it.bytes < bounds.memory) }
    ensures numbers { IfOk result (λ it. All (λ a. All (λ f. f < 1000) a.schedule) it.answers.items) }
    ensures memory { IfErr result (λ e. e ≡ RunError.NoMemory) }
{
    let found = search_reports::<0, V>(alloc, program, limits, bounds, watcher)?;
    let answers = bare_answers(alloc, found.answers.as_slice())?;
    Ok(OutcomeExploration {
        answers,
        worlds: found.worlds,
        bytes: found.bytes,
        complete: found.complete,
        halted: found.halted,
    })
}

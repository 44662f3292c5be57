//! Lists the outcomes and says that a program can have under every schedule.
ghost use Rattle.std.specs.Prelude.{◌≡◌, ◌<◌, ◌≤◌, ℕ, List, max, IfOk, IfErr, true, false};
ghost use Rattle.std.specs.Prelude.{Ok as GoesWell};
ghost use Rattle.std.specs.List.{All};
ghost use Rattle.derived_ops.specs.Expansion.{code_of};
ghost use Rattle.derived_ops.specs.Reading.{source_of};
ghost use Rattle.cell_registry.specs.Cells.{AreLimits};
ghost use Rattle.scheduled_core.specs.Core.{World, core};
ghost use Rattle.scheduled_core.specs.Finals.{IsSettled};
ghost use Rattle.world_search.specs.Answers.{IsAtBound};
ghost use Rattle.every_schedule.specs.Explored.{IsListed, ListOnce};
ghost use Rattle.every_outcome.specs.Outcomes.{counted};
ghost use Rattle.every_outcome.specs.Reports.{IsReported, Reaches, reports};

use crate::reporting::search_reports;
use cell_registry::{Limits, RunError};
use effect_term::Program;
use every_schedule::Exploration;
use std::alloc::Global;
use world_search::{Bounds, Watcher};

/// Lists the outcomes and *says* that a program can have under every schedule and every count of changes. The says of a
/// fiber are its marks of two kinds: the values that it said ([`Mark::Say`](fiber_frames::Mark::Say)), and the codes
/// that were dropped ([`Mark::Dropped`](fiber_frames::Mark::Dropped)). The reports of the answers have no other marks.
///
/// A complete exploration lists each [`RunError::Full`], the outcomes and says of every settled world (`settled`), and
/// those of each world that a schedule leads to, if no further entries change them under any count (`all`). Each answer
/// comes with a schedule that leads to it (`each`), and no two are equal (`once`). If the exploration isn't complete, it
/// met the bound on worlds or on bytes, it has more worlds than the bound on entries, or the watcher ended it.
///
/// Worlds count as one if they differ only in other marks of fibers, the numbers of masks, the counts of changes, and
/// the notes of who was joined. So a loop with masks and brackets in it leads back to a known world, unless it says
/// something: then no world is met twice.
///
/// The bound on entries, the count of the limits and the limits themselves are as in
/// [`explore_outcomes`](crate::explore_outcomes). [`RunError::NoMemory`] is the only error.
pub fn explore_says<V: Watcher>(
    alloc: Global,
    program: &Program,
    limits: Limits,
    bounds: Bounds,
    watcher: &mut V,
) -> Result<Exploration, RunError>
    requires limits { AreLimits limits }
    ensures all { IfOk result (λ it. it.complete ≡ true → (count : ℕ) (schedule : List ℕ) →
        IsReported true limits it.answers (core (code_of (source_of program.now)) (counted limits count) schedule)) }
    ensures settled { IfOk result (λ it. it.complete ≡ true → (count : ℕ) (schedule : List ℕ) (w : World) →
        core (code_of (source_of program.now)) (counted limits count) schedule ≡ GoesWell w →
        IsSettled (counted limits count) w → IsListed it.answers (reports true (GoesWell w))) }
    ensures each { IfOk result (λ it.
        All (Reaches true (code_of (source_of program.now)) limits) it.answers) }
    ensures once { IfOk result (λ it. ListOnce it.answers) }
    ensures stopped { IfOk result (λ it. it.complete ≡ false → it.halted ≡ false →
        IsAtBound bounds it.worlds it.bytes) }
    ensures halted { IfOk result (λ it. it.halted ≡ true → V.has_stopped watcher.new ≡ true) }
    ensures may { IfOk result (λ it. it.halted ≡ true → V.can_stop watcher.old ≡ true) }
    ensures apart { IfOk result (λ it. it.complete ≡ true → it.halted ≡ false) }
    ensures room { IfOk result (λ it. it.worlds ≤ max bounds.worlds 1) }
    ensures spare { IfOk result (λ it. it.complete ≡ true → it.bytes < bounds.memory) }
    ensures numbers { IfOk result (λ it. All (λ a. All (λ f. f < 1000) a.schedule) it.answers) }
    ensures memory { IfErr result (λ e. e ≡ RunError.NoMemory) }
{
    search_reports::<1, V>(alloc, program, limits, bounds, watcher)
}

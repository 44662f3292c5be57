//! Lists the reports that a program can have under every schedule, with the marks that a search keeps.
ghost use Rattle.std.specs.Prelude.{◌≡◌, ◌<◌, ◌≤◌, ◌++◌, ℕ, List, [], ◌∷◌, max, IfOk, IfErr, OnOk, true, false};
ghost use Rattle.std.specs.Prelude.{Ok as GoesWell};
ghost use Rattle.std.specs.List.{All};
ghost use Rattle.derived_ops.specs.Expansion.{code_of};
ghost use Rattle.derived_ops.specs.Reading.{source_of};
ghost use Rattle.cell_registry.specs.Cells.{AreLimits};
ghost use Rattle.scheduled_core.specs.Core.{World, core};
ghost use Rattle.scheduled_core.specs.Finals.{IsSettled};
ghost use Rattle.world_search.specs.Answers.{IsAtBound};
ghost use Rattle.every_schedule.specs.Explored.{IsListed, ListOnce};
ghost use Rattle.every_outcome.specs.Outcomes.{counted};
ghost use Rattle.every_outcome.specs.Places.{first_place, with_says};
ghost use Rattle.every_outcome.specs.Private.Keeping.{AreSingle};
ghost use Rattle.every_outcome.specs.Private.Telling.{AreTold, IsEnd, IsTold, IsWithin};
ghost use Rattle.every_outcome.specs.Reports.{IsReported, Reaches, reports};

use crate::unfolding::unfold;
use crate::worlds::SeenWorlds;
use cell_registry::{Limits, RunError};
use effect_term::{Program, facts_of};
use every_schedule::{Answer, Answers, Exploration, Schedule};
use scheduled_core::Report;
use std::alloc::{AllocError, Global};
use world_search::{Bounds, Landing, Watcher, search};

/// Lists the reports that a program can have under every schedule and every count of changes, with the marks that the
/// search keeps: with 1 for `SAYS` the says, with 0 none.
pub(crate) fn search_reports<const SAYS: u8, V: Watcher>(
    alloc: Global,
    program: &Program,
    limits: Limits,
    bounds: Bounds,
    watcher: &mut V,
) -> Result<Exploration, RunError>
    requires limits { AreLimits limits }
    ensures all { IfOk result (λ it. it.complete ≡ true → (count : ℕ) (schedule : List ℕ) →
        IsReported (with_says SAYS) limits it.answers (core (code_of (source_of program.now)) (counted limits count) schedule)) }
    ensures settled { IfOk result (λ it. it.complete ≡ true → (count : ℕ) (schedule : List ℕ) (w : World) →
        core (code_of (source_of program.now)) (counted limits count) schedule ≡ GoesWell w →
        IsSettled (counted limits count) w → IsListed it.answers (reports (with_says SAYS) (GoesWell w))) }
    ensures each { IfOk result (λ it.
        All (Reaches (with_says SAYS) (code_of (source_of program.now)) limits) it.answers) }
    ensures once { IfOk result (λ it. ListOnce it.answers) }
    ensures stopped { IfOk result (λ it. it.complete ≡ false → it.halted ≡ false →
        IsAtBound bounds it.worlds it.bytes) }
    ensures halted { IfOk result (λ it. it.halted ≡ true → V.has_stopped watcher.new ≡ true) }
    ensures may { IfOk result (λ it. it.halted ≡ true → V.can_stop watcher.old ≡ true) }
    ensures apart { IfOk result (λ it. it.complete ≡ true → it.halted ≡ false) }
    ensures room { IfOk result (λ it. it.worlds ≤ max bounds.worlds 1) }
    ensures spare { IfOk result (λ it. it.complete ≡ true → it.bytes < bounds.memory) }
    ensures numbers { IfOk result (λ it. All (λ a. All (λ f. f < 1000) a.schedule) it.answers) }
    ensures memory { IfErr result (λ e. e ≡ RunError.NoMemory) }
{
    // The count has no effect on the answers. The search uses the greatest one, which no fiber uses up.
    let explored = Limits {
        count: GREATEST_COUNT,
        ..limits
    };
    let mut worlds = SeenWorlds::<SAYS>::new(alloc, program, explored)?;
    let found = search(alloc, &mut worlds, bounds, watcher)?;
    let answers = told(alloc, program, explored, &worlds, found.answers)?;
    Ok(Exploration {
        answers: Answers::new(answers),
        worlds: found.worlds,
        bytes: found.bytes,
        complete: found.complete,
        halted: found.halted,
    })
}

/// The greatest count that limits can have.
pub(crate) const GREATEST_COUNT: u64 = (1 << 40) - 1;

// The answers of a search, each with its report or fault.
fn told<const SAYS: u8>(
    alloc: Global,
    program: &Program,
    limits: Limits,
    worlds: &SeenWorlds<SAYS>,
    found: Vec<world_search::Answer>,
) -> Result<Vec<Answer>, RunError>
    requires limits { AreLimits limits }
    requires within { All (λ a. IsWithin worlds.now a.end) found.items }
    ensures told { IfOk result (λ answers. AreTold (with_says SAYS) worlds.now
        (first_place (with_says SAYS) (code_of (source_of program.now)) limits) found.items answers.items) }
    ensures single { AreSingle worlds.now.faults }
    ensures memory { IfErr result (λ e. e ≡ RunError.NoMemory) }
{
    // No fault was kept twice.
    facts_of(worlds.many_faults());
    let mut answers = Vec::new(alloc);
    for it in found {
        let one = answer(alloc, program, limits, worlds, it)?;
        add(&mut answers, one)?;
    }
    Ok(answers)
}

// Adds an answer.
fn add(answers: &mut Vec<Answer>, one: Answer) -> Result<(), AllocError>
    ensures { OnOk result (answers.new.items ≡ answers.old.items ++ one ∷ []) }
{
    answers.push(one)?;
    Ok(())
}

// An answer of a search, with its report or fault, and with each move as an entry of its schedule.
fn answer<const SAYS: u8>(
    alloc: Global,
    program: &Program,
    limits: Limits,
    worlds: &SeenWorlds<SAYS>,
    found: world_search::Answer,
) -> Result<Answer, RunError>
    requires limits { AreLimits limits }
    requires within { IsWithin worlds.now found.end }
    ensures told { IfOk result (λ answer. IsTold (with_says SAYS) worlds.now
        (first_place (with_says SAYS) (code_of (source_of program.now)) limits) found answer) }
    ensures memory { IfErr result (λ e. e ≡ RunError.NoMemory) }
{
    let end = end(worlds, found.end)?;
    let schedule = unfold(alloc, program, limits, found.schedule.as_slice(), true)?;
    Ok(Answer {
        schedule: Schedule::new(schedule),
        end,
    })
}

// The report of a world that was found, or a fault.
fn end<const SAYS: u8>(
    worlds: &SeenWorlds<SAYS>,
    found: Landing,
) -> Result<Result<Report, RunError>, AllocError>
    requires { IsWithin worlds.now found }
    ensures { IfOk result (λ end. IsEnd (with_says SAYS) worlds.now found end) }
{
    match found {
        Landing::World(world) => Ok(Ok(worlds.report(world)?)),
        Landing::Fault(number) => Ok(Err(worlds.fault(number))),
    }
}

//! The search of a model's term in stages, each with more worlds than the one before, until it is complete or its
//! answers decide all its claims.
//!
//! An exploration finds short schedules first, but few ends before it has most of its worlds. Schedules that are drawn
//! at random come to their ends at once. So some are drawn before each stage that takes long.

ghost use Rattle.std.specs.Prelude.{◌≡◌, ◌≤◌, ◌++◌, [], false, IfOk, OnOk};
ghost use Rattle.std.specs.List.{All};
ghost use Rattle.derived_ops.specs.Expansion.{code_of};
ghost use Rattle.derived_ops.specs.Reading.{source_of};
ghost use Rattle.derived_ops.specs.Tree.{Tree};
ghost use Rattle.cell_registry.specs.Cells.{AreLimits};
ghost use Rattle.cell_registry.specs.declared.limits.Limits.{Limits as TheLimits};
ghost use Rattle.model_runs.specs.Seeing.{IsRight, IsSeen};

use crate::drawings::{Drawing, drawing_after, lengths_after};
use crate::goals::{Found, Goal};
use crate::outcomes::search_outcomes;
use crate::plan::Plan;
use crate::prepared::Prepared;
use crate::result::{NamedAnswer, Search};
use crate::searching::{Ends, Explored, add_all_drawn, drawn_by_plan, search_reports};
use cell_registry::RunError;
use every_schedule::Watcher;
use sampled_schedules::sample_watched;
use std::alloc::{AllocError, Global};

// The greatest number of worlds of the first stage if an answer is expected to decide each claim.
const NEAR: usize = 1_000;

// The greatest number of worlds of the first stage otherwise: most models have fewer.
const FIRST: usize = 10_000;

/// The greatest number of times that the bound of worlds is multiplied by ten.
pub(crate) const TIMES_MORE: u32 = 9;

/// The greatest number of worlds of the first stage of a search.
pub(crate) fn first_stage(is_hopeful: bool) -> usize {
    if is_hopeful { NEAR } else { FIRST }
}

/// What was found before the present stage.
#[derive(Drop)]
struct Before {
    // The answers.
    answers: Vec<NamedAnswer>,
    // The number of schedules that were drawn.
    drawn: u32,
    // The greatest number of worlds of a stage.
    worlds: usize,
    // Whether the watcher ended the drawing.
    halted: bool,
}

/// Searches a term within the plan until each schedule is explored, the answers meet the goal, or the watcher ends the
/// search. The search keeps marks if `marked`. If it ends at a bound, schedules are drawn as the plan says.
pub(crate) fn search_in_stages<V: Watcher>(
    alloc: Global,
    prepared: &Prepared,
    plan: Plan,
    goal: &Goal,
    marked: bool,
    watcher: &mut V,
) -> Result<Search, RunError>
    requires limits { AreLimits plan.limits }
    requires count { marked ≡ false → plan.entries ≤ plan.limits.count }
    ensures right { IfOk result (IsRight (code_of (source_of prepared.now.program)) plan.limits) }
{
    let mut before = nothing_before(alloc);
    let is_met = goal.is_met_by(alloc, found_in(&[], &before))?;
    if is_met {
        return Ok(search_without_worlds(alloc, marked));
    }
    let is_hopeful = goal.is_hopeful();
    let mut worlds = first_stage(is_hopeful);
    for _ in 0..TIMES_MORE {
        if worlds >= plan.worlds {
            break;
        }
        let stage = explored_in(alloc, prepared, plan, marked, worlds, &mut *watcher)?;
        if is_last(&stage.search, worlds) {
            return last(alloc, prepared, plan, goal, stage, before, watcher);
        }
        let is_over = draw_between(
            alloc,
            prepared,
            plan,
            goal,
            &stage,
            worlds,
            &mut before,
            &mut *watcher,
        )?;
        if is_over {
            return last(alloc, prepared, plan, goal, stage, before, watcher);
        }
        keep(&mut before, stage.search)?;
        worlds = worlds.saturating_mul(10);
    }
    let stage = explored_in(alloc, prepared, plan, marked, plan.worlds, &mut *watcher)?;
    last(alloc, prepared, plan, goal, stage, before, watcher)
}

// What was found before the first stage.
fn nothing_before(alloc: Global) -> Before
    ensures { result.answers.items ≡ [] }
{
    Before {
        answers: Vec::new(alloc),
        drawn: 0,
        worlds: 0,
        halted: false,
    }
}

// A search that has to find nothing.
fn search_without_worlds(alloc: Global, marked: bool) -> Search
    ensures { (code : Tree) (k : TheLimits) → IsRight code k result }
{
    Search {
        complete: false,
        halted: false,
        marked,
        worlds: 0,
        sampled: 0,
        answers: Vec::new(alloc),
    }
}

// All that was found: by the present stage, and before.
fn found_in<'a>(explored: &'a [NamedAnswer], before: &'a Before) -> Found<'a> {
    Found {
        explored,
        others: before.answers.as_slice(),
    }
}

// Explores the term in at most this number of worlds.
fn explored_in<V: Watcher>(
    alloc: Global,
    prepared: &Prepared,
    plan: Plan,
    marked: bool,
    worlds: usize,
    watcher: &mut V,
) -> Result<Explored, RunError>
    requires limits { AreLimits plan.limits }
    requires count { marked ≡ false → plan.entries ≤ plan.limits.count }
    ensures right { IfOk result (λ it. IsRight (code_of (source_of prepared.now.program)) plan.limits it.search) }
{
    if marked {
        search_reports(alloc, prepared, plan, worlds, watcher)
    } else {
        search_outcomes(alloc, prepared, plan, worlds, watcher)
    }
}

// Whether a stage with more worlds than this would find no more, or the watcher has ended the stage.
fn is_last(search: &Search, worlds: usize) -> bool {
    search.complete || search.halted || search.worlds < worlds
}

// Draws schedules after a stage with this bound of worlds, the shortest first. Returns whether the search is over: all
// answers together meet the goal, or the watcher has ended the drawing.
fn draw_between<V: Watcher>(
    alloc: Global,
    prepared: &Prepared,
    plan: Plan,
    goal: &Goal,
    stage: &Explored,
    worlds: usize,
    before: &mut Before,
    watcher: &mut V,
) -> Result<bool, RunError>
    requires limits { AreLimits plan.limits }
    requires seen { All (IsSeen (code_of (source_of prepared.now.program)) plan.limits) before.old.answers.items }
    ensures seen { OnOk result (All (IsSeen (code_of (source_of prepared.now.program)) plan.limits) before.new.answers.items) }
{
    let explored = stage.search.answers.as_slice();
    if goal.is_met_by(alloc, found_in(explored, before))? {
        return Ok(true);
    }
    for length in lengths_after(worlds) {
        let drawing = drawing_after(plan, worlds, goal.is_hopeful(), *length);
        draw(alloc, prepared, plan, stage, drawing, before, &mut *watcher)?;
        if before.halted || goal.is_met_by(alloc, found_in(explored, before))? {
            return Ok(true);
        }
    }
    Ok(false)
}

// Draws schedules, and adds their answers that the stage doesn't have.
fn draw<V: Watcher>(
    alloc: Global,
    prepared: &Prepared,
    plan: Plan,
    stage: &Explored,
    drawing: Drawing,
    before: &mut Before,
    watcher: &mut V,
) -> Result<(), RunError>
    requires limits { AreLimits plan.limits }
    requires seen { All (IsSeen (code_of (source_of prepared.now.program)) plan.limits) before.old.answers.items }
    ensures seen { OnOk result (All (IsSeen (code_of (source_of prepared.now.program)) plan.limits) before.new.answers.items) }
{
    let sample = sample_watched(
        alloc,
        &prepared.program,
        plan.limits,
        drawing.seed,
        drawing.times,
        drawing.entries,
        watcher,
    )?;
    before.halted = sample.schedules < drawing.times;
    before.drawn = before.drawn.saturating_add(sample.schedules);
    let comings = sample.comings.as_slice();
    add_all_drawn(
        alloc,
        prepared,
        plan,
        &stage.ends,
        comings,
        &mut before.answers,
    )?;
    Ok(())
}

// Adds the answers of a stage to what was found before the next one.
fn keep(before: &mut Before, search: Search) -> Result<(), AllocError>
    ensures { OnOk result (before.new.answers.items ≡ before.old.answers.items ++ search.answers.items) }
{
    let Search {
        worlds,
        mut answers,
        ..
    } = search;
    before.worlds = before.worlds.max(worlds);
    before.answers.append(&mut answers)?;
    Ok(())
}

// The result of a search whose last stage this is. If it has a bound, and all answers together don't meet the goal,
// schedules are drawn as the plan says.
fn last<V: Watcher>(
    alloc: Global,
    prepared: &Prepared,
    plan: Plan,
    goal: &Goal,
    stage: Explored,
    before: Before,
    watcher: &mut V,
) -> Result<Search, RunError>
    requires limits { AreLimits plan.limits }
    requires right { IsRight (code_of (source_of prepared.now.program)) plan.limits stage.search }
    requires seen { All (IsSeen (code_of (source_of prepared.now.program)) plan.limits) before.answers.items }
    ensures right { IfOk result (IsRight (code_of (source_of prepared.now.program)) plan.limits) }
{
    let Explored { search, ends } = stage;
    if search.complete {
        return Ok(search);
    }
    let explored = search.answers.as_slice();
    let halted = search.halted || before.halted;
    let all = drawn_at_last(
        alloc, prepared, plan, goal, explored, &ends, halted, before, watcher,
    )?;
    joined(search, all)
}

// What was found before the last stage, and if all answers together don't meet the goal, the answers of the schedules
// that the plan has drawn. `halted` says that the watcher has ended the search.
fn drawn_at_last<V: Watcher>(
    alloc: Global,
    prepared: &Prepared,
    plan: Plan,
    goal: &Goal,
    explored: &[NamedAnswer],
    ends: &Ends,
    halted: bool,
    before: Before,
    watcher: &mut V,
) -> Result<Before, RunError>
    requires limits { AreLimits plan.limits }
    requires seen { All (IsSeen (code_of (source_of prepared.now.program)) plan.limits) before.answers.items }
    ensures seen { IfOk result (λ it. All (IsSeen (code_of (source_of prepared.now.program)) plan.limits) it.answers.items) }
{
    if goal.is_met_by(alloc, found_in(explored, &before))? {
        return Ok(before);
    }
    let drawn = drawn_by_plan(alloc, &prepared.program, plan, halted, watcher)?;
    let mut all = before;
    all.drawn = all.drawn.saturating_add(drawn.schedules);
    let comings = drawn.comings.as_slice();
    add_all_drawn(alloc, prepared, plan, ends, comings, &mut all.answers)?;
    Ok(all)
}

// A search that isn't complete, with all that was found before.
fn joined(search: Search, before: Before) -> Result<Search, RunError>
    ensures complete { IfOk result (λ it. it.complete ≡ false) }
    ensures answers { IfOk result (λ it. it.answers.items ≡ search.answers.items ++ before.answers.items) }
{
    let Search {
        halted,
        marked,
        worlds,
        answers: mut all,
        ..
    } = search;
    let Before {
        answers: mut others,
        drawn,
        worlds: most,
        halted: is_cut,
    } = before;
    all.append(&mut others)?;
    Ok(Search {
        complete: false,
        halted: halted || is_cut,
        marked,
        worlds: worlds.max(most),
        sampled: drawn,
        answers: all,
    })
}

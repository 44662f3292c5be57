//! The searches of a model's term.

ghost use Rattle.std.specs.Prelude.{◌≡◌, ◌++◌, [], ◌∷◌, map, true, IfOk, OnOk, ℕ, List};
ghost use Rattle.std.specs.List.{All};
ghost use Rattle.derived_ops.specs.Expansion.{code_of};
ghost use Rattle.derived_ops.specs.Reading.{source_of};
ghost use Rattle.cell_registry.specs.Cells.{AreLimits};
ghost use Rattle.scheduled_core.specs.Core.{core};
ghost use Rattle.every_schedule.specs.Explored.{IsCovered, IsReached};
ghost use Rattle.model_runs.specs.Seeing.{IsAllOf, IsRight, IsSeen};

use crate::named::{Named, replay_named};
use crate::plan::Plan;
use crate::prepared::Prepared;
use crate::result::{HeldRef, NamedAnswer, Search};
use crate::seeing::seen_of;
use cell_registry::RunError;
use effect_term::{Outcome, Program};
use every_outcome::{OutcomeAnswer, Outcomes};
use every_schedule::{Answer, Answers, Exploration, Schedule, Watcher, explore_watched};
use sampled_schedules::{Coming, Sample, sample_watched};
use scheduled_core::{FiberReport, Report, same_end};
use std::alloc::{AllocError, Global};
use world_search::Bounds;

// The greatest number of schedules that are drawn if the watcher has ended the exploration.
const FEW_TIMES: u32 = 200;

// The quarters of the time after a search that the naming of answers can take.
const NAMED: u32 = 3;

// The most outcomes of fiber 0 of which an answer is named in any case.
const OUTCOMES: usize = 100;

/// The answers that an exploration has found.
#[derive(Drop)]
pub(crate) enum Ends {
    /// Reports and faults.
    Reports(Answers),
    /// Outcomes of fibers, and faults.
    Outcomes(Vec<OutcomeAnswer>),
}

/// An exploration, and its answers in the names of the file.
#[derive(Drop)]
pub(crate) struct Explored {
    /// The exploration as a search: no schedule is drawn.
    pub search: Search,
    /// The answers.
    pub ends: Ends,
}

// Explores a program with at most this number of worlds.
fn explore_with<V: Watcher>(
    alloc: Global,
    program: &Program,
    plan: Plan,
    worlds: usize,
    watcher: &mut V,
) -> Result<Exploration, RunError>
    requires limits { AreLimits plan.limits }
    ensures all { IfOk result (λ it. it.complete ≡ true → (schedule : List ℕ) →
        IsCovered plan.limits it.answers (core (code_of (source_of program.now)) plan.limits schedule)) }
    ensures each { IfOk result (λ it. All (IsReached (code_of (source_of program.now)) plan.limits) it.answers) }
{
    let bounds = Bounds {
        worlds,
        entries: plan.entries as usize,
        memory: plan.memory,
    };
    explore_watched(alloc, program, plan.limits, bounds, watcher)
}

/// Searches the reports of a term in at most this number of worlds, until the watcher ends the search.
pub(crate) fn search_reports<V: Watcher>(
    alloc: Global,
    prepared: &Prepared,
    plan: Plan,
    worlds: usize,
    watcher: &mut V,
) -> Result<Explored, RunError>
    requires limits { AreLimits plan.limits }
    ensures { IfOk result (λ it. IsRight (code_of (source_of prepared.now.program)) plan.limits it.search) }
{
    let found = explore_with(alloc, &prepared.program, plan, worlds, &mut *watcher)?;
    let named = explored_answers(alloc, prepared, plan, found.answers.as_slice(), watcher)?;
    let search = search_of(&found, named);
    let Exploration { answers: ends, .. } = found;
    Ok(Explored {
        search,
        ends: Ends::Reports(ends),
    })
}

/// Draws the plan's number of schedules after an exploration that isn't complete, until the watcher ends the drawing.
/// If the watcher has ended the exploration (`halted`), draws at most 200.
pub(crate) fn drawn_by_plan<V: Watcher>(
    alloc: Global,
    program: &Program,
    plan: Plan,
    halted: bool,
    watcher: &mut V,
) -> Result<Sample, RunError>
    requires limits { AreLimits plan.limits }
{
    let times = if halted {
        plan.times.min(FEW_TIMES)
    } else {
        plan.times
    };
    sample_watched(
        alloc,
        program,
        plan.limits,
        plan.seed,
        times,
        plan.entries,
        watcher,
    )
}

/// Answers in the names of the file.
#[derive(Drop)]
pub(crate) struct NamedAnswers {
    /// The answers.
    pub(crate) answers: Vec<NamedAnswer>,
    /// No answer was left out.
    pub(crate) whole: bool,
}

// The answers of an exploration, in the names of the file. The watcher can end the list; then only the first answer with
// its outcome of fiber 0 is still added, and each fault.
fn explored_answers<V: Watcher>(
    alloc: Global,
    prepared: &Prepared,
    plan: Plan,
    found: &[Answer],
    watcher: &mut V,
) -> Result<NamedAnswers, AllocError>
    requires limits { AreLimits plan.limits }
    ensures each { IfOk result (λ it.
        All (IsSeen (code_of (source_of prepared.now.program)) plan.limits) it.answers.items) }
    ensures all { IfOk result (λ it. it.whole ≡ true → IsAllOf found.now it.answers.items) }
{
    let mut answers = Vec::new(alloc);
    let mut known = Vec::new(alloc);
    let mut whole = true;
    for answer in found {
        whole = add_named(
            alloc,
            prepared,
            plan,
            whole,
            answer,
            &mut known,
            &mut answers,
            &mut *watcher,
        )?;
    }
    Ok(NamedAnswers { answers, whole })
}

// Adds an answer in the names of the file, if it is named. Returns `whole` then, else `false`.
fn add_named<V: Watcher>(
    alloc: Global,
    prepared: &Prepared,
    plan: Plan,
    whole: bool,
    answer: &Answer,
    known: &mut Vec<Option<Outcome>>,
    answers: &mut Vec<NamedAnswer>,
    watcher: &mut V,
) -> Result<bool, AllocError>
    requires limits { AreLimits plan.limits }
    requires each { All (IsSeen (code_of (source_of prepared.now.program)) plan.limits) answers.old.items }
    ensures each { OnOk result (All (IsSeen (code_of (source_of prepared.now.program)) plan.limits) answers.new.items) }
    ensures whole { IfOk result (λ it. it ≡ true → whole ≡ true) }
    ensures more { IfOk result (λ it. it ≡ true →
        map (λ a. a.schedule) answers.new.items ≡ map (λ a. a.schedule) answers.old.items ++ answer.now.schedule ∷ []) }
{
    if !is_named(first_outcome(answer), known, watcher)? {
        return Ok(false);
    }
    let one = named_answer(alloc, prepared, plan, answer, 0)?;
    answers.push(one)?;
    Ok(whole)
}

// The outcome of fiber 0 at the end of an answer; `None` if the answer is a fault.
fn first_outcome(answer: &Answer) -> Option<Option<Outcome>> {
    match &answer.end {
        Ok(report) => Some(report.fibers.as_slice().first()?.outcome),
        Err(_) => None,
    }
}

/// Whether an answer is named: it is a fault, it has an outcome of fiber 0 that isn't known, which is then added, or the
/// watcher lets the list go on.
pub(crate) fn is_named<V: Watcher>(
    outcome: Option<Option<Outcome>>,
    known: &mut Vec<Option<Outcome>>,
    watcher: &mut V,
) -> Result<bool, AllocError> {
    match outcome {
        None => Ok(true),
        Some(outcome) => {
            if known.len() >= OUTCOMES || known.as_slice().contains(&outcome) {
                return Ok(watcher.lists_on(NAMED));
            }
            known.push(outcome)?;
            Ok(true)
        }
    }
}

// The exploration as a search, with these answers. If not all were named, the watcher has ended the search.
fn search_of(found: &Exploration, named: NamedAnswers) -> Search
    ensures marked { result.marked ≡ true }
    ensures complete { result.complete ≡ true → found.now.complete ≡ true }
    ensures whole { result.complete ≡ true → named.whole ≡ true }
    ensures answers { result.answers.items ≡ named.answers.items }
{
    Search {
        complete: found.complete && named.whole,
        halted: found.halted || !named.whole,
        marked: true,
        worlds: found.worlds,
        sampled: 0,
        answers: named.answers,
    }
}

/// Adds to these answers each one that was drawn, is settled, and isn't known.
pub(crate) fn add_all_drawn(
    alloc: Global,
    prepared: &Prepared,
    plan: Plan,
    known: &Ends,
    drawn: &[Coming],
    all: &mut Vec<NamedAnswer>,
) -> Result<(), AllocError>
    requires limits { AreLimits plan.limits }
    requires each { All (IsSeen (code_of (source_of prepared.now.program)) plan.limits) all.old.items }
    ensures each { OnOk result (All (IsSeen (code_of (source_of prepared.now.program)) plan.limits) all.new.items) }
{
    for coming in drawn {
        add_drawn(alloc, prepared, plan, known, coming, all)?;
    }
    Ok(())
}

// Adds an answer that was drawn, if it is settled and isn't known.
fn add_drawn(
    alloc: Global,
    prepared: &Prepared,
    plan: Plan,
    known: &Ends,
    coming: &Coming,
    all: &mut Vec<NamedAnswer>,
) -> Result<(), AllocError>
    requires limits { AreLimits plan.limits }
    requires each { All (IsSeen (code_of (source_of prepared.now.program)) plan.limits) all.old.items }
    ensures each { OnOk result (All (IsSeen (code_of (source_of prepared.now.program)) plan.limits) all.new.items) }
{
    if coming.cut || is_known(known, &coming.answer.end) {
        return Ok(());
    }
    let answer = named_answer(alloc, prepared, plan, &coming.answer, coming.times)?;
    all.push(answer)?;
    Ok(())
}

// Whether an exploration has found this end, or its outcomes if it was an exploration of outcomes.
fn is_known(known: &Ends, end: &Result<Report, RunError>) -> bool {
    match known {
        Ends::Reports(answers) => answers
            .as_slice()
            .iter()
            .any(|answer| same_end(&answer.end, end)),
        Ends::Outcomes(answers) => answers.iter().any(|answer| has_outcomes(&answer.end, end)),
    }
}

// Whether an end is a report with these outcomes, or this fault.
fn has_outcomes(known: &Result<Outcomes, RunError>, end: &Result<Report, RunError>) -> bool {
    match known {
        Ok(outcomes) => match end {
            Ok(report) => are_outcomes(outcomes.as_slice(), report.fibers.as_slice()),
            Err(_) => false,
        },
        Err(fault) => match end {
            Ok(_) => false,
            Err(other) => *fault == *other,
        },
    }
}

// Whether these are the outcomes of these fibers.
fn are_outcomes(outcomes: &[Option<Outcome>], fibers: &[FiberReport]) -> bool {
    if outcomes.len() != fibers.len() {
        return false;
    }
    for (one, fiber) in outcomes.iter().zip(fibers.iter()) {
        if *one != fiber.outcome {
            return false;
        }
    }
    true
}

// An answer in the names of the file.
fn named_answer(
    alloc: Global,
    prepared: &Prepared,
    plan: Plan,
    answer: &Answer,
    came: u32,
) -> Result<NamedAnswer, AllocError>
    requires limits { AreLimits plan.limits }
    ensures seen { IfOk result (IsSeen (code_of (source_of prepared.now.program)) plan.limits) }
    ensures schedule { IfOk result (λ it. it.schedule ≡ answer.now.schedule) }
{
    let held = Vec::new(alloc);
    named_end(
        alloc,
        prepared,
        plan,
        answer.schedule.as_slice(),
        held,
        came,
    )
}

/// Returns the answer of a schedule in the names of the file. `held` has the values of refs at its end, and `came` is
/// the number of drawn schedules that led to the answer.
pub(crate) fn named_end(
    alloc: Global,
    prepared: &Prepared,
    plan: Plan,
    entries: &[u16],
    held: Vec<HeldRef>,
    came: u32,
) -> Result<NamedAnswer, AllocError>
    requires limits { AreLimits plan.limits }
    ensures seen { IfOk result (IsSeen (code_of (source_of prepared.now.program)) plan.limits) }
    ensures schedule { IfOk result (λ it. it.schedule ≡ entries.now) }
{
    let replay = replay_named(alloc, prepared, entries, plan.limits)?;
    let seen = seen_of(alloc, &replay)?;
    let fault = fault_of(&replay);
    let kept = Vec::from_slice(alloc, entries)?;
    let schedule = Schedule::new(kept);
    let Named { fibers, refs, .. } = replay;
    Ok(NamedAnswer {
        seen,
        held,
        fault,
        started: fibers,
        refs: refs.len(),
        schedule,
        came,
    })
}

// The fault that ended a replay, if any.
fn fault_of(replay: &Named) -> Option<RunError> {
    match &replay.end {
        Ok(_) => None,
        Err(fault) => Some(*fault),
    }
}

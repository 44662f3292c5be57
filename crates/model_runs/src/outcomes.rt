//! Searches the outcomes of the fibers of a model's term. The worlds of these searches have no marks.

ghost use Rattle.std.specs.Prelude.{◌≡◌, ◌≤◌, ◌++◌, [], ◌∷◌, map, true, false, IfOk, OnOk, ℕ, List};
ghost use Rattle.std.specs.List.{All};
ghost use Rattle.std.specs.List.Sorted.{IsPermutation};
ghost use Rattle.derived_ops.specs.Expansion.{code_of};
ghost use Rattle.derived_ops.specs.Reading.{source_of};
ghost use Rattle.cell_registry.specs.Cells.{AreLimits};
ghost use Rattle.scheduled_core.specs.Core.{core};
ghost use Rattle.every_outcome.specs.Outcomes.{IsCovered, IsReached, counted};
ghost use Rattle.model_runs.specs.Seeing.{AreOutcomesOf, IsRight, IsSeen};

use crate::plan::Plan;
use crate::prepared::Prepared;
use crate::result::{NamedAnswer, Search};
use crate::searching::{Ends, Explored, NamedAnswers, is_named, named_end};
use cell_registry::RunError;
use effect_term::{Outcome, Program};
use every_outcome::{
    Bounds, OutcomeAnswer, OutcomeExploration, Outcomes, Watcher, explore_outcomes, shortened,
};
use std::alloc::{AllocError, Global};

// Explores the outcomes of a program in at most `worlds` worlds.
fn explore_with<V: Watcher>(
    alloc: Global,
    program: &Program,
    plan: Plan,
    worlds: usize,
    watcher: &mut V,
) -> Result<OutcomeExploration, RunError>
    requires limits { AreLimits plan.limits }
    ensures all { IfOk result (λ it. it.complete ≡ true → (count : ℕ) (schedule : List ℕ) →
        IsCovered plan.limits it.answers.items
        (core (code_of (source_of program.now)) (counted plan.limits count) schedule)) }
    ensures each { IfOk result (λ it. All (IsReached (code_of (source_of program.now)) plan.limits) it.answers.items) }
{
    let bounds = Bounds {
        worlds,
        entries: plan.entries as usize,
        memory: plan.memory,
    };
    explore_outcomes(alloc, program, plan.limits, bounds, watcher)
}

/// Searches the outcomes of a term in at most `worlds` worlds. The watcher can end the search.
pub(crate) fn search_outcomes<V: Watcher>(
    alloc: Global,
    prepared: &Prepared,
    plan: Plan,
    worlds: usize,
    watcher: &mut V,
) -> Result<Explored, RunError>
    requires limits { AreLimits plan.limits }
    requires count { plan.entries ≤ plan.limits.count }
    ensures { IfOk result (λ it. IsRight (code_of (source_of prepared.now.program)) plan.limits it.search) }
{
    let explored = explore_with(alloc, &prepared.program, plan, worlds, &mut *watcher)?;
    let found = sorted(shortened(explored, plan.entries as usize))?;
    let named = explored_answers(alloc, prepared, plan, found.answers.as_slice(), watcher)?;
    let search = search_of(&found, named);
    let OutcomeExploration { answers: ends, .. } = found;
    Ok(Explored {
        search,
        ends: Ends::Outcomes(ends),
    })
}

// Sorts the answers of an exploration: outcomes before faults, and in each group shorter schedules first.
fn sorted(found: OutcomeExploration) -> Result<OutcomeExploration, AllocError>
    ensures answers { IfOk result (λ it. IsPermutation found.answers.items it.answers.items) }
    ensures complete { IfOk result (λ it. it.complete ≡ found.complete) }
{
    let OutcomeExploration {
        mut answers,
        worlds,
        bytes,
        complete,
        halted,
    } = found;
    sort(&mut answers)?;
    Ok(OutcomeExploration {
        answers,
        worlds,
        bytes,
        complete,
        halted,
    })
}

// Sorts outcomes before faults, and each group by the length of schedules. Answers of one length keep their order.
fn sort(answers: &mut Vec<OutcomeAnswer>) -> Result<(), AllocError>
    ensures same { IsPermutation answers.old.items answers.new.items }
{
    answers.sort_by_key(|it: &OutcomeAnswer| it.schedule.as_slice().len())?;
    answers.sort_by_key(|it: &OutcomeAnswer| rank(&it.end))?;
    Ok(())
}

// The rank of an end: 0 for outcomes, 1 for a fault.
fn rank(end: &Result<Outcomes, RunError>) -> u8 {
    match end {
        Ok(_) => 0,
        Err(_) => 1,
    }
}

// Returns the answers of an exploration of outcomes, with the names of the file. The watcher can end the list. From then
// on, an answer is added only if it is a fault or the first one with its outcome of fiber 0.
fn explored_answers<V: Watcher>(
    alloc: Global,
    prepared: &Prepared,
    plan: Plan,
    found: &[OutcomeAnswer],
    watcher: &mut V,
) -> Result<NamedAnswers, AllocError>
    requires limits { AreLimits plan.limits }
    ensures each { IfOk result (λ it.
        All (IsSeen (code_of (source_of prepared.now.program)) plan.limits) it.answers.items) }
    ensures all { IfOk result (λ it. it.whole ≡ true → AreOutcomesOf found.now it.answers.items) }
{
    let mut answers = Vec::new(alloc);
    let mut known = Vec::new(alloc);
    let mut whole = true;
    for answer in found {
        whole = add_named(
            alloc,
            prepared,
            plan,
            whole,
            answer,
            &mut known,
            &mut answers,
            &mut *watcher,
        )?;
    }
    Ok(NamedAnswers { answers, whole })
}

// Adds an answer with the names of the file, unless the watcher ended the list and the answer can be left out
// (`is_named`). Returns `whole` if the answer was added, else `false`.
fn add_named<V: Watcher>(
    alloc: Global,
    prepared: &Prepared,
    plan: Plan,
    whole: bool,
    answer: &OutcomeAnswer,
    known: &mut Vec<Option<Outcome>>,
    answers: &mut Vec<NamedAnswer>,
    watcher: &mut V,
) -> Result<bool, AllocError>
    requires limits { AreLimits plan.limits }
    requires each { All (IsSeen (code_of (source_of prepared.now.program)) plan.limits) answers.old.items }
    ensures each { OnOk result (All (IsSeen (code_of (source_of prepared.now.program)) plan.limits) answers.new.items) }
    ensures whole { IfOk result (λ it. it ≡ true → whole ≡ true) }
    ensures more { IfOk result (λ it. it ≡ true →
        map (λ a. a.schedule) answers.new.items ≡ map (λ a. a.schedule) answers.old.items ++ answer.now.schedule ∷ []) }
{
    if !is_named(first_outcome(answer), known, watcher)? {
        return Ok(false);
    }
    let one = named_answer(alloc, prepared, plan, answer)?;
    answers.push(one)?;
    Ok(whole)
}

// The outcome of fiber 0 at the end of an answer; `None` if the answer is a fault.
fn first_outcome(answer: &OutcomeAnswer) -> Option<Option<Outcome>> {
    match &answer.end {
        Ok(outcomes) => outcomes.as_slice().first().copied(),
        Err(_) => None,
    }
}

// Returns an answer with the names of the file.
fn named_answer(
    alloc: Global,
    prepared: &Prepared,
    plan: Plan,
    answer: &OutcomeAnswer,
) -> Result<NamedAnswer, AllocError>
    requires limits { AreLimits plan.limits }
    ensures seen { IfOk result (IsSeen (code_of (source_of prepared.now.program)) plan.limits) }
    ensures schedule { IfOk result (λ it. it.schedule ≡ answer.now.schedule) }
{
    let held = Vec::new(alloc);
    let entries = answer.schedule.as_slice();
    named_end(alloc, prepared, plan, entries, held, 0)
}

// Returns the result of an exploration as that of a search with these answers. If an answer was left out, the watcher
// has ended the search.
fn search_of(found: &OutcomeExploration, named: NamedAnswers) -> Search
    ensures marked { result.marked ≡ false }
    ensures complete { result.complete ≡ true → found.now.complete ≡ true }
    ensures whole { result.complete ≡ true → named.whole ≡ true }
    ensures answers { result.answers.items ≡ named.answers.items }
{
    Search {
        complete: found.complete && named.whole,
        halted: found.halted || !named.whole,
        marked: false,
        worlds: found.worlds,
        sampled: 0,
        answers: named.answers,
    }
}

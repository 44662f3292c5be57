//! Searches that check claims at any moment in each world.

ghost use Rattle.std.specs.Prelude.{◌≡◌, ◌++◌, map, IfOk, List, OnOk};
ghost use Rattle.std.specs.List.{All};
ghost use Rattle.derived_ops.specs.Expansion.{code_of};
ghost use Rattle.derived_ops.specs.Reading.{source_of};
ghost use Rattle.derived_ops.specs.Tree.{Tree};
ghost use Rattle.cell_registry.specs.Cells.{AreLimits};
ghost use Rattle.cell_registry.specs.declared.limits.Limits.{Limits as TheLimits};
ghost use Rattle.every_schedule.specs.declared.claims.ClaimWord.{ClaimWord as TheWord};
ghost use Rattle.every_schedule.specs.Claims.{IsMetIn};
ghost use Rattle.model_runs.specs.Moments.{AreMet, claim_comparison, claim_word, sought, sought_in, turning};
ghost use Rattle.model_runs.specs.Moments.{soughts as all_soughts};

use crate::drawings::{drawing_after, lengths_after};
use crate::marks::may_leave_marks;
use crate::plan::Plan;
use crate::prepared::Prepared;
use crate::stages::{TIMES_MORE, first_stage};
use cell_registry::RunError;
use every_outcome::search_outcome_claims;
use every_schedule::{
    Claim as Sought, ClaimWord, Claimed, Comparison as SoughtComparison, Met, search_claims,
};
use model_claims::{Claim, Comparison, MomentWord, Rule};
use sampled_schedules::sample_claims;
use std::alloc::{AllocError, Global};
use world_search::{Bounds, Watcher};

// Translates a comparison for a search.
fn sought_comparison(comparison: Comparison) -> SoughtComparison
    ensures { result ≡ claim_comparison comparison }
{
    match comparison {
        Comparison::Equal => SoughtComparison::Equal,
        Comparison::Unequal => SoughtComparison::Differs,
        Comparison::Below => SoughtComparison::Less,
        Comparison::AtMost => SoughtComparison::AtMost,
        Comparison::Above => SoughtComparison::Greater,
        Comparison::AtLeast => SoughtComparison::AtLeast,
    }
}

// Translates a word for a search.
fn sought_word(word: MomentWord) -> ClaimWord
    ensures { result ≡ claim_word word }
{
    match word {
        MomentWord::Compares(number, comparison, value) => {
            ClaimWord::Compare(number, sought_comparison(comparison), value)
        }
        MomentWord::Not => ClaimWord::Not,
        MomentWord::And => ClaimWord::And,
        MomentWord::Or => ClaimWord::Or,
        MomentWord::Final => ClaimWord::Final,
    }
}

// Translates words for a search.
fn sought_words(alloc: Global, words: &[MomentWord]) -> Result<Vec<ClaimWord>, AllocError>
    ensures { IfOk result (λ it. it.items ≡ map claim_word words.now) }
{
    let mut sought = Vec::new(alloc);
    for word in words {
        sought.push(sought_word(*word))?;
    }
    Ok(sought)
}

// Negates the words of a claim about every moment, so that they are true where the claim is refuted.
fn turn(words: &mut Vec<ClaimWord>, rule: Rule) -> Result<(), AllocError>
    ensures { OnOk result (words.new.items ≡ words.old.items ++ turning rule) }
{
    match rule {
        Rule::Every => {
            words.push(ClaimWord::Not)?;
            Ok(())
        }
        Rule::Some => Ok(()),
    }
}

// The condition on a moment that decides a claim by itself.
fn sought_of(alloc: Global, rule: Rule, words: &[MomentWord]) -> Result<Sought, AllocError>
    ensures { IfOk result (λ it. it ≡ sought rule words.now) }
{
    let mut sought = sought_words(alloc, words)?;
    turn(&mut sought, rule)?;
    Ok(Sought::new(sought))
}

// Adds the condition that decides a claim by itself, if the claim is one at any moment.
fn add_sought(alloc: Global, claim: &Claim, wanted: &mut Vec<Sought>) -> Result<(), AllocError>
    ensures { OnOk result (wanted.new.items ≡ wanted.old.items ++ sought_in claim.now.rule claim.now.moment) }
{
    match &claim.moment {
        None => Ok(()),
        Some(words) => {
            wanted.push(sought_of(alloc, claim.rule, words.as_slice())?)?;
            Ok(())
        }
    }
}

/// The conditions that decide the claims at any moment among these, in the order of the claims.
pub(crate) fn soughts(alloc: Global, claims: &[Claim]) -> Result<Vec<Sought>, AllocError>
    ensures { IfOk result (λ it. it.items ≡ all_soughts claims.now) }
{
    let mut wanted = Vec::new(alloc);
    for claim in claims {
        add_sought(alloc, claim, &mut wanted)?;
    }
    Ok(wanted)
}

/// Searches for worlds that meet these conditions, within the plan: with 10,000 worlds at first, or with 1,000 if each
/// condition is expected to be met, and then with ten times as many, until the search is complete, each condition is
/// met, or the watcher ends the search. Conditions that schedules drawn between these searches meet are met.
pub(crate) fn search_by_plan<V: Watcher>(
    alloc: Global,
    prepared: &Prepared,
    plan: Plan,
    wanted: &[Sought],
    is_hopeful: bool,
    watcher: &mut V,
) -> Result<Claimed, RunError>
    requires limits { AreLimits plan.limits }
    ensures { IfOk result (λ it.
        AreMet (code_of (source_of prepared.now.program)) plan.limits wanted.now it.complete it.met.items) }
{
    let mut drawn = Vec::new(alloc);
    let mut worlds = first_stage(is_hopeful);
    for _ in 0..TIMES_MORE {
        if worlds >= plan.worlds {
            break;
        }
        let found = search_with(alloc, prepared, plan, wanted, worlds, &mut *watcher)?;
        if is_last(&found, wanted.len(), worlds) {
            return with_drawn(found, drawn);
        }
        draw_met(
            alloc, prepared, plan, wanted, worlds, is_hopeful, &mut drawn,
        )?;
        if are_met(found.met.as_slice(), drawn.as_slice(), wanted.len()) {
            return with_drawn(found, drawn);
        }
        worlds = worlds.saturating_mul(10);
    }
    let found = search_with(alloc, prepared, plan, wanted, plan.worlds, watcher)?;
    with_drawn(found, drawn)
}

// Whether a search with a greater bound of worlds would find no more, or the watcher has ended the search.
fn is_last(found: &Claimed, wanted: usize, worlds: usize) -> bool {
    found.complete || found.halted || found.met.len() >= wanted || found.worlds < worlds
}

// Draws schedules after a search with this bound of worlds, and adds the conditions that moments of them meet.
fn draw_met(
    alloc: Global,
    prepared: &Prepared,
    plan: Plan,
    wanted: &[Sought],
    worlds: usize,
    is_hopeful: bool,
    drawn: &mut Vec<Met>,
) -> Result<(), RunError>
    requires limits { AreLimits plan.limits }
    requires met { All (IsMetIn (code_of (source_of prepared.now.program)) plan.limits wanted.now) drawn.old.items }
    ensures met { OnOk result
        (All (IsMetIn (code_of (source_of prepared.now.program)) plan.limits wanted.now) drawn.new.items) }
{
    for length in lengths_after(worlds) {
        let drawing = drawing_after(plan, worlds, is_hopeful, *length);
        let mut met = sample_claims(
            alloc,
            &prepared.program,
            plan.limits,
            drawing.seed,
            drawing.times,
            drawing.entries,
            wanted,
        )?;
        drawn.append(&mut met)?;
    }
    Ok(())
}

// Whether each of this number of conditions is met, in a search or in a schedule that was drawn.
fn are_met(found: &[Met], drawn: &[Met], wanted: usize) -> bool {
    for number in 0..wanted {
        if !has_met(found, number) && !has_met(drawn, number) {
            return false;
        }
    }
    true
}

// Whether the condition of this number is among these.
fn has_met(met: &[Met], number: usize) -> bool {
    met.iter().any(|one| one.claim == number)
}

// What a search has found. If the search isn't complete, also what was met in schedules that were drawn.
fn with_drawn(found: Claimed, drawn: Vec<Met>) -> Result<Claimed, RunError>
    ensures { (code : Tree) (k : TheLimits) (wanted : List (List TheWord)) →
        AreMet code k wanted found.complete found.met.items → All (IsMetIn code k wanted) drawn.items →
        IfOk result (λ it. AreMet code k wanted it.complete it.met.items) }
{
    if found.complete {
        return Ok(found);
    }
    let Claimed {
        mut met,
        halted,
        worlds,
        bytes,
        ..
    } = found;
    let mut drawn = drawn;
    met.append(&mut drawn)?;
    Ok(Claimed {
        met,
        complete: false,
        halted,
        worlds,
        bytes,
    })
}

// Searches for worlds that meet these conditions, with at most this number of worlds. These keep no marks if they
// needn't.
fn search_with<V: Watcher>(
    alloc: Global,
    prepared: &Prepared,
    plan: Plan,
    wanted: &[Sought],
    worlds: usize,
    watcher: &mut V,
) -> Result<Claimed, RunError>
    requires limits { AreLimits plan.limits }
    ensures { IfOk result (λ it.
        AreMet (code_of (source_of prepared.now.program)) plan.limits wanted.now it.complete it.met.items) }
{
    let bounds = Bounds {
        worlds,
        entries: plan.entries as usize,
        memory: plan.memory,
    };
    let program = &prepared.program;
    if may_leave_marks(prepared, plan) {
        let found = search_outcome_claims(alloc, program, plan.limits, bounds, wanted, watcher)?;
        return Ok(found);
    }
    let found = search_claims(alloc, program, plan.limits, bounds, wanted, watcher)?;
    Ok(found)
}

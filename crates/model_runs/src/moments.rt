//! The verdicts of claims at any moment.

ghost use Rattle.std.specs.Prelude.{◌≡◌, map, IfNone, IfOk, IfSome, List, Some as Somebody, true};
ghost use Rattle.std.specs.List.{slice_get};
ghost use Rattle.std.specs.Option.{is_some};
ghost use Rattle.derived_ops.specs.Expansion.{code_of};
ghost use Rattle.derived_ops.specs.Reading.{source_of};
ghost use Rattle.derived_ops.specs.Tree.{Tree};
ghost use Rattle.cell_registry.specs.Cells.{AreLimits};
ghost use Rattle.cell_registry.specs.declared.limits.Limits.{Limits as TheLimits};
ghost use Rattle.world_search.specs.Claims.{IsFound};
ghost use Rattle.every_schedule.specs.declared.claims.ClaimWord.{ClaimWord};
ghost use Rattle.claim_verdicts.specs.declared.judging.Verdict.{Verdict as TheVerdict};
ghost use Rattle.model_claims.specs.Judging.{under as under_fails};
ghost use Rattle.model_runs.specs.Moments.{AreMet, IsJudgedAt, IsShownAt, has_fault, soughts as all_soughts};
ghost use Rattle.model_runs.specs.Private.Looking.{IsMetAt, IsRightAt, IsRightAtSome, by_search};
ghost use Rattle.model_runs.specs.Private.Looking.{moment_verdict as the_verdict};

use crate::held::held_refs;
use crate::looking::{search_by_plan, soughts};
use crate::marks::may_leave_marks;
use crate::plan::Plan;
use crate::prepared::{Prepared, prepare};
use crate::result::{NamedAnswer, Search};
use crate::searching::named_end;
use cell_registry::RunError;
use every_schedule::{Claim as Sought, Claimed, Met, Watcher};
use model_claims::{Claim, Rule, Verdict, under};
use model_terms::{Probe, Refused, Source};
use model_text::Model;
use std::alloc::{AllocError, Global};

/// The result of a search that checks claims in each world.
#[derive(Drop)]
pub(crate) struct Moments {
    /// The claims that a moment decides, by their numbers among the claims at any moment, each with a schedule to that
    /// moment.
    pub met: Vec<Met>,
    /// The search in the names of the file. It has an answer for each element of `met`, in the same order.
    pub search: Search,
}

/// Searches the worlds of a model's term for moments that decide the claims at any moment. Searches no world if there
/// are no such claims.
pub(crate) fn moments_of<V: Watcher>(
    alloc: Global,
    source: &Source,
    model: &Model,
    plan: Plan,
    claims: &[Claim],
    watcher: &mut V,
) -> Result<Moments, Refused>
    requires limits { AreLimits plan.limits }
    ensures right { IfOk result (IsRightAtSome (all_soughts claims.now)) }
{
    let prepared = prepare(alloc, source, model, Probe::Nothing)?;
    match look(alloc, &prepared, plan, claims, watcher) {
        Ok(found) => Ok(found),
        Err(_) => Err(Refused::NoMemory),
    }
}

// Searches the worlds of a prepared term for moments that decide the claims at any moment.
fn look<V: Watcher>(
    alloc: Global,
    prepared: &Prepared,
    plan: Plan,
    claims: &[Claim],
    watcher: &mut V,
) -> Result<Moments, RunError>
    requires limits { AreLimits plan.limits }
    ensures { IfOk result
        (IsRightAt (code_of (source_of prepared.now.program)) plan.limits (all_soughts claims.now)) }
{
    let wanted = soughts(alloc, claims)?;
    if wanted.is_empty() {
        return Ok(nothing_found(alloc));
    }
    let is_hopeful = are_hopeful(claims);
    let conditions = wanted.as_slice();
    let found = search_by_plan(alloc, prepared, plan, conditions, is_hopeful, watcher)?;
    let answers = answers_of(
        alloc,
        prepared,
        plan,
        wanted.as_slice(),
        found.met.as_slice(),
    )?;
    let marked = !may_leave_marks(prepared, plan);
    Ok(found_moments(found, marked, answers))
}

// Whether a moment is expected to decide each claim at any moment: it is about some moment, or has to be refuted.
fn are_hopeful(claims: &[Claim]) -> bool {
    for claim in claims {
        if claim.moment.is_some() && (claim.rule == Rule::Some) == claim.fails {
            return false;
        }
    }
    true
}

// The result without a search.
fn nothing_found(alloc: Global) -> Moments
    ensures { (code : Tree) (k : TheLimits) (wanted : List (List ClaimWord)) → IsRightAt code k wanted result }
{
    let met = Vec::new(alloc);
    let answers = Vec::new(alloc);
    Moments {
        met,
        search: Search {
            complete: false,
            halted: false,
            marked: true,
            worlds: 0,
            sampled: 0,
            answers,
        },
    }
}

// The result of a search, with these answers. `marked` says whether its worlds kept marks.
fn found_moments(found: Claimed, marked: bool, answers: Vec<NamedAnswer>) -> Moments
    ensures met { result.met.items ≡ found.met.items }
    ensures complete { result.search.complete ≡ found.complete }
    ensures answers { result.search.answers.items ≡ answers.items }
{
    let complete = found.complete;
    let halted = found.halted;
    let worlds = found.worlds;
    Moments {
        met: found.met,
        search: Search {
            complete,
            halted,
            marked,
            worlds,
            sampled: 0,
            answers,
        },
    }
}

// The moments that decide claims, in the names of the file.
fn answers_of(
    alloc: Global,
    prepared: &Prepared,
    plan: Plan,
    wanted: &[Sought],
    met: &[Met],
) -> Result<Vec<NamedAnswer>, AllocError>
    requires limits { AreLimits plan.limits }
    ensures { IfOk result (λ it. map (λ a. a.schedule) it.items ≡ map (λ m. m.schedule.items) met.now) }
{
    let mut answers = Vec::new(alloc);
    for one in met {
        answers.push(answer_of(alloc, prepared, plan, wanted, one)?)?;
    }
    Ok(answers)
}

// A moment that decides a claim, in the names of the file.
fn answer_of(
    alloc: Global,
    prepared: &Prepared,
    plan: Plan,
    wanted: &[Sought],
    met: &Met,
) -> Result<NamedAnswer, AllocError>
    requires limits { AreLimits plan.limits }
    ensures { IfOk result (λ it. it.schedule ≡ met.now.schedule.items) }
{
    let entries = met.schedule.as_slice();
    let held = match wanted.get(met.claim) {
        Some(sought) => held_refs(
            alloc,
            &prepared.program,
            plan.limits,
            entries,
            sought.words(),
        )?,
        None => Vec::new(alloc),
    };
    named_end(alloc, prepared, plan, entries, held, 0)
}

// The index in `met` of the claim of this number, if any.
fn met_number(met: &[Met], claim: usize) -> Option<usize>
    ensures some { IfSome result (IsMetAt met.now claim) }
    ensures none { IfNone result (IsFound claim met.now → ⊥) }
{
    for number in 0..met.len() {
        if met[number].claim == claim {
            return Some(number);
        }
    }
    None
}

// The index of the first of these answers that is a fault, if any.
fn fault_number(answers: &[NamedAnswer]) -> Option<usize>
    ensures { is_some result ≡ has_fault answers.now }
{
    for number in 0..answers.len() {
        if answers[number].seen.faulty {
            return Some(number);
        }
    }
    None
}

// The verdict if no moment that was found decides a claim. `complete` says that there are no other moments.
fn verdict_by_search(rule: Rule, complete: bool) -> Verdict
    ensures { result ≡ by_search rule complete }
{
    if !complete {
        return Verdict::Undecided;
    }
    match rule {
        Rule::Every => Verdict::Passed,
        Rule::Some => Verdict::Failed,
    }
}

// The verdict of a claim that isn't under `fails`. The flags say whether an answer is a fault, whether a moment decides
// the claim, whether the exploration is complete, and whether the search for moments is complete.
fn moment_verdict(rule: Rule, faulty: bool, met: bool, explored: bool, searched: bool) -> Verdict
    ensures { result ≡ the_verdict rule faulty met explored searched }
{
    match rule {
        Rule::Every => {
            if faulty || met {
                Verdict::Failed
            } else {
                verdict_by_search(rule, explored && searched)
            }
        }
        Rule::Some => {
            if met {
                Verdict::Passed
            } else {
                verdict_by_search(rule, searched)
            }
        }
    }
}

/// The verdict of a claim at any moment, and the answer that decides the claim.
#[derive(Clone, Copy)]
pub(crate) struct JudgedAt {
    /// The verdict.
    pub verdict: Verdict,
    /// Whether the claim is decided by moments, not by a fault.
    pub at_moment: bool,
    /// The number of the moment or the fault among the answers of its search, if any decides the claim.
    pub shown: Option<usize>,
}

// Adds to a verdict what decides the claim: a fault if the claim is about every moment and there is one, else a moment.
fn decider(rule: Rule, fault: Option<usize>, met: Option<usize>, verdict: Verdict) -> JudgedAt
    ensures verdict { result.verdict ≡ verdict }
    ensures moment { result.at_moment ≡ true → result.shown ≡ met }
{
    match rule {
        Rule::Every if fault.is_some() => JudgedAt {
            verdict,
            at_moment: false,
            shown: fault,
        },
        _ => JudgedAt {
            verdict,
            at_moment: true,
            shown: met,
        },
    }
}

/// Judges the claim of this number among the claims at any moment, by an exploration of the term and a search for
/// moments.
pub(crate) fn judge_at(claim: &Claim, number: usize, ends: &Search, moments: &Moments) -> JudgedAt
    ensures judged { (code : Tree) (k : TheLimits) (wanted : List (List ClaimWord)) (words : List ClaimWord) →
        IsRightAt code k wanted moments.now → slice_get wanted number ≡ Somebody words →
        (v : TheVerdict) × (result.verdict ≡ under_fails claim.now.fails v) ×
        IsJudgedAt code k words claim.now.rule (has_fault ends.now.answers.items) ends.now.complete
        moments.now.search.complete v }
    ensures shown { (code : Tree) (k : TheLimits) (wanted : List (List ClaimWord)) (words : List ClaimWord) →
        IsRightAt code k wanted moments.now → slice_get wanted number ≡ Somebody words →
        IsShownAt code k words moments.now.search.answers.items result.at_moment result.shown }
{
    let fault = fault_number(ends.answers.as_slice());
    let met = met_number(moments.met.as_slice(), number);
    let plain = moment_verdict(
        claim.rule,
        fault.is_some(),
        met.is_some(),
        ends.complete,
        moments.search.complete,
    );
    decider(claim.rule, fault, met, under(claim.fails, plain))
}

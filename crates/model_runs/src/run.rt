//! Explores and judges a model.

ghost use Rattle.std.specs.Prelude.{◌≡◌, ◌≤◌, length, true, IfOk, None as Nothing};
ghost use Rattle.std.specs.List.{All};
ghost use Rattle.std.specs.Option.{is_some};
ghost use Rattle.model_runs.specs.Deciding.{IsDecided, IsDecidedIn};
ghost use Rattle.model_runs.specs.Moments.{IsDecidedAtMoments, sought_in, soughts};
ghost use Rattle.model_runs.specs.Private.Looking.{IsRightAtSome, IsRightOf};
ghost use Rattle.model_runs.specs.Seeing.{IsRightOfSome};
ghost use Rattle.model_runs.specs.Verdicts.{worst};
ghost use Rattle.cell_registry.specs.Cells.{AreLimits};

use crate::goals::{Goal, has_open_moment};
use crate::judging::{claim_result, moment_result};
use crate::marks::needs_marks;
use crate::moments::{Moments, moments_of};
use crate::plan::{Plan, SearchBounds, plan_of};
use crate::prepared::{prepare, program_in};
use crate::probes::{probe_number, probes_of};
use crate::result::{ClaimResult, ModelResult, Search};
use crate::stages::search_in_stages;
use crate::unset::unset_refs;
use crate::verdicts::worst_verdict;
use crate::warnings::{Warning, warnings_of};
use every_schedule::{Unwatched, Watcher};
use model_claims::{Claim, read_claims, read_settings};
use model_terms::{Probe, Refused, Source, translate};
use model_text::Model;
use std::alloc::Global;

/// Explores a model's term with the probe of each of its claims, and judges the claims.
///
/// The model's bounds override `bounds`. An exploration keeps 10,000 worlds at first, or 1,000 if an answer is expected
/// to decide each claim, and then ten times as many, up to its bound. Between these stages some schedules are drawn at
/// random. A search ends when its answers decide all its claims, and no warning depends on other answers. If the
/// exploration isn't complete at its bound, schedules are drawn at random, and their settled ends count as answers.
///
/// Each claim is judged by the search of the term with its probe. If the term has a loop without end whose turns add
/// marks, and all claims of a search are judged by the outcomes of fibers alone, its worlds keep no marks
/// ([`Search::marked`]): such a loop leads back to a known world, and answers are the outcomes that no further entry
/// changes. Claims at any moment on refs of known numbers are checked together, in each world of one more search, which
/// keeps no marks either if the term has such a loop; a fault refutes such a claim about every moment. A model with a
/// fault is refused as by [`check_model`].
pub fn run_model(
    alloc: Global,
    source: &Source,
    model: &Model,
    bounds: SearchBounds,
) -> Result<ModelResult, Refused>
    ensures verdict { IfOk result (λ it. it.verdict ≡ worst it.claims.items) }
    ensures searches { IfOk result (λ it. All IsRightOfSome it.searches.items) }
    ensures claims { IfOk result (λ it. All (IsDecidedIn source.now it.searches.items it.moments) it.claims.items) }
{
    run_model_watched(alloc, source, model, bounds, &mut Unwatched)
}

/// Runs [`run_model`] with a watcher of all searches. If the watcher ends a search, the answers found until then
/// decide, as at a bound, and at most 200 schedules are drawn; a claim that these don't decide is undecided. Under one
/// [`TimeLimit`] all explorations of the model together end by the limit.
pub fn run_model_watched<V: Watcher>(
    alloc: Global,
    source: &Source,
    model: &Model,
    bounds: SearchBounds,
    watcher: &mut V,
) -> Result<ModelResult, Refused>
    ensures verdict { IfOk result (λ it. it.verdict ≡ worst it.claims.items) }
    ensures searches { IfOk result (λ it. All IsRightOfSome it.searches.items) }
    ensures claims { IfOk result (λ it. All (IsDecidedIn source.now it.searches.items it.moments) it.claims.items) }
{
    let term = translate(alloc, source, model, Probe::Nothing)?;
    let claims = read_claims(alloc, source, model, &term)?;
    let settings = read_settings(alloc, source, model)?;
    let plan = plan_of(settings, bounds);
    let probes = probes_of(alloc, claims.as_slice())?;
    let moments = moments_of(alloc, source, model, plan, claims.as_slice(), &mut *watcher)?;
    let searches = searches_of(
        alloc,
        source,
        model,
        plan,
        claims.as_slice(),
        probes.as_slice(),
        has_open_moment(claims.as_slice(), &moments),
        &mut *watcher,
    )?;
    let results = results_of(
        alloc,
        source,
        model,
        plan,
        claims.as_slice(),
        probes.as_slice(),
        searches.as_slice(),
        &moments,
    )?;
    let unset = unset_refs(
        alloc,
        source,
        model,
        plan,
        claims.as_slice(),
        probes.as_slice(),
        searches.as_slice(),
        &moments,
        watcher,
    )?;
    let warnings = warnings_of(
        alloc,
        source,
        &term,
        claims.as_slice(),
        results.as_slice(),
        searches.as_slice(),
        unset.as_slice(),
    )?;
    Ok(result_of(searches, moments, results, warnings))
}

// The result of a model, by the results of its claims.
fn result_of(
    searches: Vec<Search>,
    moments: Moments,
    claims: Vec<ClaimResult>,
    warnings: Vec<Warning>,
) -> ModelResult
    ensures verdict { result.verdict ≡ worst result.claims.items }
    ensures searches { result.searches.items ≡ searches.items }
    ensures moments { result.moments ≡ moments.search }
    ensures claims { result.claims.items ≡ claims.items }
{
    let verdict = worst_verdict(claims.as_slice());
    let worlds = all_worlds(searches.as_slice(), &moments.search);
    ModelResult {
        verdict,
        worlds,
        searches,
        moments: moments.search,
        claims,
        warnings,
    }
}

// The number of worlds that these searches and the search for moments have found.
fn all_worlds(searches: &[Search], moments: &Search) -> u64 {
    let mut worlds = moments.worlds as u64;
    for search in searches {
        worlds = worlds.saturating_add(search.worlds as u64);
    }
    worlds
}

// Searches the term with each of these probes. `is_open` says that a claim about every moment depends on whether the
// term without a probe has a fault.
fn searches_of<V: Watcher>(
    alloc: Global,
    source: &Source,
    model: &Model,
    plan: Plan,
    claims: &[Claim],
    probes: &[Probe],
    is_open: bool,
    watcher: &mut V,
) -> Result<Vec<Search>, Refused>
    requires limits { AreLimits plan.limits }
    ensures right { IfOk result (λ it. All IsRightOfSome it.items) }
{
    let mut searches = Vec::new(alloc);
    for probe in probes {
        let goal = Goal {
            source,
            claims,
            probe,
            is_open: is_open && matches!(*probe, Probe::Nothing),
        };
        let found = search_with(alloc, model, plan, &goal, &mut *watcher)?;
        searches.push(found)?;
    }
    Ok(searches)
}

// Searches the term with the probe of a goal, with marks if it needs them.
fn search_with<V: Watcher>(
    alloc: Global,
    model: &Model,
    plan: Plan,
    goal: &Goal,
    watcher: &mut V,
) -> Result<Search, Refused>
    requires limits { AreLimits plan.limits }
    ensures right { IfOk result IsRightOfSome }
{
    let prepared = prepare(alloc, goal.source, model, *goal.probe)?;
    let marked = needs_marks(&prepared, plan, goal.claims, goal.probe);
    match search_in_stages(alloc, &prepared, plan, goal, marked, watcher) {
        Ok(found) => Ok(found),
        Err(_) => Err(Refused::NoMemory),
    }
}

// Returns the result of each claim.
fn results_of(
    alloc: Global,
    source: &Source,
    model: &Model,
    plan: Plan,
    claims: &[Claim],
    probes: &[Probe],
    searches: &[Search],
    moments: &Moments,
) -> Result<Vec<ClaimResult>, Refused>
    requires limits { AreLimits plan.limits }
    requires right { IsRightAtSome (soughts claims.now) moments.now }
    ensures decided { IfOk result (λ it. All (IsDecidedIn source.now searches.now moments.now.search) it.items) }
{
    let mut results = Vec::new(alloc);
    let mut number = 0usize;
    for claim in claims {
        let result = decided(
            alloc, source, model, plan, claim, probes, searches, moments, number,
        )?;
        results.push(result)?;
        number += count_of(claim);
    }
    Ok(results)
}

// 1 for a claim at any moment, else 0.
fn count_of(claim: &Claim) -> usize
    ensures one { result ≤ 1 }
    ensures count { result ≡ length (sought_in claim.now.rule claim.now.moment) }
{
    match claim.moment {
        None => 0,
        Some(_) => 1,
    }
}

// Returns the result of a claim. `number` is the number of claims at any moment before this claim.
fn decided(
    alloc: Global,
    source: &Source,
    model: &Model,
    plan: Plan,
    claim: &Claim,
    probes: &[Probe],
    searches: &[Search],
    moments: &Moments,
    number: usize,
) -> Result<ClaimResult, Refused>
    requires limits { AreLimits plan.limits }
    requires right { IsRightOf claim.now number moments.now }
    ensures decided { IfOk result (IsDecidedIn source.now searches.now moments.now.search) }
{
    match claim.moment {
        None => decided_by_answers(alloc, source, model, plan, claim, probes, searches),
        Some(_) => decided_at_moments(
            alloc, source, model, plan, claim, probes, searches, moments, number,
        ),
    }
}

// Returns the result of a claim at any moment. `number` is the number of such claims before this claim.
fn decided_at_moments(
    alloc: Global,
    source: &Source,
    model: &Model,
    plan: Plan,
    claim: &Claim,
    probes: &[Probe],
    searches: &[Search],
    moments: &Moments,
    number: usize,
) -> Result<ClaimResult, Refused>
    requires limits { AreLimits plan.limits }
    requires moment { is_some claim.now.moment ≡ true }
    requires right { IsRightOf claim.now number moments.now }
    ensures decided { IfOk result (IsDecidedAtMoments searches.now moments.now.search) }
{
    // Each probe of a claim is among these, and has a search.
    let Some(at) = probe_number(probes, &claim.probe) else {
        return Err(Refused::NoMemory);
    };
    match searches.get(at) {
        Some(ends) => moment_result(alloc, source, model, claim, plan, number, at, ends, moments),
        None => Err(Refused::NoMemory),
    }
}

// Returns the result of a claim on answers, by the search of the term with its probe.
fn decided_by_answers(
    alloc: Global,
    source: &Source,
    model: &Model,
    plan: Plan,
    claim: &Claim,
    probes: &[Probe],
    searches: &[Search],
) -> Result<ClaimResult, Refused>
    requires limits { AreLimits plan.limits }
    requires answers { claim.now.moment ≡ Nothing }
    ensures decided { IfOk result (IsDecided source.now searches.now) }
{
    // Each probe of a claim is among these, and has a search.
    let Some(number) = probe_number(probes, &claim.probe) else {
        return Err(Refused::NoMemory);
    };
    match searches.get(number) {
        Some(search) => claim_result(alloc, source, model, claim, plan, number, search),
        None => Err(Refused::NoMemory),
    }
}

/// Returns the first fault of a model, if any, before any model runs: a fault of its term, of its claims and bounds, or
/// of its term with the probe of a claim.
pub fn check_model(alloc: Global, source: &Source, model: &Model) -> Result<(), Refused> {
    let term = translate(alloc, source, model, Probe::Nothing)?;
    let claims = read_claims(alloc, source, model, &term)?;
    let _ = read_settings(alloc, source, model)?;
    let _ = program_in(alloc, source, model, &term)?;
    for claim in claims.as_slice() {
        check_probe(alloc, source, model, claim.probe)?;
    }
    Ok(())
}

// Returns the fault of the term with this probe, if any.
fn check_probe(alloc: Global, source: &Source, model: &Model, probe: Probe) -> Result<(), Refused> {
    let term = translate(alloc, source, model, probe)?;
    let _ = program_in(alloc, source, model, &term)?;
    Ok(())
}

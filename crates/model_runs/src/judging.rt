//! The result of a claim.

ghost use Rattle.std.specs.Prelude.{◌≡◌, map, IfOk, List, Some as Somebody};
ghost use Rattle.std.specs.List.{slice_get};
ghost use Rattle.derived_ops.specs.Tree.{Tree};
ghost use Rattle.cell_registry.specs.Cells.{AreLimits};
ghost use Rattle.cell_registry.specs.declared.limits.Limits.{Limits as TheLimits};
ghost use Rattle.every_schedule.specs.declared.claims.ClaimWord.{ClaimWord};
ghost use Rattle.model_claims.specs.Conditions.{truth_in};
ghost use Rattle.model_runs.specs.Deciding.{IsJudgedBy, IsResultOf};
ghost use Rattle.model_runs.specs.Marks.{IsFit};
ghost use Rattle.model_runs.specs.Moments.{IsJudgedMoment};
ghost use Rattle.model_runs.specs.Private.Looking.{IsRightAt};

use crate::marks::is_fit;
use crate::moments::{JudgedAt, Moments, judge_at};
use crate::named::{Named, replay_named};
use crate::plan::Plan;
use crate::prepared::prepare;
use crate::result::{ClaimResult, NamedAnswer, Search};
use crate::waits::{Waits, waits_behind};
use model_claims::{Claim, Judged, MomentWord, Truth, Verdict, judge, truth_in};
use model_terms::{Probe, Refused, Source};
use model_text::Model;
use std::alloc::{AllocError, Global};

// Returns the truth of a claim at each of these answers.
fn truths_of(
    alloc: Global,
    source: &Source,
    claim: &Claim,
    answers: &[NamedAnswer],
) -> Result<Vec<Truth>, AllocError>
    ensures { IfOk result (λ it. it.items ≡ map (λ a. truth_in source.now claim.now a.seen) answers.now) }
{
    let mut truths = Vec::new(alloc);
    for answer in answers {
        truths.push(truth_in(alloc, source, claim, &answer.seen)?)?;
    }
    Ok(truths)
}

/// Returns the verdict of a claim by these answers, if there can be others.
pub(crate) fn verdict_of(
    alloc: Global,
    source: &Source,
    claim: &Claim,
    answers: &[NamedAnswer],
) -> Result<Verdict, AllocError> {
    let truths = truths_of(alloc, source, claim, answers)?;
    let judged = judge(truths.as_slice(), claim.rule, claim.fails, false);
    Ok(judged.verdict)
}

/// Judges a claim by the answers of its search.
pub(crate) fn judge_claim(
    alloc: Global,
    source: &Source,
    claim: &Claim,
    search: &Search,
) -> Result<Judged, AllocError>
    ensures { IfOk result (λ it. IsJudgedBy source.now claim.now search.now it.shown it.verdict) }
{
    let truths = truths_of(alloc, source, claim, search.answers.as_slice())?;
    Ok(judge(truths.as_slice(), claim.rule, claim.fails, search.complete))
}

/// Returns the result of a claim, with the replay of the answer that decides the claim.
pub(crate) fn claim_result(
    alloc: Global,
    source: &Source,
    model: &Model,
    claim: &Claim,
    plan: Plan,
    number: usize,
    search: &Search,
) -> Result<ClaimResult, Refused>
    requires limits { AreLimits plan.limits }
    ensures claim { IfOk result (IsResultOf source.now claim.now search.now) }
    ensures fit { IfOk result (λ it. IsFit claim.now search.now) }
    ensures search { IfOk result (λ it. it.search ≡ number) }
{
    // The search keeps marks if one of its claims needs them.
    if !is_fit(search, claim) {
        return Err(Refused::NoMemory);
    }
    let judged = judge_claim(alloc, source, claim, search)?;
    let answers = search.answers.as_slice();
    let replay = replay_of(
        alloc,
        source,
        model,
        claim.probe,
        plan,
        judged.shown,
        answers,
    )?;
    let shown = shown_of(judged.shown, answers);
    let waits = waits_of(
        alloc,
        source,
        model,
        claim.probe,
        plan,
        shown,
        replay.as_ref(),
    )?;
    Ok(ClaimResult {
        form: claim.form,
        rule: claim.rule,
        fails: claim.fails,
        verdict: judged.verdict,
        search: number,
        at_moment: false,
        shown: judged.shown,
        replay,
        waits,
    })
}

/// Returns the result of a claim at any moment, with the replay of the answer that decides the claim. `number` is the
/// claim's number among the claims at any moment, `search` that of the exploration among the searches.
pub(crate) fn moment_result(
    alloc: Global,
    source: &Source,
    model: &Model,
    claim: &Claim,
    plan: Plan,
    number: usize,
    search: usize,
    ends: &Search,
    moments: &Moments,
) -> Result<ClaimResult, Refused>
    requires limits { AreLimits plan.limits }
    ensures search { IfOk result (λ it. it.search ≡ search) }
    ensures moment { (code : Tree) (k : TheLimits) (wanted : List (List ClaimWord)) (words : List ClaimWord) →
        IsRightAt code k wanted moments.now → slice_get wanted number ≡ Somebody words →
        IfOk result (IsJudgedMoment claim.now code k words ends.now moments.now.search) }
{
    let judged = judge_at(claim, number, ends, moments);
    let answers = decisive_answers(judged, ends, moments);
    let replay = replay_of(
        alloc,
        source,
        model,
        claim.probe,
        plan,
        judged.shown,
        answers,
    )?;
    let shown = shown_of(judged.shown, answers);
    let waits = waits_at_end(alloc, source, model, claim, plan, shown, replay.as_ref())?;
    Ok(ClaimResult {
        form: claim.form,
        rule: claim.rule,
        fails: claim.fails,
        verdict: judged.verdict,
        search,
        at_moment: judged.at_moment,
        shown: judged.shown,
        replay,
        waits,
    })
}

// What the fibers wait for at the end that decides a claim on refs at the end; `None` for another claim at any moment.
fn waits_at_end(
    alloc: Global,
    source: &Source,
    model: &Model,
    claim: &Claim,
    plan: Plan,
    answer: Option<&NamedAnswer>,
    replay: Option<&Named>,
) -> Result<Option<Waits>, Refused>
    requires limits { AreLimits plan.limits }
{
    if !is_at_end(claim) {
        return Ok(None);
    }
    waits_of(alloc, source, model, claim.probe, plan, answer, replay)
}

// Whether a claim at any moment is one at the end.
fn is_at_end(claim: &Claim) -> bool {
    match &claim.moment {
        None => false,
        Some(words) => have_final(words.as_slice()),
    }
}

// Whether one of these words asks whether no fiber can go on.
fn have_final(words: &[MomentWord]) -> bool {
    for word in words {
        if matches!(*word, MomentWord::Final) {
            return true;
        }
    }
    false
}

// The answers that include the one that decides a claim.
fn decisive_answers<'a>(
    judged: JudgedAt,
    ends: &'a Search,
    moments: &'a Moments,
) -> &'a [NamedAnswer] {
    if judged.at_moment {
        moments.search.answers.as_slice()
    } else {
        ends.answers.as_slice()
    }
}

// The replay of the answer of this number, if there is one, in the term with this probe.
fn replay_of(
    alloc: Global,
    source: &Source,
    model: &Model,
    probe: Probe,
    plan: Plan,
    shown: Option<usize>,
    answers: &[NamedAnswer],
) -> Result<Option<Named>, Refused>
    requires limits { AreLimits plan.limits }
{
    let Some(answer) = shown_of(shown, answers) else {
        return Ok(None);
    };
    let prepared = prepare(alloc, source, model, probe)?;
    let replay = replay_named(alloc, &prepared, answer.schedule.as_slice(), plan.limits)?;
    Ok(Some(replay))
}

// The answer of this number, if there is one.
fn shown_of(shown: Option<usize>, answers: &[NamedAnswer]) -> Option<&NamedAnswer> {
    answers.get(shown?)
}

// What the fibers wait for behind the schedule of an answer with this replay.
fn waits_of(
    alloc: Global,
    source: &Source,
    model: &Model,
    probe: Probe,
    plan: Plan,
    answer: Option<&NamedAnswer>,
    replay: Option<&Named>,
) -> Result<Option<Waits>, Refused>
    requires limits { AreLimits plan.limits }
{
    let Some(answer) = answer else {
        return Ok(None);
    };
    let Some(replay) = replay else {
        return Ok(None);
    };
    let prepared = prepare(alloc, source, model, probe)?;
    let entries = answer.schedule.as_slice();
    let waits = waits_behind(alloc, &prepared, entries, plan.limits, replay)?;
    Ok(waits)
}

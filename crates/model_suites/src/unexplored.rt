//! The results of models without a search.

ghost use Rattle.std.specs.Prelude.{◌≡◌, IfOk};
ghost use Rattle.std.specs.List.{All};

use model_claims::{Claim, Verdict, read_claims};
use model_runs::{ClaimResult, ModelResult, Search};
use model_terms::{Probe, Refused, Source, translate};
use model_text::Model;
use std::alloc::{AllocError, Global};

/// The result of a model that no search explored: it is undecided, and each of its claims is.
pub(crate) fn undecided_result(
    alloc: Global,
    source: &Source,
    model: &Model,
) -> Result<ModelResult, Refused>
    ensures verdict { IfOk result (λ it. it.verdict ≡ Verdict.Undecided) }
    ensures claims { IfOk result (λ it. All (λ claim. claim.verdict ≡ Verdict.Undecided) it.claims.items) }
{
    let term = translate(alloc, source, model, Probe::Nothing)?;
    let claims = read_claims(alloc, source, model, &term)?;
    let results = undecided_claims(alloc, claims.as_slice())?;
    Ok(ModelResult {
        verdict: Verdict::Undecided,
        worlds: 0,
        searches: Vec::new(alloc),
        moments: no_search(alloc),
        claims: results,
        warnings: Vec::new(alloc),
    })
}

// The results of claims, each undecided.
fn undecided_claims(alloc: Global, claims: &[Claim]) -> Result<Vec<ClaimResult>, AllocError>
    ensures { IfOk result (λ it. All (λ claim. claim.verdict ≡ Verdict.Undecided) it.items) }
{
    let mut results = Vec::new(alloc);
    for claim in claims {
        results.push(undecided_claim(claim))?;
    }
    Ok(results)
}

// The result of a claim that no search decides.
fn undecided_claim(claim: &Claim) -> ClaimResult
    ensures { result.verdict ≡ Verdict.Undecided }
{
    ClaimResult {
        form: claim.form,
        rule: claim.rule,
        fails: claim.fails,
        verdict: Verdict::Undecided,
        search: 0,
        at_moment: false,
        shown: None,
        replay: None,
        waits: None,
    }
}

// No search.
fn no_search(alloc: Global) -> Search {
    Search {
        complete: false,
        halted: false,
        marked: true,
        worlds: 0,
        sampled: 0,
        answers: Vec::new(alloc),
    }
}

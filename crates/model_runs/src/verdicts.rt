//! The worst of the verdicts of a model's claims.

ghost use Rattle.std.specs.Prelude.{◌≡◌};
ghost use Rattle.model_runs.specs.Verdicts.{has_failed, is_undecided, one_has_failed, one_is_undecided, worst};

use crate::result::ClaimResult;
use model_claims::Verdict;

// Whether a claim has failed.
fn has_failed(verdict: Verdict) -> bool
    ensures { result ≡ has_failed verdict }
{
    match verdict {
        Verdict::Failed => true,
        Verdict::Passed | Verdict::Undecided => false,
    }
}

// Whether a claim is undecided.
fn is_undecided(verdict: Verdict) -> bool
    ensures { result ≡ is_undecided verdict }
{
    match verdict {
        Verdict::Undecided => true,
        Verdict::Passed | Verdict::Failed => false,
    }
}

// Whether one of these claims has failed.
fn one_has_failed(claims: &[ClaimResult]) -> bool
    ensures { result ≡ one_has_failed claims.now }
{
    for claim in claims {
        if has_failed(claim.verdict) {
            return true;
        }
    }
    false
}

// Whether one of these claims is undecided.
fn one_is_undecided(claims: &[ClaimResult]) -> bool
    ensures { result ≡ one_is_undecided claims.now }
{
    for claim in claims {
        if is_undecided(claim.verdict) {
            return true;
        }
    }
    false
}

/// The worst of the verdicts of these claims.
pub(crate) fn worst_verdict(claims: &[ClaimResult]) -> Verdict
    ensures { result ≡ worst claims.now }
{
    if one_has_failed(claims) {
        Verdict::Failed
    } else if one_is_undecided(claims) {
        Verdict::Undecided
    } else {
        Verdict::Passed
    }
}

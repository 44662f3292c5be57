//! The status of an answer about claims.

ghost use Rattle.std.specs.Prelude.{◌≡◌, length};
ghost use Rattle.claim_answers.specs.Verdicts.{claims_status, is_refuted, one_refuted, one_undecided, is_undecided};
ghost use Rattle.claim_answers.specs.Verdicts.{worse};

use crate::asked::{Asked, Rule};
use crate::judging::Verdict;
use outcome_trace::Status;

/// Whether a claim is refuted.
pub(crate) fn is_refuted(rule: Rule, verdict: &Verdict) -> bool
    ensures { result ≡ is_refuted rule verdict.now }
{
    match rule {
        Rule::Always | Rule::Never => matches!(verdict, Verdict::Moment(_)),
        Rule::Reach => matches!(verdict, Verdict::NoMoment),
    }
}

/// `Status::Errored` if a claim is refuted, else `Status::Unended` if a claim is undecided, else `Status::Succeeded`.
pub(crate) fn claims_status(asked: &[Asked<'_>], verdicts: &[Verdict]) -> Status
    requires { length asked.now ≡ length verdicts.now }
    ensures { result ≡ claims_status asked.now verdicts.now }
{
    if one_refuted(asked, verdicts) {
        Status::Errored
    } else if one_undecided(verdicts) {
        Status::Unended
    } else {
        Status::Succeeded
    }
}

/// Whether one of the claims is refuted.
pub(crate) fn one_refuted(asked: &[Asked<'_>], verdicts: &[Verdict]) -> bool
    requires { length asked.now ≡ length verdicts.now }
    ensures { result ≡ one_refuted asked.now verdicts.now }
{
    for at in 0..asked.len() {
        if is_refuted(asked[at].rule, &verdicts[at]) {
            return true;
        }
    }
    false
}

// Whether one of the verdicts is undecided.
fn one_undecided(verdicts: &[Verdict]) -> bool
    ensures { result ≡ one_undecided verdicts.now }
{
    for verdict in verdicts {
        if is_undecided(verdict) {
            return true;
        }
    }
    false
}

// Whether a verdict is undecided.
fn is_undecided(verdict: &Verdict) -> bool
    ensures { result ≡ is_undecided verdict.now }
{
    matches!(verdict, Verdict::Undecided)
}

/// The worse of two statuses: `Status::Errored` if one of them is, else `Status::Unended` if one of them is, else
/// `other`.
pub(crate) fn worse(one: Status, other: Status) -> Status
    ensures { result ≡ worse one other }
{
    match one {
        Status::Errored => Status::Errored,
        Status::Unended => match other {
            Status::Errored => Status::Errored,
            _ => Status::Unended,
        },
        _ => other,
    }
}

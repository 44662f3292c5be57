//! Which searches keep the marks of fibers.

ghost use Rattle.std.specs.Prelude.{◌≡◌, ◌≤◌, true, false};
ghost use Rattle.std.specs.List.{list_all};
ghost use Rattle.model_runs.specs.Marks.{IsFit, by_outcomes, has_no_probe, is_of_outcomes};

use crate::plan::Plan;
use crate::prepared::Prepared;
use crate::probes::is_same;
use crate::result::Search;
use code_sources::StartRole;
use model_claims::{Claim, Who, Word};
use model_terms::Probe;

/// Whether a search whose claims aren't about marks leaves the marks out: the term has a loop without end whose turns
/// add marks, else a search with marks is several times as fast; and no schedule within the bound on entries can use up
/// a count.
pub(crate) fn may_leave_marks(prepared: &Prepared, plan: Plan) -> bool
    ensures { result ≡ true → plan.entries ≤ plan.limits.count }
{
    prepared.endless_marks && u64::from(plan.entries) <= plan.limits.count
}

/// Whether the search with this probe keeps marks: it can't leave them out; a claim with the probe isn't judged by
/// outcomes alone; or such a claim is about `*` in a term with fibers that the file doesn't name.
pub(crate) fn needs_marks(prepared: &Prepared, plan: Plan, claims: &[Claim], probe: &Probe) -> bool
    ensures { result ≡ false → plan.entries ≤ plan.limits.count }
{
    if !may_leave_marks(prepared, plan) {
        return true;
    }
    let hidden = has_hidden_fibers(prepared);
    for claim in claims {
        if is_same(&claim.probe, probe) && is_about_marks(claim, hidden) {
            return true;
        }
    }
    false
}

// Whether a claim needs marks. `hidden` says that the term can start fibers that the file doesn't name: which of its
// fibers these are can depend on the schedule, and `*` leaves them out.
fn is_about_marks(claim: &Claim, hidden: bool) -> bool {
    !is_by_outcomes(claim) || (hidden && is_about_everyone(claim.condition.words.as_slice()))
}

// Whether a term can start fibers that the file doesn't name, as the cancelers of a `race`.
fn has_hidden_fibers(prepared: &Prepared) -> bool {
    for origin in prepared.origins.as_slice() {
        if matches!(origin.role, StartRole::Helper) {
            return true;
        }
    }
    false
}

// Whether one of these words is about `*`.
fn is_about_everyone(words: &[Word]) -> bool {
    for word in words {
        if is_of_everyone(*word) {
            return true;
        }
    }
    false
}

// Whether a word is about `*`.
fn is_of_everyone(word: Word) -> bool {
    match word {
        Word::Ended(who) => matches!(who, Who::Everyone),
        Word::Ends(who, _, _) => matches!(who, Who::Everyone),
        _ => false,
    }
}

/// Whether this search can judge a claim: a claim that isn't judged by outcomes alone needs marks.
pub(crate) fn is_fit(search: &Search, claim: &Claim) -> bool
    ensures { result ≡ true → IsFit claim.now search.now }
{
    search.marked || is_by_outcomes(claim)
}

// Whether a claim is judged by the outcomes of fibers alone: its term has no probe, and no word of its condition is
// about what fibers said.
fn is_by_outcomes(claim: &Claim) -> bool
    ensures { result ≡ by_outcomes claim.now }
{
    has_no_probe(&claim.probe) && are_of_outcomes(claim.condition.words.as_slice())
}

fn has_no_probe(probe: &Probe) -> bool
    ensures { result ≡ has_no_probe probe.now }
{
    match probe {
        Probe::Nothing => true,
        Probe::Watch(_, _) => false,
        Probe::Order(_, _, _) => false,
        Probe::Names => false,
    }
}

// Whether no word is about what fibers said.
fn are_of_outcomes(words: &[Word]) -> bool
    ensures { result ≡ list_all is_of_outcomes words.now }
{
    for word in words {
        if !is_of_outcomes(*word) {
            return false;
        }
    }
    true
}

// Whether a word isn't about what fibers said.
fn is_of_outcomes(word: Word) -> bool
    ensures { result ≡ is_of_outcomes word }
{
    match word {
        Word::Said(_, _, _) => false,
        Word::Says(_, _, _) => false,
        Word::Late => false,
        Word::Yes => true,
        Word::No => true,
        Word::And => true,
        Word::Or => true,
        Word::Not => true,
        Word::Ended(_) => true,
        Word::Ends(_, _, _) => true,
        Word::Compares(_, _, _) => true,
    }
}

//! The status of the verdicts of all models.

ghost use Rattle.std.specs.Prelude.{◌≡◌};
ghost use Rattle.std.specs.List.{list_any};
ghost use Rattle.suite_statuses.specs.Verdicts.{is_failed, is_undecided, status_of};

use claim_verdicts::Verdict;
use text_io::Status;

/// Returns the status of these verdicts: 1 if a model failed, else 3 if one is undecided, else 0.
pub fn status_of(verdicts: &[Verdict]) -> Status
    ensures { result ≡ status_of verdicts.now }
{
    if has_failed(verdicts) {
        Status::Errored
    } else if has_undecided(verdicts) {
        Status::Unended
    } else {
        Status::Succeeded
    }
}

// Whether one of these verdicts is `Failed`.
fn has_failed(verdicts: &[Verdict]) -> bool
    ensures { result ≡ list_any is_failed verdicts.now }
{
    for verdict in verdicts {
        match *verdict {
            Verdict::Failed => return true,
            Verdict::Passed | Verdict::Undecided => (),
        }
    }
    false
}

// Whether one of these verdicts is `Undecided`.
fn has_undecided(verdicts: &[Verdict]) -> bool
    ensures { result ≡ list_any is_undecided verdicts.now }
{
    for verdict in verdicts {
        match *verdict {
            Verdict::Undecided => return true,
            Verdict::Passed | Verdict::Failed => (),
        }
    }
    false
}

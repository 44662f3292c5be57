//! Which ends one exploration has found that another hasn't.
ghost use Rattle.std.specs.Prelude.{◌≡◌, Some, IfNone, IfSome, false, true};
ghost use Rattle.std.specs.List.{slice_get};
ghost use Rattle.every_schedule.specs.declared.exploration.Answer.{Answer as TheAnswer};
ghost use Rattle.compared_ends.specs.Comparisons.{AreSeenIn, IsSeenIn};
ghost use Rattle.compared_ends.specs.Private.Found.{IsFound};
ghost use Rattle.compared_ends.specs.Views.{viewed};

use crate::basis::Basis;
use crate::comparison::Extra;
use crate::views::are_alike;
use cell_registry::RunError;
use every_schedule::{Answer, Exploration};
use scheduled_core::Report;

/// Which ends the one program has that the other hasn't, by their explorations.
pub(crate) fn extra(basis: Basis, one: &Exploration, other: &Exploration) -> Extra
    ensures { IsFound basis one.now other.now result }
{
    match first_unseen(basis, one.answers.as_slice(), other.answers.as_slice()) {
        Some(index) if other.complete => Extra::Answer(index),
        None if one.complete => Extra::Nothing,
        _ => Extra::Undecided,
    }
}

// The index of the first answer whose end none of the others has.
fn first_unseen(basis: Basis, ones: &[Answer], others: &[Answer]) -> Option<usize>
    ensures some { IfSome result (λ i. (a : TheAnswer) × (slice_get ones.now i ≡ Some a) ×
        (IsSeenIn basis others.now (viewed basis a.end) → ⊥)) }
    ensures none { IfNone result (AreSeenIn basis ones.now others.now) }
{
    for (index, answer) in ones.iter().enumerate() {
        if !is_seen(basis, &answer.end, others) {
            return Some(index);
        }
    }
    None
}

// Whether one of the answers has this end.
fn is_seen(basis: Basis, end: &Result<Report, RunError>, answers: &[Answer]) -> bool
    ensures seen { result ≡ true → IsSeenIn basis answers.now (viewed basis end.now) }
    ensures other { result ≡ false → IsSeenIn basis answers.now (viewed basis end.now) → ⊥ }
{
    for answer in answers {
        if are_alike(basis, &answer.end, end) {
            return true;
        }
    }
    false
}

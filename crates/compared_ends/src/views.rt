//! Whether two ends are equal in a comparison.
ghost use Rattle.std.specs.Prelude.{◌≡◌, ◌≢◌, ◌≤◌, Some, None, false, length, take, true};
ghost use Rattle.std.specs.List.{slice_get};
ghost use Rattle.fiber_frames.specs.declared.mark.Mark.{Mark as TheMark};
ghost use Rattle.compared_ends.specs.Views.{fiber_view, first_view, outcomes_view, said, value_said, view, viewed};

use crate::basis::Basis;
use cell_registry::RunError;
use effect_term::Value;
use fiber_frames::Mark;
use scheduled_core::{FiberReport, Report};

/// Whether two ends are equal by this basis.
pub(crate) fn are_alike(
    basis: Basis,
    one: &Result<Report, RunError>,
    other: &Result<Report, RunError>,
) -> bool
    ensures same { result ≡ true → viewed basis one.now ≡ viewed basis other.now }
    ensures other { result ≡ false → viewed basis one.now ≢ viewed basis other.now }
{
    match one {
        Ok(report) => match other {
            Ok(second) => same_fibers(basis, report.fibers.as_slice(), second.fibers.as_slice()),
            Err(_) => false,
        },
        Err(fault) => match other {
            Ok(_) => false,
            Err(second) => *fault == *second,
        },
    }
}

// Whether the fibers of two reports are equal by this basis.
fn same_fibers(basis: Basis, one: &[FiberReport], other: &[FiberReport]) -> bool
    ensures same { result ≡ true → view basis one.now ≡ view basis other.now }
    ensures other { result ≡ false → view basis one.now ≢ view basis other.now }
{
    match basis {
        Basis::FirstFiber => same_first(one, other),
        Basis::AllFibers => same_outcomes(one, other),
    }
}

// Whether fiber 0 has the same outcome, and said the same.
fn same_first(one: &[FiberReport], other: &[FiberReport]) -> bool
    ensures same { result ≡ true → first_view one.now ≡ first_view other.now }
    ensures other { result ≡ false → first_view one.now ≢ first_view other.now }
{
    match one.first() {
        Some(fiber) => match other.first() {
            Some(second) => same_fiber(fiber, second),
            None => false,
        },
        None => other.is_empty(),
    }
}

// Whether two fibers have the same outcome, or none, and said the same.
fn same_fiber(one: &FiberReport, other: &FiberReport) -> bool
    ensures same { result ≡ true → fiber_view one.now ≡ fiber_view other.now }
    ensures other { result ≡ false → fiber_view one.now ≢ fiber_view other.now }
{
    one.outcome == other.outcome && same_said(one.marks.as_slice(), other.marks.as_slice())
}

// Whether both lists have the same number of fibers, with the same outcomes.
fn same_outcomes(one: &[FiberReport], other: &[FiberReport]) -> bool
    ensures same { result ≡ true → outcomes_view one.now ≡ outcomes_view other.now }
    ensures other { result ≡ false → outcomes_view one.now ≢ outcomes_view other.now }
{
    if one.len() != other.len() {
        return false;
    }
    for (index, fiber) in one.iter().enumerate() {
        if fiber.outcome != other[index].outcome {
            return false;
        }
    }
    true
}

// Whether the same values were said, in the same order.
fn same_said(one: &[Mark], other: &[Mark]) -> bool
    ensures same { result ≡ true → said one.now ≡ said other.now }
    ensures other { result ≡ false → said one.now ≢ said other.now }
{
    let mut place = 0;
    for mark in one {
        if let Some(value) = value_said(mark) {
            let next = next_said(other, place);
            if next == other.len() || !says(&other[next], value) {
                return false;
            }
            place = next + 1;
        }
    }
    next_said(other, place) == other.len()
}

// The value of the mark if it is a `say`.
fn value_said(mark: &Mark) -> Option<Value>
    ensures { result ≡ value_said mark.now }
{
    match mark {
        Mark::Say(value) => Some(*value),
        _ => None,
    }
}

// Whether the mark is a `say` of this value.
fn says(mark: &Mark, value: Value) -> bool
    ensures same { result ≡ true → value_said mark.now ≡ Some value }
    ensures other { result ≡ false → value_said mark.now ≢ Some value }
{
    match value_said(mark) {
        Some(other) => other == value,
        None => false,
    }
}

// The index of the first `say` from this place on, or the number of marks if there is none.
fn next_said(marks: &[Mark], place: usize) -> usize
    requires { place ≤ length marks.now }
    ensures within { result ≤ length marks.now }
    ensures none { said (take result marks.now) ≡ said (take place marks.now) }
    ensures stops { (m : TheMark) → slice_get marks.now result ≡ Some m → value_said m ≢ None }
{
    let mut index = place;
    while index < marks.len() && value_said(&marks[index]).is_none() {
        index += 1;
    }
    index
}

//! Whether two runs have the same end.
ghost use Rattle.std.specs.Prelude.{◌≡◌, ◌≢◌, false, true};

use crate::report::{FiberReport, Marks, Report};
use cell_registry::RunError;

/// Whether two runs have the same end: the same report, with each fiber's outcome and all of its marks, or the same
/// fault.
pub fn same_end(one: &Result<Report, RunError>, other: &Result<Report, RunError>) -> bool
    ensures same { result ≡ true → one.now ≡ other.now }
    ensures other { result ≡ false → one.now ≢ other.now }
{
    match one {
        Ok(report) => match other {
            Ok(second) => same_fibers(report.fibers.as_slice(), second.fibers.as_slice()),
            Err(_) => false,
        },
        Err(fault) => match other {
            Ok(_) => false,
            Err(second) => *fault == *second,
        },
    }
}

// Whether two lists of fibers have the same reports.
fn same_fibers(one: &[FiberReport], other: &[FiberReport]) -> bool
    ensures same { result ≡ true → one.now ≡ other.now }
    ensures other { result ≡ false → one.now ≢ other.now }
{
    if one.len() != other.len() {
        return false;
    }
    for (index, fiber) in one.iter().enumerate() {
        if !same_fiber(fiber, &other[index]) {
            return false;
        }
    }
    true
}

// Whether two fibers have the same outcome, or none, and the same marks.
#[tactic(auto, using(crate::proofs::SameReports::fibers_same))]
fn same_fiber(one: &FiberReport, other: &FiberReport) -> bool
    ensures same { result ≡ true → one.now ≡ other.now }
    ensures other { result ≡ false → one.now ≢ other.now }
{
    one.outcome == other.outcome && same_marks(&one.marks, &other.marks)
}

// Whether two fibers have the same marks.
fn same_marks(one: &Marks, other: &Marks) -> bool
    ensures same { result ≡ true → one.now ≡ other.now }
    ensures other { result ≡ false → one.now ≢ other.now }
{
    one.as_slice() == other.as_slice()
}

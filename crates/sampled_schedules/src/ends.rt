//! Whether two schedules have the same end.
ghost use Rattle.std.specs.Prelude.{◌≡◌, ◌≢◌, true, false};

use cell_registry::RunError;
use scheduled_core::{FiberReport, Report};

/// Whether the ends are the same report or the same fault.
pub(crate) fn same_end(one: &Result<Report, RunError>, other: &Result<Report, RunError>) -> bool
    ensures same { result ≡ true → one.now ≡ other.now }
    ensures other { result ≡ false → one.now ≢ other.now }
{
    match one {
        Ok(report) => match other {
            Ok(other) => { same_reports(report.fibers.as_slice(), other.fibers.as_slice()) }
            Err(_) => false,
        },
        Err(fault) => match other {
            Ok(_) => false,
            Err(other) => *fault == *other,
        },
    }
}

// Whether both lists have the same number of fibers, with equal reports.
fn same_reports(one: &[FiberReport], other: &[FiberReport]) -> bool
    ensures same { result ≡ true → one.now ≡ other.now }
    ensures other { result ≡ false → one.now ≢ other.now }
{
    if one.len() != other.len() {
        return false;
    }
    for (index, fiber) in one.iter().enumerate() {
        if !ended_alike(fiber, &other[index]) {
            return false;
        }
    }
    true
}

// Whether two fibers have equal reports.
fn ended_alike(one: &FiberReport, other: &FiberReport) -> bool
    ensures same { result ≡ true → one.now ≡ other.now }
    ensures other { result ≡ false → one.now ≢ other.now }
{
    one.outcome == other.outcome && one.marks.as_slice() == other.marks.as_slice()
}

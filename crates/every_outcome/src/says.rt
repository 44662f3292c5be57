//! Says: the marks that a search can keep. They are the values that a fiber said, and the codes that were dropped.
ghost use Rattle.std.specs.Prelude.{◌≡◌, ◌++◌, [], ◌∷◌, IfOk, OnOk, map};
ghost use Rattle.std.specs.List.{fold};
ghost use Rattle.every_schedule.specs.Digests.{with_mark as the_mark, with_report};
ghost use Rattle.every_outcome.specs.Places.{keeps_mark, kept_marks, kept_report, with_says};
ghost use Rattle.every_outcome.specs.Private.Digests.{with_kept_mark};

use every_schedule::{with_mark, with_outcome};
use fiber_frames::{Config, Mark};
use scheduled_core::{FiberReport, Marks, outcome};
use std::alloc::{AllocError, Global};

// Whether the search with this number keeps says.
fn keeps_says(search: u8) -> bool
    ensures { result ≡ with_says search }
{
    search > 0
}

/// The marks of a fiber that the search with this number keeps: its says, or none.
pub(crate) fn kept_of(alloc: Global, fiber: &Config, search: u8) -> Result<Vec<Mark>, AllocError>
    ensures { IfOk result (λ it. it.items ≡ kept_marks (with_says search) fiber.now.marks) }
{
    kept_in(alloc, fiber.trace(), search)
}

// Those of these marks that are kept.
fn kept_in(alloc: Global, marks: &[Mark], search: u8) -> Result<Vec<Mark>, AllocError>
    ensures { IfOk result (λ it. it.items ≡ kept_marks (with_says search) marks.now) }
{
    let mut kept = Vec::new(alloc);
    for mark in marks {
        add_kept(&mut kept, mark, search)?;
    }
    Ok(kept)
}

// Adds a mark, if it is kept.
fn add_kept(kept: &mut Vec<Mark>, mark: &Mark, search: u8) -> Result<(), AllocError>
    ensures { OnOk result (kept.new.items ≡ kept.old.items ++ kept_marks (with_says search) (mark.now ∷ [])) }
{
    if !keeps(mark, search) {
        return Ok(());
    }
    add(kept, *mark)?;
    Ok(())
}

// Adds a mark.
fn add(marks: &mut Vec<Mark>, mark: Mark) -> Result<(), AllocError>
    ensures { OnOk result (marks.new.items ≡ marks.old.items ++ mark ∷ []) }
{
    marks.push(mark)?;
    Ok(())
}

// Whether a mark is kept.
fn keeps(mark: &Mark, search: u8) -> bool
    ensures { result ≡ keeps_mark (with_says search) mark.now }
{
    match mark {
        Mark::Say(_) | Mark::Dropped(_) => keeps_says(search),
        Mark::Enter(_) | Mark::Leave(_) | Mark::PollIn(_) | Mark::PollOut(_) => false,
        Mark::Cut | Mark::Acquired(_) | Mark::Releasing(_) | Mark::Released(_) => false,
    }
}

/// The reports of fibers, each with the marks that are kept.
pub(crate) fn reports_of(
    alloc: Global,
    fibers: &[Config],
    search: u8,
) -> Result<Vec<FiberReport>, AllocError>
    ensures { IfOk result (λ it. it.items ≡ map (kept_report (with_says search)) fibers.now) }
{
    let mut reports = Vec::with_capacity(alloc, fibers.len())?;
    for fiber in fibers {
        reports.push(report_of(alloc, fiber, search)?)?;
    }
    Ok(reports)
}

// The report of a fiber, with the marks that are kept.
fn report_of(alloc: Global, fiber: &Config, search: u8) -> Result<FiberReport, AllocError>
    ensures { IfOk result (λ it. it ≡ kept_report (with_says search) fiber.now) }
{
    let marks = kept_of(alloc, fiber, search)?;
    Ok(FiberReport {
        outcome: outcome(fiber),
        marks: Marks::new(marks),
    })
}

/// The digest of the report of fibers, each with the marks that are kept.
pub(crate) fn digest_of(fibers: &[Config], search: u8) -> u64
    ensures { result ≡ fold with_report 1 (map (kept_report (with_says search)) fibers.now) }
{
    let mut digest = 1;
    for fiber in fibers {
        digest = with_fiber(digest, fiber, search);
    }
    digest
}

// The digest, extended by the report of a fiber with the marks that are kept.
fn with_fiber(digest: u64, fiber: &Config, search: u8) -> u64
    ensures { result ≡ with_report digest (kept_report (with_says search) fiber.now) }
{
    with_kept_marks(with_outcome(digest, outcome(fiber)), fiber.trace(), search)
}

// The digest, extended by those of these marks that are kept.
fn with_kept_marks(digest: u64, marks: &[Mark], search: u8) -> u64
    ensures { result ≡ fold the_mark digest (kept_marks (with_says search) marks.now) }
{
    let mut extended = digest;
    for mark in marks {
        extended = with_kept_mark(extended, mark, search);
    }
    extended
}

// The digest, extended by a mark if it is kept.
fn with_kept_mark(digest: u64, mark: &Mark, search: u8) -> u64
    ensures { result ≡ with_kept_mark (with_says search) digest mark.now }
{
    if keeps(mark, search) {
        with_mark(digest, *mark)
    } else {
        digest
    }
}

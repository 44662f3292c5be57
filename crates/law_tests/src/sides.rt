//! Two terms with the same ends in each program around them.

ghost use Rattle.cell_registry.specs.Cells.{AreLimits};

use effect_term::Value;
use every_schedule::{Answer, Bounds, Exploration, explore};
use fiber_frames::Mark;
use outcome_trace::{FiberReport, Limits, read_program};
use std::alloc::{AllocError, Global};
use std::test::Fail;

/// An instance of a law.
pub struct Law<'a> {
    pub law: &'a str,
    pub left: &'a str,
    pub right: &'a str,
    /// Programs, each with `@` in the place of the term.
    pub within: &'a [&'a str],
}

/// The term is run by fiber 0.
pub const ALONE: &str = "(ref r 0 @)";

/// The term is run by a fiber that is joined: fiber 0 reports its outcome, and the value that it left in the ref.
pub const JOINED: &str =
    "(ref r 0 (start f @ (seq (join f x (say x) e (seq (say -1) (say e)) (say -2)) (get r))))";

/// The fiber is also canceled, at any moment.
pub const CANCELED: &str = "(ref r 0 (start f @ \
    (seq (cancel f) (join f x (say x) e (seq (say -1) (say e)) (say -2)) (get r))))";

/// Programs for laws that hold whether or not another fiber cancels.
pub const EVERYWHERE: &[&str] = &[ALONE, JOINED, CANCELED];

/// Programs for laws of terms that no other fiber cancels.
pub const UNCANCELED: &[&str] = &[ALONE, JOINED];

/// The program for laws of terms that start several fibers.
pub const BY_ITSELF: &[&str] = &[ALONE];

// Limits for small programs.
fn limits() -> Limits
    ensures { AreLimits result }
{
    Limits {
        fibers: 16,
        refs: 16,
        deferreds: 16,
        count: 1000,
    }
}

/// The exploration of the program `within` with this term in the place of `@`.
pub fn explored(alloc: Global, within: &str, term: &str) -> Result<Exploration, Fail> {
    let Some((before, behind)) = within.split_once("@") else {
        return Err(Fail::new("there is no place for the term"));
    };
    let mut text = String::from_str(alloc, before)?;
    text.push_str(term)?;
    text.push_str(behind)?;
    let Ok(program) = read_program(alloc, text.as_bytes()) else {
        return Err(Fail::new("the text is refused"));
    };
    let bounds = Bounds {
        worlds: 100_000,
        entries: 1000,
        memory: usize::MAX,
    };
    let Ok(exploration) = explore(alloc, &program, limits(), bounds) else {
        return Err(Fail::new("memory ran out"));
    };
    Ok(exploration)
}

// The values that a fiber said.
fn said(alloc: Global, marks: &[Mark]) -> Result<Vec<Value>, AllocError> {
    let mut said = Vec::new(alloc);
    for mark in marks {
        if let Mark::Say(value) = mark {
            said.push(*value)?;
        }
    }
    Ok(said)
}

// Whether two fibers have the same outcome, and said the same.
fn are_alike(alloc: Global, one: &FiberReport, other: &FiberReport) -> Result<bool, AllocError> {
    let left = said(alloc, one.marks.as_slice())?;
    let right = said(alloc, other.marks.as_slice())?;
    Ok(one.outcome == other.outcome && left.as_slice() == right.as_slice())
}

/// The report of fiber 0.
pub fn first(answer: &Answer) -> Option<&FiberReport> {
    match &answer.end {
        Ok(report) => report.fibers.as_slice().first(),
        Err(_) => None,
    }
}

// Whether fiber 0 ends in the same way in one of the other answers.
fn is_among(alloc: Global, one: &Answer, others: &[Answer]) -> Result<bool, AllocError> {
    let Some(fiber) = first(one) else {
        return Ok(false);
    };
    for other in others {
        if let Some(it) = first(other) {
            if are_alike(alloc, fiber, it)? {
                return Ok(true);
            }
        }
    }
    Ok(false)
}

// Whether fiber 0 ends in each of these answers as in one of the others.
fn are_among(alloc: Global, ones: &[Answer], others: &[Answer]) -> Result<bool, AllocError> {
    for one in ones {
        if !is_among(alloc, one, others)? {
            return Ok(false);
        }
    }
    Ok(true)
}

/// Whether the two sides of a law have the same ends in this program, under every schedule: fiber 0 has the same
/// outcomes, and says the same.
pub fn holds(alloc: Global, law: &Law<'_>, within: &str) -> Result<bool, Fail> {
    let left = explored(alloc, within, law.left)?;
    let right = explored(alloc, within, law.right)?;
    let ones = left.answers.as_slice();
    let others = right.answers.as_slice();
    Ok(
        left.complete
            && right.complete
            && are_among(alloc, ones, others)?
            && are_among(alloc, others, ones)?,
    )
}

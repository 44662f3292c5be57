//! The verdicts of all models: the number of each.

use crate::digits::{push_number, push_word};
use model_claims::Verdict;
use std::alloc::{AllocError, Global};

/// The number of models with each verdict.
#[derive(Clone, Copy, PartialEq, Eq, Debug)]
pub struct Counts {
    /// Passed.
    pub passed: usize,
    /// Failed.
    pub failed: usize,
    /// Undecided.
    pub undecided: usize,
}

/// Returns the number of each of these verdicts.
pub fn counts_of(verdicts: &[Verdict]) -> Counts {
    Counts {
        passed: count_of(verdicts, Verdict::Passed),
        failed: count_of(verdicts, Verdict::Failed),
        undecided: count_of(verdicts, Verdict::Undecided),
    }
}

// The number of these verdicts that are `wanted`.
fn count_of(verdicts: &[Verdict], wanted: Verdict) -> usize {
    let mut count = 0usize;
    for verdict in verdicts {
        if *verdict == wanted {
            count = count.saturating_add(1);
        }
    }
    count
}

/// Returns the last line of a report, after a blank line: how many models passed, failed and are undecided.
/// `AllocError` if memory runs out.
pub fn summary(alloc: Global, verdicts: &[Verdict]) -> Result<Vec<u8>, AllocError> {
    let counts = counts_of(verdicts);
    let mut told = Vec::new(alloc);
    told.push(b'\n')?;
    push_number(&mut told, counts.passed)?;
    push_word(&mut told, " passed, ")?;
    push_number(&mut told, counts.failed)?;
    push_word(&mut told, " failed, ")?;
    push_number(&mut told, counts.undecided)?;
    push_word(&mut told, " undecided\n")?;
    Ok(told)
}

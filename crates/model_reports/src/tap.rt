//! Reports in the format of the Test Anything Protocol, version 13.

use crate::claim_details::model_details;
use crate::digits::{push_about, push_number, push_word};
use crate::judged::{JudgedModel, name_of};
use model_claims::Verdict;
use std::alloc::{AllocError, Global};
use text_io::push_shown;

/// Returns what precedes the models: the version of the protocol, and the number of models. `AllocError` if memory runs
/// out.
pub fn tap_head(alloc: Global, models: usize) -> Result<Vec<u8>, AllocError> {
    let mut told = Vec::new(alloc);
    push_about(&mut told, "TAP version 13\n1..", models)?;
    told.push(b'\n')?;
    Ok(told)
}

/// Returns a model with its number, from 1 on: `ok`, or `not ok`, with `# TODO` if the model is undecided. The details
/// of its claims are diagnostics. `AllocError` if memory runs out.
pub fn tap_model(alloc: Global, number: usize, judged: JudgedModel) -> Result<Vec<u8>, AllocError> {
    let mut told = Vec::new(alloc);
    push_word(&mut told, tap_word(judged.result.verdict))?;
    push_number(&mut told, number)?;
    push_word(&mut told, " - ")?;
    push_shown(&mut told, name_of(judged.source, judged.model))?;
    if judged.result.verdict == Verdict::Undecided {
        push_word(&mut told, " # TODO undecided")?;
    }
    told.push(b'\n')?;
    let details = model_details(alloc, judged, false)?;
    push_diagnostics(&mut told, details.as_slice())?;
    Ok(told)
}

// The word of a verdict.
fn tap_word(verdict: Verdict) -> &'static str {
    match verdict {
        Verdict::Passed => "ok ",
        Verdict::Failed | Verdict::Undecided => "not ok ",
    }
}

// Adds lines as diagnostics. Each line ends with a line feed.
fn push_diagnostics(told: &mut Vec<u8>, lines: &[u8]) -> Result<(), AllocError> {
    let mut begins = true;
    for byte in lines {
        if begins {
            push_word(told, diagnostic_mark(*byte))?;
        }
        told.push(*byte)?;
        begins = *byte == b'\n';
    }
    Ok(())
}

// The text before a line of diagnostics that begins with this byte. An empty line has no space behind `#`.
fn diagnostic_mark(first: u8) -> &'static str {
    if first == b'\n' { "#" } else { "# " }
}

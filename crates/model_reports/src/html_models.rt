//! A model as a part of a page.

use crate::claim_details::{push_reasons, push_unexplored, push_warning};
use crate::digits::{push_count, push_number, push_seconds, push_word};
use crate::escaped::push_escaped;
use crate::html_timeline::push_html_timeline;
use crate::judged::{JudgedModel, name_of};
use crate::named_file::{bytes_of, push_place, start_of};
use crate::one_line::joined;
use model_claims::Verdict;
use model_forms::form_bytes;
use model_runs::ClaimResult;
use std::alloc::{AllocError, Global};

/// Adds the model of this number on the page: its name, its verdict, and below these its text, its warnings, and each
/// claim with what decides the claim. A model that didn't pass is open. `AllocError` if memory runs out.
pub(crate) fn push_html_model(
    told: &mut Vec<u8>,
    alloc: Global,
    judged: JudgedModel,
    number: usize,
) -> Result<(), AllocError> {
    push_opened(told, number, judged.result.verdict)?;
    push_escaped(told, alloc, name_of(judged.source, judged.model))?;
    push_word(told, "</span><span class=\"about\">")?;
    push_number(told, judged.result.worlds)?;
    push_word(told, " worlds, ")?;
    push_seconds(told, judged.milliseconds)?;
    push_word(told, " s, ")?;
    push_count(told, judged.result.claims.len(), "claim")?;
    push_word(told, "</span></summary>\n")?;
    push_text(told, alloc, judged)?;
    push_warnings(told, alloc, judged)?;
    push_word(told, "<ul class=\"claims\">\n")?;
    for claim in judged.result.claims.iter() {
        push_claim(told, alloc, judged, claim)?;
    }
    push_word(told, "</ul>\n</details>\n")
}

/// Adds a model that was refused, with the text of its fault. `AllocError` if memory runs out.
pub(crate) fn push_html_refused(
    told: &mut Vec<u8>,
    alloc: Global,
    name: &[u8],
    reason: &[u8],
    number: usize,
) -> Result<(), AllocError> {
    push_opened(told, number, Verdict::Failed)?;
    push_escaped(told, alloc, name)?;
    push_word(told, "</span></summary>\n<pre>")?;
    push_escaped(told, alloc, reason)?;
    push_word(told, "</pre>\n</details>\n")
}

/// The word of a verdict on a page, which is also the name of its style.
pub(crate) fn html_word(verdict: Verdict) -> &'static str {
    match verdict {
        Verdict::Passed => "passed",
        Verdict::Failed => "failed",
        Verdict::Undecided => "undecided",
    }
}

/// Adds a verdict. `AllocError` if memory runs out.
pub(crate) fn push_verdict(told: &mut Vec<u8>, verdict: Verdict) -> Result<(), AllocError> {
    push_word(told, "<span class=\"verdict ")?;
    push_word(told, html_word(verdict))?;
    push_word(told, "\">")?;
    push_word(told, html_word(verdict))?;
    push_word(told, "</span> ")
}

// Adds the beginning of a model, up to its name.
fn push_opened(told: &mut Vec<u8>, number: usize, verdict: Verdict) -> Result<(), AllocError> {
    push_word(told, "<details class=\"model\" id=\"m")?;
    push_number(told, number)?;
    push_word(told, opened(verdict))?;
    push_word(told, "<summary>")?;
    push_verdict(told, verdict)?;
    push_word(told, "<span class=\"name\">")
}

// The end of the tag of a model. A model that didn't pass is open.
fn opened(verdict: Verdict) -> &'static str {
    match verdict {
        Verdict::Passed => "\">",
        Verdict::Failed | Verdict::Undecided => "\" open>",
    }
}

// Adds the text of a model, which is behind its name, without the quotes.
fn push_text(told: &mut Vec<u8>, alloc: Global, judged: JudgedModel) -> Result<(), AllocError> {
    let Some(form) = judged.model.text else {
        return Ok(());
    };
    let bytes = form_bytes(judged.source.text.as_slice(), form);
    let last = bytes.len().saturating_sub(1);
    push_word(told, "<p>")?;
    push_escaped(told, alloc, bytes.get(1..last).unwrap_or(&[]))?;
    push_word(told, "</p>\n")
}

// Adds the warnings of a model.
fn push_warnings(told: &mut Vec<u8>, alloc: Global, judged: JudgedModel) -> Result<(), AllocError> {
    let mut line = Vec::new(alloc);
    for warning in judged.result.warnings.iter() {
        line.clear();
        push_warning(&mut line, alloc, judged, *warning)?;
        push_word(told, "<p>")?;
        push_escaped(told, alloc, line.as_slice())?;
        push_word(told, "</p>\n")?;
    }
    Ok(())
}

// Adds a claim: its verdict, its text, its place, and what decides the claim.
fn push_claim(
    told: &mut Vec<u8>,
    alloc: Global,
    judged: JudgedModel,
    claim: &ClaimResult,
) -> Result<(), AllocError> {
    push_word(told, "<li>")?;
    push_verdict(told, claim.verdict)?;
    push_word(told, "<code>")?;
    let line = joined(alloc, bytes_of(judged.source, claim.form))?;
    push_escaped(told, alloc, line.as_slice())?;
    push_word(told, "</code> <span class=\"about\">")?;
    let mut place = Vec::new(alloc);
    push_place(&mut place, judged.file, start_of(judged.source, claim.form))?;
    push_escaped(told, alloc, place.as_slice())?;
    push_word(told, "</span>\n")?;
    push_decided(told, alloc, judged, claim)?;
    push_word(told, "</li>\n")
}

// Adds what decides a claim. For a passed claim, the page shows this on demand.
fn push_decided(
    told: &mut Vec<u8>,
    alloc: Global,
    judged: JudgedModel,
    claim: &ClaimResult,
) -> Result<(), AllocError> {
    match claim.verdict {
        Verdict::Passed if claim.replay.is_none() => Ok(()),
        Verdict::Passed => {
            push_word(told, "<details><summary>what decides it</summary>\n")?;
            push_why(told, alloc, judged, claim)?;
            push_word(told, "</details>\n")
        }
        Verdict::Failed | Verdict::Undecided => push_why(told, alloc, judged, claim),
    }
}

// Adds why a claim has its verdict, with the timeline of the answer that decides the claim.
fn push_why(
    told: &mut Vec<u8>,
    alloc: Global,
    judged: JudgedModel,
    claim: &ClaimResult,
) -> Result<(), AllocError> {
    let mut lines = Vec::new(alloc);
    match (judged.unexplored, judged.result.search_of(claim)) {
        (Some(why), _) => push_unexplored(&mut lines, why)?,
        (None, Some(search)) => push_reasons(&mut lines, alloc, judged, claim, search)?,
        (None, None) => {}
    }
    push_word(told, "<div class=\"why\">")?;
    push_lines(told, alloc, lines.as_slice())?;
    push_word(told, "</div>\n")?;
    match &claim.replay {
        Some(replay) => push_html_timeline(told, alloc, judged, replay),
        None => Ok(()),
    }
}

// The number of spaces before each line of a reason.
const MARGIN: usize = 5;

// Adds lines without their margin. Each line ends with a line feed.
fn push_lines(told: &mut Vec<u8>, alloc: Global, lines: &[u8]) -> Result<(), AllocError> {
    let mut line = Vec::new(alloc);
    for byte in lines {
        if *byte == b'\n' {
            push_word(told, "<p>")?;
            push_escaped(told, alloc, line.get(MARGIN..).unwrap_or(&[]))?;
            push_word(told, "</p>")?;
            line.clear();
        } else {
            line.push(*byte)?;
        }
    }
    Ok(())
}

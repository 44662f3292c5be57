//! A model of a file, and its result.

use crate::digits::{push_count, push_number, push_seconds, push_times, push_word, width_of};
use crate::named_file::{NamedFile, push_place};
use crate::unexplored::Unexplored;
use model_claims::Verdict;
use model_forms::form_bytes;
use model_runs::ModelResult;
use model_terms::{ModelTerm, Source};
use model_text::Model;
use std::alloc::{AllocError, Global};
use text_io::push_shown;

// The least width of the names of models.
const NAME: usize = 36;

// The width of the verdicts.
const VERDICT: usize = 10;

// The least width of the numbers of worlds.
const WORLDS: usize = 7;

/// A model of a file, and its result.
#[derive(Clone, Copy)]
pub struct JudgedModel<'a> {
    /// The file.
    pub file: NamedFile<'a>,
    /// The file, as it was read.
    pub source: &'a Source,
    /// The model, as the file has it.
    pub model: &'a Model,
    /// The result of the model.
    pub result: &'a ModelResult,
    /// The number of milliseconds that the model took.
    pub milliseconds: u64,
    /// Why the model has no result of a search; none if it has one.
    pub unexplored: Option<Unexplored>,
}

/// The name of a model.
pub(crate) fn name_of<'a>(source: &'a Source, model: &Model) -> &'a [u8] {
    form_bytes(source.text.as_slice(), model.name)
}

/// Returns the line of a model: its name, its verdict, and the numbers of its worlds, its seconds and its claims. The
/// verdict has a colour if `color`. `AllocError` if memory runs out.
pub fn model_line(alloc: Global, judged: JudgedModel, color: bool) -> Result<Vec<u8>, AllocError> {
    let mut told = Vec::new(alloc);
    push_shown(&mut told, name_of(judged.source, judged.model))?;
    push_up_to(&mut told, NAME)?;
    told.push(b' ')?;
    push_verdict(&mut told, judged.result.verdict, color)?;
    told.push(b' ')?;
    push_worlds(&mut told, judged.result.worlds)?;
    push_word(&mut told, " worlds ")?;
    push_times(
        &mut told,
        b' ',
        WORLDS.saturating_sub(seconds_width(judged.milliseconds)),
    )?;
    push_seconds(&mut told, judged.milliseconds)?;
    push_word(&mut told, " s  ")?;
    push_claims(&mut told, judged.result)?;
    told.push(b'\n')?;
    Ok(told)
}

// Adds spaces until a text has `width` bytes.
fn push_up_to(told: &mut Vec<u8>, width: usize) -> Result<(), AllocError> {
    push_times(told, b' ', width.saturating_sub(told.len()))
}

// Adds a verdict in its column, with or without a colour.
fn push_verdict(told: &mut Vec<u8>, verdict: Verdict, color: bool) -> Result<(), AllocError> {
    let word = verdict_word(verdict);
    if color {
        push_word(told, color_of(verdict))?;
        push_word(told, word)?;
        push_word(told, PLAIN)?;
    } else {
        push_word(told, word)?;
    }
    push_times(told, b' ', VERDICT.saturating_sub(word.len()))
}

// The text that sets the colour of a verdict in a terminal: green, red or yellow.
fn color_of(verdict: Verdict) -> &'static str {
    match verdict {
        Verdict::Passed => "\u{1b}[32m",
        Verdict::Failed => "\u{1b}[31m",
        Verdict::Undecided => "\u{1b}[33m",
    }
}

// The text that ends a colour in a terminal.
const PLAIN: &str = "\u{1b}[0m";

// Adds the number of worlds at the right of its column.
fn push_worlds(told: &mut Vec<u8>, worlds: u64) -> Result<(), AllocError> {
    push_times(told, b' ', WORLDS.saturating_sub(width_of(worlds)))?;
    push_number(told, worlds)
}

// The number of bytes of milliseconds, written as seconds.
fn seconds_width(milliseconds: u64) -> usize {
    width_of(milliseconds / 1000).saturating_add(3)
}

// Adds the number of claims, and whether some of them fail as they should.
fn push_claims(told: &mut Vec<u8>, became: &ModelResult) -> Result<(), AllocError> {
    push_count(told, became.claims.len(), "claim")?;
    if became.verdict == Verdict::Passed && has_fails(became) {
        push_word(told, " (fails as it should)")?;
    }
    Ok(())
}

// Whether a claim has to be refuted.
fn has_fails(became: &ModelResult) -> bool {
    let mut has = false;
    for claim in became.claims.iter() {
        has = has || claim.fails;
    }
    has
}

/// The word of a verdict in a report.
pub(crate) fn verdict_word(verdict: Verdict) -> &'static str {
    match verdict {
        Verdict::Passed => "passed",
        Verdict::Failed => "FAILED",
        Verdict::Undecided => "undecided",
    }
}

/// Returns the line of a model that is listed: `FILE:LINE:COLUMN: NAME`. `AllocError` if memory runs out.
pub fn listed_model(
    alloc: Global,
    file: NamedFile,
    source: &Source,
    model: &Model,
) -> Result<Vec<u8>, AllocError> {
    let mut told = Vec::new(alloc);
    push_place(&mut told, file, model.name.start)?;
    push_word(&mut told, ": ")?;
    push_shown(&mut told, name_of(source, model))?;
    told.push(b'\n')?;
    Ok(told)
}

/// Returns a comment with the name of a model, and its term, a line each. `AllocError` if memory runs out.
pub fn named_term(
    alloc: Global,
    source: &Source,
    model: &Model,
    term: &ModelTerm,
) -> Result<Vec<u8>, AllocError> {
    let mut told = Vec::new(alloc);
    push_word(&mut told, "; ")?;
    push_shown(&mut told, name_of(source, model))?;
    told.push(b'\n')?;
    told.extend_from_slice(term.text.as_slice())?;
    told.push(b'\n')?;
    Ok(told)
}

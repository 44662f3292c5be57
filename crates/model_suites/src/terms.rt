//! The terms of a model.

use model_claims::{Claim, read_claims};
use model_forms::form_bytes;
use model_reports::named_term;
use model_terms::{ModelTerm, Probe, Refused, Source, translate};
use model_text::Model;
use std::alloc::{AllocError, Global};
use text_io::push_shown;

/// Adds the terms of a model to a text: the term without a probe, and for each claim that needs a probe, as a fiber
/// that watches a ref, the term with the probe. Each term is one line, after a comment with the name of the model and
/// with that claim.
pub(crate) fn push_terms(
    alloc: Global,
    source: &Source,
    model: &Model,
    text: &mut Vec<u8>,
) -> Result<(), AllocError> {
    match translate(alloc, source, model, Probe::Nothing) {
        Ok(term) => {
            let told = named_term(alloc, source, model, &term)?;
            text.extend_from_slice(told.as_slice())?;
            push_probed(alloc, source, model, &term, text)
        }
        Err(refused) => passed_over(refused),
    }
}

// Returns `AllocError` if memory ran out. A model with a fault is passed over: it has no term.
fn passed_over(refused: Refused) -> Result<(), AllocError> {
    match refused {
        Refused::NoMemory => Err(AllocError),
        Refused::Fault(_) => Ok(()),
    }
}

// Adds the terms of the claims that need a probe.
fn push_probed(
    alloc: Global,
    source: &Source,
    model: &Model,
    term: &ModelTerm,
    text: &mut Vec<u8>,
) -> Result<(), AllocError> {
    match read_claims(alloc, source, model, term) {
        Ok(claims) => {
            for claim in claims.iter() {
                push_with_probe(alloc, source, model, claim, text)?;
            }
            Ok(())
        }
        Err(refused) => passed_over(refused),
    }
}

// Adds the term of a claim, if the claim needs a probe.
fn push_with_probe(
    alloc: Global,
    source: &Source,
    model: &Model,
    claim: &Claim,
    text: &mut Vec<u8>,
) -> Result<(), AllocError> {
    match claim.probe {
        Probe::Nothing => Ok(()),
        Probe::Watch(_, _) | Probe::Order(_, _, _) | Probe::Names => {
            match translate(alloc, source, model, claim.probe) {
                Ok(term) => push_claimed(source, model, claim, &term, text),
                Err(refused) => passed_over(refused),
            }
        }
    }
}

// Adds a comment with the model's name and a claim, and then a term.
fn push_claimed(
    source: &Source,
    model: &Model,
    claim: &Claim,
    term: &ModelTerm,
    text: &mut Vec<u8>,
) -> Result<(), AllocError> {
    text.extend_from_slice(b"; ")?;
    text.extend_from_slice(form_bytes(source.text.as_slice(), model.name))?;
    text.extend_from_slice(b" ")?;
    if let Some(form) = source.file.forms.get(claim.form) {
        push_on_line(text, form_bytes(source.text.as_slice(), *form))?;
    }
    text.push(b'\n')?;
    text.extend_from_slice(term.text.as_slice())?;
    text.push(b'\n')?;
    Ok(())
}

// Adds bytes as they are shown, with a space for each line feed.
fn push_on_line(text: &mut Vec<u8>, bytes: &[u8]) -> Result<(), AllocError> {
    for byte in bytes {
        match *byte {
            b'\n' => push_shown(text, b" ")?,
            other => push_shown(text, &[other])?,
        }
    }
    Ok(())
}

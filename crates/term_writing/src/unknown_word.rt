//! The notes on a word that is unknown.

use crate::file_fault::CLAIMS;
use crate::near_names::near_head;
use crate::reading::Reading;
use crate::scope::View;
use crate::shapes::shape_of;
use crate::told::{note_line, tell};
use crate::wording::{note_meant, note_place};
use effect_names::note_of;
use std::alloc::{AllocError, Global};

const ITSELF: &str =
    "a definition can't use itself: the loops are `(repeat v e ..)` and `(forever e ..)`";

const BELOW: &str = "a definition comes before its uses, and this one is at ";

const NESTED: &str = "a definition is an item of the file, and no part of another";

const ARGUMENT: &str =
    "`(fn (x ..) term)` is an argument, for a part `(body x ..)` of a definition";

const OF_MODELS: &str = "this belongs to a model, outside its `run`";

/// Adds the notes on a word that is neither one of the language nor the name of a definition that `view` sees.
pub(crate) fn note_unknown(
    alloc: Global,
    notes: &mut Vec<Vec<u8>>,
    read: Reading,
    prelude: usize,
    spelled: &[u8],
    view: View,
) -> Result<(), AllocError> {
    if let Some(place) = defined_at(read, spelled) {
        if place == view.limit {
            return note_line(alloc, notes, ITSELF);
        }
        return note_place(alloc, notes, read.text, prelude, BELOW, place);
    }
    if let Some(words) = item_note(spelled) {
        return note_line(alloc, notes, words);
    }
    match model_form(spelled) {
        Some(form) => note_form(alloc, notes, form),
        None => note_meant(alloc, notes, near_head(read, spelled, view.limit)),
    }
}

// Where the name of the definition with this spelling begins, if there is one.
fn defined_at(read: Reading, spelled: &[u8]) -> Option<usize> {
    let item = read.named.find(read.text, spelled, false)?;
    if item.is_definition() {
        Some(item.name.start)
    } else {
        None
    }
}

// The note on a word of a file that begins no term.
fn item_note(word: &[u8]) -> Option<&'static str> {
    match word {
        b"define" => Some(NESTED),
        b"fn" => Some(ARGUMENT),
        b"ends" | b"said" | b"says" | b"defaults" | b"model" => Some(OF_MODELS),
        _ => claim_note(word),
    }
}

// The note on a word of claims and bounds.
fn claim_note(word: &[u8]) -> Option<&'static str> {
    for claim in CLAIMS {
        if claim.as_bytes() == word {
            return Some(OF_MODELS);
        }
    }
    None
}

/// What says in models what this name of Cats Effect says, as `IO.pure` or `flatMap`; none if it isn't such a name.
fn model_form(name: &[u8]) -> Option<&'static str> {
    let bare = without_types(name);
    let method = behind_dot(bare);
    note_of(bare)
        .or(note_of(method))
        .or(shape_of(method))
        .or(note_of(owner_of(bare)))
}

// A name without what follows its first `[`.
fn without_types(name: &[u8]) -> &[u8] {
    match name.iter().position(|byte| *byte == b'[') {
        Some(end) => name.get(..end).unwrap_or(name),
        None => name,
    }
}

// What follows the last dot of a name; the whole name if it has none.
fn behind_dot(name: &[u8]) -> &[u8] {
    match name.iter().rposition(|byte| *byte == b'.') {
        Some(dot) => name.get(dot.saturating_add(1)..).unwrap_or(name),
        None => name,
    }
}

// What is before the first dot of a name; the whole name if it has none.
fn owner_of(name: &[u8]) -> &[u8] {
    match name.iter().position(|byte| *byte == b'.') {
        Some(dot) => name.get(..dot).unwrap_or(name),
        None => name,
    }
}

// Adds a note with what says the same in models.
fn note_form(alloc: Global, notes: &mut Vec<Vec<u8>>, form: &str) -> Result<(), AllocError> {
    let mut told = Vec::new(alloc);
    tell(&mut told, "in this language: ")?;
    tell(&mut told, form)?;
    notes.push(told)?;
    Ok(())
}

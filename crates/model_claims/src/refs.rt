//! The refs that a claim is about.

use crate::faults::{Names, plain_fault, unknown_name};
use crate::names::{Spelled, has_spelling, is_ref, no_names, push_binder, spelled_at};
use crate::parts::Place;
use model_terms::{Binder, BinderName, Refused};
use std::alloc::{AllocError, Global};

/// What a claim is about.
#[derive(Clone, Copy)]
pub(crate) struct Subjects {
    /// Whether the claim is about fibers.
    pub fibers: bool,
    /// Whether the claim depends on the names of fibers other than main.
    pub names: bool,
    /// The first ref that the claim is about, if any.
    pub cell: Option<BinderName>,
    /// Whether the claim is about several refs.
    pub several: bool,
}

/// What a condition without words is about: nothing.
pub(crate) fn no_subjects() -> Subjects {
    Subjects {
        fibers: false,
        names: false,
        cell: None,
        several: false,
    }
}

/// Adds the refs that the word with this number names, or returns the fault that no ref has this name. Returns the
/// number of the ref if the word names one ref alone and the straight part of the term makes this ref.
pub(crate) fn add_ref(
    alloc: Global,
    place: &Place,
    subjects: &mut Subjects,
    at: usize,
) -> Result<Option<u16>, Refused> {
    let spelled = spelled_at(place.source, at);
    let mut made = 0u16;
    let mut found = 0usize;
    let mut number = None;
    for binder in place.term.binders.as_slice() {
        if is_ref(binder.kind) {
            if has_spelling(place.source, binder.name, spelled) {
                add_cell(subjects, binder.name);
                found = found.saturating_add(1);
                number = number_of(place, binder, made);
            }
            made = made.saturating_add(1);
        }
    }
    match found {
        0 => Err(no_ref(alloc, place, at)),
        1 => Ok(number),
        _ => Ok(None),
    }
}

// The number of the ref that this binder makes: `made` if the straight part of the term makes it, else none. `made` is
// the number of refs before it in the text.
fn number_of(place: &Place, binder: &Binder, made: u16) -> Option<u16> {
    if binder.start < place.straight {
        Some(made)
    } else {
        None
    }
}

// Adds a ref.
fn add_cell(subjects: &mut Subjects, name: BinderName) {
    match subjects.cell {
        None => subjects.cell = Some(name),
        Some(other) => {
            if other != name {
                subjects.several = true;
            }
        }
    }
}

// The fault that no ref has this name.
fn no_ref(alloc: Global, place: &Place, at: usize) -> Refused {
    match ref_names(alloc, place) {
        Ok(names) => unknown_name(
            alloc,
            place.source,
            at,
            "no ref of this model is called ",
            "its refs: ",
            &names,
        ),
        Err(_error) => Refused::NoMemory,
    }
}

// The names of the model's refs.
fn ref_names(alloc: Global, place: &Place) -> Result<Names, AllocError> {
    let mut names = no_names(alloc);
    for binder in place.term.binders.as_slice() {
        if is_ref(binder.kind) {
            push_binder(&mut names, place.source, binder)?;
        }
    }
    Ok(names)
}

/// The fault E22 of a claim about refs that can't be checked.
pub(crate) fn ref_fault(alloc: Global, place: &Place, at: usize, words: &str) -> Refused {
    plain_fault(alloc, place.source, "E22", at, words)
}

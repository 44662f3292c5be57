//! The origins of the words of a term's code, in the names of the file.

use code_sources::{StartRole, WordSource};
use model_claims::FiberName;
use model_terms::{Binder, BinderName, ModelTerm, WordPlace};
use std::alloc::{AllocError, Global};

/// The origin of a word of a code, in the names of the file.
#[derive(Clone, Copy)]
pub(crate) struct Origin {
    /// The number of the form of the file, if one is known.
    pub form: Option<usize>,
    /// The name that the form binds behind its head; `Hidden` if there is none.
    pub name: BinderName,
    /// The role of the fiber that the word starts, if it starts one.
    pub role: StartRole,
    /// Whether the word is a `say` that a probe added.
    pub is_added: bool,
}

impl Origin {
    /// The name of the fiber that the word starts.
    pub(crate) fn fiber_name(self) -> FiberName {
        match self.role {
            StartRole::Own => fiber_name(self.name),
            StartRole::Left => FiberName::Left,
            StartRole::Right => FiberName::Right,
            StartRole::Helper => FiberName::Hidden,
        }
    }
}

// The name of a fiber whose binder has this name.
fn fiber_name(name: BinderName) -> FiberName {
    match name {
        BinderName::Word(form) => FiberName::Word(form),
        BinderName::Row(form, number) => FiberName::Row(form, number),
        BinderName::Hidden => FiberName::Hidden,
        BinderName::Watcher => FiberName::Watcher,
    }
}

/// Returns the origins of the words of a term's code, by their places in the term's text.
pub(crate) fn origins_of(
    alloc: Global,
    term: &ModelTerm,
    sources: &[WordSource],
) -> Result<Vec<Origin>, AllocError> {
    let mut origins = Vec::with_capacity(alloc, sources.len())?;
    for source in sources {
        let found = place_at(term.places.as_slice(), source.place);
        origins.push(Origin {
            form: found.map(|it| it.form),
            name: name_behind(term, source.place),
            role: source.role,
            is_added: found.is_some_and(|it| it.is_added),
        })?;
    }
    Ok(origins)
}

// At least the number of halvings of a binary search among any number of places.
const HALVINGS: u32 = 64;

// What is known of the form of the term at this place.
fn place_at(places: &[WordPlace], place: usize) -> Option<WordPlace> {
    let mut low = 0usize;
    let mut high = places.len();
    for _ in 0..HALVINGS {
        let middle = low.saturating_add(high) / 2;
        let found = places.get(middle)?;
        if found.term == place {
            return Some(*found);
        }
        if found.term < place {
            low = middle.saturating_add(1);
        } else {
            high = middle;
        }
    }
    None
}

// The name of the binder at this place.
fn binder_at(binders: &[Binder], place: usize) -> Option<BinderName> {
    let mut low = 0usize;
    let mut high = binders.len();
    for _ in 0..HALVINGS {
        let middle = low.saturating_add(high) / 2;
        let found = binders.get(middle)?;
        if found.start == place {
            return Some(found.name);
        }
        if found.start < place {
            low = middle.saturating_add(1);
        } else {
            high = middle;
        }
    }
    None
}

// The name that the form at this place binds behind its word.
fn name_behind(term: &ModelTerm, place: usize) -> BinderName {
    match token_behind(term.text.as_slice(), place) {
        None => BinderName::Hidden,
        Some(start) => match binder_at(term.binders.as_slice(), start) {
            None => BinderName::Hidden,
            Some(name) => name,
        },
    }
}

// Where the second token of the form at this place begins.
fn token_behind(text: &[u8], place: usize) -> Option<usize> {
    let mut behind_word = false;
    let form = text.get(place..)?;
    for (many, byte) in form.iter().enumerate() {
        if *byte == b' ' {
            behind_word = true;
        } else if behind_word {
            return Some(place.saturating_add(many));
        }
    }
    None
}

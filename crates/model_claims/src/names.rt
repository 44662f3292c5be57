//! The names of a model's fibers and refs, as claims spell them.

ghost use Rattle.std.specs.Prelude.{◌≡◌, slice_range};

use crate::answer::FiberName;
use crate::condition::Who;
use crate::faults::{Names, push_name, unknown_name};
use crate::parts::{Place, bytes_at, form_at, word_at};
use model_forms::form_bytes;
use model_terms::{Binder, BinderName, FiberName as Sayer, ModelTerm, NameKind, Refused, Source};
use model_text::read_number;
use std::alloc::{AllocError, Global};

/// A name that a claim spells: of one fiber or ref, of a whole row, or of one of a row, as `w.1`.
#[derive(Clone, Copy)]
pub(crate) struct Spelled {
    /// The number of bytes of the source before the name, or before the row's name.
    pub start: usize,
    /// The number of bytes of the source up to the end of this name.
    pub end: usize,
    /// The number in the row, if one is spelled.
    pub number: Option<usize>,
}

/// The name that the word with this number spells.
pub(crate) fn spelled_at(source: &Source, at: usize) -> Spelled {
    let Some(form) = form_at(source, at) else {
        return Spelled {
            start: 0,
            end: 0,
            number: None,
        };
    };
    let word = word_at(source, at);
    match word.iter().position(|byte| *byte == b'.') {
        Some(dot) => match row_number(word, dot) {
            Some(number) => Spelled {
                start: form.start,
                end: form.start.saturating_add(dot),
                number: Some(number),
            },
            None => whole(form.start, form.end),
        },
        None => whole(form.start, form.end),
    }
}

fn whole(start: usize, end: usize) -> Spelled {
    Spelled {
        start,
        end,
        number: None,
    }
}

// The number behind the dot of a name, if it is one.
fn row_number(word: &[u8], dot: usize) -> Option<usize> {
    let digits = word.get(dot.saturating_add(1)..)?;
    let number = read_number(digits)?;
    usize::try_from(number.get()).ok()
}

/// The bytes of the source between two places.
pub(crate) fn bytes_between(source: &Source, start: usize, end: usize) -> &[u8]
    ensures { result.now ≡ slice_range source.now.text.items start end }
{
    let text = source.text.as_slice();
    let end = end.min(text.len());
    let start = start.min(end);
    &text[start..end]
}

/// The bytes of the form that spells a binder's name; empty if the binder has no name that a claim can spell, as `_`.
pub(crate) fn binder_bytes(source: &Source, name: BinderName) -> &[u8] {
    match name {
        BinderName::Word(form) => name_bytes(source, form),
        BinderName::Row(form, _) => name_bytes(source, form),
        BinderName::Hidden => &[],
        BinderName::Watcher => &[],
    }
}

// The bytes of the form with this number; empty if it is `_`.
fn name_bytes(source: &Source, form: usize) -> &[u8] {
    match bytes_at(source, form) {
        b"_" => &[],
        spelled => spelled,
    }
}

/// Whether a spelled name is that of a binder: its own name, its row's name, or its row's name with its number.
pub(crate) fn has_spelling(source: &Source, name: BinderName, spelled: Spelled) -> bool {
    if !fits_number(name, spelled.number) {
        return false;
    }
    let own = binder_bytes(source, name);
    !own.is_empty() && own == bytes_between(source, spelled.start, spelled.end)
}

// Whether a binder has this number in its row; true if no number is spelled.
fn fits_number(name: BinderName, number: Option<usize>) -> bool {
    match number {
        None => true,
        Some(number) => match name {
            BinderName::Row(_, own) => own == number,
            BinderName::Word(_) => false,
            BinderName::Hidden => false,
            BinderName::Watcher => false,
        },
    }
}

/// Whether a binder binds a fiber.
pub(crate) fn is_fiber(kind: NameKind) -> bool {
    match kind {
        NameKind::Fiber => true,
        NameKind::Value => false,
        NameKind::Ref => false,
        NameKind::Deferred => false,
        NameKind::Poll => false,
    }
}

/// Whether a binder binds a ref.
pub(crate) fn is_ref(kind: NameKind) -> bool {
    match kind {
        NameKind::Ref => true,
        NameKind::Value => false,
        NameKind::Fiber => false,
        NameKind::Deferred => false,
        NameKind::Poll => false,
    }
}

/// The fibers that the word with this number names, or the fault that no fiber has this name.
pub(crate) fn who_at(alloc: Global, place: &Place, at: usize) -> Result<Who, Refused> {
    match word_at(place.source, at) {
        b"main" => Ok(Who::Main),
        b"*" => Ok(Who::Everyone),
        _ => named_at(alloc, place, at),
    }
}

// The fibers that the word with this number names, where it is neither `main` nor `*`.
fn named_at(alloc: Global, place: &Place, at: usize) -> Result<Who, Refused> {
    let spelled = spelled_at(place.source, at);
    if !is_fiber_name(place, at, spelled) {
        return Err(no_fiber(alloc, place, at));
    }
    match spelled.number {
        Some(number) => Ok(Who::OneOf(spelled.start, spelled.end, number)),
        None => Ok(Who::Named(spelled.start, spelled.end)),
    }
}

// Whether a fiber of the term has this name.
fn is_fiber_name(place: &Place, at: usize, spelled: Spelled) -> bool {
    match word_at(place.source, at) {
        b"left" if has_pair(place.term) => true,
        b"right" if has_pair(place.term) => true,
        _ => has_fiber(place, spelled),
    }
}

fn has_fiber(place: &Place, spelled: Spelled) -> bool {
    for binder in place.term.binders.as_slice() {
        if is_fiber(binder.kind) && has_spelling(place.source, binder.name, spelled) {
            return true;
        }
    }
    false
}

/// Whether a term has a `race` or a `both`.
pub(crate) fn has_pair(term: &ModelTerm) -> bool {
    let text = term.text.as_slice();
    for at in 0..text.len() {
        if let Some(rest) = text.get(at..) {
            if rest.starts_with(b"(race") || rest.starts_with(b"(both") {
                return true;
            }
        }
    }
    false
}

/// Whether these fibers of an answer are known only by their names.
pub(crate) fn needs_names(who: Who) -> bool {
    match who {
        Who::Main => false,
        Who::Everyone => false,
        Who::Named(_, _) => true,
        Who::OneOf(_, _, _) => true,
    }
}

/// The name, as an answer has it, of a fiber that says a value.
pub(crate) fn sayer_name(sayer: Sayer) -> FiberName {
    match sayer {
        Sayer::Main => FiberName::Main,
        Sayer::Left => FiberName::Left,
        Sayer::Right => FiberName::Right,
        Sayer::Word(form) => FiberName::Word(form),
        Sayer::Row(form, number) => FiberName::Row(form, number),
    }
}

// The fault that no fiber has this name.
fn no_fiber(alloc: Global, place: &Place, at: usize) -> Refused {
    match fiber_names(alloc, place) {
        Ok(names) => unknown_name(
            alloc,
            place.source,
            at,
            "no fiber of this model is called ",
            "its fibers: ",
            &names,
        ),
        Err(_error) => Refused::NoMemory,
    }
}

// The names of the model's fibers.
fn fiber_names(alloc: Global, place: &Place) -> Result<Names, AllocError> {
    let mut names = no_names(alloc);
    push_name(&mut names, b"main")?;
    for binder in place.term.binders.as_slice() {
        if is_fiber(binder.kind) {
            push_binder(&mut names, place.source, binder)?;
        }
    }
    if has_pair(place.term) {
        push_name(&mut names, b"left")?;
        push_name(&mut names, b"right")?;
    }
    Ok(names)
}

/// An empty list of names.
pub(crate) fn no_names(alloc: Global) -> Names {
    let text = Vec::new(alloc);
    let ends = Vec::new(alloc);
    Names { text, ends }
}

/// Adds the name of a binder, if it has one.
pub(crate) fn push_binder(
    names: &mut Names,
    source: &Source,
    binder: &Binder,
) -> Result<(), AllocError> {
    let spelled = binder_bytes(source, binder.name);
    if spelled.is_empty() {
        return Ok(());
    }
    push_name(names, spelled)
}

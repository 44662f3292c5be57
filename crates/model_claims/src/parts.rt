//! Forms of a file by their numbers, and the numbers and ways to end that forms of claims spell.

ghost use Rattle.std.specs.Prelude.{◌≡◌};
ghost use Rattle.std.specs.List.{slice_get};
ghost use Rattle.model_claims.specs.Leaves.{spelling};

use crate::condition::Wanted;
use effect_term::Value;
use model_forms::{Block, Form, FormKind, behind_first, first_form, form_bytes, inside_first};
use model_terms::{ModelTerm, Source};
use model_text::{Constant, Item, Model, read_number};

/// A model, its file and its term.
#[derive(Clone, Copy)]
pub(crate) struct Place<'a> {
    /// The file.
    pub source: &'a Source,
    /// The model.
    pub model: &'a Model,
    /// Its term.
    pub term: &'a ModelTerm,
    /// The number of bytes of the straight part of the term ([`straight_part`](crate::straight::straight_part)).
    pub straight: usize,
    /// Whether a fiber's number determines its name ([`numbers_tell_names`](crate::numbering::numbers_tell_names)).
    pub numbered: bool,
}

/// The form with this number, if there is one.
pub(crate) fn form_at(source: &Source, at: usize) -> Option<Form>
    ensures { result ≡ slice_get source.now.file.forms.items at }
{
    source.file.forms.as_slice().get(at).copied()
}

/// The bytes of the word with this number; empty if the form is no word.
pub(crate) fn word_at(source: &Source, at: usize) -> &[u8] {
    let Some(form) = form_at(source, at) else {
        return &[];
    };
    match form.kind {
        FormKind::Word => form_bytes(source.text.as_slice(), form),
        FormKind::Text | FormKind::List => &[],
    }
}

/// The bytes of the form with this number, of whatever kind; empty if there is none.
pub(crate) fn bytes_at(source: &Source, at: usize) -> &[u8]
    ensures { result.now ≡ spelling source.now at }
{
    match form_at(source, at) {
        Some(form) => form_bytes(source.text.as_slice(), form),
        None => &[],
    }
}

/// The forms inside the list with this number, its head first; an empty block if the form is no list.
pub(crate) fn inside_at(source: &Source, at: usize) -> Block {
    let forms = source.file.forms.as_slice();
    let block = Block {
        first: at,
        end: forms.len(),
    };
    inside_first(forms, block)
}

/// The forms behind the head of the list with this number; an empty block if the form is no list.
pub(crate) fn parts_at(source: &Source, at: usize) -> Block {
    behind_first(source.file.forms.as_slice(), inside_at(source, at))
}

/// The word at the head of the list with this number; empty if there is none.
pub(crate) fn head_at(source: &Source, at: usize) -> &[u8] {
    match first_at(source, inside_at(source, at)) {
        Some(head) => word_at(source, head),
        None => &[],
    }
}

/// The number of the first form of a block, if any.
pub(crate) fn first_at(source: &Source, block: Block) -> Option<usize> {
    match first_form(source.file.forms.as_slice(), block) {
        Some(_) => Some(block.first),
        None => None,
    }
}

/// The block behind the first form of a block.
pub(crate) fn behind(source: &Source, block: Block) -> Block {
    behind_first(source.file.forms.as_slice(), block)
}

/// The number of the only form of a block; none if the block has no form or several.
pub(crate) fn only_at(source: &Source, block: Block) -> Option<usize> {
    let first = first_at(source, block)?;
    match first_at(source, behind(source, block)) {
        Some(_) => None,
        None => Some(first),
    }
}

/// The numbers of the two forms of a block; none unless the block has exactly two.
pub(crate) fn both_at(source: &Source, block: Block) -> Option<(usize, usize)> {
    let first = first_at(source, block)?;
    let second = only_at(source, behind(source, block))?;
    Some((first, second))
}

/// The value that the word with this number spells: a number, or a constant that is defined above the model.
pub(crate) fn number_at(source: &Source, model: &Model, at: usize) -> Option<Value> {
    let word = word_at(source, at);
    match read_number(word) {
        Some(number) => Some(number),
        None => constant_of(source, model, word),
    }
}

// The value of the constant of this name that is defined above the model, if any.
fn constant_of(source: &Source, model: &Model, name: &[u8]) -> Option<Value> {
    for item in source.file.items.as_slice() {
        if let Some(number) = constant_in(source, model, *item, name) {
            return Some(number);
        }
    }
    None
}

// The value of this item, if it is a constant of this name above the model.
fn constant_in(source: &Source, model: &Model, item: Item, name: &[u8]) -> Option<Value> {
    match item {
        Item::Constant(constant) => named_constant(source, model, constant, name),
        Item::Definition(_) => None,
        Item::Defaults(_) => None,
        Item::Model(_) => None,
    }
}

fn named_constant(
    source: &Source,
    model: &Model,
    constant: Constant,
    name: &[u8],
) -> Option<Value> {
    let spelled = form_bytes(source.text.as_slice(), constant.name);
    if constant.name.start < model.name.start && spelled == name {
        Some(constant.number)
    } else {
        None
    }
}

/// The way to end that the form with this number names, if any.
pub(crate) fn outcome_at(source: &Source, model: &Model, at: usize) -> Option<Wanted> {
    let form = form_at(source, at)?;
    match form.kind {
        FormKind::Word => plain_outcome(source, model, at),
        FormKind::List => outcome_with(source, model, at),
        FormKind::Text => None,
    }
}

// The way to end that a word names.
fn plain_outcome(source: &Source, model: &Model, at: usize) -> Option<Wanted> {
    match word_at(source, at) {
        b"succeeded" => Some(Wanted::Succeeded),
        b"errored" => Some(Wanted::Errored),
        b"canceled" => Some(Wanted::Canceled),
        b"unended" => Some(Wanted::Unended),
        _ => {
            let number = number_at(source, model, at)?;
            Some(Wanted::SucceededWith(number))
        }
    }
}

// The way to end that a list names: `(succeeded V)` or `(errored C)`.
fn outcome_with(source: &Source, model: &Model, at: usize) -> Option<Wanted> {
    let part = only_at(source, parts_at(source, at))?;
    let number = number_at(source, model, part)?;
    match head_at(source, at) {
        b"succeeded" => Some(Wanted::SucceededWith(number)),
        b"errored" => Some(Wanted::ErroredWith(number)),
        _ => None,
    }
}

//! The forms of a source, as a translation reads them.

use crate::named::ItemNames;
use crate::wrong::Span;
use model_forms::{Block, Form, FormKind, behind_first, first_form, form_bytes, inside_first};

/// The text of a source, its forms, and its definitions and constants.
#[derive(Clone, Copy)]
pub struct Reading<'a> {
    /// The text.
    pub text: &'a [u8],
    /// Its forms.
    pub forms: &'a [Form],
    /// The names of its items.
    pub named: &'a ItemNames,
}

/// The bytes of a span.
pub fn bytes_of(text: &[u8], span: Span) -> &[u8] {
    text.get(span.start..span.end).unwrap_or(&[])
}

/// The span of a form.
pub fn span_of(form: Form) -> Span {
    Span {
        start: form.start,
        end: form.end,
    }
}

/// The form with this number, or an empty word at the beginning of the text if there is none.
pub(crate) fn form_at(forms: &[Form], at: usize) -> Form {
    forms.get(at).copied().unwrap_or(Form {
        kind: FormKind::Word,
        start: 0,
        end: 0,
        inside: 0,
    })
}

/// The block of the form with this number and the forms inside it.
pub(crate) fn block_at(forms: &[Form], at: usize) -> Block {
    let inside = form_at(forms, at).inside;
    Block {
        first: at,
        end: at.saturating_add(inside).saturating_add(1),
    }
}

/// The forms inside the form with this number.
pub(crate) fn inside_at(forms: &[Form], at: usize) -> Block {
    inside_first(forms, block_at(forms, at))
}

/// The number of a block's first form, if it has one.
pub fn first_of(forms: &[Form], block: Block) -> Option<usize> {
    match first_form(forms, block) {
        Some(_) => Some(block.first),
        None => None,
    }
}

/// The forms of a block behind the first `n`.
pub(crate) fn behind_nth(forms: &[Form], block: Block, n: usize) -> Block {
    let mut rest = block;
    for _ in 0..n {
        rest = behind_first(forms, rest);
    }
    rest
}

/// The number of the form that follows the first `n` of a block, if there is one.
pub(crate) fn nth_of(forms: &[Form], block: Block, n: usize) -> Option<usize> {
    first_of(forms, behind_nth(forms, block, n))
}

/// The number of forms of a block, without those inside them.
pub(crate) fn count_of(forms: &[Form], block: Block) -> usize {
    let mut rest = block;
    for count in 0..forms.len() {
        if first_form(forms, rest).is_none() {
            return count;
        }
        rest = behind_first(forms, rest);
    }
    forms.len()
}

impl<'a> Reading<'a> {
    /// The bytes of the form with this number.
    pub(crate) fn word(self, at: usize) -> &'a [u8] {
        form_bytes(self.text, form_at(self.forms, at))
    }

    /// The span of the form with this number.
    pub(crate) fn span(self, at: usize) -> Span {
        span_of(form_at(self.forms, at))
    }

    /// The kind of the form with this number.
    pub(crate) fn kind(self, at: usize) -> FormKind {
        form_at(self.forms, at).kind
    }

    /// The word at the head of the list with this number, or an empty word if there is none.
    pub(crate) fn head(self, at: usize) -> &'a [u8] {
        match first_of(self.forms, inside_at(self.forms, at)) {
            Some(first) => match self.kind(first) {
                FormKind::Word => self.word(first),
                FormKind::Text | FormKind::List => &[],
            },
            None => &[],
        }
    }

    /// The forms of the list with this number behind its head.
    pub(crate) fn parts(self, at: usize) -> Block {
        behind_first(self.forms, inside_at(self.forms, at))
    }
}

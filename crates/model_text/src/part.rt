//! Checks of the forms in definitions and models.

ghost use Rattle.std.specs.Prelude.{◌≡◌, Some};
ghost use Rattle.model_forms.specs.Rows.{Row, IsBlock, first_of};
ghost use Rattle.model_text.specs.Items.{are_names, bad_bound, bad_part, fits_bound, fits_part, head_of, is_amount};
ghost use Rattle.model_text.specs.Items.{is_bound_list, is_bound_word, is_name_form, is_term_part, number_form};

use crate::number::read_number;
use crate::word::{Keyword, is_name, is_part, keyword_of};
use effect_term::Value;
use model_forms::{Block, Form, FormKind, behind_first, first_form, form_bytes, inside_first};

/// Whether a form is a name.
pub(crate) fn is_name_form(text: &[u8], form: Form) -> bool
    ensures { result ≡ is_name_form text.now form }
{
    match form.kind {
        FormKind::Word => is_name(form_bytes(text, form)),
        FormKind::Text | FormKind::List => false,
    }
}

/// The number that a form spells, if it spells one.
pub(crate) fn number_form(text: &[u8], form: Form) -> Option<Value>
    ensures { result ≡ number_form text.now form }
{
    match form.kind {
        FormKind::Word => read_number(form_bytes(text, form)),
        FormKind::Text | FormKind::List => None,
    }
}

/// The meaning of the first form of a block, as the head of a list.
#[tactic(auto, unfolding(crate::specs::Items::head_of))]
pub(crate) fn head_of(text: &[u8], forms: &[Form], block: Block) -> Option<Keyword>
    ensures { (row : Row) → IsBlock forms.now block row → result ≡ head_of text.now row }
{
    let form = first_form(forms, block)?;
    match form.kind {
        FormKind::Word => keyword_of(form_bytes(text, form)),
        FormKind::Text | FormKind::List => None,
    }
}

// Whether all forms of a block are names.
fn are_names(text: &[u8], forms: &[Form], block: Block) -> bool
    ensures { (row : Row) → IsBlock forms.now block row → result ≡ are_names text.now row }
{
    let mut rest = block;
    while let Some(form) = first_form(forms, rest) {
        if !is_name_form(text, form) {
            return false;
        }
        rest = behind_first(forms, rest);
    }
    true
}

// Whether the forms of a block make a part that is a term: one name or more.
fn is_term_part(text: &[u8], forms: &[Form], block: Block) -> bool
    ensures { (row : Row) → IsBlock forms.now block row → result ≡ is_term_part text.now row }
{
    first_form(forms, block).is_some() && are_names(text, forms, block)
}

// Whether the first form of a block, which is `form`, is a part.
fn fits_part(text: &[u8], forms: &[Form], block: Block, form: Form) -> bool
    ensures { (row : Row) → IsBlock forms.now block row → Some form ≡ first_of row → result ≡ fits_part text.now row }
{
    match form.kind {
        FormKind::Word => is_part(form_bytes(text, form)),
        FormKind::Text => false,
        FormKind::List => is_term_part(text, forms, inside_first(forms, block)),
    }
}

/// The place of a block's first form that isn't a part, if there is one.
pub(crate) fn bad_part(text: &[u8], forms: &[Form], block: Block) -> Option<usize>
    ensures { (row : Row) → IsBlock forms.now block row → result ≡ bad_part text.now row }
{
    let mut rest = block;
    while let Some(form) = first_form(forms, rest) {
        if !fits_part(text, forms, rest, form) {
            return Some(form.start);
        }
        rest = behind_first(forms, rest);
    }
    None
}

// Whether the first form of a block is a number that isn't negative.
fn is_amount(text: &[u8], forms: &[Form], block: Block) -> bool
    ensures { (row : Row) → IsBlock forms.now block row → result ≡ is_amount text.now (first_of row) }
{
    let Some(form) = first_form(forms, block) else {
        return false;
    };
    match number_form(text, form) {
        Some(number) => number.get() >= 0,
        None => false,
    }
}

// Whether a block begins with the word of a bound.
fn is_bound_head(text: &[u8], forms: &[Form], block: Block) -> bool
    ensures { (row : Row) → IsBlock forms.now block row → result ≡ is_bound_word (head_of text.now row) }
{
    match head_of(text, forms, block) {
        Some(Keyword::Bound) => true,
        Some(_) | None => false,
    }
}

/// Whether the forms of a block make a bound: its word, a number that isn't negative, and nothing else.
#[tactic(auto, unfolding(crate::specs::Items::is_bound_list))]
pub(crate) fn is_bound_list(text: &[u8], forms: &[Form], block: Block) -> bool
    ensures { (row : Row) → IsBlock forms.now block row → result ≡ is_bound_list text.now row }
{
    let second = behind_first(forms, block);
    let third = behind_first(forms, second);
    is_bound_head(text, forms, block)
        && is_amount(text, forms, second)
        && first_form(forms, third).is_none()
}

// Whether the first form of a block, which is `form`, is a bound.
fn fits_bound(text: &[u8], forms: &[Form], block: Block, form: Form) -> bool
    ensures { (row : Row) → IsBlock forms.now block row → Some form ≡ first_of row → result ≡ fits_bound text.now row }
{
    match form.kind {
        FormKind::Word | FormKind::Text => false,
        FormKind::List => is_bound_list(text, forms, inside_first(forms, block)),
    }
}

/// The place of a block's first form that isn't a bound, if there is one.
pub(crate) fn bad_bound(text: &[u8], forms: &[Form], block: Block) -> Option<usize>
    ensures { (row : Row) → IsBlock forms.now block row → result ≡ bad_bound text.now row }
{
    let mut rest = block;
    while let Some(form) = first_form(forms, rest) {
        if !fits_bound(text, forms, rest, form) {
            return Some(form.start);
        }
        rest = behind_first(forms, rest);
    }
    None
}

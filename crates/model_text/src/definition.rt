//! Reads constants and definitions.

ghost use Rattle.std.specs.Prelude.{◌≡◌};
ghost use Rattle.model_forms.specs.Rows.{Row, IsBlock};
ghost use Rattle.model_text.specs.Items.{constant_of, define_of, definition_of};
ghost use Rattle.model_text.specs.Standing.{Reads};

use crate::body::body_fault;
use crate::fault::ItemFault;
use crate::item::{Constant, Definition, Item};
use crate::part::{bad_part, is_name_form, number_form};
use model_forms::{Block, Form, FormKind, behind_first, first_form, inside_first};

// Reads the constant `name`; `block` follows the name.
#[tactic(auto, unfolding(crate::specs::Items::constant_of))]
fn constant(
    text: &[u8],
    forms: &[Form],
    block: Block,
    name: Form,
    place: usize,
) -> Result<Item, ItemFault>
    ensures { (row : Row) → IsBlock forms.now block row →
        Reads forms.now result (constant_of text.now place name row) }
{
    if !is_name_form(text, name) {
        return Err(ItemFault::NotAName(name.start));
    }
    let Some(second) = first_form(forms, block) else {
        return Err(ItemFault::NotADefinition(place));
    };
    let Some(number) = number_form(text, second) else {
        return Err(ItemFault::NotANumber(second.start));
    };
    match first_form(forms, behind_first(forms, block)) {
        Some(extra) => Err(ItemFault::NotADefinition(extra.start)),
        None => Ok(Item::Constant(Constant { name, number })),
    }
}

// Reads a definition: `inside` is its name and its parts, and `body` its statements.
#[tactic(auto, unfolding(crate::specs::Items::definition_of))]
fn definition(
    text: &[u8],
    forms: &[Form],
    inside: Block,
    body: Block,
    list: Form,
    place: usize,
) -> Result<Item, ItemFault>
    ensures { (row : Row) (rest : Row) → IsBlock forms.now inside row → IsBlock forms.now body rest →
        Reads forms.now result (definition_of text.now place list row rest) }
{
    let Some(name) = first_form(forms, inside) else {
        return Err(ItemFault::NotAName(list.start));
    };
    if !is_name_form(text, name) {
        return Err(ItemFault::NotAName(name.start));
    }
    let parts = behind_first(forms, inside);
    if let Some(bad) = bad_part(text, forms, parts) {
        return Err(ItemFault::NotAPart(bad));
    }
    if first_form(forms, body).is_none() {
        return Err(ItemFault::NotADefinition(place));
    }
    match body_fault(text, forms, body) {
        Some(fault) => Err(fault),
        None => Ok(Item::Definition(Definition { name, parts, body })),
    }
}

/// Reads the item of the list at `place`, which begins with `define`; `block` follows this word.
#[tactic(auto, unfolding(crate::specs::Items::define_of))]
pub(crate) fn define(
    text: &[u8],
    forms: &[Form],
    block: Block,
    place: usize,
) -> Result<Item, ItemFault>
    ensures { (row : Row) → IsBlock forms.now block row → Reads forms.now result (define_of text.now place row) }
{
    let Some(first) = first_form(forms, block) else {
        return Err(ItemFault::NotADefinition(place));
    };
    let behind = behind_first(forms, block);
    match first.kind {
        FormKind::List => {
            definition(
                text,
                forms,
                inside_first(forms, block),
                behind,
                first,
                place,
            )
        }
        FormKind::Word | FormKind::Text => constant(text, forms, behind, first, place),
    }
}

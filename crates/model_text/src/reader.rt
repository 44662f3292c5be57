//! Reads the items of a file one after another.

ghost use Rattle.std.specs.Prelude.{◌≡◌, ◌≢◌, IfErr, IfOk, Some, Err};
ghost use Rattle.model_forms.specs.Rows.{Row, IsBlock, first_of, flat};
ghost use Rattle.model_text.specs.Items.{bad_bound, defaults_with, item_first, item_of, items_of};
ghost use Rattle.model_text.specs.Standing.{AreItems, Reads};
ghost use Rattle.model_text.specs.declared.fault.ItemFault.TheVariants.{NoMemory};

use crate::definition::define;
use crate::fault::ItemFault;
use crate::item::Item;
use crate::model::model;
use crate::part::{bad_bound, head_of};
use crate::word::Keyword;
use model_forms::{Block, Form, FormKind, behind_first, block_of, first_form, inside_first};
use std::alloc::Global;

// Reads the bounds of every model; each form of the block must be a bound.
fn defaults(text: &[u8], forms: &[Form], block: Block) -> Result<Item, ItemFault>
    ensures { (row : Row) → IsBlock forms.now block row →
        Reads forms.now result (defaults_with row (bad_bound text.now row)) }
{
    match bad_bound(text, forms, block) {
        Some(place) => Err(ItemFault::NotABound(place)),
        None => Ok(Item::Defaults(block)),
    }
}

// Reads the item of the list at `place`, with the forms `inside` it.
#[tactic(auto, unfolding(crate::specs::Items::item_of))]
fn item(text: &[u8], forms: &[Form], inside: Block, place: usize) -> Result<Item, ItemFault>
    ensures { (row : Row) → IsBlock forms.now inside row → Reads forms.now result (item_of text.now place row) }
{
    let behind = behind_first(forms, inside);
    match head_of(text, forms, inside) {
        Some(Keyword::Define) => define(text, forms, behind, place),
        Some(Keyword::Defaults) => defaults(text, forms, behind),
        Some(Keyword::Model) => model(text, forms, behind, place),
        Some(Keyword::Run) => Err(ItemFault::NotAnItem(place)),
        Some(Keyword::Claim) => Err(ItemFault::NotAnItem(place)),
        Some(Keyword::Bound) => Err(ItemFault::NotAnItem(place)),
        None => Err(ItemFault::NotAnItem(place)),
    }
}

// Reads the item that is the first form of a block, which is `form`.
fn item_first(text: &[u8], forms: &[Form], block: Block, form: Form) -> Result<Item, ItemFault>
    ensures { (row : Row) → IsBlock forms.now block row → Some form ≡ first_of row →
        Reads forms.now result (item_first text.now row) }
{
    match form.kind {
        FormKind::Word | FormKind::Text => Err(ItemFault::NotAnItem(form.start)),
        FormKind::List => item(text, forms, inside_first(forms, block), form.start),
    }
}

/// Returns the items of a file from its text and its forms, or the first fault.
pub fn read_items(alloc: Global, text: &[u8], forms: &[Form]) -> Result<Vec<Item>, ItemFault>
    ensures items { (row : Row) → forms.now ≡ flat row →
        IfOk result (λ v. AreItems forms.now v.items (items_of text.now row)) }
    ensures fault { (row : Row) → forms.now ≡ flat row →
        IfErr result (λ e. e ≢ NoMemory → items_of text.now row ≡ Err e) }
{
    let mut items = Vec::new(alloc);
    let mut rest = block_of(forms);
    while let Some(form) = first_form(forms, rest) {
        match item_first(text, forms, rest, form) {
            Ok(item) => items.push(item)?,
            Err(fault) => return Err(fault),
        }
        rest = behind_first(forms, rest);
    }
    Ok(items)
}

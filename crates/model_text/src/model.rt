//! Reads models.

ghost use Rattle.std.specs.Prelude.{◌≡◌, Some};
ghost use Rattle.model_forms.specs.Rows.{Row, IsBlock, first_of};
ghost use Rattle.model_text.specs.Bodies.{row_fault};
ghost use Rattle.model_text.specs.Items.{claim_first, claim_of, claim_with, model_claims, model_of, run_of, run_with};
ghost use Rattle.model_text.specs.Standing.{Reads, ReadsBlock, ReadsClaim};

use crate::body::body_fault;
use crate::fault::ItemFault;
use crate::item::{Item, Model};
use crate::part::{head_of, is_bound_list, is_name_form};
use crate::word::Keyword;
use model_forms::{Block, Form, FormKind, behind_first, first_form, inside_first};

/// The result of reading a list of a model: go on to the next list, the model's statements, or a fault.
#[derive(Clone, Copy)]
pub(crate) enum ClaimStep {
    More,
    Done(Block),
    Bad(ItemFault),
}

// Reads the `run` at `place` with the statements `body`; the forms `rest` follow it.
fn run(text: &[u8], forms: &[Form], body: Block, rest: Block, place: usize) -> ClaimStep
    ensures { (row : Row) (after : Row) → IsBlock forms.now body row → IsBlock forms.now rest after →
        ReadsClaim forms.now result (run_with place row (first_of row) (row_fault text.now row) (first_of after)) }
{
    if first_form(forms, body).is_none() {
        return ClaimStep::Bad(ItemFault::EmptyRun(place));
    }
    if let Some(fault) = body_fault(text, forms, body) {
        return ClaimStep::Bad(fault);
    }
    match first_form(forms, rest) {
        Some(extra) => ClaimStep::Bad(ItemFault::BehindRun(extra.start)),
        None => ClaimStep::Done(body),
    }
}

// Checks a claim; `block` follows its word.
fn claim_body(text: &[u8], forms: &[Form], block: Block) -> ClaimStep
    ensures { (row : Row) → IsBlock forms.now block row →
        ReadsClaim forms.now result (claim_with (row_fault text.now row)) }
{
    match body_fault(text, forms, block) {
        Some(fault) => ClaimStep::Bad(fault),
        None => ClaimStep::More,
    }
}

// Reads the list of a model at `place`, with the forms `inside` it; the forms `rest` follow it.
#[tactic(auto, unfolding(crate::specs::Items::claim_of))]
fn claim(text: &[u8], forms: &[Form], inside: Block, rest: Block, place: usize) -> ClaimStep
    ensures { (row : Row) (after : Row) → IsBlock forms.now inside row → IsBlock forms.now rest after →
        ReadsClaim forms.now result (claim_of text.now place row after) }
{
    match head_of(text, forms, inside) {
        Some(Keyword::Run) => run(text, forms, behind_first(forms, inside), rest, place),
        Some(Keyword::Claim) => claim_body(text, forms, behind_first(forms, inside)),
        Some(Keyword::Bound) => {
            if is_bound_list(text, forms, inside) {
                ClaimStep::More
            } else {
                ClaimStep::Bad(ItemFault::NotABound(place))
            }
        }
        Some(Keyword::Define) => ClaimStep::Bad(ItemFault::NotAClaim(place)),
        Some(Keyword::Defaults) => ClaimStep::Bad(ItemFault::NotAClaim(place)),
        Some(Keyword::Model) => ClaimStep::Bad(ItemFault::NotAClaim(place)),
        None => ClaimStep::Bad(ItemFault::NotAClaim(place)),
    }
}

// Reads the first form of a block of a model, which is `form`.
fn claim_first(text: &[u8], forms: &[Form], block: Block, form: Form) -> ClaimStep
    ensures { (row : Row) → IsBlock forms.now block row → Some form ≡ first_of row →
        ReadsClaim forms.now result (claim_first text.now row) }
{
    match form.kind {
        FormKind::Word | FormKind::Text => ClaimStep::Bad(ItemFault::NotAClaim(form.start)),
        FormKind::List => claim(
            text,
            forms,
            inside_first(forms, block),
            behind_first(forms, block),
            form.start,
        ),
    }
}

// Returns the statements of a model from its claims, bounds and `run`. `place` is that of the model's name.
fn run_of(text: &[u8], forms: &[Form], block: Block, place: usize) -> Result<Block, ItemFault>
    ensures { (row : Row) → IsBlock forms.now block row →
        ReadsBlock forms.now result (run_of text.now place row) }
{
    let mut rest = block;
    while let Some(form) = first_form(forms, rest) {
        match claim_first(text, forms, rest, form) {
            ClaimStep::More => rest = behind_first(forms, rest),
            ClaimStep::Done(body) => return Ok(body),
            ClaimStep::Bad(fault) => return Err(fault),
        }
    }
    Err(ItemFault::NoRun(place))
}

// Reads the model of this name and description from its claims, bounds and `run`.
fn claims(
    text: &[u8],
    forms: &[Form],
    block: Block,
    name: Form,
    about: Option<Form>,
) -> Result<Item, ItemFault>
    ensures { (row : Row) → IsBlock forms.now block row →
        Reads forms.now result (model_claims text.now name about row) }
{
    match run_of(text, forms, block, name.start) {
        Ok(body) => Ok(Item::Model(Model {
            name,
            text: about,
            claims: block,
            body,
        })),
        Err(fault) => Err(fault),
    }
}

/// Reads the item of the list at `place`, which begins with `model`; `block` follows this word.
#[tactic(auto, unfolding(crate::specs::Items::model_of))]
pub(crate) fn model(
    text: &[u8],
    forms: &[Form],
    block: Block,
    place: usize,
) -> Result<Item, ItemFault>
    ensures { (row : Row) → IsBlock forms.now block row → Reads forms.now result (model_of text.now place row) }
{
    let Some(name) = first_form(forms, block) else {
        return Err(ItemFault::NotAModel(place));
    };
    if !is_name_form(text, name) {
        return Err(ItemFault::NotAName(name.start));
    }
    let behind = behind_first(forms, block);
    match first_form(forms, behind) {
        Some(form) => match form.kind {
            FormKind::Text => claims(text, forms, behind_first(forms, behind), name, Some(form)),
            FormKind::Word => claims(text, forms, behind, name, None),
            FormKind::List => claims(text, forms, behind, name, None),
        },
        None => claims(text, forms, behind, name, None),
    }
}

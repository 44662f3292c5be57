//! Ranges of the forms of a text, and the steps from one form to the next.

ghost use Rattle.std.specs.Prelude.{◌≡◌, ◌<◌, ◌-◌, OnSome, length};
ghost use Rattle.model_forms.specs.Rows.{Row, IsBlock, first_of, inside_of, behind_of, flat};

use crate::form::Form;

/// A range of the list of all forms of a text.
#[derive(Clone, Copy, PartialEq, Eq, Debug)]
pub struct Block {
    /// The index of its first form.
    pub first: usize,
    /// The index behind its last form and the forms inside that form.
    pub end: usize,
}

/// Returns the block of all forms.
pub fn block_of(forms: &[Form]) -> Block
    ensures { (row : Row) → forms.now ≡ flat row → IsBlock forms.now result row }
{
    Block {
        first: 0,
        end: forms.len(),
    }
}

/// Returns the first form of a block, if it has one.
#[tactic(auto, using(crate::proofs::Blocks::first_is_none))]
pub fn first_form(forms: &[Form], block: Block) -> Option<Form>
    ensures first { (row : Row) → IsBlock forms.now block row → result ≡ first_of row }
    ensures some { OnSome result (block.first < block.end) }
{
    if block.first < block.end && block.first < forms.len() {
        Some(forms[block.first])
    } else {
        None
    }
}

/// The forms inside the first form of a block: none if the block is empty, or if that form is a word or a text.
pub fn inside_first(forms: &[Form], block: Block) -> Block
    ensures { (row : Row) → IsBlock forms.now block row → IsBlock forms.now result (inside_of row) }
{
    match first_form(forms, block) {
        Some(form) => {
            let first = block.first + 1;
            Block {
                first,
                end: first + form.inside.min(block.end - first),
            }
        }
        None => Block {
            first: block.first,
            end: block.first,
        },
    }
}

/// The forms of a block without its first form and the forms inside that form.
pub fn behind_first(forms: &[Form], block: Block) -> Block
    ensures behind { (row : Row) → IsBlock forms.now block row → IsBlock forms.now result (behind_of row) }
    ensures fewer { block.first < block.end → result.end - result.first < block.end - block.first }
{
    match first_form(forms, block) {
        Some(form) => {
            let first = block.first + 1;
            Block {
                first: first + form.inside.min(block.end - first),
                end: block.end,
            }
        }
        None => Block {
            first: block.end,
            end: block.end,
        },
    }
}

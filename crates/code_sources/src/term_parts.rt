//! The lists inside a form: the terms that are its parts.

use model_forms::{Block, Form, FormKind, behind_first, first_form};

// The greatest number of terms among the parts of a form.
const MOST: usize = 5;

/// The numbers of a form's parts that are terms, in the order of the text; for a missing part, one past all forms.
#[derive(Clone, Copy)]
pub(crate) struct TermParts {
    /// The first part.
    pub first: usize,
    /// The second part.
    pub second: usize,
    /// The third part.
    pub third: usize,
    /// The fourth part.
    pub fourth: usize,
    /// The fifth part.
    pub fifth: usize,
}

/// The forms inside the form of this number.
pub(crate) fn inside(forms: &[Form], number: usize) -> Block {
    let first = number.saturating_add(1);
    let many = match forms.get(number) {
        Some(form) => form.inside,
        None => 0,
    };
    Block {
        first,
        end: first.saturating_add(many).min(forms.len()),
    }
}

/// The rest of a block from its first list on, or an empty block.
pub(crate) fn first_list(forms: &[Form], block: Block) -> Block {
    let mut rest = block;
    // A form of a term has few words before a list, but a text that isn't a term can have more.
    for _ in 0..forms.len() {
        match first_form(forms, rest) {
            None => return rest,
            Some(form) => match form.kind {
                FormKind::List => return rest,
                FormKind::Word | FormKind::Text => rest = behind_first(forms, rest),
            },
        }
    }
    rest
}

// The number of the first form of a block, or a number past all forms if the block is empty.
fn number_of_first(forms: &[Form], block: Block) -> usize {
    if block.first < block.end {
        block.first
    } else {
        forms.len()
    }
}

/// The parts of the form of this number.
pub(crate) fn parts_inside(forms: &[Form], number: usize) -> TermParts {
    let mut found = [forms.len(); MOST];
    let mut rest = first_list(forms, inside(forms, number));
    for slot in found.iter_mut() {
        *slot = number_of_first(forms, rest);
        rest = first_list(forms, behind_first(forms, rest));
    }
    let [first, second, third, fourth, fifth] = found;
    TermParts {
        first,
        second,
        third,
        fourth,
        fifth,
    }
}

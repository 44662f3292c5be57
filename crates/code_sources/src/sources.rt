//! The source of each word of a code.

ghost use Rattle.std.specs.Prelude.{◌≡◌, length, IfOk};

use crate::walk::walk;
use model_forms::{FormFault, read_forms};
use std::alloc::{AllocError, Global};

/// The role of a fiber that a word of a code starts.
#[derive(Clone, Copy, PartialEq, Eq, Debug)]
pub enum StartRole {
    /// A fiber that a `start` of the text starts. Words that start no fiber have this role, too.
    Own,
    /// The first side of a `race` or a `both`.
    Left,
    /// The second side of a `race` or a `both`.
    Right,
    /// A fiber that a `race` or a `both` starts for itself, to cancel a side.
    Helper,
}

/// The source of a word of a code.
#[derive(Clone, Copy, PartialEq, Eq, Debug)]
pub struct WordSource {
    /// The number of bytes of the term's text before the opening bracket of its form.
    pub place: usize,
    /// The role of the fiber that the word starts, if it starts one.
    pub role: StartRole,
}

/// The source of each word of a code, in the order of the words, from the text of the code's term. `many` is the number
/// of words of the code.
///
/// The own words of a form such as `race` or `guarantee` have that form as their source. If the text isn't that of the
/// code's term, there is still one source for each word: words without a form have place 0. Returns `AllocError` if
/// memory runs out.
pub fn code_sources(alloc: Global, text: &[u8], many: usize) -> Result<Vec<WordSource>, AllocError>
    ensures { IfOk result (λ sources. length sources.items ≡ many) }
{
    match read_forms(alloc, text) {
        Ok(forms) => walk(alloc, text, forms.as_slice(), many),
        Err(FormFault::NoMemory) => Err(AllocError),
        Err(_) => walk(alloc, text, &[], many),
    }
}

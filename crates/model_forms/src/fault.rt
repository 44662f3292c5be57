//! The fault of a text that can't be read into forms.

ghost use Rattle.std.specs.Prelude.{◌≡◌};
ghost use Rattle.model_forms.specs.declared.fault.FormFault.TheVariants.{NoMemory};

use std::alloc::{AllocError, AllocFailed};
use thiserror::Error;

/// The fault of a text that can't be read into forms. A place is the number of bytes before the faulty token.
#[derive(Clone, Copy, PartialEq, Eq, Debug, Error)]
pub enum FormFault {
    /// Memory ran out.
    #[error("no memory")]
    NoMemory,
    /// The text ends with this number of open brackets. The place is that of the innermost.
    #[error("brackets not closed: {0}; the innermost opens here")]
    Unclosed(usize, usize),
    /// A closing bracket has no opening one.
    #[error("a closing bracket without an opening one")]
    Unopened(usize),
    /// A quote has no closing quote on its line.
    #[error("a string that isn't closed on its line")]
    UnclosedText(usize),
}

impl From<AllocError> for FormFault {
    ghost from_gives = { λ _ e. e ≡ NoMemory };

    fn from(_error: AllocError) -> FormFault {
        FormFault::NoMemory
    }
}

impl<T: Drop> From<AllocFailed<T>> for FormFault {
    ghost from_gives = { λ _ e. e ≡ NoMemory };

    fn from(_error: AllocFailed<T>) -> FormFault {
        FormFault::NoMemory
    }
}

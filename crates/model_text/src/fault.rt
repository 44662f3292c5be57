//! The faults of forms that aren't items.

ghost use Rattle.std.specs.Prelude.{◌≡◌};
ghost use Rattle.model_text.specs.Files.{item_code, item_place};
ghost use Rattle.model_text.specs.declared.fault.ItemFault.TheVariants.{NoMemory};

use std::alloc::{AllocError, AllocFailed};
use thiserror::Error;

/// The fault of forms that aren't items. A place is the number of bytes before the faulty form.
#[derive(Clone, Copy, PartialEq, Eq, Debug, Error)]
pub enum ItemFault {
    /// Memory ran out.
    #[error("no memory")]
    NoMemory,
    /// A form of the file isn't a list that begins with `define`, `defaults` or `model`.
    #[error("`define`, `defaults` or `model` was wanted")]
    NotAnItem(usize),
    /// A definition lacks its name, number or statements, or a form follows the number of a constant.
    #[error("`(define (name part ..) term ..)` or `(define name number)` was wanted")]
    NotADefinition(usize),
    /// A name is expected.
    #[error("a name was wanted here: letters, digits, `-` and `_`, beginning with a letter")]
    NotAName(usize),
    /// A number is expected, or the number is out of range.
    #[error("a number from -4611686018427387904 to 4611686018427387903 was wanted")]
    NotANumber(usize),
    /// A form isn't a part of a definition.
    #[error("a part was wanted: `x`, `r:ref`, `d:deferred`, `f:fiber`, `p:poll`, or `(body x ..)`")]
    NotAPart(usize),
    /// A bound is expected.
    #[error("a bound was wanted, as `(worlds 200000)`")]
    NotABound(usize),
    /// A model has no name.
    #[error("`(model name claim .. (run term ..))` was wanted")]
    NotAModel(usize),
    /// A claim, a bound or `run` is expected in a model.
    #[error("a claim, a bound or `run` was wanted")]
    NotAClaim(usize),
    /// A model has no `run`. The place is that of its name.
    #[error("this model has no `(run ..)`")]
    NoRun(usize),
    /// A list is empty.
    #[error("an empty bracket")]
    EmptyList(usize),
    /// A word is expected behind an opening bracket.
    #[error("behind an opening bracket a word was wanted")]
    NotAWord(usize),
    /// A text isn't behind the name of a model.
    #[error("a string stands behind the name of a model alone")]
    StrayText(usize),
    /// Nothing follows `run`.
    #[error("an empty block: at least one term was wanted")]
    EmptyRun(usize),
    /// A form follows the `run` of a model.
    #[error("nothing stands behind `run` in a model")]
    BehindRun(usize),
}

impl From<AllocError> for ItemFault {
    ghost from_gives = { λ _ e. e ≡ NoMemory };

    fn from(_error: AllocError) -> ItemFault {
        ItemFault::NoMemory
    }
}

impl<T: Drop> From<AllocFailed<T>> for ItemFault {
    ghost from_gives = { λ _ e. e ≡ NoMemory };

    fn from(_error: AllocFailed<T>) -> ItemFault {
        ItemFault::NoMemory
    }
}

impl ItemFault {
    /// The number of bytes before the fault; `None` if memory ran out.
    pub fn place(self) -> Option<usize>
        ensures { result ≡ item_place self }
    {
        match self {
            ItemFault::NoMemory => None,
            ItemFault::NotAnItem(place) => Some(place),
            ItemFault::NotADefinition(place) => Some(place),
            ItemFault::NotAName(place) => Some(place),
            ItemFault::NotANumber(place) => Some(place),
            ItemFault::NotAPart(place) => Some(place),
            ItemFault::NotABound(place) => Some(place),
            ItemFault::NotAModel(place) => Some(place),
            ItemFault::NotAClaim(place) => Some(place),
            ItemFault::NoRun(place) => Some(place),
            ItemFault::EmptyList(place) => Some(place),
            ItemFault::NotAWord(place) => Some(place),
            ItemFault::StrayText(place) => Some(place),
            ItemFault::EmptyRun(place) => Some(place),
            ItemFault::BehindRun(place) => Some(place),
        }
    }

    /// A short name of the kind of fault, such as `E13`.
    pub fn code(self) -> &'static str
        ensures { result.now ≡ item_code self }
    {
        match self {
            ItemFault::NoMemory => "E24",
            ItemFault::NotAnItem(_) => "E18",
            ItemFault::NotADefinition(_) => "E16",
            ItemFault::NotAName(_) => "E13",
            ItemFault::NotANumber(_) => "E14",
            ItemFault::NotAPart(_) => "E16",
            ItemFault::NotABound(_) => "E18",
            ItemFault::NotAModel(_) => "E18",
            ItemFault::NotAClaim(_) => "E18",
            ItemFault::NoRun(_) => "E18",
            ItemFault::EmptyList(_) => "E05",
            ItemFault::NotAWord(_) => "E05",
            ItemFault::StrayText(_) => "E13",
            ItemFault::EmptyRun(_) => "E06",
            ItemFault::BehindRun(_) => "E18",
        }
    }
}

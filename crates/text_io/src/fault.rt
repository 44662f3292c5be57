//! Why a text could not be read or written.

ghost use Rattle.std.specs.Prelude.{◌≡◌};
ghost use Rattle.text_io.specs.declared.fault.TextFault.TheVariants.{NoMemory};

use std::alloc::AllocError;
use thiserror::Error;

/// Why a text could not be read or written. The number of each fault is in its fault line.
#[derive(Clone, Copy, Debug, PartialEq, Eq, Error)]
pub enum TextFault {
    /// 20: memory ran out. Nothing was written.
    #[error("no memory")]
    NoMemory,
    /// 23: a read failed, other than by an interruption.
    #[error("the reader failed")]
    ReadFault,
    /// 24: a write failed, was interrupted, or took nothing, after this many bytes were written.
    #[error("the writer failed after {0} bytes")]
    WriteFault(usize),
    /// 25: 65,537 reads were made, without the end of the input or as many bytes.
    #[error("no end of input after 65537 reads")]
    TurnBound,
}

impl From<AllocError> for TextFault {
    ghost from_gives = { λ _ e. e ≡ NoMemory };

    fn from(_error: AllocError) -> TextFault {
        TextFault::NoMemory
    }
}

//! Why a file or a model is refused.

use std::alloc::{AllocError, AllocFailed};

/// A fault of a file, as a message.
#[derive(Drop)]
pub struct SourceFault {
    /// A short name of the kind of fault, such as `E10`.
    pub code: &'static str,
    /// The message, in one line.
    pub message: Vec<u8>,
    /// The number of bytes of the source before the fault.
    pub start: usize,
    /// The number of bytes of the source up to the end of the fault.
    pub end: usize,
    /// Notes, one line each.
    pub notes: Vec<Vec<u8>>,
}

/// Why a file or a model is refused.
#[derive(Drop)]
pub enum Refused {
    /// Memory ran out.
    NoMemory,
    /// The file has a fault.
    Fault(SourceFault),
}

impl From<AllocError> for Refused {
    fn from(_error: AllocError) -> Refused {
        Refused::NoMemory
    }
}

impl<T: Drop> From<AllocFailed<T>> for Refused {
    fn from(_error: AllocFailed<T>) -> Refused {
        Refused::NoMemory
    }
}

//! A model file, read from the system.

use std::alloc::{AllocError, Global};
use std::fs;
use std::io::{ErrorKind, Read};
use std::rt::Files;

/// The longest model file, in bytes.
pub const LONGEST: usize = 1_048_576;

// The greatest number of bytes of a read.
const CHUNK: usize = 65_536;

// The greatest number of reads of a file.
const MOST_READS: usize = 2_000_000;

/// Why a file couldn't be read.
#[derive(Clone, Copy, PartialEq, Eq, Debug)]
pub enum ReadProblem {
    /// Memory ran out.
    NoMemory,
    /// The file couldn't be opened, or a read failed.
    Failed,
    /// The file has more than [`LONGEST`] bytes.
    TooLong,
}

impl From<AllocError> for ReadProblem {
    fn from(_error: AllocError) -> ReadProblem {
        ReadProblem::NoMemory
    }
}

/// Reads the file with this path.
pub(crate) fn read_path<R: Files>(
    rt: &R,
    alloc: Global,
    path: &str,
) -> Result<Vec<u8>, ReadProblem> {
    match fs::open(rt, path) {
        Ok(file) => read_whole(alloc, file),
        Err(error) if error.kind() == ErrorKind::OutOfMemory => Err(ReadProblem::NoMemory),
        Err(_) => Err(ReadProblem::Failed),
    }
}

// Reads all bytes of a file, at most `LONGEST`.
fn read_whole<F: Read + Drop>(alloc: Global, file: F) -> Result<Vec<u8>, ReadProblem> {
    let mut file = file;
    let mut chunk = vec![in alloc; 0u8; CHUNK]?;
    let mut text = Vec::new(alloc);
    for _ in 0..MOST_READS {
        match file.read(chunk.as_mut_slice()) {
            Ok(0) => return Ok(text),
            Ok(count) => add_read(&mut text, chunk.as_slice(), count)?,
            Err(error) => match error.kind() {
                ErrorKind::Interrupted => {}
                _ => return Err(ReadProblem::Failed),
            },
        }
    }
    Err(ReadProblem::Failed)
}

// Adds the bytes of a read to those before.
fn add_read(text: &mut Vec<u8>, chunk: &[u8], count: usize) -> Result<(), ReadProblem> {
    let Some(read) = chunk.get(..count) else {
        return Err(ReadProblem::Failed);
    };
    if text.len().saturating_add(count) > LONGEST {
        return Err(ReadProblem::TooLong);
    }
    text.extend_from_slice(read)?;
    Ok(())
}

//! An input with the text of a schedule in its first line, and the text of a program after that line.

ghost use Rattle.std.specs.Prelude.{◌≡◌, ◌≢◌, ◌<◌, ◌^◌, ℕ, false, IfOk, vec_len};
ghost use Rattle.text_io.specs.Text.{is_read_fault};
ghost use Rattle.command_line.specs.FirstLine.{IsFirstLine, IsInput};

use memchr::memchr;
use outcome_trace::{ReadError, TextFault, TextIn};
use std::alloc::{AllocError, Global};

// Reading ends at this number of bytes, and at this number of reads. A schedule's text has fewer than 6,000,000 bytes,
// since each of its 1,000,000 entries takes at most 6. At most 65,537 bytes of a program's text are examined.
const INPUT_BOUND: usize = 6_065_537;

// The greatest number of bytes of one read.
const PIECE: usize = 65_536;

// Room for one read.
fn room(alloc: Global) -> Result<Vec<u8>, AllocError>
    ensures { IfOk result (λ piece. vec_len piece ≡ 65536) }
{
    vec![in alloc; 0u8; PIECE]
}

/// Reads the input to its end, or until `INPUT_BOUND` bytes or more are read. An interrupted read is tried again.
///
/// The faults are `ReadFault` if a read failed, `TurnBound` if `INPUT_BOUND` reads gave fewer than `INPUT_BOUND` bytes
/// and not the end of the input, and `NoMemory` if memory ran out.
pub fn read_input<T: TextIn>(alloc: Global, input: &mut T) -> Result<Vec<u8>, TextFault>
    requires healthy { (T.seen input.old).failed ≡ false }
    requires countable { (T.seen input.old).reads < 2 ^ 63 }
    ensures read { IfOk result (λ bytes. IsInput (T.seen input.old) (T.seen input.new) bytes.items) }

    // The result is `ReadFault` exactly if the reader failed.
    ensures failed { (T.seen input.new).failed ≡ is_read_fault result }
    ensures nothing_written { (written : ℕ) → result ≢ Err (TextFault.WriteFault written) }
{
    let mut piece = room(alloc)?;
    let mut bytes = Vec::new(alloc);
    for _ in 0..INPUT_BOUND {
        match input.read_some(piece.as_mut_slice()) {
            Ok(0) => return Ok(bytes),
            Ok(count) => {
                bytes.extend_from_slice(&piece[..count])?;
                if bytes.len() >= INPUT_BOUND {
                    return Ok(bytes);
                }
            }
            Err(ReadError::Interrupted) => {}
            Err(ReadError::Failed) => return Err(TextFault::ReadFault),
        }
    }
    Err(TextFault::TurnBound)
}

/// The bytes before the first line feed, and the bytes after it. Without a line feed: all bytes, and none.
pub fn first_line(bytes: &[u8]) -> (&[u8], &[u8])
    ensures { IsFirstLine bytes.now result.0.now result.1.now }
{
    match memchr(b'\n', bytes) {
        Some(at) => (&bytes[..at], &bytes[at + 1..]),
        None => (bytes, &[]),
    }
}

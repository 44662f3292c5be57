//! Whole texts, read from a device and written to one.

ghost use Rattle.std.specs.Prelude.{◌≡◌, ◌≢◌, ◌||◌, ◌+◌, ◌-◌, ◌<◌, ◌≤◌, ◌^◌, ℕ, false, IfOk, IsErrOf, length, take};
ghost use Rattle.std.specs.Prelude.{drop, vec_len};
ghost use Rattle.std.specs.Io.KnownBytes.{ReadConsumes};
ghost use Rattle.text_io.specs.Device.{found_end, read_failed};
ghost use Rattle.text_io.specs.Exchange.{IsOutOfReads, IsRead};
ghost use Rattle.text_io.specs.Text.{GoesOut, OnlyWriteFaults, is_read_fault, is_write_fault};

use crate::device::{ReadError, TextIn, TextOut};
use crate::fault::TextFault;
use std::alloc::{AllocError, Global};

/// One more than the greatest number of bytes of a text, and the greatest number of reads for one text.
pub const TEXT_BOUND: usize = 65_537;

/// The rest of the input, at most `TEXT_BOUND` bytes. An interrupted read is tried again.
///
/// Makes at most `TEXT_BOUND` reads; the reader has counted fewer than 2^63 before. Returns `ReadFault` if a read
/// failed, `TurnBound` if `TEXT_BOUND` reads neither found the end of the input nor gave as many bytes, and `NoMemory`
/// if memory ran out, which is before the first read.
pub fn read_text<T: TextIn>(alloc: Global, input: &mut T) -> Result<Vec<u8>, TextFault>
    requires healthy { (T.seen input.old).failed ≡ false }
    requires countable { (T.seen input.old).reads < 2 ^ 63 }

    // The result is what was taken from the input: all of it, or `TEXT_BOUND` bytes.
    ensures read { IfOk result (λ text. IsRead (T.seen input.old) (T.seen input.new) text.items) }

    // The result is `ReadFault` exactly if the reader failed.
    ensures failed { (T.seen input.new).failed ≡ is_read_fault result }
    ensures turns { IsErrOf result TextFault.TurnBound → IsOutOfReads (T.seen input.old) (T.seen input.new) }
    ensures memory { IsErrOf result TextFault.NoMemory → input.new ≡ input.old }
    ensures nothing_written { (written : ℕ) → result ≢ Err (TextFault.WriteFault written) }
{
    let mut text = zeros(alloc, TEXT_BOUND)?;
    let mut length: usize = 0;
    for _ in 0..TEXT_BOUND {
        match read_after(&mut text, length, input) {
            Ok(0) => {
                text.truncate(length);
                return Ok(text);
            }
            Ok(count) => {
                length += count;
                if length == TEXT_BOUND {
                    return Ok(text);
                }
            }
            Err(ReadError::Interrupted) => {}
            Err(ReadError::Failed) => return Err(TextFault::ReadFault),
        }
    }
    Err(TextFault::TurnBound)
}

// One read into the buffer, behind the first `len` bytes.
fn read_after<T: TextIn>(buffer: &mut [u8], len: usize, input: &mut T) -> Result<usize, ReadError>
    requires within { len ≤ length buffer.old }
    requires healthy { (T.seen input.old).failed ≡ false }
    requires countable { (T.seen input.old).reads < 2 ^ 64 - 1 }

    ensures bound { IfOk result (λ count. len + count ≤ length buffer.new) }
    ensures kept { take len buffer.new ≡ take len buffer.old }
    ensures bytes { ReadConsumes (T.seen input.old).remaining (T.seen input.new).remaining result
        (drop len buffer.new) }
    ensures failed { (T.seen input.new).failed ≡ read_failed result }
    ensures ended { (T.seen input.new).ended ≡ ((T.seen input.old).ended || found_end result (drop len buffer.new)) }
    ensures counted { (T.seen input.new).reads ≡ (T.seen input.old).reads + 1 }
{
    input.read_some(&mut buffer[len..])
}

// A buffer of this many bytes.
fn zeros(alloc: Global, count: usize) -> Result<Vec<u8>, AllocError>
    ensures { IfOk result (λ buffer. vec_len buffer ≡ count) }
{
    vec![in alloc; 0u8; count]
}

/// Writes the whole text. Allocates no memory. The only fault is `WriteFault`, with the number of bytes that were
/// written before a write failed, was interrupted, or took nothing.
pub fn write_text<T: TextOut>(text: &[u8], out: &mut T) -> Result<(), TextFault>
    requires { (T.seen out.old).failed ≡ false }

    // All of it is written, or as many of its first bytes as the fault says.
    ensures text { GoesOut (T.seen out.old).contents (T.seen out.new).contents text.now result }
    ensures only { OnlyWriteFaults result }
    ensures failed { (T.seen out.new).failed ≡ is_write_fault result }
{
    let mut written: usize = 0;
    while written < text.len() {
        match out.write_some(&text[written..]) {
            Ok(0) => return Err(TextFault::WriteFault(written)),
            Ok(count) => written += count,
            Err(_) => return Err(TextFault::WriteFault(written)),
        }
    }
    Ok(())
}

//! Whole texts, written to a file.

ghost use Rattle.std.specs.Prelude.{◌≡◌};
ghost use Rattle.text_io.specs.Text.{GoesOut, OnlyWriteFaults};

use std::io::{ErrorKind, Write};
use text_io::TextFault;

/// Writes the whole text. A write that takes a part of it is followed by one of the rest, and an interrupted one is
/// made again. The only fault is `WriteFault`, with the number of bytes that were written.
pub(crate) fn write_whole<W: Write>(text: &[u8], file: &mut W) -> Result<(), TextFault>
    ensures text { GoesOut (W.contents file.old) (W.contents file.new) text.now result }
    ensures only { OnlyWriteFaults result }
{
    let mut written: usize = 0;
    for _ in 0..u64::MAX {
        if written == text.len() {
            return Ok(());
        }
        match file.write(&text[written..]) {
            Ok(0) => return Err(TextFault::WriteFault(written)),
            Ok(count) => written += count,
            Err(error) if error.kind() == ErrorKind::Interrupted => {}
            Err(_) => return Err(TextFault::WriteFault(written)),
        }
    }
    if written == text.len() {
        return Ok(());
    }
    Err(TextFault::WriteFault(written))
}

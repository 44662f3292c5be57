//! Bytes as they are shown: a byte that isn't printable ASCII is shown as its number.

ghost use Rattle.std.specs.Prelude.{◌≡◌, ◌++◌, ◌<◌, OnOk};
ghost use Rattle.text_io.specs.Shown.{digit, shown, shown_byte};

use std::alloc::AllocError;

// Appends a byte as it is shown.
fn push_byte(told: &mut Vec<u8>, byte: u8) -> Result<(), AllocError>
    ensures { OnOk result (told.new.items ≡ told.old.items ++ shown_byte byte) }
{
    if byte == b'\t' || byte == b'\r' {
        told.push(b' ')?;
        Ok(())
    } else if byte < b' ' || b'~' < byte {
        told.extend_from_slice(&[b'\\', b'x', digit(byte / 16), digit(byte % 16)])
    } else {
        told.push(byte)?;
        Ok(())
    }
}

/// Appends bytes as they are shown: a printable character of ASCII itself, a space for a tab or a carriage return, and
/// `\x` with two hexadecimal digits for any other byte. Returns `AllocError` if memory ran out.
pub fn push_shown(told: &mut Vec<u8>, bytes: &[u8]) -> Result<(), AllocError>
    ensures { OnOk result (told.new.items ≡ told.old.items ++ shown bytes.now) }
{
    for byte in bytes {
        push_byte(told, *byte)?;
    }
    Ok(())
}

// A hexadecimal digit.
fn digit(number: u8) -> u8
    requires { number < 16 }
    ensures { result ≡ digit number }
{
    if number < 10 {
        number + b'0'
    } else {
        number + 87
    }
}

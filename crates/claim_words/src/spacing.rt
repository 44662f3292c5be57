//! A text without the spaces that mean nothing.

ghost use Rattle.std.specs.Prelude.{◌≡◌, ◌||◌, ◌==◌, IfOk, OnOk, true};
ghost use Rattle.claim_words.specs.Spacing.{in_front, is_space, loose, spaced_text, tight, with_byte};

use std::alloc::{AllocError, Global};

/// Whether this byte is a space, a tab or an end of a line.
pub(crate) fn is_space(byte: u8) -> bool
    ensures { result ≡ is_space byte }
{
    byte == b' ' || byte == b'\t' || byte == b'\r' || byte == b'\n'
}

/// The text with one space between any two tokens, but none after an opening bracket and none before a closing one.
pub fn spaced_text(alloc: Global, text: &[u8]) -> Result<Vec<u8>, AllocError>
    ensures { IfOk result (λ it. it.items ≡ spaced_text text.now) }
{
    let mut spaced = Vec::new(alloc);
    for byte in text {
        push_byte(&mut spaced, *byte)?;
    }
    drop_space(&mut spaced);
    Ok(spaced)
}

// Adds a byte of the text.
fn push_byte(spaced: &mut Vec<u8>, byte: u8) -> Result<(), AllocError>
    ensures { OnOk result (spaced.new.items ≡ with_byte spaced.old.items byte) }
{
    if is_space(byte) {
        return push_space(spaced);
    }
    if byte == b')' {
        drop_space(&mut *spaced);
    } else if byte == b'(' || last_of(spaced.as_slice()) == b')' {
        push_space(&mut *spaced)?;
    }
    spaced.push(byte)?;
    Ok(())
}

// The last byte, or an opening bracket if there is none.
fn last_of(spaced: &[u8]) -> u8
    ensures { result ≡ in_front spaced.now }
{
    match spaced.last() {
        Some(byte) => *byte,
        None => b'(',
    }
}

// Adds a space, unless the text is empty or ends with a space or an opening bracket.
fn push_space(spaced: &mut Vec<u8>) -> Result<(), AllocError>
    ensures { OnOk result (spaced.new.items ≡ loose spaced.old.items) }
{
    let last = last_of(spaced.as_slice());
    if last != b'(' && last != b' ' {
        spaced.push(b' ')?;
    }
    Ok(())
}

// Removes the last byte, if it is a space.
fn drop_space(spaced: &mut Vec<u8>)
    ensures { spaced.new.items ≡ tight spaced.old.items }
{
    if last_of(spaced.as_slice()) == b' ' {
        let _space = spaced.pop();
    }
}

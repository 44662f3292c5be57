//! A form of a file on one line.

use std::alloc::{AllocError, Global};

// What a byte of a form belongs to.
#[derive(Clone, Copy, PartialEq, Eq, Debug)]
enum Inside {
    // Words, brackets and spaces.
    Forms,
    // A text between quotes.
    Text,
    // A comment, up to the end of its line.
    Comment,
}

/// Returns the bytes of a form on one line: without comments, and with one space for each run of spaces and line feeds
/// outside of texts. `AllocError` if memory runs out.
pub(crate) fn joined(alloc: Global, bytes: &[u8]) -> Result<Vec<u8>, AllocError> {
    let mut line = Vec::new(alloc);
    let mut inside = Inside::Forms;
    let mut apart = false;
    for byte in bytes {
        inside = inside_at(inside, *byte);
        if is_kept(inside, *byte) {
            push_apart(&mut line, apart)?;
            line.push(*byte)?;
            apart = false;
        } else {
            apart = true;
        }
    }
    Ok(line)
}

// What a byte belongs to. `before` is what the byte before it belongs to.
fn inside_at(before: Inside, byte: u8) -> Inside {
    match (before, byte) {
        (Inside::Comment, b'\n') => Inside::Forms,
        (Inside::Comment, _) => Inside::Comment,
        (Inside::Text, b'"') => Inside::Forms,
        (Inside::Text, _) => Inside::Text,
        (Inside::Forms, b'"') => Inside::Text,
        (Inside::Forms, b';') => Inside::Comment,
        (Inside::Forms, _) => Inside::Forms,
    }
}

// Whether a byte is kept as it is. A space, a line feed and a comment become one space.
fn is_kept(inside: Inside, byte: u8) -> bool {
    match inside {
        Inside::Text => true,
        Inside::Comment => false,
        Inside::Forms => !matches!(byte, b' ' | b'\t' | b'\r' | b'\n'),
    }
}

// Adds a space, if `apart`, before a byte that is kept, unless the byte is the first of the line.
fn push_apart(line: &mut Vec<u8>, apart: bool) -> Result<(), AllocError> {
    if apart && !line.is_empty() {
        line.push(b' ')?;
    }
    Ok(())
}

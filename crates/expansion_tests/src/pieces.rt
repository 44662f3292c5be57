//! Texts made of pieces, each of which is repeated a number of times.

use std::alloc::{AllocError, Global};

/// A piece, and the number of times that it is repeated.
pub(crate) type Piece = (&'static str, usize);

fn push_repeated(text: &mut String, piece: &str, times: usize) -> Result<(), AllocError> {
    for _ in 0..times {
        text.push_str(piece)?;
    }
    Ok(())
}

/// Writes these pieces, in their order.
pub(crate) fn push_pieces(text: &mut String, pieces: &[Piece]) -> Result<(), AllocError> {
    for (piece, times) in pieces {
        push_repeated(text, piece, *times)?;
    }
    Ok(())
}

/// The text of these pieces, in their order.
pub(crate) fn text_of(alloc: Global, pieces: &[Piece]) -> Result<String, AllocError> {
    let mut text = String::new(alloc);
    push_pieces(&mut text, pieces)?;
    Ok(text)
}

/// Writes a text inside `depth` binders: the letters from `A` to `E` are the slot of the next binder and of those after
/// it.
pub(crate) fn push_at(text: &mut String, depth: u32, form: &str) -> Result<(), AllocError> {
    for letter in form.chars() {
        match letter {
            'A'..='E' => {
                let slot = depth.wrapping_add(letter as u32 - 'A' as u32);
                write!(text, "{slot}")?;
            }
            _ => text.push(letter)?,
        }
    }
    Ok(())
}

//! Texts made of pieces, each of which is repeated a number of times.

use std::alloc::{AllocError, Global};

/// A piece, and the number of times that it is repeated.
pub(crate) type Piece = (&'static [u8], usize);

fn push_repeated(text: &mut Vec<u8>, piece: &[u8], times: usize) -> Result<(), AllocError> {
    for _ in 0..times {
        text.extend_from_slice(piece)?;
    }
    Ok(())
}

fn push_pieces(text: &mut Vec<u8>, pieces: &[Piece]) -> Result<(), AllocError> {
    for (piece, times) in pieces {
        push_repeated(text, piece, *times)?;
    }
    Ok(())
}

/// The text of these pieces, in their order.
pub(crate) fn text_of(alloc: Global, pieces: &[Piece]) -> Result<Vec<u8>, AllocError> {
    let mut text = Vec::new(alloc);
    push_pieces(&mut text, pieces)?;
    Ok(text)
}

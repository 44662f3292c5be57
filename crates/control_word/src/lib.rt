//! The control word: all that a fiber shares with the others, except the value that it ended with, in 64 bits.
//!
//! A fiber's cell changes by single atomic steps on one word. This crate says how the cell is packed into that word
//! ([`Control`], [`pack`], [`unpack`]), which amounts the fiber's owner adds to it ([`mask_amount`], [`unmask_amount`],
//! [`cut_amount`], [`finish_amount`]), and how a value is kept in a word of its own ([`value_word`], [`word_value`]).
//! The crate uses `effect_term` for values and for a fiber's outcome. The crate promises that unpacking undoes packing,
//! that the word is the sum of the fields times powers of two, that each amount changes exactly the fields that it
//! should, whatever the request and waited bits are, and that the word of a value gives that value back.
#![tactic(auto)]

mod amounts;
mod control;
mod value_words;

pub use amounts::{cut_amount, finish_amount, mask_amount, unmask_amount};
pub use control::{Control, pack, unpack};
pub use value_words::{value_word, word_value};

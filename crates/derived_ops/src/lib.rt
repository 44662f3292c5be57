//! The expansion of programs into core words.
//!
//! A fiber runs the expansion of a program: [`expand`] makes a program's [`Code`], a term of core words, and
//! [`print_core`] its text. The crate uses `effect_term`. Its definitions are the terms of a running fiber,
//! substitution in them, the expansion of each word of a program, the term that a list of words stores, and the text of
//! a code. The crate promises that a `Code` is the expansion of a program, with the words and masks that were counted
//! on the program, that the slot of each binder in it is the number of binders around it, and that a term is refused by
//! the counts of its expansion ([`program_of`]).
#![tactic(auto)]

mod closing;
mod code;
mod core_term;
mod core_text;
mod core_word;
mod expansion;
mod program;
mod races;
mod shape;
mod writer;

pub use code::{Code, expand};
pub use core_term::{Action, BracketMark, Maker, Operand, Turns};
pub use core_text::print_core;
pub use core_word::{CoreWord, Rest};
pub use program::program_of;

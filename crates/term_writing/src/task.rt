//! The tasks by which a term is written.

use crate::binder::{BinderName, NameKind};
use crate::scope::{Here, Operand};
use model_forms::Block;
use term_parse::Word;

/// The last part of a form: the form with this number, or the statements of a block.
#[derive(Clone, Copy)]
pub(crate) enum Follow {
    Part(usize),
    Block(Block),
}

/// A piece of a term that is still to be written.
#[derive(Clone, Copy)]
pub enum Task {
    /// An opening bracket and its word, and the number of the form that they are written for.
    Open(Word, usize),
    /// The same for a `say` that the translation adds to the file's.
    AddedSay(usize),
    /// This number of closing brackets.
    Close(usize),
    /// A value, or the use of a name.
    Operand(Operand),
    /// A binder: the number of its name, its kind, and its name in the file.
    Bind(usize, NameKind, BinderName),
    /// The term that the form with this number means.
    Term(usize, Here),
    /// The statements of a block, and whether a `seq` is open for them.
    Statements(Block, bool, Here),
    /// A form of the language with a name of a row as its first part: the number of the form, and the name.
    One(usize, usize, Here),
    /// Notes the form that reads a ref, if the term reads the ref from this byte on, before it changes the ref: the
    /// byte and the ref's name.
    Torn(usize, usize),
}

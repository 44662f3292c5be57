//! The meanings of names at a place of a model.

use crate::binder::NameKind;
use crate::wrong::Span;
use model_forms::Block;

/// The end of a list of binders, uses or names.
pub const NONE: usize = usize::MAX;

/// What a place sees.
#[derive(Clone, Copy)]
pub struct View {
    /// The innermost binder.
    pub scope: usize,
    /// The innermost use of a definition.
    pub uses: usize,
    /// The byte before which the definitions and constants begin that the place sees.
    pub limit: usize,
}

/// The name of the fiber that runs a term.
#[derive(Clone, Copy)]
pub enum FiberName {
    /// The first fiber.
    Main,
    /// The left fiber of a `race` or a `both`.
    Left,
    /// The right fiber of a `race` or a `both`.
    Right,
    /// The number of the form that spells its name.
    Word(usize),
    /// The number of the form that spells the row's name, and the number of the fiber in the row.
    Row(usize, usize),
}

/// The surroundings of a term: what it sees, and the fiber that runs it.
#[derive(Clone, Copy)]
pub struct Here {
    /// What the term sees.
    pub view: View,
    /// The fiber that runs it.
    pub fiber: FiberName,
}

/// The meaning of a name.
#[derive(Clone, Copy)]
pub(crate) enum Meaning {
    /// A number.
    Number(i64),
    /// The name of the term with this number, and its kind.
    Name(NameKind, usize),
    /// The names of a row: their kind, the number of the first in the term, and how many there are.
    Row(NameKind, usize, usize),
    /// The term with this number among those that were passed to definitions.
    Term(usize),
}

/// A binder: the bytes of its name, its meaning, and the next one around it.
#[derive(Clone, Copy)]
pub(crate) struct Bound {
    pub(crate) name: Span,
    pub(crate) meaning: Meaning,
    pub(crate) next: usize,
}

/// A term that was passed to a definition.
#[derive(Clone, Copy)]
pub(crate) struct Handed {
    /// The number of its form.
    pub(crate) form: usize,
    /// The forms of its names.
    pub(crate) names: Block,
    /// What the place sees where the term was passed.
    pub(crate) view: View,
    /// Whether it means any term, as in the trial of a definition.
    pub(crate) any: bool,
}

/// A use of a definition: its name, the number of the form that uses it, and the next one around it.
#[derive(Clone, Copy)]
pub(crate) struct Use {
    pub(crate) name: Span,
    pub(crate) form: usize,
    pub(crate) next: usize,
}

/// A value in a term.
#[derive(Clone, Copy)]
pub enum Operand {
    /// A number.
    Number(i64),
    /// The number of a name of the term.
    Name(usize),
}

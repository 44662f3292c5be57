//! The names of a term, and the places in the file that its words come from.

/// The kind of a name of a model.
#[derive(Clone, Copy, PartialEq, Eq, Debug)]
pub enum NameKind {
    /// A value.
    Value,
    /// A ref.
    Ref,
    /// A deferred.
    Deferred,
    /// A fiber.
    Fiber,
    /// The poll of a mask.
    Poll,
}

/// The name in the file of a binder of a term.
#[derive(Clone, Copy, PartialEq, Eq, Debug)]
pub enum BinderName {
    /// A word of the file: the number of its form. A fiber can have the word `_`.
    Word(usize),
    /// A name of a row, such as `w.1`: the number of the form that spells the row's name, and the number in the row.
    Row(usize, usize),
    /// No name of the file: a `_` that binds no fiber, or a name that the translation made.
    Hidden,
    /// A fiber that reads a ref once, at any moment (`Probe::Watch` of `model_terms`).
    Watcher,
}

/// A binder of a term.
#[derive(Clone, Copy, PartialEq, Eq, Debug)]
pub struct Binder {
    /// Its kind.
    pub kind: NameKind,
    /// The number of bytes of the term's text before its name.
    pub start: usize,
    /// The number of bytes of the term's text up to the end of its name.
    pub end: usize,
    /// Its name in the file.
    pub name: BinderName,
}

/// The place in the file that a form of a term comes from.
#[derive(Clone, Copy, PartialEq, Eq, Debug)]
pub struct WordPlace {
    /// The number of bytes of the term's text before the opening bracket of the form.
    pub term: usize,
    /// The number of the form of the file that the form of the term is written for.
    pub form: usize,
    /// Whether the form is a `say` that the translation added: of a fiber's name, or that an order was broken.
    pub is_added: bool,
}

//! Conditions over one answer.

use effect_term::Value;
use std::alloc::Global;

/// The fibers that a condition is about.
#[derive(Clone, Copy)]
pub enum Who {
    /// Each fiber that the file names.
    Everyone,
    /// Fiber 0.
    Main,
    /// Each fiber that was started by a name, or each fiber of a row: the places in the source where the name begins
    /// and ends.
    Named(usize, usize),
    /// One fiber of a row, as `w.1`: the places where the row's name begins and ends, and the number in the row.
    OneOf(usize, usize, usize),
}

/// A way to end that is wanted of a fiber.
#[derive(Clone, Copy)]
pub enum Wanted {
    /// With any value.
    Succeeded,
    /// With this value.
    SucceededWith(Value),
    /// With any error code.
    Errored,
    /// With this error code.
    ErroredWith(Value),
    /// By a cancelation.
    Canceled,
    /// Not at all.
    Unended,
}

/// What a name in a claim is the name of.
#[derive(Clone, Copy)]
pub enum Spoken {
    /// Of fibers.
    Fibers(Who),
    /// Of a ref: its number, if the term determines it.
    Ref(Option<u16>),
}

/// A name that a claim spells.
#[derive(Clone, Copy)]
pub struct SpokenName {
    /// The number of the form that spells it.
    pub form: usize,
    /// What has this name.
    pub what: Spoken,
}

/// How a ref's value is compared with a number.
#[derive(Clone, Copy)]
pub enum Comparison {
    /// `=`.
    Equal,
    /// `!=`.
    Unequal,
    /// `<`.
    Below,
    /// `<=`.
    AtMost,
    /// `>`.
    Above,
    /// `>=`.
    AtLeast,
}

/// A word of a condition. A word pops its operands from a stack of truths and pushes one truth.
#[derive(Clone, Copy)]
pub enum Word {
    /// True.
    Yes,
    /// False.
    No,
    /// Whether the two truths on top are both true.
    And,
    /// Whether one of the two truths on top is true.
    Or,
    /// Whether the truth on top is false.
    Not,
    /// Whether each of these fibers has ended.
    Ended(Who),
    /// Whether each of these fibers ended in one of the ways in this range of [`Condition::outcomes`].
    Ends(Who, usize, usize),
    /// Whether one of these fibers said each of the values in this range of [`Condition::values`].
    Said(Who, usize, usize),
    /// Whether each of these fibers said exactly the values in this range of [`Condition::values`], in this order.
    Says(Who, usize, usize),
    /// Whether the order of a `before` was broken ([`Seen::late`](crate::Seen)).
    Late,
    /// Whether this comparison of a ref's value with this number holds. The first field is the number of the ref, if
    /// the term determines it.
    Compares(Option<u16>, Comparison, Value),
}

/// A condition over one answer: words that leave one truth on a stack.
#[derive(Drop)]
pub struct Condition {
    /// Its words in postfix order: each comes after the words whose truths it pops.
    pub words: Vec<Word>,
    /// The wanted ways to end that its words name by index.
    pub outcomes: Vec<Wanted>,
    /// The values that its words name by index.
    pub values: Vec<Value>,
    /// The names that its forms spell, in the order of the file.
    pub names: Vec<SpokenName>,
}

/// Returns a condition without words.
pub(crate) fn empty_condition(alloc: Global) -> Condition {
    let words = Vec::new(alloc);
    let outcomes = Vec::new(alloc);
    let values = Vec::new(alloc);
    let names = Vec::new(alloc);
    Condition {
        words,
        outcomes,
        values,
        names,
    }
}

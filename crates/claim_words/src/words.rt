//! The words of a claim, with refs by the names that the claim gives them.

use effect_term::Value;
use every_schedule::Comparison;

/// How claims are joined.
#[derive(Clone, Copy)]
pub enum Joint {
    /// All of them hold.
    And,
    /// One of them holds.
    Or,
}

/// What a claim says about the whole world.
#[derive(Clone, Copy)]
pub enum Whole {
    /// No fiber can go on, and fiber 0 hasn't ended.
    Deadlock,
    /// No fiber can go on, fiber 0 has ended, and some other fiber hasn't.
    Left,
    /// No fiber can go on.
    Final,
}

/// A word of a claim. The words are in postfix order, as those of [`ClaimWord`](every_schedule::ClaimWord).
#[derive(Clone, Copy)]
pub enum SpelledWord {
    /// Compares the value of the ref of this number with a value.
    Numbered(u16, Comparison, Value),
    /// Compares the value of the ref of the claim's next name with a value.
    Named(Comparison, Value),
    /// Negates the last truth value.
    Not,
    /// Joins the last two truth values.
    Join(Joint),
    /// Says something about the whole world.
    World(Whole),
}

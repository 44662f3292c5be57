//! The words at the heads of claims and conditions.

use crate::condition::Comparison;

/// The head of a claim.
#[derive(Clone, Copy)]
pub(crate) enum Head {
    /// `want`.
    Want,
    /// `must`.
    Must,
    /// `can`.
    Can,
    /// `always`.
    Always,
    /// `ever`.
    Ever,
    /// `never`.
    Never,
    /// `before`.
    Before,
    /// `all-end`.
    AllEnd,
    /// `no-deadlock`.
    NoDeadlock,
    /// `fails`.
    Fails,
}

/// The head of a claim that these bytes spell, if any.
pub(crate) fn head_of(bytes: &[u8]) -> Option<Head> {
    match bytes {
        b"want" => Some(Head::Want),
        b"must" => Some(Head::Must),
        b"can" => Some(Head::Can),
        b"always" => Some(Head::Always),
        b"ever" => Some(Head::Ever),
        b"never" => Some(Head::Never),
        b"before" => Some(Head::Before),
        b"all-end" => Some(Head::AllEnd),
        b"no-deadlock" => Some(Head::NoDeadlock),
        b"fails" => Some(Head::Fails),
        _ => None,
    }
}

/// The head of a condition.
#[derive(Clone, Copy)]
pub(crate) enum Test {
    /// `and`.
    And,
    /// `or`.
    Or,
    /// `not`.
    Not,
    /// `ends`.
    Ends,
    /// `said`.
    Said,
    /// `says`.
    Says,
    /// A comparison.
    Compares(Comparison),
    /// `all-end`.
    AllEnd,
    /// `no-deadlock`.
    NoDeadlock,
}

/// The head of a condition that these bytes spell, if any.
pub(crate) fn test_of(bytes: &[u8]) -> Option<Test> {
    match bytes {
        b"and" => Some(Test::And),
        b"or" => Some(Test::Or),
        b"not" => Some(Test::Not),
        b"ends" => Some(Test::Ends),
        b"said" => Some(Test::Said),
        b"says" => Some(Test::Says),
        b"all-end" => Some(Test::AllEnd),
        b"no-deadlock" => Some(Test::NoDeadlock),
        _ => comparison_of(bytes),
    }
}

// The comparison that these bytes spell, if any.
fn comparison_of(bytes: &[u8]) -> Option<Test> {
    match bytes {
        b"=" => Some(Test::Compares(Comparison::Equal)),
        b"!=" => Some(Test::Compares(Comparison::Unequal)),
        b"<" => Some(Test::Compares(Comparison::Below)),
        b"<=" => Some(Test::Compares(Comparison::AtMost)),
        b">" => Some(Test::Compares(Comparison::Above)),
        b">=" => Some(Test::Compares(Comparison::AtLeast)),
        _ => None,
    }
}

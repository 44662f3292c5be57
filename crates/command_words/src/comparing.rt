//! The request to compare two programs.

use compared_ends::CompareOrder;

/// To compare the programs of two files.
#[derive(Clone, Copy)]
pub struct Comparing<'a> {
    /// The path of the first file.
    pub first: &'a str,
    /// The path of the second file.
    pub second: &'a str,
    /// The limits, the bounds, the basis, and the form of the answer.
    pub order: CompareOrder,
}

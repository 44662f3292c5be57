//! The request to sample a program.

use exploration_text::SampleOrder;

/// To draw schedules of the text's program at random, to count the reports and faults, and to look at claims on their
/// moments.
#[derive(Drop)]
pub struct Sampling<'a> {
    /// The seed, the number of schedules, their entries, the limits and the wanted outcomes.
    pub order: SampleOrder,
    /// Whether the answer is JSON.
    pub json: bool,
    /// The texts of the claims that must hold at every moment.
    pub always: Vec<&'a str>,
    /// The texts of the claims that must hold at no moment.
    pub never: Vec<&'a str>,
    /// The texts of the claims that should hold at some moment.
    pub reach: Vec<&'a str>,
}

//! Claims.

use crate::condition::{Condition, Wanted};
use crate::moment::MomentWord;
use claim_verdicts::Rule;
use model_terms::Probe;

/// A way to end that a `want` names.
#[derive(Clone, Copy)]
pub struct Want {
    /// The number of the form that names the way to end.
    pub form: usize,
    /// The way to end.
    pub outcome: Wanted,
}

/// A claim of a model.
#[derive(Drop)]
pub struct Claim {
    /// The number of the form of the whole claim, among the forms of the file.
    pub form: usize,
    /// Whether the claim has to be refuted: an odd number of `fails` encloses it.
    pub fails: bool,
    /// Whether the claim is about every answer or about some answer.
    pub rule: Rule,
    /// The addition to the term by which its answers show what the condition is about.
    pub probe: Probe,
    /// The condition that an answer has to meet.
    pub condition: Condition,
    /// The condition that each moment, or some moment, has to meet; a claim on refs at the end is one about the moments
    /// at which no fiber can go on. None if the claim is judged by answers alone.
    pub moment: Option<Vec<MomentWord>>,
    /// The ways to end that a `want` names, in its order; empty for another claim.
    pub wants: Vec<Want>,
}

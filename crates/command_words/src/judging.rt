//! The request for verdicts on claims.

use crate::exploring::ExploreForm;
use exploration_text::ExploreOrder;

/// To explore every schedule of the text's program, and to judge claims on its moments.
#[derive(Drop)]
pub struct Judging<'a> {
    /// The limits, the bounds and the wanted outcomes.
    pub order: ExploreOrder,
    /// The form of the answer.
    pub form: ExploreForm,
    /// The texts of the claims that must hold at every moment.
    pub always: Vec<&'a str>,
    /// The texts of the claims that must hold at no moment.
    pub never: Vec<&'a str>,
    /// The texts of the claims that must hold at some moment.
    pub reach: Vec<&'a str>,
}

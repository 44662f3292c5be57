//! The request to decide whether every fair schedule ends.

use crate::exploring::Beside;
use exploration_text::ExploreOrder;

/// To explore the text's program, and to decide whether every fair schedule of it ends.
#[derive(Drop)]
pub struct Deciding {
    /// The limits, the bounds and the wanted outcomes.
    pub order: ExploreOrder,
    /// Whether the answer is JSON.
    pub json: bool,
    /// The seconds after which the search stops; `None` means no bound.
    pub seconds: Option<u64>,
    /// What is written beside the answer.
    pub beside: Beside,
}

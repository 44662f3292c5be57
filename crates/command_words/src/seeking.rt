//! The request to search for the first finding.

use crate::exploring::Beside;
use exploration_text::ExploreOrder;

/// To search the text's program for its first finding: a fault, or an outcome of fiber 0 that is not wanted.
#[derive(Drop)]
pub struct Seeking {
    /// The limits, the bounds and the wanted outcomes.
    pub order: ExploreOrder,
    /// Whether the answer is JSON.
    pub json: bool,
    /// The seconds after which the search stops; `None` means no bound.
    pub seconds: Option<u64>,
    /// What is written beside the answer.
    pub beside: Beside,
}

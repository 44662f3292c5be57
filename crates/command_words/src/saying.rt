//! The request to explore outcomes and says.

use crate::exploring::Beside;
use exploration_text::ExploreOrder;

/// To explore every schedule of the text's program for the outcomes of its fibers, with the values that they said and
/// the codes that were dropped, and without their other marks.
#[derive(Drop)]
pub struct Saying {
    /// The limits, the bounds and the wanted outcomes.
    pub order: ExploreOrder,
    /// Whether the answer is JSON.
    pub json: bool,
    /// The seconds after which the search stops; `None` means no bound.
    pub seconds: Option<u64>,
    /// What is written beside the answer.
    pub beside: Beside,
}

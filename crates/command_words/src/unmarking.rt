//! The request to explore outcomes without marks.

use crate::exploring::Beside;
use exploration_text::ExploreOrder;

/// To explore every schedule of the text's program for the outcomes of its fibers, without their marks.
#[derive(Drop)]
pub struct Unmarking {
    /// The limits, the bounds and the wanted outcomes.
    pub order: ExploreOrder,
    /// Whether answers are compared and written by the outcome of fiber 0 alone.
    pub only_first: bool,
    /// Whether the answer is JSON.
    pub json: bool,
    /// The seconds after which the search stops; `None` means no bound.
    pub seconds: Option<u64>,
    /// What is written beside the answer.
    pub beside: Beside,
}

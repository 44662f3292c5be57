//! The request to explore a program.

use exploration_text::ExploreOrder;

/// The form of the answer to an exploration.
#[derive(Clone, Copy)]
pub enum ExploreForm {
    /// A list of the reports and faults.
    Report,
    /// That list, with a timeline after each report and each fault.
    Timeline,
    /// JSON.
    Json,
}

/// What is written to standard error beside an answer.
#[derive(Clone, Copy)]
pub enum Beside {
    /// Nothing.
    Nothing,
    /// The progress of the search, while it runs.
    Progress,
    /// The reasons that `--explain` asks for.
    Reasons,
}

/// To explore every schedule of the text's program.
#[derive(Drop)]
pub struct Exploring {
    /// The limits, the bounds and the wanted outcomes.
    pub order: ExploreOrder,
    /// The form of the answer.
    pub form: ExploreForm,
    /// The seconds after which the search stops; `None` means no bound.
    pub seconds: Option<u64>,
    /// What is written beside the answer.
    pub beside: Beside,
}

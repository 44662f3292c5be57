//! The outcomes that the fibers of a text's program can have under every schedule, alone or with their says, in words
//! or as JSON.
//!
//! The crate uses the searches of outcomes and of says (`every_outcome`), and explorations and their answers
//! (`exploration_text`, `json_answers`, `outcome_trace`). The crate promises that the answer is exactly the text of the
//! outcomes that the search finds, of all fibers or of fiber 0 alone, each below a schedule that leads to it. The same
//! holds for the outcomes and says of all fibers. The status is that of an exploration with these answers. A text that
//! spells no program is answered by its refusal.
#![tactic(auto)]

mod copies;
mod finding;
mod orders;
mod say_orders;
mod shortening;
mod shown;
mod values;

pub use finding::{find_outcomes, find_says};
pub use orders::{OutcomesJson, OutcomesOrder};
pub use say_orders::{SaysJson, SaysOrder};
pub use shown::shown_exploration;
pub use values::outcomes_json;

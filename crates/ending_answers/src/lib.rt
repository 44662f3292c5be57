//! The answer whether every fair schedule of a text's program ends, in words or as JSON.
//!
//! The crate uses decisions on fair schedules (`every_schedule`), and explorations and their answers
//! (`exploration_text`, `json_answers`, `outcome_trace`). The crate promises that the answer is exactly the text of an
//! exploration of the program, followed by the decision on its fair schedules, with the status of both. A text that
//! spells no program is answered by its refusal.
#![tactic(auto)]

mod decided;
mod orders;
mod texts;
mod values;

pub use decided::{Decided, decide};
pub use orders::{EndsJson, EndsOrder};
pub use texts::{decided_status, text_of_decided};
pub use values::decided_json;

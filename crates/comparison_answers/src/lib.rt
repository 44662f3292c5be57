//! The answer to the comparison of the programs of two texts, in words or as JSON.
//!
//! The crate uses comparisons (`compared_ends`), and texts and their answers (`outcome_trace`, `exploration_text`,
//! `json_answers`). The crate promises that the answer is exactly the text of a comparison of the two programs, with
//! its status, or the refusal of the first text that spells no program.
#![tactic(auto)]

mod pairs;
mod texts;
mod values;

pub use compared_ends::{Basis, CompareOrder};
pub use pairs::answer_pair;
pub use texts::{comparison_status, text_of_comparison};
pub use values::comparison_json;

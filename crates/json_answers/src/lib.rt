//! Answers to texts as JSON, for other programs to read: the answers of `check`, a run, an exploration and a sample,
//! each as one value on one line.
//!
//! The crate uses texts and their answers (`outcome_trace`, `exploration_text`, `text_io`), explorations and samples
//! (`every_schedule`, `sampled_schedules`), and the kit's `serde_json`. It promises that each answer is the text of the
//! value that the definitions make of the same report, refusal, fault, exploration or sample, with the same status as
//! the answer in words.
#![tactic(auto)]

mod exploration_values;
mod explore_orders;
mod finding_orders;
mod orders;
mod refusals;
mod report_values;
mod sample_orders;
mod sample_values;
mod values;

pub use exploration_values::exploration_json;
pub use explore_orders::ExploreJson;
pub use finding_orders::FirstJson;
pub use orders::{CheckJson, ReplayJson, fault_json_answer, report_json_answer};
pub use refusals::{InJson, refusal_answer, refusal_json};
pub use report_values::{fault_json, report_json};
pub use sample_orders::SampleJson;
pub use values::value_answer;

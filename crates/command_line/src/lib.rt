//! Runs one command line over devices: obeys the request that its words make.
//!
//! `command_words` reads the words. A request is an order over texts, which promises what is written and with which
//! status, a run on the workers of `steal_pool`, or a test of model files.
#![tactic(auto)]

mod check_order;
mod cli;
mod compare_order;
mod decide_order;
mod explore_order;
mod first_line;
mod judge_order;
mod kept_devices;
mod model_notes;
mod noted;
mod order;
mod record_answers;
mod replay_forms;
mod replay_order;
mod run_answers;
mod run_order;
mod run_reasons;
mod sample_order;
mod say_order;
mod seek_order;
mod spelling;
mod test_order;
mod test_reports;
mod unmark_order;
mod watched_forms;

pub use cli::command;
pub use command_words::refuse_words;
pub use kept_devices::{HeardOutput, KeptInput};

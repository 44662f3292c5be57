//! Reads, checks and tests the models of files, one after another or side by side.
//!
//! This crate uses the results of models (`model_runs`), their reports (`model_reports`), the status of their verdicts
//! (`suite_statuses`), and the files of the system. [`Suite::open`] finds all faults of all files before any model is
//! explored. Then one thread, or several that share a [`Board`], explore each model ([`Suite::help`],
//! [`Suite::tested`]), and [`Suite::tell`] reports the models in the order of the files. The crate promises that the
//! status follows from the verdicts of the models ([`Told::status`]), and that each verdict is the worst of its model's
//! claims' verdicts. A model whose search runs out of memory, or that no thread begins in time, is undecided. Tests show
//! what is printed.
#![tactic(auto)]

mod board;
mod exploring;
mod progress;
mod reading;
mod suite;
mod terms;
mod tested;
mod told;
mod unexplored;
mod watching;

pub use board::Board;
pub use model_reports::{HTML_HEAD, JUNIT_HEAD};
pub use progress::Progress;
pub use reading::LONGEST;
pub use suite::{Suite, SuiteForm, SuiteOrder};
pub use suite_statuses::status_of;
pub use tested::{Became, Explored, Tested, UndecidedModel};
pub use told::Told;

//! Texts of explorations and samples of the program that a text spells. The text of an exploration lists the final
//! reports and the faults, each with a schedule. The text of a sample lists the ends of random schedules, how often
//! each end came, and the first schedule that led to it. Each text has a status.
//!
//! The crate uses the exploration of a program (`every_schedule`), samples (`sampled_schedules`), and texts and their
//! answers (`outcome_trace`, `text_io`). It promises that the answer is exactly the text of an exploration or of a
//! sample. An exploration whose text says that it is complete has missed nothing, and the schedule of each answer leads
//! to it.
#![tactic(auto)]

mod draws;
mod explore_texts;
mod finding_texts;
mod findings;
mod missing;
mod noted;
mod progress;
mod sample_texts;
mod samples;
mod texts;
mod wants;
mod watched_orders;
mod watched_texts;

pub use draws::{FindingForm, SearchOrder, WithDraws};
pub use every_schedule::Bounds;
pub use explore_texts::ExploreOrder;
pub use finding_texts::FirstOrder;
pub use findings::{Finding, First, first_finding};
pub use missing::{missing_of_exploration, missing_of_sample};
pub use noted::{NotedAnswer, NotedOrder};
pub use sample_texts::SampleOrder;
pub use samples::{is_unwanted, sample_status, text_of_sample};
pub use texts::{
    exploration_status, first_line, is_listed_so, text_of_answer, text_of_exploration,
};
pub use wants::{Want, read_want};
pub use watched_orders::{TimedOrder, WatchedOrder};
pub use watched_texts::obey_watched;

//! Reasons: explanations of an answer that are written to the last device for users who ask why.
//!
//! The crate uses texts and devices (`text_io`), the language (`term_parse`, `effect_term`), the core under a schedule
//! (`scheduled_core`, `fiber_frames`, `cell_registry`) and its texts (`outcome_trace`). The crate promises that what is
//! read, the answer and the status are what they are without reasons, and that a fault is reported by its line only,
//! without reasons.
#![tactic(auto)]

mod around;
mod excerpt;
mod explained;
mod language;
mod names;
mod nearness;
mod place;
mod refusals;
mod schedules;
mod text_reasons;
mod unended;
mod wanting;

pub use explained::{Reasons, obey_explained, tell_reasons};
pub use place::{Position, position_at};
pub use schedules::explain_schedule;
pub use text_reasons::{ReplayReasons, TextReasons};

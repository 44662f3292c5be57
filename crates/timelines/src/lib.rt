//! The events of a run, shown in time. A text has a row for each entry with a visible effect and a column for each
//! fiber. A picture is one SVG document with a lane for each fiber, in which time goes to the right by entries.
//!
//! The crate uses the events of a replay (`fiber_events`), and reports, explorations and texts (`outcome_trace`,
//! `every_schedule`, `exploration_text`, `text_io`). The crate promises that an answer with a timeline is exactly the
//! answer without one, followed by a blank line and a text, and has the same status. In an exploration, this holds for
//! the text of each answer. A text is answered by a picture exactly if its program has a report, with the status of the
//! report, and otherwise as a replay answers it. Tests show what the rows and the picture contain.
#![tactic(auto)]

mod arrows;
mod columns;
mod drawing;
mod explore_timelines;
mod lane;
mod lanes;
mod legend;
mod picture_order;
mod scale;
mod shapes;
mod sights;
mod style;
mod timeline_order;
mod timeline_rows;
mod wording;
mod words;

pub use drawing::{drawn, picture};
pub use explore_timelines::ExploreTimelineOrder;
pub use picture_order::PictureOrder;
pub use style::STYLE;
pub use timeline_order::TimelineOrder;
pub use timeline_rows::timeline;
pub use wording::Wording;

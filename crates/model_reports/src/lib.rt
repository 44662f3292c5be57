//! Reports on the models of a file: faults, verdicts and timelines, as text, as JSON, as a page of HTML, and in the
//! formats of the Test Anything Protocol and of JUnit.
//!
//! This crate writes the results of models (`model_runs`) in the names and the places of the file (`model_terms`), and
//! a page with pictures (`timelines`). The crate promises that no call fails at run time. Tests show what the texts say.
#![tactic(auto)]

mod claim_details;
mod digits;
mod escaped;
mod event_words;
mod found;
mod html_models;
mod html_page;
mod html_style;
mod html_timeline;
mod json_models;
mod judged;
mod junit;
mod named_file;
mod names;
mod one_line;
mod rows;
mod source_faults;
mod tap;
mod timeline_columns;
mod timeline_table;
mod unexplored;
mod verdicts;
mod wait_lines;

pub use claim_details::model_details;
pub use html_page::{HTML_HEAD, HtmlPage};
pub use json_models::{json_report, model_json};
pub use judged::{JudgedModel, listed_model, model_line, named_term};
pub use junit::{JUNIT_HEAD, junit_case, junit_document};
pub use named_file::{NamedFile, line_starts};
pub use source_faults::{fault_text, unread_text};
pub use tap::{tap_head, tap_model};
pub use unexplored::Unexplored;
pub use verdicts::{Counts, counts_of, summary};

//! The files of reports, each written whole or not at all, and never over a file that isn't such a report.
//!
//! This crate uses `text_io` and the files of the system. [`ReportFile::open`] looks at what is at a report's path, and
//! refuses a path at which something could be lost. [`ReportFile::clear`] removes the report of an earlier test, and
//! [`ReportFile::write`] writes a report to a file beside it, and then gives that file its name. The crate promises
//! which path is refused, and why ([`way_of`]), and which share of the memory each of several jobs has ([`share_of`]).
//! Tests show what files are there if the program is killed.
#![tactic(auto)]

mod content;
mod places;
mod report_file;
mod share;
mod way;
mod writing;

pub use content::{Content, content_of};
pub use report_file::{Problem, ReportFile};
pub use share::share_of;
pub use way::{Found, Kind, Refusal, Way, may_be_removed, way_of};

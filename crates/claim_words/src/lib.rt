//! The claims of a command line: how they are spelled, and which refs they name.
//!
//! A claim compares refs with numbers, as `(< inside 2)`, or says by `deadlock`, `left` or `final` that no fiber can go
//! on. It joins these by `and`, `or` and `not`. The crate uses the claim words of a search (`every_schedule`).
//! [`read_claim`] reads the text of a claim, and promises that the text spells the returned claim, and that the limits
//! allow each ref that it names by a number. [`number_claim`] replaces the names of refs by numbers: the refs at the
//! head of a program's text are numbered from 0.
#![tactic(auto)]

mod heads;
mod made_refs;
mod numbering;
mod reading;
mod scanning;
mod spacing;
mod spelled;
mod words;

pub use heads::{RefFault, number_of};
pub use numbering::{NumberFault, number_claim};
pub use reading::{ClaimFault, read_claim};
pub use spacing::spaced_text;
pub use spelled::Spelled;
pub use words::{Joint, SpelledWord, Whole};

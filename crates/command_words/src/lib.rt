//! The words of a command line: which words are accepted, which request they make, and the message for words that make
//! none.
//!
//! `clap` reads the words. A request is a value: the order to obey, its form and its limits. Nothing here reads a text
//! or runs a program. The crate promises that the request is the one that the words ask for, and that each option has
//! the value given in the words, or its usual one.
#![tactic(auto)]

mod checking;
mod compare_requests;
mod compare_words;
mod comparing;
mod decide_requests;
mod deciding;
mod exploring;
mod flags;
mod help;
mod judge_requests;
mod judging;
mod marks;
mod memory;
mod no_request;
mod ranges;
mod replay;
mod requests;
mod running;
mod sampling;
mod say_requests;
mod saying;
mod seek_requests;
mod seeking;
mod test_requests;
mod test_words;
mod testing;
mod unmark_requests;
mod unmarking;
mod words;
mod wrong_words;

pub use checking::{Checking, Showing};
pub use comparing::Comparing;
pub use deciding::Deciding;
pub use exploring::{Beside, ExploreForm, Exploring};
pub use judging::Judging;
pub use no_request::{no_request_reason, value_reason};
pub use replay::{AnswerForm, Replay};
pub use requests::{Request, request_of};
pub use running::{RunForm, Running, limits_of};
pub use sampling::Sampling;
pub use saying::Saying;
pub use seeking::Seeking;
pub use testing::{Coloring, TestForm, Testing, Translating};
pub use unmarking::Unmarking;
pub use words::all_words;
pub use wrong_words::{refuse_words, shown_reason};

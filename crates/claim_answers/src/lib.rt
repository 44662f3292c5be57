//! The verdicts on claims about the program of a text, beside the answer of `explore`.
//!
//! The crate uses claims and their spelling (`claim_words`), searches of every schedule (`every_schedule`), and the
//! answers of `explore` (`exploration_text`, `timelines`, `json_answers`). A claim is checked in each world to which a
//! schedule leads. The crate promises that each claim has the verdict that the definitions give it: a claim that a
//! world refutes or meets has a schedule that leads there, and if the verdict says that no world does, none does.
//!
//! Claims can also be looked at in schedules that are drawn at random (`sampled_schedules`), beside the answer of
//! `sample`. Then a claim is refuted or met by a schedule that leads there, or has no verdict.
#![tactic(auto)]

mod answering;
mod asked;
mod judging;
mod lines;
mod moments;
mod sampling;
mod seen_lines;
mod statuses;

pub use answering::{ClaimForm, answer_claims};
pub use asked::{AskFault, Asked, Rule, read_asked};
pub use claim_words::ClaimFault;
pub use judging::Verdict;
pub use sampling::answer_sampled_claims;

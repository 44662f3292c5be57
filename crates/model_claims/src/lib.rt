//! The claims of a model, and their verdicts.
//!
//! This crate uses the forms and items of a model file (`model_forms`, `model_text`), the terms of its models
//! (`model_terms`), the outcomes of fibers (`effect_term`) and the verdict over all answers (`claim_verdicts`).
//! [`read_claims`] reads the claims of a model, or returns the first fault with its place. A [`Claim`] has a
//! [`Condition`] over one answer and the probe that its term needs; a claim that is checked in each world has
//! [`MomentWord`]s. [`read_settings`] reads the bounds of a model. [`truth_in`] returns the truth of a claim at one
//! answer, and [`judge`] the verdict over all answers. No function here calls itself, so claims nest to any depth.
//!
//! [`truth_of`] and [`truth_in`] are proved to run the words of a condition over the fibers of the answer, as
//! `specs/Conditions.antt` states. For [`read_claims`], [`read_settings`], [`has_forever`] and [`marks_in_loops`] only
//! safety and termination are proved.
#![tactic(auto)]

mod answer;
mod bounds;
mod claim;
mod claim_faults;
mod compile;
mod condition;
mod endless;
mod faults;
mod leaf;
mod moment;
mod names;
mod numbering;
mod parts;
mod reader;
mod refs;
mod straight;
mod truth;
mod words;

pub use answer::{FiberName, Seen, SeenFiber};
pub use bounds::{Settings, check_defaults, read_settings};
pub use claim::{Claim, Want};
pub use claim_verdicts::{Judged, Rule, Truth, Verdict, judge, under};
pub use condition::{Comparison, Condition, Spoken, SpokenName, Wanted, Who, Word};
pub use endless::{has_forever, marks_in_loops};
pub use leaf::{is_wanted, speaks_of};
pub use moment::MomentWord;
pub use reader::read_claims;
pub use truth::{truth_in, truth_of};

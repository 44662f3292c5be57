//! The terms of the models of a file, as texts.
//!
//! The crate uses the forms and items of a model file (`model_forms`, `model_text`) and the words of the language
//! (`term_parse`). [`read_source`] reads a file, preceded by the definitions that every file has ([`prelude`]).
//! [`translate`] turns one of its models into the text of a term, as `parse` of `term_parse` takes it, with a table of
//! its binders and one of the places in the file that its brackets come from. Both return the first fault, with its
//! place, before anything runs. `read_source` returns a fault of the file, of its items and names, or of its
//! definitions, each tried with parts of their kinds; `translate` returns a fault of one model.
//!
//! `term_writing` writes the terms, finds the binder or item that a name means, and words the reasons of refusals. What
//! other crates use of it is handed on here. This crate checks each term that was written: that it spells a term, and
//! that its length, binders and places are within bounds. A model that exceeds a limit of `term_writing`, as that of
//! 65,536 bytes, has fault `E23`.
//!
//! Proved are five facts. The file of a source is the one that the grammar of `model_text` gives for its text. The text
//! behind the prelude is the file that was read. The text of a translation is one that the grammar of terms spells, as
//! a term that is closed and well kinded. It has at most 65,536 bytes, and its binders and places are within it. No
//! call fails at run time, and each returns. That the term means what the file says is only tested.
#![tactic(auto)]

mod source;
mod translation;

pub use source::{Source, prelude, read_source};
pub use term_writing::{
    Binder, BinderName, ComputedSay, FiberName, LATE, NameKind, Refused, SourceFault, WordPlace,
    distance, least_apart,
};
pub use translation::{ModelTerm, Probe, Said, translate};

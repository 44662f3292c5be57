//! The writing of the terms of models, and the reasons why a file or a model is refused.
//!
//! The crate uses the forms and items of a model file (`model_forms`, `model_text`), the words of the language
//! (`term_parse`) and its kinds and values (`effect_term`). `model_terms` stands on it, and hands on what other crates
//! use. [`write_all`] writes the term of a model or a definition form by form, by a stack of tasks. [`ItemNames`] finds
//! the item that a name of a file means. [`try_definitions`] tries each definition of a file with parts of their kinds.
//! [`term_refused`], [`file_refused`] and [`twice_refused`] word the reasons of refusals.
//!
//! A use means the innermost binder of its spelling around the place where it is written. The statements of a
//! definition see its parts and the definitions and constants above it. A term that is passed to a definition sees the
//! names that are bound where it was passed. Each binder of the term has a spelling of its own.
//!
//! A term is written from its first byte to its last; no function here is recursive. The text of a term has at most
//! 65,536 bytes and 100 open brackets, and the steps are bounded: a term that exceeds one of these limits has fault
//! `E23`.
//!
//! It promises that no call fails at run time, and that each returns. That a written text is that of a term is checked
//! by `model_terms`.
#![tactic(auto)]

mod binder;
mod condition;
mod file_fault;
mod form;
mod look;
mod name_says;
mod named;
mod near_names;
mod nearness;
mod probe;
mod reading;
mod refused;
mod row;
mod scope;
mod shapes;
mod spelling;
mod task;
mod term;
mod told;
mod trial;
mod unknown_word;
mod uses;
mod wording;
mod writing;
mod wrong;

pub use binder::{Binder, BinderName, NameKind, WordPlace};
pub use file_fault::{NameFault, file_refused, twice_refused};
pub use name_says::LATE;
pub use named::{ItemNames, NamedItem, name_of};
pub use nearness::{distance, least_apart};
pub use reading::{Reading, bytes_of, first_of, span_of};
pub use refused::{Refused, SourceFault};
pub use scope::{FiberName, Here, NONE, Operand, View};
pub use shapes::shape_of;
pub use task::Task;
pub use term::write_all;
pub use trial::try_definitions;
pub use wording::term_refused;
pub use writing::{ComputedSay, MOST_BYTES, SaidBy, Writing};
pub use wrong::{Limit, Span, Stop};

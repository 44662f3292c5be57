//! The forms of a model file: words, texts in quotes, and lists of forms in brackets, with comments between them.
//!
//! The crate uses no other crate of the project. [`read_forms`] turns the bytes of a file into its forms, each with the
//! place of its bytes, or returns the first fault: a closing bracket without an opening one, a quote with no other on
//! its line, or opening brackets that are never closed. The function promises that the forms spell exactly the tokens
//! of the text, that a fault is the first one, and that no forms spell a refused text. Brackets can nest to any depth:
//! no function here is recursive.
//!
//! All forms of a file are in one list, where the forms inside a bracket follow the form of the bracket
//! ([`Form::inside`]). A [`Block`] is a range of this list. [`inside_first`] returns the block of the forms inside a
//! block's first form, and [`behind_first`] the block of the forms behind it:
//!
//! ```
//! let forms = read_forms(alloc, b"(want 42) ; the answer")?;
//! // The list, with two forms inside, and the words `want` and `42`.
//! assert_eq!(forms.len(), 3);
//! assert_eq!(form_bytes(b"(want 42) ; the answer", forms[2]), b"42");
//! assert_eq!(read_forms(alloc, b"(want 42))").err(), Some(FormFault::Unopened(9)));
//! ```
#![tactic(auto)]

mod block;
mod fault;
mod form;
mod reader;
mod token;

pub use block::{Block, behind_first, block_of, first_form, inside_first};
pub use fault::FormFault;
pub use form::{Form, FormKind, form_bytes};
pub use reader::read_forms;

//! The words of a code, and the forms of a term's text that they come from.
//!
//! The crate uses the forms of a text (`model_forms`), the words of the language (`term_parse`) and codes
//! (`derived_ops`). Most words of a code come from one form of the term's text each. A form such as `race`, `both`,
//! `guarantee` or a bracket gives many words of the code, and a message about one of these words shows that form.
//! [`code_sources`] returns for each word of a code where its form begins, and for a start the role of the fiber: one
//! that the text starts, a side of a race, or a fiber that a race starts for itself. The function promises one entry
//! for each word of the code.
//!
//! ```
//! let text = b"(let x (pure 1) (say x))";
//! let program = Program::check(alloc, parse(alloc, text)?)?;
//! let code = expand(alloc, &program)?;
//! let sources = code_sources(alloc, text, code.words().len())?;
//! // The words of the code are those of `let`, `pure` and `say`.
//! let places = [sources[0].place, sources[1].place, sources[2].place];
//! assert_eq!(places, [0, 7, 16]);
//! ```
#![tactic(auto)]

mod layouts;
mod sources;
mod task;
mod term_parts;
mod walk;

pub use sources::{StartRole, WordSource, code_sources};

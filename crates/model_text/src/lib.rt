//! The items of a model file: constants, definitions, defaults and models.
//!
//! The crate uses `model_forms`, whose forms it reads, `term_parse` for the spelling of numbers, and `effect_term` for
//! their values. [`read_file`] turns the bytes of a file into its forms and its items, in the order of the file, or
//! returns the first fault with its place; [`read_items`] reads the items from the forms. Both promise that the items
//! are those that the grammar gives for the forms, and that a fault is the grammar's. The contents of a definition, of
//! a claim and of `run` stay forms: an item refers to them by a [`Block`](model_forms::Block).
//!
//! ```
//! let text = b"(define N 2) (model m (want 42) (run (pure 42)))";
//! let file = read_file(alloc, text)?;
//! // The constant `N`, and the model `m`.
//! assert_eq!(file.items.len(), 2);
//! let fault = read_file(alloc, b"define").err();
//! assert_eq!(fault, Some(FileFault::Item(ItemFault::NotAnItem(0))));
//! ```
#![tactic(auto)]

mod body;
mod definition;
mod fault;
mod file;
mod item;
mod model;
mod number;
mod part;
mod reader;
mod word;

pub use fault::ItemFault;
pub use file::{FileFault, ModelFile, read_file};
pub use item::{Constant, Definition, Item, Model};
pub use number::read_number;
pub use reader::read_items;

//! Counts the rows at the head of a timeline that only make refs and deferreds.
//!
//! The crate uses what entries did (`fiber_events`), shared calls (`cell_registry`) and replies (`effect_term`).
//! [`made_by`] is proved to count the rows before the first row that does anything else. Each of these rows makes a ref
//! or a deferred, or gives the ref that the row before it makes its first value. At most four such rows count as none.
#![tactic(auto)]

mod made;
mod product;

pub use made::{Made, made_by};
pub use product::{Product, product_of};

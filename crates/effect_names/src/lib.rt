//! The names of Cats Effect that people write in models, and what says the same there.
//!
//! The crate has a table of names with a note for each, and uses no other crate. [`note_in`] is proved to return the
//! note that a table has for a name, or none. [`note_of`] calls it with [`NOTES`]. Tests show each note.
#![tactic(auto)]

mod lookup;
mod notes;

pub use lookup::{note_in, note_of};
pub use notes::NOTES;

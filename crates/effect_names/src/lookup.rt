//! The note for a name.

ghost use Rattle.std.specs.Prelude.{◌≡◌, nat_eq, option_map};
ghost use Rattle.std.specs.Cmp.Lexicographic.{pointwise};
ghost use Rattle.std.specs.List.{find};

use crate::notes::NOTES;

/// Returns the note of the first entry with this name, or none if there is no such entry. An entry is a name and its
/// note.
pub fn note_in(entries: &[(&'static str, &'static str)], name: &[u8]) -> Option<&'static str>
    ensures { option_map (λ note. note.now) result ≡
        option_map (λ entry. entry.1.now) (find (λ entry. pointwise nat_eq entry.0.now name.now) entries.now) }
{
    for entry in entries {
        if entry.0.as_bytes() == name {
            return Some(entry.1);
        }
    }
    None
}

/// Returns what says in models what this name of Cats Effect says, as `flatMap`, or none if [`NOTES`] doesn't have it.
pub fn note_of(name: &[u8]) -> Option<&'static str> {
    note_in(entries(), name)
}

// The entries of [`NOTES`].
fn entries() -> &'static [(&'static str, &'static str)] {
    &NOTES
}

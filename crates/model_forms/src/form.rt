//! One form of a text, and the bytes that spell it.

ghost use Rattle.std.specs.Prelude.{◌≡◌, slice_range};

/// The kind of a form.
#[derive(Clone, Copy, PartialEq, Eq, Debug)]
pub enum FormKind {
    /// A word: any bytes other than space, brackets, quotes and semicolons.
    Word,
    /// A text between two quotes on one line.
    Text,
    /// A list of forms between two brackets.
    List,
}

/// A form, and the place of its bytes in the source text. The bytes of a `Text` begin and end with a quote, those of a
/// `List` with a bracket.
#[derive(Clone, Copy, PartialEq, Eq, Debug)]
pub struct Form {
    /// Its kind.
    pub kind: FormKind,
    /// The number of bytes before its first one.
    pub start: usize,
    /// The number of bytes up to and including its last one.
    pub end: usize,
    /// The number of forms inside a list, at any depth. These forms follow the list in the list of all forms. The
    /// number is 0 for a word and a text.
    pub inside: usize,
}

/// Returns the bytes of `text` from `form.start` to `form.end`, or those of them that `text` has.
pub fn form_bytes(text: &[u8], form: Form) -> &[u8]
    ensures { result.now ≡ slice_range text.now form.start form.end }
{
    let end = form.end.min(text.len());
    let start = form.start.min(end);
    &text[start..end]
}

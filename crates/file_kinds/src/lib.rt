//! Whether a text begins as a model file does, rather than as a program.
//!
//! The crate uses the standard library alone. [`is_model_file`] promises to find exactly the texts whose first form is
//! one of those that a model file has at its top: `model`, `define` or `defaults`. Spaces and comments can come before
//! it, and before its word. No program begins so.
#![tactic(auto)]

ghost use Rattle.std.specs.Prelude.{◌≡◌, false, true};
ghost use Rattle.file_kinds.specs.Beginnings.{IsModelFile, IsModelWord, behind_blanks, first_word, is_space};
ghost use Rattle.file_kinds.specs.Beginnings.{is_word_byte, word_of};

/// Whether the first form of a text is one of those that a model file has at its top.
pub fn is_model_file(text: &[u8]) -> bool
    ensures model { result ≡ true → IsModelFile text.now }
    ensures other { result ≡ false → IsModelFile text.now → ⊥ }
{
    is_model_word(first_word(text))
}

// Whether a word begins a form at the top of a model file.
fn is_model_word(word: &[u8]) -> bool
    ensures model { result ≡ true → IsModelWord word.now }
    ensures other { result ≡ false → IsModelWord word.now → ⊥ }
{
    is_same(word, b"model") || is_same(word, b"define") || is_same(word, b"defaults")
}

// Whether two texts are equal.
fn is_same(one: &[u8], other: &[u8]) -> bool
    ensures same { result ≡ true → one.now ≡ other.now }
    ensures apart { result ≡ false → one.now ≡ other.now → ⊥ }
{
    one == other
}

// The word of the first form of a text, or no bytes if the text doesn't begin with a form.
fn first_word(text: &[u8]) -> &[u8]
    ensures { result.now ≡ first_word text.now }
{
    match behind_blanks(text) {
        [b'(', inside @ ..] => word_of(behind_blanks(inside)),
        _ => &[],
    }
}

// The text from its first byte on that is neither space nor in a comment.
fn behind_blanks(text: &[u8]) -> &[u8]
    ensures { result.now ≡ behind_blanks false text.now }
{
    let mut comment = false;
    for at in 0..text.len() {
        let byte = text[at];
        if comment {
            comment = byte != b'\n';
        } else if byte == b';' {
            comment = true;
        } else if !is_space(byte) {
            return &text[at..];
        }
    }
    &[]
}

// The bytes of the text before its first byte that isn't one of a word.
fn word_of(text: &[u8]) -> &[u8]
    ensures { result.now ≡ word_of text.now }
{
    for at in 0..text.len() {
        if !is_word_byte(text[at]) {
            return &text[..at];
        }
    }
    text
}

fn is_space(byte: u8) -> bool
    ensures { result ≡ is_space byte }
{
    byte == b' ' || byte == b'\t' || byte == b'\r' || byte == b'\n'
}

// Whether a word of a model file can have this byte.
fn is_word_byte(byte: u8) -> bool
    ensures { result ≡ is_word_byte byte }
{
    !(is_space(byte) || byte == b'(' || byte == b')' || byte == b';' || byte == b'"')
}

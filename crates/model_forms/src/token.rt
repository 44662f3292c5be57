//! The tokens of a text, one after another.

ghost use Rattle.std.specs.Prelude.{◌≡◌, ◌≤◌, ◌<◌, ◌+◌, ◌||◌, ◌==◌, List, [], IfSome, IfNone, length};
ghost use Rattle.std.specs.Prelude.{slice_index, slice_range, drop};
ghost use Rattle.model_forms.specs.Lexemes.{class_of, is_plain, ends_string, lexemes, lexemes_at, in_word};
ghost use Rattle.model_forms.specs.Lexemes.{in_comment, word_of};
ghost use Rattle.model_forms.specs.Seen.{EndsString, IsNext};
ghost use Rattle.model_forms.specs.declared.token.Class.TheVariants.{Quote, Plain};

/// The class of a byte: what it begins or continues.
#[derive(Clone, Copy)]
pub(crate) enum Class {
    Space,
    Comment,
    Open,
    Close,
    Quote,
    Plain,
}

/// The kind of a token.
#[derive(Clone, Copy)]
pub(crate) enum TokenKind {
    Open,
    Close,
    Word,
    Text,
    Unclosed,
}

/// A token, and the place of its bytes in the text.
#[derive(Clone, Copy)]
pub(crate) struct Token {
    pub kind: TokenKind,
    pub start: usize,
    pub end: usize,
}

fn is_space(byte: u8) -> bool
    ensures { result ≡ ((byte == 32) || (byte == 9) || (byte == 13) || (byte == 10)) }
{
    byte == b' ' || byte == b'\t' || byte == b'\r' || byte == b'\n'
}

#[tactic(auto, unfolding(crate::specs::Lexemes::class_of))]
fn class_of(byte: u8) -> Class
    ensures { result ≡ class_of byte }
{
    if is_space(byte) {
        Class::Space
    } else if byte == b';' {
        Class::Comment
    } else if byte == b'(' {
        Class::Open
    } else if byte == b')' {
        Class::Close
    } else if byte == b'"' {
        Class::Quote
    } else {
        Class::Plain
    }
}

fn is_plain(byte: u8) -> bool
    ensures { result ≡ is_plain (class_of byte) }
{
    match class_of(byte) {
        Class::Plain => true,
        Class::Space | Class::Comment | Class::Open | Class::Close | Class::Quote => false,
    }
}

fn ends_string(byte: u8) -> bool
    ensures { result ≡ ends_string byte }
{
    byte == b'"' || byte == b'\n'
}

// The end of the comment that continues at `from`: the next line feed, or the end of the text.
#[tactic(auto, using(crate::proofs::Lexing::comment_stops, crate::proofs::Lexing::over))]
fn comment_end(text: &[u8], from: usize) -> usize
    requires { from ≤ length text.now }
    ensures within { (from ≤ result) × (result ≤ length text.now) }
    ensures skipped { lexemes in_comment from (drop from text.now) ≡ lexemes_at result text.now }
{
    let mut at = from;
    while at < text.len() {
        if text[at] == b'\n' {
            return at;
        }
        at += 1;
    }
    at
}

// The end of the word that continues at `from`.
#[tactic(auto, using(crate::proofs::Lexing::word_stops, crate::proofs::Lexing::word_is_over))]
fn word_end(text: &[u8], from: usize) -> usize
    requires { from ≤ length text.now }
    ensures within { (from ≤ result) × (result ≤ length text.now) }
    ensures word { slice_range text.now from result ≡ word_of (drop from text.now) }
    ensures skipped { lexemes in_word from (drop from text.now) ≡ lexemes_at result text.now }
{
    let mut at = from;
    while at < text.len() {
        if !is_plain(text[at]) {
            return at;
        }
        at += 1;
    }
    at
}

// The end of the string that continues at `from`: a quote, a line feed, or the end of the text.
fn string_end(text: &[u8], from: usize) -> usize
    requires { from ≤ length text.now }
    ensures { EndsString text.now from result }
{
    let mut at = from;
    while at < text.len() {
        if ends_string(text[at]) {
            return at;
        }
        at += 1;
    }
    at
}

// The token that begins with the quote at `start`.
fn string_token(text: &[u8], start: usize) -> Token
    requires within { start < length text.now }
    requires quote { class_of (slice_index text.now start) ≡ Quote }
    ensures { IsNext text.now start result }
{
    let end = string_end(text, start + 1);
    if end < text.len() && text[end] == b'"' {
        Token {
            kind: TokenKind::Text,
            start,
            end: end + 1,
        }
    } else {
        Token {
            kind: TokenKind::Unclosed,
            start,
            end,
        }
    }
}

// The word that begins at `start`.
fn word_token(text: &[u8], start: usize) -> Token
    requires within { start < length text.now }
    requires plain { class_of (slice_index text.now start) ≡ Plain }
    ensures { IsNext text.now start result }
{
    Token {
        kind: TokenKind::Word,
        start,
        end: word_end(text, start + 1),
    }
}

/// Returns the first token that begins at or behind `from`, if there is one.
pub(crate) fn token_at(text: &[u8], from: usize) -> Option<Token>
    requires { from ≤ length text.now }
    ensures found { IfSome result (IsNext text.now from) }
    ensures none { IfNone result (lexemes_at from text.now ≡ []) }
{
    let mut at = from;
    while at < text.len() {
        match class_of(text[at]) {
            Class::Space => at += 1,
            Class::Comment => at = comment_end(text, at + 1),
            Class::Open => return Some(Token {
                kind: TokenKind::Open,
                start: at,
                end: at + 1,
            }),
            Class::Close => return Some(Token {
                kind: TokenKind::Close,
                start: at,
                end: at + 1,
            }),
            Class::Quote => return Some(string_token(text, at)),
            Class::Plain => return Some(word_token(text, at)),
        }
    }
    None
}

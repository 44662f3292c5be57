//! The tokens of a text, one after another.

ghost use Rattle.std.specs.Prelude.{◌≡◌, ◌≤◌, ◌<◌, ◌+◌, ◌||◌, ◌==◌, false, true, ℕ, List, [], IfSome, IfNone, length};
ghost use Rattle.std.specs.Prelude.{◌^◌, neg_ℤ, pos, slice_index, slice_range, drop};
ghost use Rattle.term_parse.specs.Lexemes.{is_space, is_digit, is_letter, is_run, run_of, lexemes, lexemes_at};
ghost use Rattle.term_parse.specs.Lexemes.{number_of};
ghost use Rattle.term_parse.specs.Seen.{IsNext, lexeme_as, plain_value, seen_kind};

use effect_term::Value;

/// The kind of a token.
#[derive(Clone, Copy)]
pub(crate) enum TokenKind {
    Open,
    Close,
    Called,
    Number(Value),
    BadNumber,
    BadByte,
}

/// A token, and the place of its bytes in the text.
#[derive(Clone, Copy)]
pub(crate) struct Token {
    pub kind: TokenKind,
    pub start: usize,
    pub end: usize,
}

// The greatest number behind a minus sign.
const LARGEST: u64 = 4_611_686_018_427_387_904;

fn is_letter(byte: u8) -> bool
    ensures { result ≡ is_letter byte }
{
    b'a' <= byte && byte <= b'z'
}

fn is_digit(byte: u8) -> bool
    ensures { result ≡ is_digit byte }
{
    b'0' <= byte && byte <= b'9'
}

fn is_run(byte: u8) -> bool
    ensures { result ≡ is_run byte }
{
    is_letter(byte) || is_digit(byte)
}

// Whether an identifier or a number can begin with this byte.
fn begins_run(byte: u8) -> bool
    ensures { result ≡ (is_run byte || (byte == 45)) }
{
    is_run(byte) || byte == b'-'
}

fn is_space(byte: u8) -> bool
    ensures { result ≡ is_space byte }
{
    byte == b' ' || byte == b'\t' || byte == b'\r' || byte == b'\n'
}

// The end of the space that begins here.
#[tactic(auto, using(crate::proofs::Lexing::skip_space))]
fn space_end(text: &[u8], from: usize) -> usize
    requires { from ≤ length text.now }
    ensures within { (from ≤ result) × (result ≤ length text.now) }
    ensures skipped { lexemes_at from text.now ≡ lexemes_at result text.now }
    ensures over { result < length text.now → is_space (slice_index text.now result) ≡ false }
{
    let mut at = from;
    while at < text.len() {
        if !is_space(text[at]) {
            return at;
        }
        at += 1;
    }
    at
}

// The end of the run of letters and digits that continues here.
#[tactic(auto, using(crate::proofs::Lexing::run_stops, crate::proofs::Lexing::run_ends))]
fn run_end(text: &[u8], from: usize) -> usize
    requires { from ≤ length text.now }
    ensures within { (from ≤ result) × (result ≤ length text.now) }
    ensures run { slice_range text.now from result ≡ run_of (drop from text.now) }
    ensures skipped { lexemes true from (drop from text.now) ≡ lexemes_at result text.now }
{
    let mut at = from;
    while at < text.len() {
        if !is_run(text[at]) {
            return at;
        }
        at += 1;
    }
    at
}

// The value of digits that don't begin with 0, if it is at most [`LARGEST`].
#[tactic(auto, unfolding(crate::specs::Seen::plain_value))]
fn plain_value(digits: &[u8]) -> Option<u64>
    ensures { result ≡ plain_value digits.now }
{
    let [first, ..] = digits else {
        return None;
    };
    if *first <= b'0' {
        return None;
    }
    let mut value: u64 = 0;
    for &digit in digits {
        if !is_digit(digit) {
            return None;
        }
        if value > LARGEST / 10 {
            return None;
        }
        value = value * 10 + u64::from(digit - b'0');
    }
    if value > LARGEST {
        return None;
    }
    Some(value)
}

#[tactic(auto, using(crate::proofs::Lexing::below_zero))]
fn negated(value: u64) -> Value
    requires { value ≤ 2 ^ 62 }
    ensures { result ≡ neg_ℤ (pos value) }
{
    let Some(value) = Value::of(0 - value as i64) else {
        unreachable!();
    };
    value
}

// The number with these bytes, if they are one.
#[tactic(auto, unfolding(crate::specs::Seen::plain_value, crate::specs::Lexemes::number_of))]
fn number(run: &[u8]) -> Option<Value>
    ensures { result ≡ number_of run.now }
{
    let [first, digits @ ..] = run else {
        return None;
    };
    if *first == b'0' && digits.is_empty() {
        return Some(Value::ZERO);
    }
    if *first == b'-' {
        let value = plain_value(digits)?;
        return Some(negated(value));
    }
    let value = plain_value(run)?;
    Value::of(value as i64)
}

// The kind of the token that begins with this byte; `run` is its bytes if it is an identifier or a number.
#[tactic(auto, unfolding(crate::specs::Seen::lexeme_as, crate::specs::Lexemes::numbered))]
#[inline(always)]
fn kind_of(first: u8, run: &[u8]) -> TokenKind
    ensures { seen_kind run.now result ≡ lexeme_as first run.now }
{
    if first == b'(' {
        TokenKind::Open
    } else if first == b')' {
        TokenKind::Close
    } else if is_letter(first) {
        TokenKind::Called
    } else if is_digit(first) || first == b'-' {
        match number(run) {
            Some(n) => TokenKind::Number(n),
            None => TokenKind::BadNumber,
        }
    } else {
        TokenKind::BadByte
    }
}

// The token of these bytes.
#[inline(always)]
fn token_of(text: &[u8], start: usize, end: usize) -> Token
    requires within { (start < end) × (end ≤ length text.now) }
    ensures place { result ≡ record { kind = result.kind; start = start; end = end } }
    ensures kind { seen_kind (slice_range text.now start end) result.kind ≡ lexeme_as (slice_index text.now start)
        (slice_range text.now start end) }
{
    Token {
        kind: kind_of(text[start], &text[start..end]),
        start,
        end,
    }
}

// The token that begins here.
#[inline(always)]
fn token_from(text: &[u8], start: usize) -> Token
    requires within { start < length text.now }
    requires begins { is_space (slice_index text.now start) ≡ false }
    ensures { IsNext text.now start result }
{
    if begins_run(text[start]) {
        token_of(text, start, run_end(text, start + 1))
    } else {
        token_of(text, start, start + 1)
    }
}

/// The next token from here on, if there is one.
#[tactic(auto, using(crate::proofs::Lexing::no_tokens))]
#[inline(always)]
pub(crate) fn token_at(text: &[u8], at: usize) -> Option<Token>
    requires { at ≤ length text.now }
    ensures found { IfSome result (IsNext text.now at) }
    ensures none { IfNone result (lexemes_at at text.now ≡ []) }
{
    let start = space_end(text, at);
    if start < text.len() {
        Some(token_from(text, start))
    } else {
        None
    }
}

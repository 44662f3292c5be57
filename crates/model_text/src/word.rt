//! The meanings of single words.

ghost use Rattle.std.specs.Prelude.{◌≡◌, ◌<◌, ◌||◌, ◌==◌, IfSome, codes, length, position};
ghost use Rattle.std.specs.Str.{bytes_eq};
ghost use Rattle.term_parse.specs.Lexemes.{is_digit};
ghost use Rattle.model_text.specs.Words.{is_letter, goes_on, is_name, is_part, is_claim, is_bound, is_kind, keyword_of};

/// The meaning of the first word of a list.
#[derive(Clone, Copy)]
pub enum Keyword {
    /// `define`.
    Define,
    /// `defaults`.
    Defaults,
    /// `model`.
    Model,
    /// `run`.
    Run,
    /// The word of a claim.
    Claim,
    /// The word of a bound.
    Bound,
}

// Whether `a` and `b` are the same bytes.
#[tactic(auto, using(term_parse::proofs::Spellings::other_length, term_parse::proofs::Spellings::other_byte, term_parse::proofs::Spellings::same_bytes))]
fn is_same(a: &[u8], b: &[u8]) -> bool
    ensures { result ≡ bytes_eq a.now b.now }
{
    if a.len() != b.len() {
        return false;
    }
    for i in 0..a.len() {
        if a[i] != b[i] {
            return false;
        }
    }
    true
}

fn is_letter(byte: u8) -> bool
    ensures { result ≡ is_letter byte }
{
    (b'a' <= byte && byte <= b'z') || (b'A' <= byte && byte <= b'Z')
}

fn goes_on(byte: u8) -> bool
    ensures { result ≡ goes_on byte }
{
    is_letter(byte) || (b'0' <= byte && byte <= b'9') || byte == b'-' || byte == b'_'
}

/// Whether these bytes are a name.
#[tactic(auto, using(crate::proofs::Names::goes_on_false, crate::proofs::Names::goes_on_all))]
pub(crate) fn is_name(bytes: &[u8]) -> bool
    ensures { result ≡ is_name bytes.now }
{
    let [first, rest @ ..] = bytes else {
        return false;
    };
    if !is_letter(*first) {
        return false;
    }
    for byte in rest {
        if !goes_on(*byte) {
            return false;
        }
    }
    true
}

fn is_kind(bytes: &[u8]) -> bool
    ensures { result ≡ is_kind bytes.now }
{
    is_same(bytes, b"ref")
        || is_same(bytes, b"deferred")
        || is_same(bytes, b"fiber")
        || is_same(bytes, b"poll")
}

// The index of the first colon, if there is one.
fn colon_at(bytes: &[u8]) -> Option<usize>
    ensures place { result ≡ position (λ b. b == 58) bytes.now }
    ensures within { IfSome result (λ i. i < length bytes.now) }
{
    bytes.iter().position(|byte| *byte == b':')
}

/// Whether these bytes are a part of a definition: a name, or a name, a colon and a kind.
#[tactic(auto, unfolding(crate::specs::Words::is_part))]
pub(crate) fn is_part(bytes: &[u8]) -> bool
    ensures { result ≡ is_part bytes.now }
{
    match colon_at(bytes) {
        Some(at) => is_name(&bytes[..at]) && is_kind(&bytes[at + 1..]),
        None => is_name(bytes),
    }
}

fn is_claim(bytes: &[u8]) -> bool
    ensures { result ≡ is_claim bytes.now }
{
    is_same(bytes, b"want")
        || is_same(bytes, b"must")
        || is_same(bytes, b"can")
        || is_same(bytes, b"always")
        || is_same(bytes, b"ever")
        || is_same(bytes, b"never")
        || is_same(bytes, b"before")
        || is_same(bytes, b"fails")
        || is_same(bytes, b"all-end")
        || is_same(bytes, b"no-deadlock")
}

fn is_bound(bytes: &[u8]) -> bool
    ensures { result ≡ is_bound bytes.now }
{
    is_same(bytes, b"worlds")
        || is_same(bytes, b"entries")
        || is_same(bytes, b"fibers")
        || is_same(bytes, b"refs")
        || is_same(bytes, b"deferreds")
        || is_same(bytes, b"count")
        || is_same(bytes, b"times")
        || is_same(bytes, b"seed")
}

/// The meaning of these bytes as the first word of a list, if they have one.
pub(crate) fn keyword_of(bytes: &[u8]) -> Option<Keyword>
    ensures { result ≡ keyword_of bytes.now }
{
    if is_same(bytes, b"define") {
        Some(Keyword::Define)
    } else if is_same(bytes, b"defaults") {
        Some(Keyword::Defaults)
    } else if is_same(bytes, b"model") {
        Some(Keyword::Model)
    } else if is_same(bytes, b"run") {
        Some(Keyword::Run)
    } else if is_claim(bytes) {
        Some(Keyword::Claim)
    } else if is_bound(bytes) {
        Some(Keyword::Bound)
    } else {
        None
    }
}

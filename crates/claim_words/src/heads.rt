//! The refs at the head of a program's text, which fiber 0 makes before anything else.

ghost use Rattle.std.specs.Prelude.{◌≡◌, ◌≤◌, ◌+◌, ◌++◌, IfOk, IfSome, Some as There, codes, length, option_map, true};
ghost use Rattle.std.specs.List.{list_all};
ghost use Rattle.claim_words.specs.Heads.{IsRefOf, is_plain};
ghost use Rattle.claim_words.specs.Private.Steps.{IsNextHead, IsPlainFront, made};

/// Why a name has no number.
#[derive(Clone, Copy, PartialEq, Eq, Debug)]
pub enum RefFault {
    /// The text makes no ref of this name.
    NoRef,
    /// The text makes a ref of this name, but not at its head, so its number isn't known.
    NotAtHead,
    /// The text has several ref binders of this name.
    Several,
}

// A head of a text: the name of the ref that it makes, if it makes one, and the text after the head.
#[derive(Clone, Copy)]
pub(crate) struct Head<'a> {
    name: Option<&'a [u8]>,
    rest: &'a [u8],
}

// A word of a text, and the text after the space that follows the word.
#[derive(Clone, Copy)]
pub(crate) struct Taken<'a> {
    word: &'a [u8],
    rest: &'a [u8],
}

/// The number of the ref `name`, if the text has one ref binder of this name and this binder is at its head. The head
/// is the row of `(ref NAME V ` and `(deferred NAME ` with which the text begins. `text` is what
/// [`spaced_text`](crate::spaced_text) returns for a program's text.
pub fn number_of(text: &[u8], name: &[u8]) -> Result<u16, RefFault>
    ensures { IfOk result (IsRefOf text.now name.now) }
{
    match binders(text, name) {
        0 => Err(RefFault::NoRef),
        1 => match head_number(text, name) {
            Some(number) => Ok(number),
            None => Err(RefFault::NotAtHead),
        },
        _ => Err(RefFault::Several),
    }
}

// The number of forms `(ref NAME ..)` of this name in the text.
fn binders(text: &[u8], name: &[u8]) -> usize {
    let mut many = 0usize;
    for at in 0..text.len() {
        if is_binder_of(&text[at..], name) {
            many = many.saturating_add(1);
        }
    }
    many
}

// Whether the text begins with a form `(ref NAME ..)` of this name.
fn is_binder_of(text: &[u8], name: &[u8]) -> bool {
    match behind(text, b"(ref ") {
        Some(rest) => is_same(&rest[..plain_front(rest)], name),
        None => false,
    }
}

// The number of the ref of this name at the head of the text.
fn head_number(text: &[u8], name: &[u8]) -> Option<u16>
    ensures { IfSome result (IsRefOf text.now name.now) }
{
    let mut rest = text;
    let mut number = 0u16;
    for _ in 0..text.len() {
        let head = next_head(rest)?;
        if is_named(head.name, name) {
            return Some(number);
        }
        let next = counted(number, head.name)?;
        number = next;
        rest = head.rest;
    }
    None
}

// Whether a head makes a ref of this name.
fn is_named(found: Option<&[u8]>, name: &[u8]) -> bool
    ensures { result ≡ true → option_map (λ x. x.now) found.entry ≡ There name.now }
{
    match found {
        Some(found) => is_same(found, name),
        None => false,
    }
}

// The number of refs, with that of a head if it makes one.
fn counted(number: u16, found: Option<&[u8]>) -> Option<u16>
    ensures { IfSome result (λ it. it ≡ number + made (option_map (λ x. x.now) found.entry)) }
{
    match found {
        Some(_) => number.checked_add(1),
        None => Some(number),
    }
}

// The head with which the text begins, if it begins with one.
fn next_head(text: &[u8]) -> Option<Head<'_>>
    ensures { IfSome result (λ head. IsNextHead text.now (option_map (λ x. x.now) head.name) head.rest.now) }
{
    match ref_head(text) {
        Some(head) => Some(head),
        None => deferred_head(text),
    }
}

// The same for a head that makes a ref.
fn ref_head(text: &[u8]) -> Option<Head<'_>>
    ensures { IfSome result (λ head. IsNextHead text.now (option_map (λ x. x.now) head.name) head.rest.now) }
{
    let inside = behind(text, b"(ref ")?;
    let name = word_and_space(inside)?;
    let value = word_and_space(name.rest)?;
    Some(Head {
        name: Some(name.word),
        rest: value.rest,
    })
}

// The same for a head that makes a deferred.
fn deferred_head(text: &[u8]) -> Option<Head<'_>>
    ensures { IfSome result (λ head. IsNextHead text.now (option_map (λ x. x.now) head.name) head.rest.now) }
{
    let inside = behind(text, b"(deferred ")?;
    let name = word_and_space(inside)?;
    Some(Head {
        name: None,
        rest: name.rest,
    })
}

// The word with which the text begins, if a space follows it.
fn word_and_space(text: &[u8]) -> Option<Taken<'_>>
    ensures text { IfSome result (λ it. text.now ≡ it.word.now ++ (codes " " ++ it.rest.now)) }
    ensures plain { IfSome result (λ it. list_all is_plain it.word.now ≡ true) }
{
    let end = plain_front(text);
    let rest = behind(&text[end..], b" ")?;
    Some(Taken {
        word: &text[..end],
        rest,
    })
}

// The text after `front`, if the text begins with `front`.
fn behind<'a>(text: &'a [u8], front: &[u8]) -> Option<&'a [u8]>
    ensures { IfSome result (λ rest. text.now ≡ front.now ++ rest.now) }
{
    if text.len() < front.len() {
        return None;
    }
    for at in 0..front.len() {
        if text[at] != front[at] {
            return None;
        }
    }
    Some(&text[front.len()..])
}

/// Whether two texts are equal.
pub(crate) fn is_same(one: &[u8], other: &[u8]) -> bool
    ensures { result ≡ true → one.now ≡ other.now }
{
    one == other
}

// The number of bytes before the first bracket or space of the text.
fn plain_front(text: &[u8]) -> usize
    ensures within { result ≤ length text.now }
    ensures plain { IsPlainFront text.now result }
{
    for at in 0..text.len() {
        if !is_plain(text[at]) {
            return at;
        }
    }
    text.len()
}

// Whether this byte is neither a bracket nor a space.
fn is_plain(byte: u8) -> bool
    ensures { result ≡ is_plain byte }
{
    !(byte == b' ' || byte == b'(' || byte == b')')
}

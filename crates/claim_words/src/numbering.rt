//! Claims with numbers in place of the names of refs.

ghost use Rattle.std.specs.Prelude.{◌≡◌, ◌++◌, ◌∷◌, [], IfOk, OnOk, drop, map};
ghost use Rattle.claim_words.specs.Heads.{AreNumbersOf, IsNumberedBy, numbered};
ghost use Rattle.claim_words.specs.Private.Steps.{claim_word, first_of, is_named};

use crate::heads::{RefFault, number_of};
use crate::spelled::Spelled;
use crate::words::{Joint, SpelledWord, Whole};
use every_schedule::ClaimWord;
use std::alloc::{AllocError, Global};

/// Why the refs of a claim have no numbers.
#[derive(Debug, Drop)]
pub enum NumberFault<'a> {
    /// The ref of this name has no number.
    Unknown(&'a [u8], RefFault),
    /// Memory ran out.
    NoMemory,
}

impl From<AllocError> for NumberFault<'_> {
    fn from(_error: AllocError) -> Self {
        NumberFault::NoMemory
    }
}

/// The words of a claim, with the number of each ref in place of its name. `text` is what
/// [`spaced_text`](crate::spaced_text) returns for a program's text.
pub fn number_claim<'a>(
    alloc: Global,
    text: &[u8],
    claim: &Spelled<'a>,
) -> Result<Vec<ClaimWord>, NumberFault<'a>>
    ensures { IfOk result (λ it. IsNumberedBy text.now claim.now.words.items
        (map (λ x. x.now) claim.now.names.items) it.items) }
{
    let numbers = numbers_of(alloc, text, claim.names.as_slice())?;
    Ok(numbered(alloc, claim.words.as_slice(), numbers.as_slice())?)
}

// The numbers of the refs of these names.
fn numbers_of<'a>(
    alloc: Global,
    text: &[u8],
    names: &[&'a [u8]],
) -> Result<Vec<u16>, NumberFault<'a>>
    ensures { IfOk result (λ it. AreNumbersOf text.now (map (λ x. x.now) names.now) it.items) }
{
    let mut numbers = Vec::new(alloc);
    for name in names {
        match number_of(text, name) {
            Ok(number) => push_number(&mut numbers, number)?,
            Err(fault) => return Err(NumberFault::Unknown(name, fault)),
        }
    }
    Ok(numbers)
}

// Adds a number.
fn push_number(numbers: &mut Vec<u16>, number: u16) -> Result<(), AllocError>
    ensures { OnOk result (numbers.new.items ≡ numbers.old.items ++ number ∷ []) }
{
    numbers.push(number)?;
    Ok(())
}

// `words` with `numbers` in place of the names of refs.
fn numbered(
    alloc: Global,
    words: &[SpelledWord],
    numbers: &[u16],
) -> Result<Vec<ClaimWord>, AllocError>
    ensures { IfOk result (λ it. it.items ≡ numbered words.now numbers.now) }
{
    let mut all = Vec::new(alloc);
    let mut next = 0;
    for word in words {
        all.push(claim_word(word, numbers, next))?;
        if is_named(*word) {
            next += 1;
        }
    }
    Ok(all)
}

// Whether a word has a ref by its name.
fn is_named(word: SpelledWord) -> bool
    ensures { result ≡ is_named word }
{
    matches!(word, SpelledWord::Named(_, _))
}

// A word, with the number at `next` in place of the name of its ref.
fn claim_word(word: &SpelledWord, numbers: &[u16], next: usize) -> ClaimWord
    ensures { result ≡ claim_word (drop next numbers.now) word.now }
{
    match word {
        SpelledWord::Numbered(number, how, value) => ClaimWord::Compare(*number, *how, *value),
        SpelledWord::Named(how, value) => {
            ClaimWord::Compare(number_at(numbers, next), *how, *value)
        }
        SpelledWord::Not => ClaimWord::Not,
        SpelledWord::Join(Joint::And) => ClaimWord::And,
        SpelledWord::Join(Joint::Or) => ClaimWord::Or,
        SpelledWord::World(Whole::Deadlock) => ClaimWord::Deadlock,
        SpelledWord::World(Whole::Left) => ClaimWord::Left,
        SpelledWord::World(Whole::Final) => ClaimWord::Final,
    }
}

// The number at `next`, or 0 if there is none.
fn number_at(numbers: &[u16], next: usize) -> u16
    ensures { result ≡ first_of (drop next numbers.now) }
{
    if next < numbers.len() {
        numbers[next]
    } else {
        0
    }
}

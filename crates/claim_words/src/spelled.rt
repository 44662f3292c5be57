//! Claims with the texts that spell them.

ghost use Rattle.std.specs.Prelude.{◌≡◌, ◌++◌, IfOk, codes, map};
ghost use Rattle.claim_words.specs.Spelling.{IsSpelling, claim, compared_text, comparison_text, joint_text, operands};
ghost use Rattle.claim_words.specs.Spelling.{whole_text};

use crate::words::{Joint, SpelledWord, Whole};
use effect_term::Value;
use every_schedule::Comparison;
use itoa::Buffer;
use std::alloc::{AllocError, Global};

/// A claim: its words, and its text with one space between any two tokens that need one.
#[derive(Drop)]
pub struct Spelled<'a> {
    /// The text.
    pub text: Vec<u8>,
    /// The words, in postfix order.
    pub words: Vec<SpelledWord>,
    /// The names of its refs, in the order of the words.
    pub names: Vec<&'a [u8]>,
    pub ghost spelled: { IsSpelling claim text.items words.items (map (λ x. x.now) names.items) },
}

/// The operands of a joint. In the text, each has a space before it.
#[derive(Drop)]
pub(crate) struct Operands<'a> {
    joint: Joint,
    text: Vec<u8>,
    words: Vec<SpelledWord>,
    names: Vec<&'a [u8]>,
    ghost spelled: { IsSpelling (operands joint) text.items words.items (map (λ x. x.now) names.items) },
}

/// The claim that compares the ref of a number with a value.
pub(crate) fn compared_number<'a>(
    alloc: Global,
    number: u16,
    how: Comparison,
    value: Value,
) -> Result<Spelled<'a>, AllocError> {
    let mut digits = Buffer::new();
    let text = compared_text(alloc, digits.format(number).as_bytes(), how, value)?;
    let mut words = Vec::new(alloc);
    words.push(SpelledWord::Numbered(number, how, value))?;
    Ok(Spelled {
        text,
        words,
        names: Vec::new(alloc),
    })
}

/// The claim that compares the ref of a name with a value.
pub(crate) fn compared_name<'a>(
    alloc: Global,
    name: &'a [u8],
    how: Comparison,
    value: Value,
) -> Result<Spelled<'a>, AllocError> {
    let text = compared_text(alloc, name, how, value)?;
    let mut words = Vec::new(alloc);
    words.push(SpelledWord::Named(how, value))?;
    let mut names = Vec::new(alloc);
    names.push(name)?;
    Ok(Spelled { text, words, names })
}

/// The claim that says something about the whole world.
pub(crate) fn whole_claim<'a>(alloc: Global, whole: Whole) -> Result<Spelled<'a>, AllocError> {
    let text = Vec::from_slice(alloc, whole_text(whole))?;
    let mut words = Vec::new(alloc);
    words.push(SpelledWord::World(whole))?;
    Ok(Spelled {
        text,
        words,
        names: Vec::new(alloc),
    })
}

/// The negation of a claim.
pub(crate) fn negated<'a>(alloc: Global, part: Spelled<'a>) -> Result<Spelled<'a>, AllocError> {
    let text = wrapped(alloc, b"(not ", part.text.as_slice())?;
    let mut words = part.words;
    words.push(SpelledWord::Not)?;
    Ok(Spelled {
        text,
        words,
        names: part.names,
    })
}

/// The operands of a joint, with the first one alone.
pub(crate) fn first_operand<'a>(
    alloc: Global,
    joint: Joint,
    part: Spelled<'a>,
) -> Result<Operands<'a>, AllocError> {
    let text = joined_text(alloc, &[], part.text.as_slice())?;
    Ok(Operands {
        joint,
        text,
        words: part.words,
        names: part.names,
    })
}

/// The operands of a joint, with one more.
pub(crate) fn more_operands<'a>(
    alloc: Global,
    before: Operands<'a>,
    part: Spelled<'a>,
) -> Result<Operands<'a>, AllocError> {
    let text = joined_text(alloc, before.text.as_slice(), part.text.as_slice())?;
    let joint = before.joint;
    let mut words = before.words;
    words.extend_from_slice(part.words.as_slice())?;
    words.push(SpelledWord::Join(joint))?;
    let mut names = before.names;
    names.extend_from_slice(part.names.as_slice())?;
    Ok(Operands {
        joint,
        text,
        words,
        names,
    })
}

/// The claim that joins these operands.
pub(crate) fn joined<'a>(alloc: Global, parts: Operands<'a>) -> Result<Spelled<'a>, AllocError> {
    let text = joint_claim(alloc, parts.joint, parts.text.as_slice())?;
    Ok(Spelled {
        text,
        words: parts.words,
        names: parts.names,
    })
}

// The text of a comparison.
fn compared_text(
    alloc: Global,
    subject: &[u8],
    how: Comparison,
    value: Value,
) -> Result<Vec<u8>, AllocError>
    ensures { IfOk result (λ text. text.items ≡ compared_text subject.now how value) }
{
    let mut digits = Buffer::new();
    let mut text = Vec::from_slice(alloc, b"(")?;
    text.extend_from_slice(comparison_text(how))?;
    text.extend_from_slice(b" ")?;
    text.extend_from_slice(subject)?;
    text.extend_from_slice(b" ")?;
    text.extend_from_slice(digits.format(value.get()).as_bytes())?;
    text.extend_from_slice(b")")?;
    Ok(text)
}

// The sign of a comparison.
fn comparison_text(how: Comparison) -> &'static [u8]
    ensures { result.now ≡ comparison_text how }
{
    match how {
        Comparison::Equal => b"=",
        Comparison::Differs => b"!=",
        Comparison::Less => b"<",
        Comparison::AtMost => b"<=",
        Comparison::Greater => b">",
        Comparison::AtLeast => b">=",
    }
}

// `front`, a text, and a closing bracket.
fn wrapped(alloc: Global, front: &[u8], text: &[u8]) -> Result<Vec<u8>, AllocError>
    ensures { IfOk result (λ it. it.items ≡ front.now ++ (text.now ++ codes ")")) }
{
    let mut all = Vec::from_slice(alloc, front)?;
    all.extend_from_slice(text)?;
    all.extend_from_slice(b")")?;
    Ok(all)
}

// `front`, a space, and a text.
fn joined_text(alloc: Global, front: &[u8], text: &[u8]) -> Result<Vec<u8>, AllocError>
    ensures { IfOk result (λ it. it.items ≡ front.now ++ (codes " " ++ text.now)) }
{
    let mut all = Vec::from_slice(alloc, front)?;
    all.extend_from_slice(b" ")?;
    all.extend_from_slice(text)?;
    Ok(all)
}

// The text of a joint with its operands.
fn joint_claim(alloc: Global, joint: Joint, parts: &[u8]) -> Result<Vec<u8>, AllocError>
    ensures { IfOk result (λ it. it.items ≡ codes "(" ++ (joint_text joint ++ (parts.now ++ codes ")"))) }
{
    let mut all = Vec::from_slice(alloc, b"(")?;
    all.extend_from_slice(joint_text(joint))?;
    all.extend_from_slice(parts)?;
    all.extend_from_slice(b")")?;
    Ok(all)
}

// The word of a joint.
fn joint_text(joint: Joint) -> &'static [u8]
    ensures { result.now ≡ joint_text joint }
{
    match joint {
        Joint::And => b"and",
        Joint::Or => b"or",
    }
}

// The word of a claim about the whole world.
fn whole_text(whole: Whole) -> &'static [u8]
    ensures { result.now ≡ whole_text whole }
{
    match whole {
        Whole::Deadlock => b"deadlock",
        Whole::Left => b"left",
        Whole::Final => b"final",
    }
}

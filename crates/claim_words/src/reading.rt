//! The claim that a text spells.

ghost use Rattle.std.specs.Prelude.{◌≡◌, IfOk};
ghost use Rattle.std.specs.List.{All};
ghost use Rattle.claim_words.specs.MadeRefs.{IsMade};
ghost use Rattle.claim_words.specs.Spacing.{spaced_text};

use crate::heads::is_same;
use crate::made_refs::ref_beyond;
use crate::scanning::{Scanner, Subject, comparison_of, subject_of, value_of, whole_of};
use crate::spacing::spaced_text;
use crate::spelled::{
    Operands, Spelled, compared_name, compared_number, first_operand, joined, more_operands,
    negated, whole_claim as whole_part,
};
use crate::words::Joint;
use every_schedule::Comparison;
use itoa::Buffer;
use std::alloc::{AllocError, Global};

/// Why a text spells no claim, or none that can be checked.
#[derive(Clone, Copy, PartialEq, Eq, Debug)]
pub enum ClaimFault {
    /// What was expected, and the number of bytes of the text before this place.
    Expected(&'static str, usize),
    /// The claim names the ref of this number, and no run makes it: at most as many refs as the second number are made.
    Unmade(u16, u16),
    /// Memory ran out.
    NoMemory,
}

impl From<AllocError> for ClaimFault {
    fn from(_error: AllocError) -> Self {
        ClaimFault::NoMemory
    }
}

// A form that isn't closed yet.
#[derive(Drop)]
enum Open<'a> {
    // A negation.
    Not,
    // A joint without operands.
    Joint(Joint),
    // A joint with operands.
    Row(Operands<'a>),
}

// The result of reading a form or a part of one.
#[derive(Drop)]
enum Step<'a> {
    // A closed claim.
    Closed(Spelled<'a>),
    // The claim goes on.
    More,
}

const A_CLAIM: &str = "a claim in brackets, deadlock, left or final";

const A_WORD: &str = "=, !=, <, <=, >, >=, and, or, or not";

const A_REF: &str = "the name or the number of a ref";

const A_NUMBER: &str = "a number";

const A_CLOSING: &str = "a closing bracket";

const THE_END: &str = "the end of the claim";

const PLAIN: &str = "a number without zeros or a plus sign in front";

/// Reads the claim that a text spells: `(= REF V)`, also with `!=`, `<`, `<=`, `>` or `>=`; `deadlock`, `left` or
/// `final`; `(and CLAIM ..)`, `(or CLAIM ..)` or `(not CLAIM)`. REF is a name or a number up to 999, V a value. Spaces
/// around brackets and further spaces between words mean nothing. Claims can nest to any depth.
///
/// `refs` is the greatest number of refs that a run makes. They are numbered from 0: a claim that names the ref of this
/// number, or of a greater one, is refused.
pub fn read_claim<'a>(alloc: Global, text: &'a [u8], refs: u16) -> Result<Spelled<'a>, ClaimFault>
    ensures spelled { IfOk result (λ claim. claim.text.items ≡ spaced_text text.now) }
    ensures made { IfOk result (λ claim. All (IsMade refs) claim.words.items) }
{
    let mut scanner = Scanner::new(text);
    let claim = whole_claim(alloc, text.len(), &mut scanner)?;
    if !scanner.is_at_end() {
        return Err(ClaimFault::Expected(THE_END, scanner.place()));
    }
    let spaced = spaced_text(alloc, text)?;
    if !is_same(claim.text.as_slice(), spaced.as_slice()) {
        return Err(ClaimFault::Expected(PLAIN, 0));
    }
    match ref_beyond(claim.words.as_slice(), refs) {
        Some(number) => Err(ClaimFault::Unmade(number, refs)),
        None => Ok(claim),
    }
}

// The claim that begins here. Each round takes at least one bracket or word.
fn whole_claim<'a>(
    alloc: Global,
    rounds: usize,
    scanner: &mut Scanner<'a>,
) -> Result<Spelled<'a>, ClaimFault> {
    let mut open = Vec::new(alloc);
    for _ in 0..rounds {
        if let Step::Closed(claim) = form(alloc, rounds, scanner, &mut open)? {
            return Ok(claim);
        }
    }
    Err(ClaimFault::Expected(A_CLAIM, scanner.place()))
}

// Reads the front of a form, or a whole claim without parts.
fn form<'a>(
    alloc: Global,
    rounds: usize,
    scanner: &mut Scanner<'a>,
    open: &mut Vec<Open<'a>>,
) -> Result<Step<'a>, ClaimFault> {
    if !scanner.takes(b'(') {
        let part = whole(alloc, scanner)?;
        return close(alloc, rounds, scanner, open, part);
    }
    let place = scanner.place();
    let word = scanner.word();
    match word {
        b"not" => begin(open, Open::Not),
        b"and" => begin(open, Open::Joint(Joint::And)),
        b"or" => begin(open, Open::Joint(Joint::Or)),
        _ => match comparison_of(word) {
            Some(how) => {
                let part = comparison(alloc, scanner, how)?;
                close(alloc, rounds, scanner, open, part)
            }
            None => Err(ClaimFault::Expected(A_WORD, place)),
        },
    }
}

// Reads a word about the whole world.
fn whole<'a>(alloc: Global, scanner: &mut Scanner<'a>) -> Result<Spelled<'a>, ClaimFault> {
    let place = scanner.place();
    match whole_of(scanner.word()) {
        Some(whole) => Ok(whole_part(alloc, whole)?),
        None => Err(ClaimFault::Expected(A_CLAIM, place)),
    }
}

// Opens a form.
fn begin<'a>(open: &mut Vec<Open<'a>>, form: Open<'a>) -> Result<Step<'a>, ClaimFault> {
    match open.push(form) {
        Ok(()) => Ok(Step::More),
        Err(_) => Err(ClaimFault::NoMemory),
    }
}

// Reads the rest of a comparison.
fn comparison<'a>(
    alloc: Global,
    scanner: &mut Scanner<'a>,
    how: Comparison,
) -> Result<Spelled<'a>, ClaimFault> {
    let place = scanner.place();
    let subject = subject_in(scanner.word(), place)?;
    let place = scanner.place();
    let word = scanner.word();
    let Some(value) = value_of(word) else {
        return Err(ClaimFault::Expected(A_NUMBER, place));
    };
    check_plain(word, value.get(), place)?;
    take_closing(scanner)?;
    match subject {
        Subject::Numbered(number) => Ok(compared_number(alloc, number, how, value)?),
        Subject::Named(name) => Ok(compared_name(alloc, name, how, value)?),
    }
}

// The ref that a word at this place names.
fn subject_in<'a>(word: &'a [u8], place: usize) -> Result<Subject<'a>, ClaimFault> {
    match subject_of(word) {
        Some(Subject::Numbered(number)) => {
            check_plain(word, i64::from(number), place)?;
            Ok(Subject::Numbered(number))
        }
        Some(Subject::Named(name)) => Ok(Subject::Named(name)),
        None => Err(ClaimFault::Expected(A_REF, place)),
    }
}

// Refuses a word at this place that spells the number with zeros or a plus sign in front.
fn check_plain(word: &[u8], number: i64, place: usize) -> Result<(), ClaimFault> {
    if is_plain(word, number) {
        Ok(())
    } else {
        Err(ClaimFault::Expected(PLAIN, place))
    }
}

// Whether a word spells a number without zeros or a plus sign in front.
fn is_plain(word: &[u8], number: i64) -> bool {
    let mut digits = Buffer::new();
    is_same(word, digits.format(number).as_bytes())
}

// Takes a closing bracket.
fn take_closing(scanner: &mut Scanner<'_>) -> Result<(), ClaimFault> {
    if scanner.takes(b')') {
        Ok(())
    } else {
        Err(ClaimFault::Expected(A_CLOSING, scanner.place()))
    }
}

// Puts a claim into the innermost open form, and closes the forms that end after it.
fn close<'a>(
    alloc: Global,
    rounds: usize,
    scanner: &mut Scanner<'a>,
    open: &mut Vec<Open<'a>>,
    part: Spelled<'a>,
) -> Result<Step<'a>, ClaimFault> {
    let mut part = part;
    for _ in 0..rounds {
        let Some(form) = open.pop() else {
            return Ok(Step::Closed(part));
        };
        match with_part(alloc, scanner, open, form, part)? {
            Step::Closed(closed) => part = closed,
            Step::More => return Ok(Step::More),
        }
    }
    Err(ClaimFault::Expected(A_CLAIM, scanner.place()))
}

// Puts a claim into a form, and closes the form if it ends there.
fn with_part<'a>(
    alloc: Global,
    scanner: &mut Scanner<'a>,
    open: &mut Vec<Open<'a>>,
    form: Open<'a>,
    part: Spelled<'a>,
) -> Result<Step<'a>, ClaimFault> {
    match form {
        Open::Not => {
            take_closing(scanner)?;
            Ok(Step::Closed(negated(alloc, part)?))
        }
        Open::Joint(joint) => {
            let parts = first_operand(alloc, joint, part)?;
            with_parts(alloc, scanner, open, parts)
        }
        Open::Row(before) => {
            let parts = more_operands(alloc, before, part)?;
            with_parts(alloc, scanner, open, parts)
        }
    }
}

// Closes a joint, if it ends here.
fn with_parts<'a>(
    alloc: Global,
    scanner: &mut Scanner<'a>,
    open: &mut Vec<Open<'a>>,
    parts: Operands<'a>,
) -> Result<Step<'a>, ClaimFault> {
    if scanner.takes(b')') {
        return Ok(Step::Closed(joined(alloc, parts)?));
    }
    begin(open, Open::Row(parts))
}

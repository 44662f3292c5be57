//! The claims that are asked for.

ghost use Rattle.std.specs.Prelude.{◌≡◌, ◌++◌, ◌∷◌, [], OnOk, map};
ghost use Rattle.claim_answers.specs.Claims.{AreMade, asked_texts, question_of};

use claim_words::{ClaimFault, Spelled, read_claim};
use std::alloc::{AllocError, Global};

/// What is asked of a claim.
#[derive(Clone, Copy, PartialEq, Eq, Debug)]
pub enum Rule {
    /// Whether it holds at every moment.
    Always,
    /// Whether it holds at no moment.
    Never,
    /// Whether it holds at some moment.
    Reach,
}

/// A claim, and what is asked of it.
#[derive(Drop)]
pub struct Asked<'a> {
    /// What is asked.
    pub rule: Rule,
    /// The claim.
    pub claim: Spelled<'a>,
}

/// A text that spells no claim.
#[derive(Clone, Copy, Debug)]
pub struct AskFault<'a> {
    /// What is asked of the claim.
    pub rule: Rule,
    /// The text.
    pub text: &'a str,
    /// What is wrong with it.
    pub fault: ClaimFault,
}

/// Adds the claims that the texts spell, in the same order, or returns the first text that spells no claim. A claim that
/// names a ref by a number is refused if a run that makes at most `refs` refs doesn't make it.
pub fn read_asked<'a>(
    alloc: Global,
    rule: Rule,
    texts: &[&'a str],
    refs: u16,
    asked: &mut Vec<Asked<'a>>,
) -> Result<(), AskFault<'a>>
    ensures read { OnOk result (map question_of asked.new.items ≡ map question_of asked.old.items ++
        asked_texts rule (map (λ s. s.now) texts.now)) }
    ensures made { OnOk result (AreMade refs asked.old.items → AreMade refs asked.new.items) }
{
    for text in texts {
        match one_asked(alloc, rule, text.as_bytes(), refs, &mut *asked) {
            Ok(()) => {}
            Err(fault) => {
                return Err(AskFault {
                    rule,
                    text: *text,
                    fault,
                });
            }
        }
    }
    Ok(())
}

// Adds the claim that a text spells.
fn one_asked<'a>(
    alloc: Global,
    rule: Rule,
    text: &'a [u8],
    refs: u16,
    asked: &mut Vec<Asked<'a>>,
) -> Result<(), ClaimFault>
    ensures read { OnOk result (map question_of asked.new.items ≡ map question_of asked.old.items ++
        asked_texts rule (text.now ∷ [])) }
    ensures made { OnOk result (AreMade refs asked.old.items → AreMade refs asked.new.items) }
{
    let claim = read_claim(alloc, text, refs)?;
    match push_asked(asked, Asked { rule, claim }) {
        Ok(()) => Ok(()),
        Err(_) => Err(ClaimFault::NoMemory),
    }
}

// Adds a claim.
fn push_asked<'a>(asked: &mut Vec<Asked<'a>>, one: Asked<'a>) -> Result<(), AllocError>
    ensures { OnOk result (asked.new.items ≡ asked.old.items ++ one.entry ∷ []) }
{
    asked.push(one)?;
    Ok(())
}

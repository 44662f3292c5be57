//! Claims that are checked at no moment, since no schedule sets each ref that they name.

ghost use Rattle.std.specs.Prelude.{◌≡◌, ◌++◌, ◌∷◌, [], IfOk, OnOk, length, map};
ghost use Rattle.claim_answers.specs.Claims.{all_set, any_more, set_more};
ghost use Rattle.claim_answers.specs.Unchecked.{AreUnchecked, compares_ref, is_unchecked, names_refs, unchecked_text};
ghost use Rattle.claim_answers.specs.Unchecked.{unset_text};

use crate::asked::Asked;
use crate::judging::Verdict;
use crate::lines::rule_text;
use claim_words::SpelledWord;
use effect_term::Value;
use every_schedule::{Claim, ClaimWord, Comparison};
use std::alloc::{AllocError, Global};

/// Which schedules a note speaks of.
#[derive(Clone, Copy)]
pub(crate) enum Among {
    /// Every schedule.
    All,
    /// The schedules that were drawn.
    Drawn,
}

// For each claim the words that are true in each world in which every ref that the claim compares was set: at the
// moments at which the claim is checked.
fn moments_of(alloc: Global, soughts: &[Claim]) -> Result<Vec<Claim>, AllocError>
    ensures { IfOk result (λ it. it.items ≡ map all_set soughts.now) }
{
    let mut moments = Vec::new(alloc);
    for sought in soughts {
        push_claim(&mut moments, all_set(alloc, sought.words())?)?;
    }
    Ok(moments)
}

/// The claims, and behind them for each claim the words that are true at the moments at which it is checked: in each
/// world in which every ref that it compares was set.
pub(crate) fn with_moments(alloc: Global, soughts: Vec<Claim>) -> Result<Vec<Claim>, AllocError>
    ensures { IfOk result (λ it. it.items ≡ soughts.items ++ map all_set soughts.items) }
{
    let mut moments = moments_of(alloc, soughts.as_slice())?;
    let mut all = soughts;
    all.append(&mut moments)?;
    Ok(all)
}

// Adds the claim of these words.
fn push_claim(claims: &mut Vec<Claim>, words: Vec<ClaimWord>) -> Result<(), AllocError>
    ensures { OnOk result (claims.new.items ≡ claims.old.items ++ words.items ∷ []) }
{
    claims.push(Claim::new(words))?;
    Ok(())
}

// The words that are true in each world in which every ref that `words` compare was set.
fn all_set(alloc: Global, words: &[ClaimWord]) -> Result<Vec<ClaimWord>, AllocError>
    ensures { IfOk result (λ it. it.items ≡ all_set words.now) }
{
    let mut all = Vec::new(alloc);
    for word in words {
        push_set(&mut all, *word)?;
    }
    Ok(all)
}

// Adds that the ref was set which a word compares, if it compares one.
fn push_set(all: &mut Vec<ClaimWord>, word: ClaimWord) -> Result<(), AllocError>
    ensures { OnOk result (all.new.items ≡ set_more all.old.items word) }
{
    match word {
        ClaimWord::Compare(number, _, value) => push_any(all, number, value),
        ClaimWord::Not
        | ClaimWord::And
        | ClaimWord::Or
        | ClaimWord::Deadlock
        | ClaimWord::Left
        | ClaimWord::Final => Ok(()),
    }
}

// Adds that the value of a ref is equal to `value`, or differs from it.
fn push_any(all: &mut Vec<ClaimWord>, number: u16, value: Value) -> Result<(), AllocError>
    ensures { OnOk result (all.new.items ≡ any_more all.old.items number value) }
{
    let joins = !all.is_empty();
    all.push(ClaimWord::Compare(number, Comparison::Equal, value))?;
    all.push(ClaimWord::Compare(number, Comparison::Differs, value))?;
    all.push(ClaimWord::Or)?;
    if joins {
        all.push(ClaimWord::And)?;
    }
    Ok(())
}

/// The lines of the claims that are checked at no moment. `moments` has the verdicts on when they are checked
/// ([`with_moments`]).
pub(crate) fn unchecked_lines(
    alloc: Global,
    among: Among,
    asked: &[Asked<'_>],
    moments: &[Verdict],
) -> Result<Vec<u8>, AllocError>
    requires { length asked.now ≡ length moments.now }
    ensures { IfOk result (λ it. AreUnchecked among asked.now moments.now it.items) }
{
    let mut text = Vec::new(alloc);
    for at in 0..asked.len() {
        push_unchecked(&mut text, among, &asked[at], &moments[at])?;
    }
    Ok(text)
}

// Adds the line of a claim, if it is checked at no moment.
fn push_unchecked(
    text: &mut Vec<u8>,
    among: Among,
    asked: &Asked<'_>,
    moment: &Verdict,
) -> Result<(), AllocError>
    ensures { OnOk result (text.new.items ≡ text.old.items ++ unchecked_text among asked.now moment.now) }
{
    if !names_refs(asked.claim.words.as_slice()) || !is_unchecked(among, moment) {
        return Ok(());
    }
    text.extend_from_slice(rule_text(asked.rule))?;
    text.extend_from_slice(b" ")?;
    text.extend_from_slice(asked.claim.text.as_slice())?;
    text.extend_from_slice(unset_text(among))
}

// What the line of a claim says behind the claim.
fn unset_text(among: Among) -> &'static [u8]
    ensures { result.now ≡ unset_text among }
{
    match among {
        Among::All => b": no schedule sets each ref that it names, so it is checked at no moment\n",
        Among::Drawn =>
            b": no drawn schedule sets each ref that it names, so it is checked at no moment\n",
    }
}

// Whether the verdict says that none of the schedules comes to a moment.
fn is_unchecked(among: Among, moment: &Verdict) -> bool
    ensures { result ≡ is_unchecked among moment.now }
{
    match among {
        Among::All => matches!(moment, Verdict::NoMoment),
        Among::Drawn => matches!(moment, Verdict::Undecided),
    }
}

// Whether the words compare a ref.
fn names_refs(words: &[SpelledWord]) -> bool
    ensures { result ≡ names_refs words.now }
{
    words.iter().any(|word| compares_ref(word))
}

// Whether a word compares a ref.
fn compares_ref(word: &SpelledWord) -> bool
    ensures { result ≡ compares_ref word.now }
{
    match word {
        SpelledWord::Numbered(_, _, _) | SpelledWord::Named(_, _) => true,
        SpelledWord::Not | SpelledWord::Join(_) | SpelledWord::World(_) => false,
    }
}

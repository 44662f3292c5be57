//! The verdicts on claims.

ghost use Rattle.std.specs.Prelude.{◌≡◌, ◌++◌, ◌∷◌, [], List, IfNone, IfOk, IfSome, OnOk, Some as Somebody};
ghost use Rattle.std.specs.List.{slice_get};
ghost use Rattle.derived_ops.specs.Expansion.{code_of};
ghost use Rattle.derived_ops.specs.Reading.{source_of};
ghost use Rattle.derived_ops.specs.Tree.{Tree};
ghost use Rattle.cell_registry.specs.Cells.{AreLimits};
ghost use Rattle.cell_registry.specs.declared.limits.Limits.{Limits as TheLimits};
ghost use Rattle.world_search.specs.Claims.{IsFound};
ghost use Rattle.every_schedule.specs.declared.claims.ClaimWord.{ClaimWord as TheWord};
ghost use Rattle.claim_answers.specs.Claims.{IsDecided, IsSought, Pairwise, turning};
ghost use Rattle.claim_answers.specs.Private.Met.{AreMet, IsMetAt, IsVerdictOf, unmet_verdict};

use crate::asked::{Asked, Rule};
use cell_registry::Limits;
use claim_words::{NumberFault, number_claim};
use effect_term::Program;
use every_schedule::{Bounds, Claim, ClaimWord, Claimed, Met, Unwatched, search_claims};
use std::alloc::{AllocError, Global};

/// The result of a search for a world that decides a claim. A claim on every moment is decided by a world that doesn't
/// meet it, another claim by a world that meets it.
#[derive(Drop)]
pub enum Verdict {
    /// This schedule leads to a world that decides the claim.
    Moment(Vec<u16>),
    /// No schedule leads to a world that decides the claim.
    NoMoment,
    /// A bound was reached and no such world was found, or one was found by a schedule of more than 1,000,000 entries.
    Undecided,
}

// The greatest number of entries of a schedule that can be spelled.
const MOST_ENTRIES: usize = 1_000_000;

/// The words that decide each claim. `text` is what `spaced_text` returns for the program's text.
pub(crate) fn soughts_of<'a>(
    alloc: Global,
    text: &[u8],
    asked: &[Asked<'a>],
) -> Result<Vec<Claim>, NumberFault<'a>>
    ensures { IfOk result (λ it. Pairwise (IsSought text.now) asked.now it.items) }
{
    let mut soughts = Vec::new(alloc);
    for one in asked {
        push_sought(&mut soughts, sought_of(alloc, text, one)?)?;
    }
    Ok(soughts)
}

// The words that decide a claim.
fn sought_of<'a>(alloc: Global, text: &[u8], asked: &Asked<'a>) -> Result<Claim, NumberFault<'a>>
    ensures { IfOk result (IsSought text.now asked.now) }
{
    let mut words = number_claim(alloc, text, &asked.claim)?;
    turn(&mut words, asked.rule)?;
    Ok(Claim::new(words))
}

// Adds the words of one claim.
fn push_sought(soughts: &mut Vec<Claim>, sought: Claim) -> Result<(), AllocError>
    ensures { OnOk result (soughts.new.items ≡ soughts.old.items ++ sought ∷ []) }
{
    soughts.push(sought)?;
    Ok(())
}

// Negates the words of a claim on every moment, so that they are true in a world that refutes the claim.
fn turn(words: &mut Vec<ClaimWord>, rule: Rule) -> Result<(), AllocError>
    ensures { OnOk result (words.new.items ≡ words.old.items ++ turning rule) }
{
    match rule {
        Rule::Always => {
            words.push(ClaimWord::Not)?;
            Ok(())
        }
        Rule::Never | Rule::Reach => Ok(()),
    }
}

/// The verdicts of a search of every schedule on claims, each given by the words that decide it.
pub(crate) fn judge(
    alloc: Global,
    program: &Program,
    limits: Limits,
    bounds: Bounds,
    soughts: &[Claim],
) -> Result<Vec<Verdict>, AllocError>
    requires { AreLimits limits }
    ensures { IfOk result (λ it.
        Pairwise (IsDecided (code_of (source_of program.now)) limits) soughts.now it.items) }
{
    let found = search(alloc, program, limits, bounds, soughts)?;
    let mut verdicts = Vec::new(alloc);
    for number in 0..soughts.len() {
        verdicts.push(verdict_of(alloc, &found, number)?)?;
    }
    Ok(verdicts)
}

// The search for worlds that decide the claims.
fn search(
    alloc: Global,
    program: &Program,
    limits: Limits,
    bounds: Bounds,
    soughts: &[Claim],
) -> Result<Claimed, AllocError>
    requires { AreLimits limits }
    ensures { IfOk result (λ it.
        AreMet (code_of (source_of program.now)) limits soughts.now it.complete it.met.items) }
{
    match search_claims(alloc, program, limits, bounds, soughts, &mut Unwatched) {
        Ok(found) => Ok(found),
        Err(_) => Err(AllocError),
    }
}

// The verdict on the claim of this number.
fn verdict_of(alloc: Global, found: &Claimed, number: usize) -> Result<Verdict, AllocError>
    ensures { IfOk result (λ v. (code : Tree) (k : TheLimits) (wanted : List (List TheWord)) (words : List TheWord) →
        AreMet code k wanted found.now.complete found.now.met.items → slice_get wanted number ≡ Somebody words →
        IsDecided code k words v) }
{
    let met = found.met.as_slice();
    match met_number(met, number) {
        Some(at) => met_verdict(alloc, &met[at]),
        None => Ok(unmet_verdict(found.complete)),
    }
}

// The verdict on a claim that a world decides. A schedule that is too long to be spelled decides nothing.
fn met_verdict(alloc: Global, met: &Met) -> Result<Verdict, AllocError>
    ensures { IfOk result (IsVerdictOf met.now) }
{
    let schedule = met.schedule.as_slice();
    if schedule.len() <= MOST_ENTRIES {
        Ok(Verdict::Moment(Vec::from_slice(alloc, schedule)?))
    } else {
        Ok(Verdict::Undecided)
    }
}

// The verdict on a claim that no found world decides, by whether the search was complete.
fn unmet_verdict(complete: bool) -> Verdict
    ensures { result ≡ unmet_verdict complete }
{
    if complete {
        Verdict::NoMoment
    } else {
        Verdict::Undecided
    }
}

/// The index in `met` of the claim of this number.
pub(crate) fn met_number(met: &[Met], claim: usize) -> Option<usize>
    ensures some { IfSome result (IsMetAt met.now claim) }
    ensures none { IfNone result (IsFound claim met.now → ⊥) }
{
    for number in 0..met.len() {
        if met[number].claim == claim {
            return Some(number);
        }
    }
    None
}

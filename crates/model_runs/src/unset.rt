//! Finds the refs that claims at any moment name and that no schedule sets.

ghost use Rattle.cell_registry.specs.Cells.{AreLimits};

use crate::looking::search_by_plan;
use crate::moments::Moments;
use crate::plan::Plan;
use crate::prepared::{Prepared, prepare};
use crate::result::{NamedAnswer, Search};
use cell_registry::RunError;
use effect_term::Value;
use every_schedule::{Claim as Sought, ClaimWord, Comparison, Met, Watcher};
use model_claims::{Claim, Spoken};
use model_terms::{Probe, Refused, Source};
use model_text::Model;
use std::alloc::{AllocError, Global};

/// Returns the numbers of the refs that claims at any moment name and that no schedule sets. The list is empty if the
/// search for moments isn't complete. A ref that the schedule of an answer makes is one that a schedule sets. For the
/// other refs, one more search looks for a world in which they are set.
pub(crate) fn unset_refs<V: Watcher>(
    alloc: Global,
    source: &Source,
    model: &Model,
    plan: Plan,
    claims: &[Claim],
    probes: &[Probe],
    searches: &[Search],
    moments: &Moments,
    watcher: &mut V,
) -> Result<Vec<u16>, Refused>
    requires limits { AreLimits plan.limits }
{
    if !moments.search.complete {
        return Ok(Vec::new(alloc));
    }
    let mut made = refs_made(moments.search.answers.as_slice());
    for (probe, search) in probes.iter().zip(searches.iter()) {
        if matches!(*probe, Probe::Nothing | Probe::Names) {
            made = made.max(refs_made(search.answers.as_slice()));
        }
    }
    let numbers = numbers_from(alloc, claims, made)?;
    if numbers.is_empty() {
        return Ok(numbers);
    }
    let prepared = prepare(alloc, source, model, Probe::Nothing)?;
    match unset_among(alloc, &prepared, plan, numbers.as_slice(), watcher) {
        Ok(unset) => Ok(unset),
        Err(_) => Err(Refused::NoMemory),
    }
}

// The greatest number of refs that the schedule of any of these answers makes.
fn refs_made(answers: &[NamedAnswer]) -> usize {
    let mut most = 0;
    for answer in answers {
        most = answer.refs.max(most);
    }
    most
}

// The numbers of the refs that claims at any moment name, if they are at least `from`. Each is listed once.
fn numbers_from(alloc: Global, claims: &[Claim], from: usize) -> Result<Vec<u16>, AllocError> {
    let mut numbers = Vec::new(alloc);
    for claim in claims {
        if claim.moment.is_some() {
            add_numbers(claim, from, &mut numbers)?;
        }
    }
    Ok(numbers)
}

// Adds the numbers of the refs that a claim names, if they are at least `from` and not in the list.
fn add_numbers(claim: &Claim, from: usize, numbers: &mut Vec<u16>) -> Result<(), AllocError> {
    for name in claim.condition.names.as_slice() {
        if let Spoken::Ref(Some(number)) = name.what
            && from <= usize::from(number)
            && !numbers.as_slice().contains(&number)
        {
            numbers.push(number)?;
        }
    }
    Ok(())
}

// Returns the numbers of those of these refs that are set in no world. The list is empty if the search isn't complete.
fn unset_among<V: Watcher>(
    alloc: Global,
    prepared: &Prepared,
    plan: Plan,
    numbers: &[u16],
    watcher: &mut V,
) -> Result<Vec<u16>, RunError>
    requires limits { AreLimits plan.limits }
{
    let wanted = any_values(alloc, numbers)?;
    let found = search_by_plan(alloc, prepared, plan, wanted.as_slice(), true, watcher)?;
    if !found.complete {
        return Ok(Vec::new(alloc));
    }
    Ok(unmet(alloc, numbers, found.met.as_slice())?)
}

// Returns the numbers whose conditions aren't met. A condition has the same index as its number.
fn unmet(alloc: Global, numbers: &[u16], met: &[Met]) -> Result<Vec<u16>, AllocError> {
    let mut unset = Vec::new(alloc);
    for (at, number) in numbers.iter().enumerate() {
        if !met.iter().any(|one| one.claim == at) {
            unset.push(*number)?;
        }
    }
    Ok(unset)
}

// Returns a condition for each number. Each value of the ref with this number meets the condition.
fn any_values(alloc: Global, numbers: &[u16]) -> Result<Vec<Sought>, AllocError> {
    let mut wanted = Vec::new(alloc);
    for number in numbers {
        wanted.push(any_value(alloc, *number)?)?;
    }
    Ok(wanted)
}

// Returns a condition that each value of the ref with this number meets.
fn any_value(alloc: Global, number: u16) -> Result<Sought, AllocError> {
    let mut words = Vec::new(alloc);
    words.push(ClaimWord::Compare(number, Comparison::AtLeast, Value::MIN))?;
    Ok(Sought::new(words))
}

//! Warnings about models.

use crate::result::{ClaimResult, NamedAnswer, Search};
use model_claims::{
    Claim, FiberName, Spoken, SpokenName, Verdict, Want, Who, is_wanted, speaks_of,
};
use model_terms::{ModelTerm, Probe, Source};
use std::alloc::{AllocError, Global};

/// A warning about a model. No verdict depends on it.
#[derive(Clone, Copy, PartialEq, Eq, Debug)]
pub enum Warning {
    /// The form of this number reads a ref whose value then changes the ref, in two moves: another fiber can move in
    /// between.
    Torn(usize),
    /// The form of this number is a wanted outcome to which no schedule leads.
    Unmet(usize),
    /// The form of this number is, in a claim, the name of a fiber that no schedule starts.
    Unstarted(usize),
    /// The form of this number is, in a claim, the name of a ref that no schedule sets.
    Unset(usize),
}

impl Warning {
    /// Its short name, as `W01`.
    pub fn code(self) -> &'static str {
        match self {
            Warning::Torn(_) => "W01",
            Warning::Unmet(_) => "W02",
            Warning::Unstarted(_) | Warning::Unset(_) => "W03",
        }
    }

    /// The number of the form that the warning is about.
    pub fn form(self) -> usize {
        match self {
            Warning::Torn(form) => form,
            Warning::Unmet(form) => form,
            Warning::Unstarted(form) => form,
            Warning::Unset(form) => form,
        }
    }
}

/// Returns the warnings about a model with this term, these claims, and their results by these searches. No schedule
/// sets the refs with the numbers `unset`, among those that claims at any moment name.
pub(crate) fn warnings_of(
    alloc: Global,
    source: &Source,
    term: &ModelTerm,
    claims: &[Claim],
    results: &[ClaimResult],
    searches: &[Search],
    unset: &[u16],
) -> Result<Vec<Warning>, AllocError> {
    let mut warnings = Vec::new(alloc);
    for form in term.torn.as_slice() {
        warnings.push(Warning::Torn(*form))?;
    }
    for (claim, found) in claims.iter().zip(results.iter()) {
        add_unmet(&mut warnings, claim, found, searches)?;
        add_unspoken(&mut warnings, source, claim, found, searches, unset)?;
    }
    Ok(warnings)
}

// Adds the names in a claim that no schedule starts or sets, if its search is complete.
fn add_unspoken(
    warnings: &mut Vec<Warning>,
    source: &Source,
    claim: &Claim,
    found: &ClaimResult,
    searches: &[Search],
    unset: &[u16],
) -> Result<(), AllocError> {
    for name in claim.condition.names.as_slice() {
        if let Some(warning) = warning_of(source, claim, *name, searches.get(found.search), unset) {
            add_once(warnings, warning)?;
        }
    }
    Ok(())
}

// The warning about a name in a claim, if there is one. `search` is the search of the claim.
fn warning_of(
    source: &Source,
    claim: &Claim,
    name: SpokenName,
    search: Option<&Search>,
    unset: &[u16],
) -> Option<Warning> {
    match name.what {
        Spoken::Fibers(who) => {
            let search = search?;
            if search.complete && is_unstarted(source, who, search.answers.as_slice()) {
                Some(Warning::Unstarted(name.form))
            } else {
                None
            }
        }
        Spoken::Ref(number) => {
            if is_unset(claim, number, search?, unset) {
                Some(Warning::Unset(name.form))
            } else {
                None
            }
        }
    }
}

// Whether these are named fibers that none of these answers starts, and none of the answers is a fault. An answer that is
// a fault has one schedule of those that lead to it, and another one could start them.
fn is_unstarted(source: &Source, who: Who, answers: &[NamedAnswer]) -> bool {
    match who {
        Who::Main | Who::Everyone => false,
        Who::Named(_, _) | Who::OneOf(_, _, _) => {
            !is_started(source, who, answers) && !has_fault(answers)
        }
    }
}

// Whether one of these answers is a fault.
fn has_fault(answers: &[NamedAnswer]) -> bool {
    answers.iter().any(|it| it.seen.faulty)
}

// Whether no schedule sets a ref that a claim names: one with a number in `unset`, or one whose watcher no answer of a
// complete search has.
fn is_unset(claim: &Claim, number: Option<u16>, search: &Search, unset: &[u16]) -> bool {
    match claim.probe {
        Probe::Watch(_, _) => search.complete && !is_watched(search.answers.as_slice()),
        Probe::Nothing | Probe::Order(_, _, _) | Probe::Names => match number {
            Some(number) => unset.contains(&number),
            None => false,
        },
    }
}

// Whether one of these answers starts a watcher, or ends in a fault, before which one could be started.
fn is_watched(answers: &[NamedAnswer]) -> bool {
    for answer in answers {
        if answer.seen.faulty || answer.started.as_slice().contains(&FiberName::Watcher) {
            return true;
        }
    }
    false
}

// Adds a warning, unless it is there.
fn add_once(warnings: &mut Vec<Warning>, warning: Warning) -> Result<(), AllocError> {
    if !warnings.as_slice().contains(&warning) {
        warnings.push(warning)?;
    }
    Ok(())
}

/// Whether one of these fibers was started in one of these answers.
pub(crate) fn is_started(source: &Source, who: Who, answers: &[NamedAnswer]) -> bool {
    for answer in answers {
        for fiber in answer.started.as_slice() {
            if speaks_of(source, who, *fiber) {
                return true;
            }
        }
    }
    false
}

// Adds the outcomes that a passed claim wants and no schedule leads to, if its search is complete.
fn add_unmet(
    warnings: &mut Vec<Warning>,
    claim: &Claim,
    found: &ClaimResult,
    searches: &[Search],
) -> Result<(), AllocError> {
    if claim.fails || found.verdict != Verdict::Passed {
        return Ok(());
    }
    match searches.get(found.search) {
        None => Ok(()),
        Some(search) => {
            if search.complete {
                add_unmet_wants(warnings, claim.wants.as_slice(), search.answers.as_slice())
            } else {
                Ok(())
            }
        }
    }
}

// Adds the wanted outcomes that none of these answers has.
fn add_unmet_wants(
    warnings: &mut Vec<Warning>,
    wants: &[Want],
    answers: &[NamedAnswer],
) -> Result<(), AllocError> {
    for want in wants {
        if !is_met(want, answers) {
            warnings.push(Warning::Unmet(want.form))?;
        }
    }
    Ok(())
}

// Whether fiber 0 has a wanted outcome in one of these answers.
fn is_met(want: &Want, answers: &[NamedAnswer]) -> bool {
    for answer in answers {
        if is_met_in(want, answer) {
            return true;
        }
    }
    false
}

// Whether fiber 0 has a wanted outcome in this answer.
fn is_met_in(want: &Want, answer: &NamedAnswer) -> bool {
    match answer.seen.fibers.as_slice().first() {
        Some(main) => is_wanted(want.outcome, main.outcome),
        None => false,
    }
}

//! What a search has to find.

use crate::judging::verdict_of;
use crate::moments::Moments;
use crate::probes::is_same;
use crate::result::NamedAnswer;
use crate::warnings::is_started;
use model_claims::{Claim, Rule, Spoken, Verdict, Who};
use model_terms::{Probe, Source};
use std::alloc::{AllocError, Global};

/// What a search of a model's term has to find.
#[derive(Clone, Copy)]
pub(crate) struct Goal<'a> {
    /// The file.
    pub source: &'a Source,
    /// The claims of the model.
    pub claims: &'a [Claim],
    /// The probe of the term. The search decides the claims with this probe.
    pub probe: &'a Probe,
    /// Whether a claim about every moment is open: the search has to find a fault, or that there is none.
    pub is_open: bool,
}

/// The answers that were found until now: those of the present exploration, and others.
#[derive(Clone, Copy)]
pub(crate) struct Found<'a> {
    /// The answers of the present exploration.
    pub explored: &'a [NamedAnswer],
    /// The answers of earlier explorations and of schedules that were drawn.
    pub others: &'a [NamedAnswer],
}

/// Whether one of these claims is about every moment, has no probe, and no moment that was found refutes it.
pub(crate) fn has_open_moment(claims: &[Claim], moments: &Moments) -> bool {
    let mut number = 0usize;
    for claim in claims {
        if claim.moment.is_some() {
            if claim.rule == Rule::Every && !is_met(moments, number) {
                return true;
            }
            number = number.saturating_add(1);
        }
    }
    false
}

// Whether a moment decides the claim of this number among the claims at any moment.
fn is_met(moments: &Moments, number: usize) -> bool {
    moments.met.iter().any(|one| one.claim == number)
}

impl<'a> Goal<'a> {
    // Whether a claim is to be judged by the answers of the search.
    fn has(&self, claim: &Claim) -> bool {
        claim.moment.is_none() && is_same(&claim.probe, self.probe)
    }

    /// Whether each claim can be expected to be decided by an answer: it is about some answer, or has to be refuted.
    pub(crate) fn is_hopeful(&self) -> bool {
        if self.is_open {
            return false;
        }
        for claim in self.claims {
            if self.has(claim) && (claim.rule == Rule::Some) == claim.fails {
                return false;
            }
        }
        true
    }

    /// Whether these answers decide each claim of the search, and no warning about its names depends on others.
    pub(crate) fn is_met_by(&self, alloc: Global, found: Found) -> Result<bool, AllocError> {
        if self.is_open && !has_fault(found) {
            return Ok(false);
        }
        for claim in self.claims {
            if self.has(claim) && !self.is_decided(alloc, claim, found)? {
                return Ok(false);
            }
        }
        Ok(true)
    }

    // Whether these answers decide a claim, and have fibers of each name in it.
    fn is_decided(&self, alloc: Global, claim: &Claim, found: Found) -> Result<bool, AllocError> {
        for name in claim.condition.names.as_slice() {
            if let Spoken::Fibers(who) = name.what
                && !is_known(self.source, who, found)
            {
                return Ok(false);
            }
        }
        let explored = verdict_of(alloc, self.source, claim, found.explored)?;
        if explored != Verdict::Undecided {
            return Ok(true);
        }
        let drawn = verdict_of(alloc, self.source, claim, found.others)?;
        Ok(drawn != Verdict::Undecided)
    }
}

// Whether one of these answers has such a fiber, or no warning says that no schedule starts one: none is about `main` and
// `*`, and none comes if a schedule ends in a fault.
fn is_known(source: &Source, who: Who, found: Found) -> bool {
    matches!(who, Who::Main | Who::Everyone)
        || has_fault(found)
        || is_started(source, who, found.explored)
        || is_started(source, who, found.others)
}

// Whether one of these answers is a fault.
fn has_fault(found: Found) -> bool {
    found.explored.iter().any(|it| it.seen.faulty) || found.others.iter().any(|it| it.seen.faulty)
}

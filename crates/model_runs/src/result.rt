//! The results of a model and its claims.

use crate::named::Named;
use crate::waits::Waits;
use crate::warnings::Warning;
use cell_registry::RunError;
use effect_term::Value;
use every_schedule::Schedule;
use model_claims::{FiberName, Rule, Seen, Verdict};

/// A ref and its value at a moment.
#[derive(Clone, Copy)]
pub struct HeldRef {
    /// The number of the ref, in the order in which refs are made.
    pub number: u16,
    /// The value that the ref holds.
    pub value: Value,
}

/// An answer that was found, or a moment that decides a claim, in the names of the file.
#[derive(Drop)]
pub struct NamedAnswer {
    /// The outcomes of its fibers, and the values that they said.
    pub seen: Seen,
    /// For a moment, the values of the refs that its claim compares; empty for an answer.
    pub held: Vec<HeldRef>,
    /// The fault that ends its schedule, if any.
    pub fault: Option<RunError>,
    /// The names of the fibers that its schedule starts, fiber 0 first; also of a schedule that ends in a fault.
    pub started: Vec<FiberName>,
    /// The number of refs that its schedule makes.
    pub refs: usize,
    /// A schedule that leads to the answer, for `replay`.
    pub schedule: Schedule,
    /// The number of schedules drawn at random that led to the answer; 0 if the exploration found the answer.
    pub came: u32,
}

/// The result of a search of a model's term with the probe of a claim.
#[derive(Drop)]
pub struct Search {
    /// Whether every schedule was explored. A search also ends when its answers decide all its claims.
    pub complete: bool,
    /// Whether the watcher ended the exploration.
    pub halted: bool,
    /// Whether the worlds keep the marks of fibers. If not, the answers are told apart by the outcomes of fibers and by
    /// faults alone.
    pub marked: bool,
    /// The number of worlds that were found.
    pub worlds: usize,
    /// The number of schedules drawn at random; 0 if every schedule was explored.
    pub sampled: u32,
    /// The answers that were found.
    pub answers: Vec<NamedAnswer>,
}

/// The result of a claim.
#[derive(Drop)]
pub struct ClaimResult {
    /// The number of the form of the claim.
    pub form: usize,
    /// Whether the claim is about every answer or about some answer.
    pub rule: Rule,
    /// Whether the claim has to be refuted.
    pub fails: bool,
    /// Its verdict.
    pub verdict: Verdict,
    /// The number of its search in [`ModelResult::searches`]. For a claim at any moment, this search finds whether a
    /// schedule ends in a fault; it has no worlds if no claim depends on that.
    pub search: usize,
    /// Whether the search for moments, [`ModelResult::moments`], decides the claim.
    pub at_moment: bool,
    /// The number of the answer that decides the claim, in the search of [`ModelResult::search_of`], if any.
    pub shown: Option<usize>,
    /// The replay of that answer's schedule.
    pub replay: Option<Named>,
    /// What the fibers wait for that haven't ended there, if that is found.
    pub waits: Option<Waits>,
}

/// The result of a model.
#[derive(Drop)]
pub struct ModelResult {
    /// The worst verdict of its claims.
    pub verdict: Verdict,
    /// The number of worlds that were found in all searches together.
    pub worlds: u64,
    /// The searches of its term, one for each probe that its claims need.
    pub searches: Vec<Search>,
    /// The search for moments in the worlds of its term. Each of its answers is a moment that decides a claim. The
    /// search has no worlds if no claim is checked in each world.
    pub moments: Search,
    /// The result of each claim, in the order of the file.
    pub claims: Vec<ClaimResult>,
    /// Its warnings.
    pub warnings: Vec<Warning>,
}

impl ModelResult {
    /// Returns the search that decides a claim. The shown answer is among the answers of this search.
    pub fn search_of(&self, claim: &ClaimResult) -> Option<&Search> {
        if claim.at_moment {
            return Some(&self.moments);
        }
        self.searches.get(claim.search)
    }
}

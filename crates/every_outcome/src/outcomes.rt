//! The result of an exploration of outcomes.
ghost use Rattle.std.specs.Prelude.{◌≡◌, ◌==◌, ◌&&◌, length, nat_le};
ghost use Rattle.std.specs.List.{filter};

use cell_registry::RunError;
use effect_term::Outcome;
use std::marker::Model;

/// The entries of a schedule, in their order: each the number of the fiber that makes its next move.
#[derive(Drop)]
pub struct Schedule {
    entries: Vec<u16>,
}

impl Model for Schedule {
    ghost use Rattle.std.specs.Prelude.{ℕ, List};

    ghost Value = { List ℕ };

    ghost view = { λ s. s.entries.items };
}

impl Schedule {
    /// Returns the schedule with these entries.
    pub fn new(entries: Vec<u16>) -> Schedule
        ensures { result ≡ entries.items }
    {
        Schedule { entries }
    }

    /// The entries, in their order.
    pub fn as_slice(&self) -> &[u16]
        ensures { result.now ≡ self.now }
    {
        self.entries.as_slice()
    }
}

/// The outcomes of fibers, by their numbers; `None` for a fiber that hasn't ended.
#[derive(Drop)]
pub struct Outcomes {
    outcomes: Vec<Option<Outcome>>,
}

impl Model for Outcomes {
    ghost use Rattle.std.specs.Prelude.{List, Option};
    ghost use Rattle.effect_term.specs.declared.reply.Outcome.{Outcome};

    ghost Value = { List (Option Outcome) };

    ghost view = { λ o. o.outcomes.items };
}

impl Outcomes {
    /// Returns these outcomes of fibers, from fiber 0 on.
    pub fn new(outcomes: Vec<Option<Outcome>>) -> Outcomes
        ensures { result ≡ outcomes.items }
    {
        Outcomes { outcomes }
    }

    /// The outcomes, from fiber 0 on.
    pub fn as_slice(&self) -> &[Option<Outcome>]
        ensures { result.now ≡ self.now }
    {
        self.outcomes.as_slice()
    }
}

/// Outcomes that a program can have, or a fault, and a schedule that leads there.
#[derive(Drop)]
pub struct OutcomeAnswer {
    /// The schedule.
    pub schedule: Schedule,
    /// The outcomes that no further entry changes, or the fault that ends the schedule.
    pub end: Result<Outcomes, RunError>,
}

/// The result of an exploration of outcomes.
#[derive(Drop)]
pub struct OutcomeExploration {
    /// The different outcomes and faults, each with one schedule.
    pub answers: Vec<OutcomeAnswer>,
    /// The number of worlds that were found.
    pub worlds: usize,
    /// The number of bytes that were counted: an estimate from the sizes of worlds and entries.
    pub bytes: usize,
    /// Whether every schedule was explored: then there is no other answer.
    pub complete: bool,
    /// Whether the watcher ended the search.
    pub halted: bool,
}

/// The same exploration, without the answers whose schedules have more than `entries` entries; it isn't complete if
/// there were any.
pub fn shortened(found: OutcomeExploration, entries: usize) -> OutcomeExploration
    ensures answers { result.answers.items ≡ filter (λ a. nat_le (length a.schedule) entries) found.answers.items }
    ensures complete { result.complete ≡
        (found.complete && (length result.answers.items == length found.answers.items)) }
    ensures halted { result.halted ≡ found.halted }
    ensures worlds { result.worlds ≡ found.worlds }
    ensures bytes { result.bytes ≡ found.bytes }
{
    let OutcomeExploration {
        mut answers,
        worlds,
        bytes,
        complete,
        halted,
    } = found;
    let many = answers.len();
    answers.retain(|answer| answer.schedule.as_slice().len() <= entries);
    let whole = answers.len() == many;
    OutcomeExploration {
        answers,
        worlds,
        bytes,
        complete: complete && whole,
        halted,
    }
}

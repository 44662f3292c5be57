//! What an exploration has found.
ghost use Rattle.std.specs.Prelude.{◌≡◌};

use cell_registry::RunError;
use scheduled_core::Report;
use std::marker::Model;

/// The entries of a schedule, in order: each is the number of the fiber that makes its next move.
#[derive(Drop)]
pub struct Schedule {
    entries: Vec<u16>,
}

impl Model for Schedule {
    ghost use Rattle.std.specs.Prelude.{ℕ, List};

    ghost Value = { List ℕ };

    ghost view = { λ s. s.entries.items };
}

impl Schedule {
    /// Returns the schedule of these entries.
    pub fn new(entries: Vec<u16>) -> Schedule
        ensures { result ≡ entries.items }
    {
        Schedule { entries }
    }

    /// The entries, in order.
    pub fn as_slice(&self) -> &[u16]
        ensures { result.now ≡ self.now }
    {
        self.entries.as_slice()
    }
}

/// A final report or a fault of a program, with a schedule that leads to it.
#[derive(Drop)]
pub struct Answer {
    /// The schedule.
    pub schedule: Schedule,
    /// The report that no further entry changes, or the fault that ends the schedule.
    pub end: Result<Report, RunError>,
}

/// The answers that were found.
#[derive(Drop)]
pub struct Answers {
    answers: Vec<Answer>,
}

impl Model for Answers {
    ghost use Rattle.std.specs.Prelude.{List};
    ghost use Rattle.every_schedule.specs.declared.exploration.Answer.{Answer};

    ghost Value = { List Answer };

    ghost view = { λ a. a.answers.items };
}

impl Answers {
    /// Returns these answers, in this order.
    pub fn new(answers: Vec<Answer>) -> Answers
        ensures { result ≡ answers.items }
    {
        Answers { answers }
    }

    /// The answers, in their order.
    pub fn as_slice(&self) -> &[Answer]
        ensures { result.now ≡ self.now }
    {
        self.answers.as_slice()
    }
}

/// What an exploration has found.
#[derive(Drop)]
pub struct Exploration {
    /// The different reports and faults, each with one schedule.
    pub answers: Answers,
    /// The number of worlds that were found.
    pub worlds: usize,
    /// The number of bytes counted for what was kept: an estimate, from the sizes of worlds, entries and states.
    pub bytes: usize,
    /// Every schedule was explored: there is no other answer, and after each schedule some further entries lead to an
    /// answer.
    pub complete: bool,
    /// The watcher ended the search. The exploration isn't complete then.
    pub halted: bool,
}

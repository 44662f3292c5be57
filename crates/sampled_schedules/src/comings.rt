//! The result of a sample.
ghost use Rattle.std.specs.Prelude.{◌≡◌};

use every_schedule::Answer;
use std::marker::Model;

/// A schedule that was drawn.
#[derive(Drop)]
pub struct Drawn {
    /// The schedule, and its report or fault.
    pub answer: Answer,
    /// Whether it was cut short: it has the greatest number of entries, and a fiber could still go on.
    pub cut: bool,
}

/// An end that some of the schedules have.
#[derive(Drop)]
pub struct Coming {
    /// The report or the fault, and the first schedule that led to it.
    pub answer: Answer,
    /// The number of schedules with this end.
    pub times: u32,
    /// Whether each of these schedules was cut short. Then more entries can still change the report.
    pub cut: bool,
}

/// The ends of the schedules of a sample.
#[derive(Drop)]
pub struct Comings {
    comings: Vec<Coming>,
}

impl Model for Comings {
    ghost use Rattle.std.specs.Prelude.{List};
    ghost use Rattle.sampled_schedules.specs.declared.comings.Coming.{Coming};

    ghost Value = { List Coming };

    ghost view = { λ c. c.comings.items };
}

impl Comings {
    /// Returns the list of these ends.
    pub fn new(comings: Vec<Coming>) -> Comings
        ensures { result ≡ comings.items }
    {
        Comings { comings }
    }

    /// The ends, in the order in which they came first.
    pub fn as_slice(&self) -> &[Coming]
        ensures { result.now ≡ self.now }
    {
        self.comings.as_slice()
    }
}

/// The result of a sample.
#[derive(Drop)]
pub struct Sample {
    /// The number of schedules that were drawn.
    pub schedules: u32,
    /// The different reports and faults, each with one schedule.
    pub comings: Comings,
}

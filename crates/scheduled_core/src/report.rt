//! The report of a run: the outcome and the marks of each fiber.

ghost use Rattle.std.specs.Prelude.{◌≡◌};

use effect_term::Outcome;
use fiber_frames::Mark;
use std::marker::Model;

/// The marks of a fiber, in the order in which it made them.
#[derive(Drop)]
pub struct Marks {
    marks: Vec<Mark>,
}

impl Model for Marks {
    ghost use Rattle.std.specs.Prelude.{List};
    ghost use Rattle.fiber_frames.specs.declared.mark.Mark.{Mark};

    ghost Value = { List Mark };

    ghost view = { λ m. m.marks.items };
}

impl Marks {
    /// These marks.
    pub fn new(marks: Vec<Mark>) -> Marks
        ensures { result ≡ marks.items }
    {
        Marks { marks }
    }

    /// The marks, from the first one on.
    pub fn as_slice(&self) -> &[Mark]
        ensures { result.now ≡ self.now }
    {
        self.marks.as_slice()
    }

    /// The marks as a vector.
    pub fn into_vec(self) -> Vec<Mark>
        ensures { result.items ≡ self }
    {
        let Marks { marks } = self;
        marks
    }
}

/// The report of one fiber.
#[derive(Drop)]
pub struct FiberReport {
    /// Its outcome, if it has ended.
    pub outcome: Option<Outcome>,
    /// Its marks.
    pub marks: Marks,
}

/// The reports of some fibers, in the order of their numbers.
#[derive(Drop)]
pub struct FiberReports {
    reports: Vec<FiberReport>,
}

impl Model for FiberReports {
    ghost use Rattle.std.specs.Prelude.{List};
    ghost use Rattle.scheduled_core.specs.declared.report.FiberReport.{FiberReport};

    ghost Value = { List FiberReport };

    ghost view = { λ r. r.reports.items };
}

impl FiberReports {
    /// These reports.
    pub fn new(reports: Vec<FiberReport>) -> FiberReports
        ensures { result ≡ reports.items }
    {
        FiberReports { reports }
    }

    /// The reports, from that of fiber 0 on.
    pub fn as_slice(&self) -> &[FiberReport]
        ensures { result.now ≡ self.now }
    {
        self.reports.as_slice()
    }

    /// The reports as a vector.
    pub fn into_vec(self) -> Vec<FiberReport>
        ensures { result.items ≡ self }
    {
        let FiberReports { reports } = self;
        reports
    }
}

/// The report of a run.
#[derive(Drop)]
pub struct Report {
    /// One report for each fiber that was started.
    pub fibers: FiberReports,
}

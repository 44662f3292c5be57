//! The request to replay a program.

ghost use Rattle.cell_registry.specs.Cells.{AreLimits};

use outcome_trace::Limits;

/// The form of the answer to a replay.
#[derive(Clone, Copy)]
pub enum AnswerForm {
    /// A report.
    Report,
    /// A report, then a timeline.
    Timeline,
    /// A picture in SVG.
    Picture,
    /// JSON.
    Json,
}

/// To run the text's program under a schedule, and to print its report.
#[derive(Clone, Copy)]
pub struct Replay<'a> {
    /// The schedule's text, or `-` if the schedule is the first line of the input.
    pub schedule: &'a str,
    /// The form of the answer.
    pub form: AnswerForm,
    /// Whether reasons are written to standard error.
    pub explain: bool,
    /// The limits on fibers, refs and deferreds, and on the changes that a fiber makes to its own cell.
    pub limits: Limits,
    pub ghost ranges: { AreLimits limits },
}

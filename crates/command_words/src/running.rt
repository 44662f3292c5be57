//! The request to run a program on workers.

ghost use Rattle.std.specs.Prelude.{◌≡◌, ◌<◌};
ghost use Rattle.cell_registry.specs.Cells.{AreLimits};
ghost use Rattle.steal_pool.specs.Runs.{limits_of};

use outcome_trace::Limits;
use steal_pool::Options;

/// The form of the answer to a run on workers.
#[derive(Clone, Copy)]
pub enum RunForm {
    /// A report.
    Report,
    /// A report, then the line of a schedule.
    Record,
    /// A report, then the line of a schedule and a timeline.
    Timeline,
    /// JSON.
    Json,
}

/// To run the text's program on workers, and to print its report.
#[derive(Clone, Copy)]
pub struct Running {
    /// The workers, limits, budget and moves of the run.
    pub options: Options,
    /// The form of the answer.
    pub form: RunForm,
    /// Whether reasons are written to standard error. Only the form `Report` has reasons.
    pub explain: bool,
    pub ghost ranges: { AreLimits (limits_of options) },
    pub ghost room: { 1 < options.budget },
}

/// The limits of a run with these options.
pub fn limits_of(options: Options) -> Limits
    ensures { result ≡ limits_of options }
{
    Limits {
        fibers: options.fibers,
        refs: options.refs,
        deferreds: options.deferreds,
        count: options.count,
    }
}

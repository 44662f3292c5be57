//! How far a fiber has come, kept beside the value that it ended with.
ghost use Rattle.std.specs.Prelude.{◌≡◌};
ghost use Rattle.cell_registry.specs.Private.Kept.{stage_of};
ghost use Rattle.cell_registry.specs.declared.cell.Stage.TheVariants.{Ended};

use crate::cell::Stage;
use effect_term::{Outcome, Value};

/// How far a fiber has come, and how it ended.
#[derive(Clone, Copy, PartialEq)]
pub(crate) enum Phase {
    Running,
    Finalizing,
    Succeeded,
    Errored,
    Canceled,
}

impl Phase {
    /// The stage of a fiber in this phase. The value counts if the fiber succeeded or errored.
    #[inline(always)]
    pub(crate) fn stage(self, value: Value) -> Stage
        ensures { result ≡ stage_of self value }
    {
        match self {
            Phase::Running => Stage::Running,
            Phase::Finalizing => Stage::Finalizing,
            Phase::Succeeded => Stage::Ended(Outcome::Succeeded(value)),
            Phase::Errored => Stage::Ended(Outcome::Errored(value)),
            Phase::Canceled => Stage::Ended(Outcome::Canceled),
        }
    }

    /// The phase of a fiber that ended with this outcome, and the outcome's value, or `value` if it was canceled.
    #[inline(always)]
    pub(crate) fn ended(outcome: Outcome, value: Value) -> (Phase, Value)
        ensures { stage_of result.0 result.1 ≡ Ended outcome }
    {
        match outcome {
            Outcome::Succeeded(value) => (Phase::Succeeded, value),
            Outcome::Errored(code) => (Phase::Errored, code),
            Outcome::Canceled => (Phase::Canceled, value),
        }
    }
}

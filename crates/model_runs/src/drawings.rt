//! The schedules that are drawn at random between the stages of a search.
//!
//! All schedules of a drawing take a small part of the time of the stage before it.

use crate::plan::Plan;

// The numbers of schedules of a drawing after one of the first stages: if an answer is expected to decide each claim,
// and otherwise.
const MANY: u32 = 100;

const FEW: u32 = 30;

// The number by which these are multiplied after a stage of 100,000 worlds or more.
const LATER: u32 = 9;

// The greatest numbers of entries of schedules: short schedules come first, since they are easier to read.
const LENGTHS: &[u32] = &[64, 256, 1000];

// The same after a stage of fewer than 10,000 worlds.
const SHORT: &[u32] = &[64, 256];

/// Schedules that are drawn together.
#[derive(Clone, Copy)]
pub(crate) struct Drawing {
    /// The seed.
    pub seed: u64,
    /// The number of schedules.
    pub times: u32,
    /// The greatest number of entries of each.
    pub entries: u32,
}

/// The greatest numbers of entries of the schedules that are drawn after a stage with this bound of worlds.
pub(crate) fn lengths_after(worlds: usize) -> &'static [u32] {
    if worlds < 10_000 { SHORT } else { LENGTHS }
}

/// The drawing of schedules of at most `length` entries after a stage with this bound of worlds. `is_hopeful` says that
/// an answer is expected to decide each claim.
pub(crate) fn drawing_after(plan: Plan, worlds: usize, is_hopeful: bool, length: u32) -> Drawing {
    let times = if is_hopeful { MANY } else { FEW };
    let later = if worlds < 100_000 { 1 } else { LATER };
    Drawing {
        seed: plan.seed.saturating_add((worlds / 100_000) as u64),
        times: times.saturating_mul(later),
        entries: length.min(plan.entries),
    }
}

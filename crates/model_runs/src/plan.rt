//! The bounds of the searches of a model.

ghost use Rattle.std.specs.Prelude.{◌≤◌, ◌<◌, ◌^◌};
ghost use Rattle.cell_registry.specs.Cells.{AreLimits};

use cell_registry::Limits;
use model_claims::Settings;

/// The bounds of the searches of a model where the model sets none.
#[derive(Clone, Copy)]
pub struct SearchBounds {
    /// The greatest number of worlds that an exploration keeps.
    pub worlds: usize,
    /// The number of bytes at which an exploration stops.
    pub memory: usize,
}

/// The bounds of a search.
#[derive(Clone, Copy)]
pub(crate) struct Plan {
    /// The greatest numbers of fibers, refs and deferreds, and of changes of a fiber's own state.
    pub limits: Limits,
    /// The greatest number of worlds that an exploration keeps.
    pub worlds: usize,
    /// The number of bytes at which an exploration stops.
    pub memory: usize,
    /// The greatest number of entries of a schedule.
    pub entries: u32,
    /// The number of schedules that are drawn if not every schedule was explored.
    pub times: u32,
    /// The seed of the drawing.
    pub seed: u64,
}

// The limit on fibers, refs or deferreds if a model sets none.
const FEW: u16 = 16;

// The greatest limit on fibers, refs or deferreds.
const MANY: u16 = 1000;

// The limit on changes of a fiber's own state if a model sets none, and the greatest such limit.
const COUNT: u64 = 1_099_511_627_775;

// The limit on entries of a schedule if a model sets none.
const ENTRIES: u32 = 10_000;

// The number of schedules that are drawn if a model sets none.
const TIMES: u32 = 2_000;

// The limit on fibers, refs or deferreds, from 1 to 1000; 16 if none is given.
fn band(given: Option<u64>) -> u16
    ensures some { 1 ≤ result }
    ensures many { result ≤ 1000 }
{
    match given {
        None => FEW,
        Some(number) => {
            if number < 1 {
                1
            } else if number >= 1000 {
                MANY
            } else {
                number as u16
            }
        }
    }
}

// The limit on changes, from 1 to 1,099,511,627,775; the greatest if none is given.
fn count(given: Option<u64>) -> u64
    ensures some { 1 ≤ result }
    ensures many { result < 2 ^ 40 }
{
    match given {
        None => COUNT,
        Some(number) => {
            if number < 1 {
                1
            } else if number > 1_099_511_627_775 {
                COUNT
            } else {
                number
            }
        }
    }
}

// The given number if it fits into 32 bits, else `usual`.
fn small(given: Option<u64>, usual: u32) -> u32 {
    match given {
        None => usual,
        Some(number) => match u32::try_from(number) {
            Ok(small) => small,
            Err(_) => usual,
        },
    }
}

// The given number of worlds if it fits into a `usize`, else `usual`.
fn worlds(given: Option<u64>, usual: usize) -> usize {
    match given {
        None => usual,
        Some(number) => match usize::try_from(number) {
            Ok(worlds) => worlds,
            Err(_) => usual,
        },
    }
}

// The limits of the registry.
fn limits(settings: Settings) -> Limits
    ensures { AreLimits result }
{
    let fibers = band(settings.fibers);
    let refs = band(settings.refs);
    let deferreds = band(settings.deferreds);
    let count = count(settings.count);
    Limits {
        fibers,
        refs,
        deferreds,
        count,
    }
}

/// The bounds of the searches of a model with these settings.
pub(crate) fn plan_of(settings: Settings, bounds: SearchBounds) -> Plan
    ensures { AreLimits result.limits }
{
    let limits = limits(settings);
    let worlds = worlds(settings.worlds, bounds.worlds);
    let entries = small(settings.entries, ENTRIES);
    let times = small(settings.times, TIMES);
    let seed = settings.seed.unwrap_or(0);
    Plan {
        limits,
        worlds,
        memory: bounds.memory,
        entries,
        times,
        seed,
    }
}

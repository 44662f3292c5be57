//! The options of a run.
ghost use Rattle.std.specs.Prelude.{◌≡◌};

use cell_registry::Limits;

/// The options of a run. [`Options::new`] has the default values.
#[derive(Clone, Copy, Debug)]
pub struct Options {
    /// The number of workers, each on a thread of its own: from 1 to 16, by default 4.
    pub workers: u8,
    /// The greatest number of fibers, with fiber 0: from 1 to 1000, the default.
    pub fibers: u16,
    /// The greatest number of refs: from 1 to 1000, the default.
    pub refs: u16,
    /// The greatest number of deferreds: from 1 to 1000, the default.
    pub deferreds: u16,
    /// The number of changes that a fiber can make to its own cell (mask, unmask, cut and end): from 1 to
    /// 1,099,511,627,775, the default.
    pub count: u64,
    /// The greatest number of moves of a turn: from 2 to 10,000, by default 64.
    pub budget: u32,
    /// The number of moves of fiber 0, and of each other fiber counted with its parent's before it: from 1 to
    /// 1,000,000, by default 100,000.
    pub moves: u32,
}

impl Options {
    ghost use Rattle.steal_pool.specs.Runs.{limits_of};

    /// The default options.
    pub fn new() -> Options
        ensures { result ≡ record {
          workers = 4;
          fibers = 1000;
          refs = 1000;
          deferreds = 1000;
          count = 1099511627775;
          budget = 64;
          moves = 100000;
        } }
    {
        Options {
            workers: 4,
            fibers: 1000,
            refs: 1000,
            deferreds: 1000,
            count: 1_099_511_627_775,
            budget: 64,
            moves: 100_000,
        }
    }

    /// The limits of a run with these options.
    pub fn limits(self) -> Limits
        ensures { result ≡ limits_of self }
    {
        Limits {
            fibers: self.fibers,
            refs: self.refs,
            deferreds: self.deferreds,
            count: self.count,
        }
    }
}

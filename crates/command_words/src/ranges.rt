//! The numbers that options take.

/// The numbers that an option takes, from `least` to `most`, and `usual`, the number if the option isn't given.
#[derive(Clone, Copy)]
pub struct NumberRange {
    pub least: u64,
    pub most: u64,
    pub usual: u64,
}

/// The greatest number of fibers, of refs or of deferreds.
pub const BAND: NumberRange = NumberRange {
    least: 1,
    most: 1000,
    usual: 1000,
};

/// The same for `explore`, `sample` and `compare`. The size of a world grows with it.
pub const FEW: NumberRange = NumberRange {
    least: 1,
    most: 1000,
    usual: 16,
};

/// The greatest number of changes that a fiber makes to its own cell.
pub const COUNT: NumberRange = NumberRange {
    least: 1,
    most: 1_099_511_627_775,
    usual: 1_099_511_627_775,
};

/// The number of workers of a run.
pub const WORKERS: NumberRange = NumberRange {
    least: 1,
    most: 16,
    usual: 4,
};

/// The greatest number of moves of a turn. A waiting fiber looks before it tries again; a turn with room for only one
/// of the two moves would never report that the fiber still waits.
pub const BUDGET: NumberRange = NumberRange {
    least: 2,
    most: 10_000,
    usual: 64,
};

/// The greatest number of moves of fiber 0, and of another fiber counted with its parent's moves before it.
pub const MOVES: NumberRange = NumberRange {
    least: 1,
    most: 1_000_000,
    usual: 100_000,
};

/// The greatest number of worlds that an exploration keeps.
pub const WORLDS: NumberRange = NumberRange {
    least: 1,
    most: 100_000_000,
    usual: 10_000_000,
};

/// The greatest number of worlds that are kept of a model without a bound of its own.
pub const MODEL_WORLDS: NumberRange = NumberRange {
    least: 1,
    most: 100_000_000,
    usual: 1_000_000,
};

/// The number of models that are explored side by side; 0 means one for each processor.
pub const JOBS: NumberRange = NumberRange {
    least: 0,
    most: 64,
    usual: 0,
};

/// The number before the unit of the bytes at which an exploration stops. `usual` has no unit: it is 4 times 2^30
/// bytes.
pub const MEMORY: NumberRange = NumberRange {
    least: 1,
    most: 10_000_000_000,
    usual: 4_294_967_296,
};

/// The seconds after which an exploration or the searches of a model end. Without the option they have no bound, and
/// `usual` is unused.
pub const SECONDS: NumberRange = NumberRange {
    least: 1,
    most: 1_000_000_000,
    usual: 1_000_000_000,
};

/// The greatest number of entries of a schedule in an exploration or a sample.
pub const ENTRIES: NumberRange = NumberRange {
    least: 1,
    most: 1_000_000,
    usual: 10_000,
};

/// The seed of a sample's schedules. `most` is 2^63 - 1, since the ends of a range of `clap` are signed numbers.
pub const SEED: NumberRange = NumberRange {
    least: 0,
    most: 9_223_372_036_854_775_807,
    usual: 0,
};

/// The number of schedules that a sample draws.
pub const TIMES: NumberRange = NumberRange {
    least: 1,
    most: 1_000_000,
    usual: 1000,
};

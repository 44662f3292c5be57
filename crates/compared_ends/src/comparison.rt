//! The result of a comparison of two programs.

use every_schedule::Exploration;

/// Which ends a program has that the other program hasn't.
#[derive(Clone, Copy, PartialEq, Eq, Debug)]
pub enum Extra {
    /// The end of the program's answer with this index, and possibly others.
    Answer(usize),
    /// None: each end of the program is also one of the other program.
    Nothing,
    /// An exploration met a bound, and the ends that were found don't decide.
    Undecided,
}

/// The result of a comparison of two programs.
#[derive(Drop)]
pub struct Comparison {
    /// The exploration of the first program.
    pub first: Exploration,
    /// The exploration of the second program.
    pub second: Exploration,
    /// Which ends only the first program has.
    pub first_extra: Extra,
    /// Which ends only the second program has.
    pub second_extra: Extra,
}

//! Random numbers from a seed.
ghost use Rattle.std.specs.Prelude.{◌≡◌, ◌%◌, ◌<◌, ◌≤◌};
ghost use Rattle.rand_core.specs.Stream.{next_u32};
ghost use Rattle.sampled_schedules.specs.Private.Drawing.{numbers_behind, numbers_of};

use rand_core::{Rng, SeedableRng};
use rand_xoshiro::Xoshiro256PlusPlus;

/// The numbers of xoshiro256++; SplitMix64 makes its first state from a seed.
#[derive(Drop)]
pub(crate) struct Draws {
    generator: Xoshiro256PlusPlus,
}

impl Draws {
    /// The numbers from this seed.
    pub(crate) fn new(seed: u64) -> Draws
        ensures { numbers_behind result.generator ≡ numbers_of seed }
    {
        Draws {
            generator: Xoshiro256PlusPlus::seed_from_u64(seed),
        }
    }

    /// A number below the bound.
    pub(crate) fn below(&mut self, bound: u32) -> u32
        requires { 0 < bound }
        ensures below { result < bound }
        ensures next { result ≡ (next_u32 (numbers_behind self.old.generator)).0 % bound }
        ensures behind { numbers_behind self.new.generator ≡ (next_u32 (numbers_behind self.old.generator)).1 }
    {
        self.generator.next_u32() % bound
    }

    /// The number of entries that one fiber makes in a row. More than half of these are 1, and some are large, so that
    /// sometimes one fiber goes far while another doesn't move.
    pub(crate) fn row(&mut self) -> u32
        ensures { 1 ≤ result }
    {
        let most = match self.below(8) {
            0..=3 => 1,
            4..=5 => 4,
            6 => 16,
            _ => 64,
        };
        1 + self.below(most)
    }
}

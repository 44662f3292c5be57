//! The memory of one of several jobs.

ghost use Rattle.std.specs.Prelude.{◌≡◌, ◌*◌, ◌/◌, ◌<◌, ◌≤◌};

/// The bytes of memory that each of `jobs` jobs has of `memory` bytes: as many for each, and at least one.
pub fn share_of(memory: usize, jobs: usize) -> usize
    requires { 0 < jobs }
    ensures some { 0 < result }
    ensures whole { jobs ≤ memory → result ≡ memory / jobs }
    ensures least { memory < jobs → result ≡ 1 }
{
    (memory / jobs).max(1)
}

//! Digests of reports, by which a search files its answers.
ghost use Rattle.std.specs.Prelude.{◌≡◌};
ghost use Rattle.std.specs.List.{fold};
ghost use Rattle.every_schedule.specs.Digests.{mixed as the_mix, with_mark as the_mark, with_outcome as the_outcome};
ghost use Rattle.every_schedule.specs.Digests.{with_end, with_pair as the_pair, with_report};
ghost use Rattle.scheduled_core.specs.Core.{fiber_report};

use effect_term::Outcome;
use fiber_frames::{Config, Mark};
use scheduled_core::outcome;

// The digest, extended by a number.
fn mixed(digest: u64, number: u64) -> u64
    ensures { result ≡ the_mix digest number }
{
    digest.wrapping_mul(1_099_511_628_211).wrapping_add(number)
}

// The digest, extended by a kind and a number.
fn with_pair(digest: u64, kind: u64, number: u64) -> u64
    ensures { result ≡ the_pair digest kind number }
{
    mixed(mixed(digest, kind), number)
}

/// The digest, extended by how a fiber ended.
pub fn with_outcome(digest: u64, outcome: Option<Outcome>) -> u64
    ensures { result ≡ the_outcome digest outcome }
{
    match outcome {
        None => with_pair(digest, 1, 0),
        Some(outcome) => with_end(digest, outcome),
    }
}

// The digest, extended by the outcome of a fiber that has ended.
fn with_end(digest: u64, outcome: Outcome) -> u64
    ensures { result ≡ with_end digest outcome }
{
    match outcome {
        Outcome::Succeeded(value) => with_pair(digest, 2, value.get().cast_unsigned()),
        Outcome::Errored(code) => with_pair(digest, 3, code.get().cast_unsigned()),
        Outcome::Canceled => with_pair(digest, 4, 0),
    }
}

/// The digest, extended by a mark.
pub fn with_mark(digest: u64, mark: Mark) -> u64
    ensures { result ≡ the_mark digest mark }
{
    match mark {
        Mark::Say(value) => with_pair(digest, 5, value.get().cast_unsigned()),
        Mark::Enter(mask) => with_pair(digest, 6, mask),
        Mark::Leave(mask) => with_pair(digest, 7, mask),
        Mark::PollIn(mask) => with_pair(digest, 8, mask),
        Mark::PollOut(mask) => with_pair(digest, 9, mask),
        Mark::Cut => with_pair(digest, 10, 0),
        Mark::Acquired(mask) => with_pair(digest, 11, mask),
        Mark::Releasing(mask) => with_pair(digest, 12, mask),
        Mark::Released(mask) => with_pair(digest, 13, mask),
        Mark::Dropped(code) => with_pair(digest, 14, code.get().cast_unsigned()),
    }
}

// The digest, extended by marks.
fn with_marks(digest: u64, marks: &[Mark]) -> u64
    ensures { result ≡ fold the_mark digest marks.now }
{
    let mut extended = digest;
    for mark in marks {
        extended = with_mark(extended, *mark);
    }
    extended
}

/// The digest, extended by the report of a fiber.
pub(crate) fn with_fiber(digest: u64, fiber: &Config) -> u64
    ensures { result ≡ with_report digest (fiber_report fiber.now) }
{
    with_marks(with_outcome(digest, outcome(fiber)), fiber.trace())
}

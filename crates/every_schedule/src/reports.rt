//! The reports of worlds, by the numbers of their fibers' states.
ghost use Rattle.std.specs.Prelude.{◌≡◌, ◌<◌, length, false, map, true};
ghost use Rattle.std.specs.List.{All, fold};
ghost use Rattle.scheduled_core.specs.Core.{fiber_report};
ghost use Rattle.every_schedule.specs.Digests.{with_report};
ghost use Rattle.every_schedule.specs.Private.Numbered.{picked};
ghost use Rattle.every_schedule.specs.Private.Reporting.{Alike, AreAlike, Differ, AreOther, with_state};

use crate::digests::with_fiber;
use crate::pool::Pool;
use fiber_frames::Config;
use scheduled_core::same_report;
use std::slice;

/// Whether the states of the two lists make the same report.
pub(crate) fn same_reports(pool: &Pool<Config>, one: &[u32], other: &[u32]) -> bool
    requires one { All (λ n. n < length pool.now.items.items) one.now }
    requires other { All (λ n. n < length pool.now.items.items) other.now }
    ensures same { result ≡ true → AreAlike pool.now.items.items one.now other.now }
    ensures other { result ≡ false → AreOther pool.now.items.items one.now other.now }
{
    if one.len() != other.len() {
        return false;
    }
    for i in 0..one.len() {
        if !is_alike(pool, one[i], other[i]) {
            return false;
        }
    }
    true
}

// Whether two states make the same report.
fn is_alike(pool: &Pool<Config>, one: u32, other: u32) -> bool
    requires one { one < length pool.now.items.items }
    requires other { other < length pool.now.items.items }
    ensures same { result ≡ true → Alike pool.now.items.items one other }
    ensures other { result ≡ false → Differ pool.now.items.items one other }
{
    one == other
        || same_report(
            slice::from_ref(&pool.items[one as usize]),
            slice::from_ref(&pool.items[other as usize]),
        )
}

/// The digest of the report that these states make.
pub(crate) fn digest_of(pool: &Pool<Config>, numbers: &[u32]) -> u64
    requires { All (λ n. n < length pool.now.items.items) numbers.now }
    ensures { result ≡ fold with_report 1 (map fiber_report (picked pool.now.items.items numbers.now)) }
{
    let mut digest = 1;
    for number in numbers {
        digest = with_state(digest, pool, *number);
    }
    digest
}

// The digest, extended by the report of a fiber in the state of this number.
fn with_state(digest: u64, pool: &Pool<Config>, number: u32) -> u64
    requires { number < length pool.now.items.items }
    ensures { result ≡ with_state pool.now.items.items digest number }
{
    with_fiber(digest, &pool.items[number as usize])
}

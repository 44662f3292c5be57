//! The text of a schedule: its runs, each as an item.

ghost use Rattle.std.specs.Prelude.{◌≡◌, ◌<◌, ◌≤◌, IfOk, length, replicate, slice_index_or, string_bytes, take};
ghost use Rattle.std.specs.List.{All};
ghost use Rattle.text_io.specs.Schedule.{IsItemOf, SpellsEntries};

use crate::schedule::MOST_TIMES;
use std::alloc::{AllocError, Global};

/// The text of a schedule in which each run of one fiber is an item: `f` for one entry, and `f*k` for two to 100,000,
/// with one space between items. A longer run is several items. The text of an empty schedule is empty.
///
/// The text spells these entries, so [`read_schedule`](crate::read_schedule) returns them. Each entry is at most 999,
/// and there are at most [`MOST_ENTRIES`](crate::MOST_ENTRIES). Returns `AllocError` if memory is refused.
pub fn schedule_text(alloc: Global, entries: &[u16]) -> Result<String, AllocError>
    requires fibers { All (λ fiber. fiber < 1000) entries.now }
    requires few { length entries.now ≤ 1000000 }
    ensures { IfOk result (λ text. SpellsEntries (string_bytes text) entries.now) }
{
    let mut text = String::new(alloc);
    if entries.is_empty() {
        return Ok(text);
    }
    let mut rest = entries;
    'runs: loop {
        let times = run_len(rest);
        let item = item_text(alloc, rest[0], times)?;
        text.push_str(item.as_str())?;
        rest = &rest[times..];
        if rest.is_empty() {
            return Ok(text);
        }
        text.push_str(" ")?;
    }
}

// The length of the run at the beginning of the entries, at most `MOST_TIMES`.
fn run_len(entries: &[u16]) -> usize
    requires { 0 < length entries.now }
    ensures some { 0 < result }
    ensures most { result ≤ MOST_TIMES }
    ensures within { result ≤ length entries.now }
    ensures run { take result entries.now ≡ replicate result (slice_index_or entries.now 0 0) }
{
    let fiber = entries[0];
    let mut times = 1;
    while times < entries.len() && times < MOST_TIMES as usize && entries[times] == fiber {
        times += 1;
    }
    times
}

// The item of a fiber with this number of times.
fn item_text(alloc: Global, fiber: u16, times: usize) -> Result<String, AllocError>
    requires fiber { fiber < 1000 }
    requires some { 0 < times }
    requires most { times ≤ MOST_TIMES }
    ensures { IfOk result (λ text. IsItemOf (string_bytes text) fiber times) }
{
    if times == 1 {
        format!(in alloc; "{fiber}")
    } else {
        format!(in alloc; "{fiber}*{times}")
    }
}

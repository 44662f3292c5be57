//! The watcher of the searches of a model.

ghost use Rattle.std.specs.Prelude.{◌≡◌, ◌||◌, false, is_some, true};

use crate::board::{Board, Far};
use model_runs::{TimeLimit, Watcher};
use std::time::{Clock, Duration, Instant};

/// Notes on a board how far the search of a model is, and ends the search at a limit.
#[derive(Drop)]
pub(crate) struct Noting<'w, C: Clock> {
    /// The clock of the limit.
    pub(crate) clock: &'w C,
    /// When the searches of the model began; `None` if the clock failed.
    pub(crate) begun: Option<Instant>,
    /// The number of seconds after which a search ends; `None` for no limit.
    pub(crate) seconds: Option<u64>,
    /// When the test began; `None` if the clock failed.
    pub(crate) test_begun: Option<Instant>,
    /// The number of seconds after which all searches of the test end; `None` for no limit.
    pub(crate) total_seconds: Option<u64>,
    /// Whether a search was ended.
    pub(crate) stopped: bool,
    /// The board of the models.
    pub(crate) board: &'w Board,
    /// The number of the model.
    pub(crate) index: usize,
    /// The number of worlds that were noted last.
    pub(crate) worlds: usize,
    /// When the present search began.
    pub(crate) since: Duration,
}

impl<'w, C: Clock> Noting<'w, C> {
    // Notes how far the search is at this time. A search with fewer worlds than before is the next one.
    fn note(&mut self, worlds: usize, depth: usize, time: Duration)
        ensures seconds { self.new.seconds ≡ self.old.seconds }
        ensures total { self.new.total_seconds ≡ self.old.total_seconds }
    {
        if worlds < self.worlds {
            self.since = time;
        }
        self.worlds = worlds;
        let rate = rate(worlds, time.saturating_sub(self.since));
        self.board.note(
            self.index,
            Far {
                worlds,
                rate,
                depth,
            },
        );
    }

    // Whether the time of the whole test isn't over.
    fn test_goes_on(&self) -> bool
        ensures { result ≡ false → is_some self.now.total_seconds ≡ true }
    {
        is_within(self.clock, self.test_begun, self.total_seconds)
    }
}

/// Whether fewer than `seconds` seconds have passed since `begun`, or there is no such limit. If the clock fails, the
/// time isn't over.
pub(crate) fn is_within<C: Clock>(clock: &C, begun: Option<Instant>, seconds: Option<u64>) -> bool
    ensures { result ≡ false → is_some seconds ≡ true }
{
    if seconds.is_none() {
        return true;
    }
    let mut limit = TimeLimit {
        clock,
        begun,
        seconds,
        stopped: false,
    };
    let time = limit.elapsed();
    limit.goes_on_at(time)
}

impl<'w, C: Clock> Watcher for Noting<'w, C> {
    ghost can_stop = { λ it. is_some it.seconds || is_some it.total_seconds };

    ghost has_stopped = { λ it. it.stopped };

    fn goes_on(&mut self, worlds: usize, depth: usize) -> bool {
        let mut limit = TimeLimit {
            clock: self.clock,
            begun: self.begun,
            seconds: self.seconds,
            stopped: self.stopped,
        };
        let time = limit.elapsed();
        // Schedules that are drawn have no depth: what the search before them noted stays.
        if depth > 0 {
            if let Some(time) = time {
                self.note(worlds, depth, time);
            }
        }
        if limit.goes_on_at(time) && self.test_goes_on() {
            return true;
        }
        self.stopped = true;
        false
    }

    fn lists_on(&mut self, quarters: u32) -> bool {
        if lists_within(self.clock, self.begun, self.seconds, quarters)
            && lists_within(self.clock, self.test_begun, self.total_seconds, quarters)
        {
            return true;
        }
        self.stopped = true;
        false
    }
}

// Whether the work after a search goes on by a limit of `seconds` that began at `begun`, if there is one.
fn lists_within<C: Clock>(
    clock: &C,
    begun: Option<Instant>,
    seconds: Option<u64>,
    quarters: u32,
) -> bool
    ensures { result ≡ false → is_some seconds ≡ true }
{
    if seconds.is_none() {
        return true;
    }
    let mut limit = TimeLimit {
        clock,
        begun,
        seconds,
        stopped: false,
    };
    let time = limit.elapsed();
    limit.lists_on_at(time, quarters)
}

// The number a second, for `many` in this time; 0 if the time is below 1 millisecond.
fn rate(many: usize, time: Duration) -> usize {
    let seconds = time.as_secs().saturating_mul(1000);
    let millis = seconds.saturating_add(u64::from(time.subsec_millis()));
    match many.saturating_mul(1000).checked_div(millis as usize) {
        Some(rate) => rate,
        None => 0,
    }
}

//! A watcher that ends a search after some seconds.

ghost use Rattle.std.specs.Prelude.{◌≡◌, ◌*◌, ◌<◌, ◌≤◌, ℕ, false, is_some, true, IfSome, Some};
ghost use Rattle.std.specs.Duration.{as_nanos};

use crate::watching::Watcher;
use std::time::{Clock, Duration, Instant};

/// Ends a search once this number of seconds has passed by a clock. If no number is given or the clock fails, no search
/// is ended.
#[derive(Drop)]
pub struct TimeLimit<'c, C: Clock> {
    /// The clock.
    pub clock: &'c C,
    /// When the seconds began; `None` if the clock failed.
    pub begun: Option<Instant>,
    /// The number of seconds after which a search ends; `None` for no limit.
    pub seconds: Option<u64>,
    /// Whether a search was ended.
    pub stopped: bool,
}

impl<'c, C: Clock> TimeLimit<'c, C> {
    /// Returns a limit of this number of seconds, which begin now.
    pub fn new(clock: &'c C, seconds: Option<u64>) -> TimeLimit<'c, C>
        ensures seconds { result.seconds ≡ seconds }
        ensures fresh { result.stopped ≡ false }
    {
        TimeLimit {
            clock,
            begun: Instant::now(clock).ok(),
            seconds,
            stopped: false,
        }
    }

    /// The time that has passed; `None` if the clock fails.
    pub fn elapsed(&self) -> Option<Duration> {
        self.begun?.elapsed(self.clock).ok()
    }

    /// Whether a search goes on after this time: it does until the seconds have passed.
    pub fn goes_on_at(&mut self, time: Option<Duration>) -> bool
        ensures seconds { self.new.seconds ≡ self.old.seconds }
        ensures can { result ≡ false → is_some self.old.seconds ≡ true }
        ensures says { result ≡ false → self.new.stopped ≡ true }
        ensures keeps { self.old.stopped ≡ true → self.new.stopped ≡ true }
        ensures before { IfSome time (λ t. (n : ℕ) → self.old.seconds ≡ Some n →
            as_nanos t < n * 1000000000 → result ≡ true) }
        ensures after { IfSome time (λ t. (n : ℕ) → self.old.seconds ≡ Some n →
            n * 1000000000 ≤ as_nanos t → result ≡ false) }
    {
        let (Some(time), Some(seconds)) = (time, self.seconds) else {
            return true;
        };
        if time.as_secs() < seconds {
            return true;
        }
        self.stopped = true;
        false
    }

    /// Whether the work after a search goes on after this time. The work has 300 ms beyond the seconds, or 70 ms for
    /// each of the seconds if that is more; it can take `quarters` quarters of this time.
    pub fn lists_on_at(&mut self, time: Option<Duration>, quarters: u32) -> bool
        ensures seconds { self.new.seconds ≡ self.old.seconds }
        ensures can { result ≡ false → is_some self.old.seconds ≡ true }
        ensures says { result ≡ false → self.new.stopped ≡ true }
        ensures keeps { self.old.stopped ≡ true → self.new.stopped ≡ true }
    {
        let (Some(time), Some(seconds)) = (time, self.seconds) else {
            return true;
        };
        let quarter = seconds.saturating_mul(70).max(300) / 4;
        let rest = quarter.saturating_mul(u64::from(quarters));
        let end = seconds.saturating_mul(1000).saturating_add(rest);
        if time.as_millis() < u128::from(end) {
            return true;
        }
        self.stopped = true;
        false
    }
}

impl<'c, C: Clock> Watcher for TimeLimit<'c, C> {
    ghost can_stop = { λ it. is_some it.seconds };

    ghost has_stopped = { λ it. it.stopped };

    fn goes_on(&mut self, _worlds: usize, _depth: usize) -> bool {
        let time = self.elapsed();
        self.goes_on_at(time)
    }

    fn lists_on(&mut self, quarters: u32) -> bool {
        let time = self.elapsed();
        self.lists_on_at(time, quarters)
    }
}

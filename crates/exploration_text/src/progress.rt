//! Lines that report the progress of an exploration.

ghost use Rattle.std.specs.Prelude.{◌≡◌, false, is_some};

use every_schedule::{TimeLimit, Watcher};
use itoa::Buffer;
use outcome_trace::{Status, TextFault, TextOut, tell_fault, write_text};
use std::alloc::{AllocError, Global};
use std::time::{Clock, Duration, Instant};

/// Writes a line at most once a second, from the first second on: the number of worlds found, the worlds a second since
/// the beginning, and the length of the schedules. If the clock fails, no line is written; after a failed write, no
/// further line is. The search ends at the limit.
#[derive(Drop)]
pub(crate) struct Progress<'c, 'e, C: Clock, E: TextOut> {
    pub(crate) alloc: Global,
    pub(crate) clock: &'c C,
    pub(crate) begun: Option<Instant>,
    pub(crate) seconds: Option<u64>,
    pub(crate) stopped: bool,
    pub(crate) told: Duration,
    pub(crate) err: &'e mut E,
    pub(crate) failed: bool,
    ghost healthy: { failed ≡ false → (E.seen err.now).failed ≡ false },
}

impl<'c, 'e, C: Clock, E: TextOut> Progress<'c, 'e, C, E> {
    // Writes a line of progress, unless one was written within the last second or a write has failed.
    fn tell(&mut self, worlds: usize, depth: usize, time: Duration)
        ensures { self.new.seconds ≡ self.old.seconds }
    {
        if self.failed || !is_second(self.told, time) {
            return;
        }
        self.told = time;
        let Ok(line) = progress_line(self.alloc, worlds, rate(worlds, time), depth) else {
            return;
        };
        self.failed = true;
        if write_text(line.as_bytes(), &mut *self.err).is_ok() {
            self.failed = false;
        }
    }

    /// Writes a note, if there is one, unless a write has failed.
    pub(crate) fn tell_note(&mut self, note: &[u8]) {
        if self.failed || note.is_empty() {
            return;
        }
        self.failed = true;
        if write_text(note, &mut *self.err).is_ok() {
            self.failed = false;
        }
    }

    /// Writes the line of a fault, unless a write has failed. Returns `Status::Fault`.
    pub(crate) fn tell_fault(&mut self, fault: TextFault) -> Status
        ensures { result ≡ Status.Fault }
    {
        if self.failed {
            return Status::Fault;
        }
        self.failed = true;
        tell_fault(fault, &mut *self.err)
    }
}

impl<'c, 'e, C: Clock, E: TextOut> Watcher for Progress<'c, 'e, C, E> {
    ghost can_stop = { λ it. is_some it.seconds };

    ghost has_stopped = { λ it. it.stopped };

    fn goes_on(&mut self, worlds: usize, depth: usize) -> bool {
        let mut limit = TimeLimit {
            clock: self.clock,
            begun: self.begun,
            seconds: self.seconds,
            stopped: self.stopped,
        };
        let time = limit.elapsed();
        if let Some(time) = time {
            self.tell(worlds, depth, time);
        }
        let goes_on = limit.goes_on_at(time);
        self.stopped = limit.stopped;
        goes_on
    }

    fn lists_on(&mut self, quarters: u32) -> bool {
        let mut limit = TimeLimit {
            clock: self.clock,
            begun: self.begun,
            seconds: self.seconds,
            stopped: self.stopped,
        };
        let time = limit.elapsed();
        let lists_on = limit.lists_on_at(time, quarters);
        self.stopped = limit.stopped;
        lists_on
    }
}

// Whether a second has passed from the one time to the other.
fn is_second(before: Duration, now: Duration) -> bool {
    match now.checked_sub(before) {
        Some(passed) => passed.as_secs() >= 1,
        None => false,
    }
}

// The number a second, for `many` in this time; 0 if the time is below 1 millisecond.
fn rate(many: usize, time: Duration) -> u64 {
    let seconds = time.as_secs().saturating_mul(1000);
    let millis = seconds.saturating_add(u64::from(time.subsec_millis()));
    match (many as u64).saturating_mul(1000).checked_div(millis) {
        Some(rate) => rate,
        None => 0,
    }
}

// The line of progress of an exploration.
fn progress_line(
    alloc: Global,
    worlds: usize,
    rate: u64,
    depth: usize,
) -> Result<String, AllocError> {
    let mut digits = Buffer::new();
    let mut line = String::new(alloc);
    line.push_str("explored ")?;
    line.push_str(digits.format(worlds))?;
    line.push_str(" worlds, ")?;
    line.push_str(digits.format(rate))?;
    line.push_str(" a second, depth ")?;
    line.push_str(digits.format(depth))?;
    line.push_str("\n")?;
    Ok(line)
}

//! Lines that report the progress of models that are being explored.

ghost use Rattle.std.specs.Prelude.{◌≡◌, false};

use crate::board::{Board, Far};
use crate::suite::Models;
use itoa::Buffer;
use model_forms::form_bytes;
use std::alloc::{AllocError, Global};
use std::time::{Clock, Duration, Instant};
use text_io::{Status, TextFault, TextOut, tell_fault, write_text};

/// Whether a device gets lines of progress, when the last ones came, and whether the device has failed. After a failed
/// write nothing further is written to the device.
#[derive(Clone, Copy)]
pub struct Progress {
    alloc: Global,
    // Whether lines of progress are asked for.
    shown: bool,
    // When the test began; `None` if the clock failed.
    begun: Option<Instant>,
    // The time of the last lines.
    told: Duration,
    /// Whether a write has failed.
    pub failed: bool,
}

impl Progress {
    /// Returns the progress of a test that begins now. Lines of progress are written if `shown`.
    pub fn new<C: Clock>(alloc: Global, clock: &C, shown: bool) -> Progress
        ensures { result.failed ≡ false }
    {
        Progress {
            alloc,
            shown,
            begun: Instant::now(clock).ok(),
            told: Duration::ZERO,
            failed: false,
        }
    }

    /// Whether lines of progress are asked for.
    pub(crate) fn is_shown(&self) -> bool {
        self.shown
    }

    /// The number of threads that explore `jobs` models side by side, beside the thread that prints: one less than
    /// `jobs`, since that thread explores models, too; `jobs` if it shows progress in place of this.
    pub fn threads(&self, jobs: usize) -> usize {
        if self.shown {
            jobs
        } else {
            jobs.saturating_sub(1)
        }
    }

    /// Writes a note, if there is one, unless a write has failed.
    pub fn write<E: TextOut>(&mut self, note: &[u8], err: &mut E)
        requires { self.old.failed ≡ false → (E.seen err.old).failed ≡ false }
        ensures { self.new.failed ≡ false → (E.seen err.new).failed ≡ false }
    {
        if self.failed || note.is_empty() {
            return;
        }
        if write_text(note, err).is_err() {
            self.failed = true;
        }
    }

    /// Writes the line of a fault, unless a write has failed. Returns `Status::Fault`.
    pub fn tell_fault<E: TextOut>(&self, fault: TextFault, err: &mut E) -> Status
        requires { self.now.failed ≡ false → (E.seen err.old).failed ≡ false }
        ensures { result ≡ Status.Fault }
    {
        if self.failed {
            Status::Fault
        } else {
            tell_fault(fault, err)
        }
    }

    /// Writes how far the models are that are being explored, if a second has passed since the last lines. If the clock
    /// fails or memory runs out, nothing is written.
    pub(crate) fn tell<C: Clock, E: TextOut>(
        &mut self,
        clock: &C,
        models: &Models<'_>,
        board: &Board,
        err: &mut E,
    )
        requires { self.old.failed ≡ false → (E.seen err.old).failed ≡ false }
        ensures { self.new.failed ≡ false → (E.seen err.new).failed ≡ false }
    {
        if !self.is_time(clock) {
            return;
        }
        if let Ok(text) = progress_text(self.alloc, models, board) {
            self.write(text.as_slice(), err);
        }
    }

    // Whether a second has passed since the last lines; if so, the next lines come now.
    fn is_time<C: Clock>(&mut self, clock: &C) -> bool
        ensures { self.new.failed ≡ self.old.failed }
    {
        let Some(begun) = self.begun else {
            return false;
        };
        let Ok(time) = begun.elapsed(clock) else {
            return false;
        };
        match time.checked_sub(self.told) {
            Some(passed) if passed.as_secs() >= 1 => {
                self.told = time;
                true
            }
            _ => false,
        }
    }
}

// A line for each model that is being explored, in the order of the models.
fn progress_text(alloc: Global, models: &Models<'_>, board: &Board) -> Result<Vec<u8>, AllocError> {
    let mut text = Vec::new(alloc);
    for index in 0..models.entries.len() {
        if let Some(far) = board.far(index) {
            push_line(&mut text, models, index, far)?;
        }
    }
    Ok(text)
}

// Adds the line of a model.
fn push_line(
    text: &mut Vec<u8>,
    models: &Models<'_>,
    index: usize,
    far: Far,
) -> Result<(), AllocError> {
    let Some(entry) = models.entries.get(index) else {
        return Ok(());
    };
    let Some(file) = models.files.get(entry.file) else {
        return Ok(());
    };
    text.extend_from_slice(form_bytes(file.source.text.as_slice(), entry.model.name))?;
    push_far(text, far)
}

// Adds how far the search of a model is.
fn push_far(text: &mut Vec<u8>, far: Far) -> Result<(), AllocError> {
    let mut digits = Buffer::new();
    text.extend_from_slice(b": explored ")?;
    text.extend_from_slice(digits.format(far.worlds).as_bytes())?;
    text.extend_from_slice(b" worlds, ")?;
    text.extend_from_slice(digits.format(far.rate).as_bytes())?;
    text.extend_from_slice(b" a second, depth ")?;
    text.extend_from_slice(digits.format(far.depth).as_bytes())?;
    text.extend_from_slice(b"\n")
}

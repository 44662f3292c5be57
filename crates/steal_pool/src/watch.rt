//! The observer of a run: its gate, and the logs of its workers.

use crate::gate::Gate;
use fiber_poll::NoLog;
use once_cell::race::OnceBox;
use run_recording::{Notes, TurnLog, WorkerLog};
use std::alloc::{AllocError, Global};
use std::sync::atomic::{AtomicBool, AtomicU64, Ordering};

/// A gate, and the logs of workers.
pub(crate) trait Watch: Sync {
    type Log: TurnLog + Drop + Send + Sync;

    /// This worker begins a turn of this fiber.
    fn enter(&self, worker: u8, fiber: u16);

    /// The log of a worker that begins.
    fn log(&self) -> Self::Log;

    /// This worker has ended, with this log.
    fn keep(&self, worker: u8, log: Self::Log);
}

/// Only a gate, without logs.
#[derive(Clone, Copy)]
pub(crate) struct Unrecorded<'g, G: Gate> {
    pub gate: &'g G,
}

impl<'g, G: Gate> Watch for Unrecorded<'g, G> {
    type Log = NoLog;

    #[inline(always)]
    fn enter(&self, worker: u8, fiber: u16) {
        self.gate.enter(worker, fiber);
    }

    fn log(&self) -> NoLog {
        NoLog
    }

    fn keep(&self, _worker: u8, _log: NoLog) {}
}

/// A gate, and the notes of all workers that have ended.
#[derive(Drop)]
pub(crate) struct Recorder<'g, 'c, G: Gate> {
    alloc: Global,
    gate: &'g G,
    clock: &'c AtomicU64,
    fibers: u16,
    // For each worker, by its number.
    notes: Vec<OnceBox<Notes>>,
    lost: AtomicBool,
}

impl<'g, 'c, G: Gate> Recorder<'g, 'c, G> {
    /// A recorder of a run on `workers` workers, with at most `fibers` fibers.
    pub(crate) fn new(
        alloc: Global,
        gate: &'g G,
        clock: &'c AtomicU64,
        workers: u8,
        fibers: u16,
    ) -> Result<Recorder<'g, 'c, G>, AllocError> {
        let mut notes = Vec::new(alloc);
        for _ in 0..workers {
            notes.push(OnceBox::new(alloc))?;
        }
        Ok(Recorder {
            alloc,
            gate,
            clock,
            fibers,
            notes,
            lost: AtomicBool::new(false),
        })
    }

    /// The notes of each worker, by its number. A worker for which no thread was started has none.
    pub(crate) fn notes(&self) -> &[OnceBox<Notes>] {
        self.notes.as_slice()
    }

    /// Whether the notes of a worker were lost because memory ran out.
    pub(crate) fn has_lost(&self) -> bool {
        self.lost.load(Ordering::SeqCst)
    }
}

impl<'g, 'c, G: Gate> Watch for Recorder<'g, 'c, G> {
    type Log = WorkerLog<'c>;

    fn enter(&self, worker: u8, fiber: u16) {
        self.gate.enter(worker, fiber);
    }

    fn log(&self) -> WorkerLog<'c> {
        WorkerLog::new(self.alloc, self.clock, self.fibers)
    }

    fn keep(&self, worker: u8, log: WorkerLog<'c>) {
        let Some(place) = self.notes.get(usize::from(worker)) else {
            return;
        };
        match Box::new(self.alloc, log.into_notes()) {
            Ok(notes) => {
                let _ = place.set(notes);
            }
            Err(_) => self.lost.store(true, Ordering::SeqCst),
        }
    }
}

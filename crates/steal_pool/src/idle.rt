//! Workers that have nothing to do.
//!
//! A worker whose queue is empty searches the others' queues for a while and then sleeps. A push wakes one sleeper,
//! unless a worker is searching. When the last searching worker finds a number, it wakes the next sleeper. So a burst
//! of pushes costs few wakes, and yet no worker sleeps for long while a queue has numbers.
//!
//! No wake is lost. Every step is sequentially consistent. A worker parks, ends its search, and only then looks at all
//! queues once more. So this look sees a push that came before it, and a push that comes after it finds the worker
//! parked. What a worker pushed on its own queue it serves itself at the latest.
use crossbeam_utils::sync::Unparker;
use std::sync::atomic::{AtomicBool, AtomicU64, Ordering};

/// Whether one worker sleeps, and how to wake it.
#[derive(Drop)]
pub(crate) struct Sleeper {
    // Whether the worker is parked, and no wake for it has come yet.
    parked: AtomicBool,
    unparker: Unparker,
}

impl Sleeper {
    /// The sleeper of a worker that is awake.
    pub(crate) fn new(unparker: Unparker) -> Sleeper {
        Sleeper {
            parked: AtomicBool::new(false),
            unparker,
        }
    }
}

/// The number of searching workers, and the sleepers.
#[derive(Drop)]
pub(crate) struct Idle {
    searching: AtomicU64,
    sleeping: AtomicU64,
    sleepers: Vec<Sleeper>,
}

impl Idle {
    /// No worker searches or sleeps. The sleepers are in the order of the workers.
    pub(crate) fn new(sleepers: Vec<Sleeper>) -> Idle {
        Idle {
            searching: AtomicU64::new(0),
            sleeping: AtomicU64::new(0),
            sleepers,
        }
    }

    /// Called after a number was queued. Wakes a worker, if one sleeps and none searches.
    pub(crate) fn wake_one(&self) {
        if self.sleeping.load(Ordering::SeqCst) == 0 || self.searching.load(Ordering::SeqCst) != 0 {
            return;
        }
        for sleeper in self.sleepers.iter() {
            if self.call_up(sleeper) {
                sleeper.unparker.unpark();
                return;
            }
        }
    }

    /// Called at the end of the run. Wakes all workers.
    pub(crate) fn wake_all(&self) {
        for sleeper in self.sleepers.iter() {
            sleeper.unparker.unpark();
        }
    }

    /// A worker begins to search.
    pub(crate) fn begin_search(&self) {
        self.searching.fetch_add(1, Ordering::SeqCst);
    }

    /// A worker that searched found a number. If it was the last one to search, wakes another to go on searching.
    pub(crate) fn end_search(&self) {
        if self.searching.fetch_sub(1, Ordering::SeqCst) == 1 {
            self.wake_one();
        }
    }

    /// A worker that searched is parked from now on. The worker has to look at all queues once more before it sleeps.
    pub(crate) fn park(&self, worker: u8) {
        self.sleeping.fetch_add(1, Ordering::SeqCst);
        if let Some(sleeper) = self.sleepers.get(worker as usize) {
            sleeper.parked.store(true, Ordering::SeqCst);
        }
        self.searching.fetch_sub(1, Ordering::SeqCst);
    }

    /// A worker that was parked searches again, whether it was woken or got up without a wake.
    pub(crate) fn get_up(&self, worker: u8) {
        if let Some(sleeper) = self.sleepers.get(worker as usize) {
            self.call_up(sleeper);
        }
    }

    // Counts a sleeper among those that search, if it is parked.
    fn call_up(&self, sleeper: &Sleeper) -> bool {
        if !sleeper.parked.load(Ordering::SeqCst) || !sleeper.parked.swap(false, Ordering::SeqCst) {
            return false;
        }
        self.searching.fetch_add(1, Ordering::SeqCst);
        self.sleeping.fetch_sub(1, Ordering::SeqCst);
        true
    }
}

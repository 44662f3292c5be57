//! A board: a table in which threads put the results of models. One thread takes the results and reports them.

ghost use Rattle.std.specs.Prelude.{◌≡◌, ◌<◌, IfOk, IfSome};

use crate::tested::Became;
use std::alloc::{AllocError, Global};
use std::sync::atomic::{AtomicUsize, Ordering};
use std::sync::{Condvar, Mutex, Wait};
use std::time::{Clock, Duration};

/// A table that threads share, with a place for the result of each model. At most one thread claims each model. It puts
/// the model's result here.
#[derive(Drop)]
pub struct Board {
    // The number of models.
    count: usize,
    /// The number of bytes at which the search of each model stops.
    pub(crate) memory: usize,
    // The number of the first model that no thread has claimed.
    next: AtomicUsize,
    // The progress of the search of each model.
    searches: Vec<Noted>,
    // The results that were put here and not yet taken.
    left: Mutex<Left>,
    // Notifies threads that a result was put here.
    changed: Condvar,
}

/// The progress of a search.
#[derive(Clone, Copy)]
pub(crate) struct Far {
    /// The number of worlds that it has found.
    pub(crate) worlds: usize,
    /// The average number of worlds that it found in each second.
    pub(crate) rate: usize,
    /// The number of entries that lead to the world at which it is.
    pub(crate) depth: usize,
}

// The progress of the search of a model. One thread writes it while others read it. So a reader can get an older value
// of one field with a newer value of another.
#[derive(Drop)]
struct Noted {
    // 0 if the model isn't being explored, else the number of worlds plus 1.
    worlds: AtomicUsize,
    // The average number of worlds in each second.
    rate: AtomicUsize,
    // The number of entries that lead to the world at which the search is.
    depth: AtomicUsize,
}

// The results that were put on a board and not yet taken.
#[derive(Drop)]
struct Left {
    // The result of each model.
    found: Vec<Option<Became>>,
    // Whether a thread ran out of memory.
    lacks_memory: bool,
}

impl Board {
    /// Returns a board for `count` models. The search of each stops at `memory` bytes.
    pub(crate) fn new(alloc: Global, count: usize, memory: usize) -> Result<Board, AllocError>
        ensures { IfOk result (λ board. board.memory ≡ memory) }
    {
        let mut found = Vec::new(alloc);
        let mut searches = Vec::new(alloc);
        for _ in 0..count {
            found.push(None)?;
            searches.push(Noted::new())?;
        }
        Ok(Board {
            count,
            memory,
            next: AtomicUsize::new(0),
            searches,
            left: Mutex::new(Left {
                found,
                lacks_memory: false,
            }),
            changed: Condvar::new(),
        })
    }

    /// Claims the next model for the caller, and returns its number. `None` if every model is claimed.
    pub(crate) fn claim(&self) -> Option<usize>
        ensures { IfSome result (λ index. index < self.now.count) }
    {
        let index = self.next.fetch_add(1, Ordering::SeqCst);
        if index < self.count {
            Some(index)
        } else {
            None
        }
    }

    /// Closes the board. From now on no model can be claimed.
    pub fn close(&self) {
        self.next.store(self.count, Ordering::SeqCst);
    }

    /// Whether a thread has claimed the model of this number, or the board is closed.
    pub(crate) fn is_claimed(&self, index: usize) -> bool {
        index < self.next.load(Ordering::SeqCst)
    }

    /// Records that a model is being explored, and the progress of its search.
    pub(crate) fn note(&self, index: usize, far: Far) {
        if let Some(noted) = self.searches.get(index) {
            noted.rate.store(far.rate, Ordering::SeqCst);
            noted.depth.store(far.depth, Ordering::SeqCst);
            noted
                .worlds
                .store(far.worlds.saturating_add(1), Ordering::SeqCst);
        }
    }

    /// Records that a model is no longer being explored.
    pub(crate) fn rest(&self, index: usize) {
        if let Some(noted) = self.searches.get(index) {
            noted.worlds.store(0, Ordering::SeqCst);
        }
    }

    /// The progress of the search of a model. `None` if the model isn't being explored.
    pub(crate) fn far(&self, index: usize) -> Option<Far> {
        let noted = self.searches.get(index)?;
        let worlds = noted.worlds.load(Ordering::SeqCst).checked_sub(1)?;
        Some(Far {
            worlds,
            rate: noted.rate.load(Ordering::SeqCst),
            depth: noted.depth.load(Ordering::SeqCst),
        })
    }

    /// Puts the result of a model here, or records that memory ran out. Wakes all threads that wait for a result.
    pub(crate) fn put<R: Wait>(&self, rt: &R, index: usize, found: Result<Became, AllocError>) {
        self.left.lock(rt).put(index, found);
        self.changed.notify_all();
    }

    /// Whether the result of a model is here.
    pub(crate) fn has<R: Wait>(&self, rt: &R, index: usize) -> bool {
        self.left.lock(rt).has(index)
    }

    /// Waits until the result of a model is here or a thread ran out of memory, for at most a second. Returns whether one
    /// of the two has happened.
    pub(crate) fn waits_a_second<R: Clock + Wait>(&self, rt: &R, index: usize) -> bool {
        let left = self.left.lock(rt);
        let second = Duration::from_secs(1);
        let (_left, waited) = self
            .changed
            .wait_timeout_while(rt, left, second, |left| left.lacks(index));
        !waited.timed_out()
    }

    /// Waits until the result of a model is here, and takes it. `AllocError` if a thread ran out of memory.
    pub(crate) fn take<R: Wait>(&self, rt: &R, index: usize) -> Result<Became, AllocError> {
        let left = self.left.lock(rt);
        let mut left = self.changed.wait_while(rt, left, |left| left.lacks(index));
        left.take(index)
    }
}

impl Noted {
    // The progress of a model that isn't being explored.
    fn new() -> Noted {
        Noted {
            worlds: AtomicUsize::new(0),
            rate: AtomicUsize::new(0),
            depth: AtomicUsize::new(0),
        }
    }
}

impl Left {
    // Puts the result of a model here, or records that memory ran out.
    fn put(&mut self, index: usize, found: Result<Became, AllocError>) {
        match (self.found.get_mut(index), found) {
            (Some(place), Ok(became)) => *place = Some(became),
            _ => self.lacks_memory = true,
        }
    }

    // Whether the result of a model is here.
    fn has(&self, index: usize) -> bool {
        match self.found.get(index) {
            Some(found) => found.is_some(),
            None => false,
        }
    }

    // Whether the result of a model isn't here, and can still come.
    fn lacks(&self, index: usize) -> bool {
        !self.lacks_memory && !self.has(index)
    }

    // Takes the result of a model.
    fn take(&mut self, index: usize) -> Result<Became, AllocError> {
        match self.found.get_mut(index) {
            Some(place) => place.take().ok_or(AllocError),
            None => Err(AllocError),
        }
    }
}

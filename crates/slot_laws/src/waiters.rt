//! The steps on the list of the fibers that wait for a topic.
ghost use Rattle.std.specs.Prelude.{◌≡◌, ◌++◌, ◌∷◌, [], OnErr, OnOk};

use std::alloc::{AllocError, Global};
use std::marker::Model;
use std::mem;

/// The data under the lock of a topic: the fibers that wait for it, in the order in which they came.
#[derive(Drop)]
pub struct Waiters {
    alloc: Global,
    fibers: Vec<u16>,
}

impl Model for Waiters {
    ghost use Rattle.std.specs.Prelude.{List, ℕ};

    ghost Value = { List ℕ };

    ghost view = { λ w. w.fibers.items };
}

impl Waiters {
    /// An empty list. Allocates no memory.
    pub fn new(alloc: Global) -> Waiters
        ensures { result ≡ [] }
    {
        Waiters {
            alloc,
            fibers: Vec::new(alloc),
        }
    }

    /// Puts a fiber last. Returns `AllocError` if there is no memory for it, and then changes nothing.
    pub fn register(&mut self, fiber: u16) -> Result<(), AllocError>
        ensures ok { OnOk result (self.new ≡ self.old ++ fiber ∷ []) }
        ensures err { OnErr result (self.new ≡ self.old) }
    {
        self.fibers.push(fiber).map_err(|_| AllocError)
    }

    /// Takes all fibers of the list, which is then empty. Allocates no memory.
    pub fn drain(&mut self) -> Vec<u16>
        ensures value { result.items ≡ self.old }
        ensures none { self.new ≡ [] }
    {
        mem::replace(&mut self.fibers, Vec::new(self.alloc))
    }
}

//! A worker's queue of ready numbers, from which the other workers steal.
ghost use Rattle.std.specs.Prelude.{◌≡◌, ◌∷◌, [], IfErr, IfOk, MatchOption, OnOk};
ghost use Rattle.crossbeam_deque.specs.Handles.{IsPassOf, stealer_deque, stealer_flavor, view as pass_view};
ghost use Rattle.crossbeam_deque.specs.Handles.{worker_deque, worker_flavor};
ghost use Rattle.ready_queues.specs.Ledger.{traffic};
ghost use Rattle.ready_queues.specs.Moments.{PutLast, TookFirst, WasEmpty};
ghost use Rattle.ready_queues.specs.Steals.{TellsOf};

use crate::traffic::{Ledgered, Puts, Takes, Traffic};
use crossbeam_deque::{Pass, Steal, Stealer, Worker};
use std::alloc::{AllocError, Global};
use std::marker::Model;

type Queue = Worker<u16, Global, Traffic, Ledgered>;

type QueueStealer = Stealer<u16, Global, Traffic, Ledgered>;

/// A worker's own end of its queue. The queue is first in, first out.
#[derive(Drop)]
pub struct ReadyDeque {
    deque: Queue,
}

impl Model for ReadyDeque {
    ghost use Rattle.std.specs.Prelude.{◌≡◌};
    ghost use Rattle.crossbeam_deque.specs.Handles.{worker_flavor, worker_view};
    ghost use Rattle.ready_queues.specs.declared.traffic.Traffic.{Traffic};

    ghost Value = { Traffic };

    ghost view = { λ d. worker_view d.deque };

    // 0 is first in, first out
    ghost invariant = { λ d. worker_flavor d.deque ≡ 0 };
}

impl ReadyDeque {
    /// An empty queue with room for `capacity` numbers, a power of two; it grows beyond. Returns `AllocError` if there
    /// is no memory for it.
    pub fn new(alloc: Global, capacity: usize) -> Result<ReadyDeque, AllocError>
        ensures { IfOk result (λ d. d ≡ traffic [] []) }
    {
        let deque = Worker::fifo_as(alloc, capacity)?;
        Ok(ReadyDeque { deque })
    }

    /// Puts a number last. If the queue can't grow, because of memory or of a limit of the deque, returns the number
    /// and changes nothing.
    #[inline(always)]
    pub fn push(&mut self, number: u16) -> Result<(), u16>
        ensures ok { OnOk result (PutLast self.old (number ∷ []) self.new) }
        ensures back { IfErr result (λ n. n ≡ number) }
        ensures unchanged { IfErr result (λ _. self.new ≡ self.old) }
    {
        self.deque.push_as::<Puts>(number)
    }

    /// Takes the first number. Returns `None` only if the queue was empty at a moment of the call.
    #[inline(always)]
    pub fn take(&mut self) -> Option<u16>
        ensures { MatchOption result ((self.new ≡ self.old) × WasEmpty self.old)
            (λ n. TookFirst self.old (n ∷ []) self.new) }
    {
        self.deque.pop_as::<Takes>()
    }

    /// Another worker's end of this queue. Returns `AllocError` if the queue has too many ends.
    pub fn victim(&self) -> Result<Victim, AllocError>
        ensures { IfOk result (λ v. v ≡ traffic [] []) }
    {
        let (stealer, pass) = end_of(&self.deque)?;
        Ok(Victim { stealer, pass })
    }
}

// Another end of this queue: a stealer, and its own pass there.
fn end_of(queue: &Queue) -> Result<(QueueStealer, Pass<u16, Traffic>), AllocError>
    ensures queue { IfOk result (λ end. stealer_deque end.0 ≡ worker_deque queue.now) }
    ensures flavor { IfOk result (λ end. stealer_flavor end.0 ≡ worker_flavor queue.now) }
    ensures pass { IfOk result (λ end. IsPassOf (stealer_deque end.0) end.1) }
    ensures nothing { IfOk result (λ end. pass_view end.1 ≡ traffic [] []) }
{
    let stealer = queue.stealer()?;
    let pass = stealer.pass();
    Ok((stealer, pass))
}

/// A worker's end of another worker's queue: the stealer, and this worker's own pass at the deque.
#[derive(Drop)]
pub struct Victim {
    stealer: QueueStealer,
    pass: Pass<u16, Traffic>,
}

impl Model for Victim {
    ghost use Rattle.std.specs.Prelude.{◌≡◌};
    ghost use Rattle.crossbeam_deque.specs.Handles.{IsPassOf, stealer_deque, stealer_flavor, view as pass_view};
    ghost use Rattle.ready_queues.specs.declared.traffic.Traffic.{Traffic};

    ghost Value = { Traffic };

    ghost view = { λ v. pass_view v.pass };

    // the pass is one at the stealer's deque, which is first in, first out
    ghost invariant = { λ v. IsPassOf (stealer_deque v.stealer) v.pass × (stealer_flavor v.stealer ≡ 0) };
}

impl Victim {
    /// Takes the first number. Returns `Empty` only if the queue was empty at a moment of the call, and `Retry` if
    /// another worker took a number first.
    pub fn steal(&mut self) -> Steal<u16>
        ensures { TellsOf result self.old self.new }
    {
        self.stealer.steal_as::<Takes>(&mut self.pass)
    }
}

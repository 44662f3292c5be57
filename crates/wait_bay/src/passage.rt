//! Puts tasks into their slots, takes them out, and wakes fibers.
ghost use Rattle.std.specs.Prelude.{◌≡◌, ◌≢◌, ◌<◌, ◌∷◌, [], IfErr, IfOk, IfSome, IsTrue, Option, false, true};
ghost use Rattle.fiber_poll.specs.Tasks.{TaskView};
ghost use Rattle.wait_bay.specs.Names.{IsNamed, MayLie};
ghost use Rattle.wait_bay.specs.Bays.{IsSeatOf, refusal};

use crate::bay::Bay;
use crate::fault::{PutError, PutFault};
use crate::rule::{Goes, Knowledge, Returns};
use crate::seat::BaySeat;
use atomic_table::Seat;
use fiber_poll::FiberTask;
use std::sync::Wait;

impl<'a> Bay<'a> {
    /// Stores the task of a fiber, and returns whether the caller has to queue its number: if the task is `ready`, or
    /// the fiber was woken since its task was taken.
    ///
    /// A refused task is returned, and its slot is as it was: `WrongSlot` if the task is another fiber's, otherwise
    /// `Occupied` if a task is in the slot, or the slot is out with another seat. Allocates no memory.
    #[inline(always)]
    pub fn put(
        &self,
        rt: &impl Wait,
        seat: &mut BaySeat<'a>,
        f: u16,
        task: FiberTask<'a>,
        ready: bool,
    ) -> Result<bool, PutFault<'a>>
        requires here { IsSeatOf self.now seat.old }
        requires within { f < self.now.fibers }
        requires named { IsNamed self.now.named task }
        ensures same { seat.new ≡ seat.old }
        ensures own { IfOk result (λ _. task.entry.state.number ≡ f) }

        // A task that is ready has to be queued.
        ensures ready { IfOk result (λ queued. IsTrue ready → IsTrue queued) }
        ensures error { IfErr result (λ fault. fault.error ≡ refusal f task.entry.state.number) }
        ensures back { IfErr result (λ fault. fault.task ≡ task.entry) }
    {
        if task.number() != f {
            return Err(PutFault {
                task,
                error: PutError::WrongSlot(f),
            });
        }
        let mut slot = self.slots[f as usize].lock(rt);
        let before = *slot;
        let Ok(queued) = slot.put(ready) else {
            return Err(PutFault {
                task,
                error: PutError::Occupied(f),
            });
        };
        match self.lay(seat, f, task) {
            None => Ok(queued),
            Some(task) => {
                *slot = before;
                Err(PutFault {
                    task,
                    error: PutError::Occupied(f),
                })
            }
        }
    }

    /// Takes the task of a fiber, and forgets the wakes so far. Returns `None` if no task is in the slot, or the slot
    /// is out with another seat. Allocates no memory.
    #[inline(always)]
    pub fn take(&self, rt: &impl Wait, seat: &mut BaySeat<'a>, f: u16) -> Option<FiberTask<'a>>
        requires here { IsSeatOf self.now seat.old }
        requires within { f < self.now.fibers }
        ensures same { seat.new ≡ seat.old }
        ensures own { IfSome result (λ t. t.state.number ≡ f) }
        ensures named { IfSome result (IsNamed self.now.named) }
    {
        let mut slot = self.slots[f as usize].lock(rt);
        let before = *slot;
        if !slot.take() {
            return None;
        }
        if !self.take_out(&mut seat.seat, f) {
            *slot = before;
            return None;
        }
        let task = self.table.shared.exchange(&mut seat.seat, f as usize, None);
        self.give_back(&mut seat.seat, f);
        task
    }

    /// Wakes a fiber, and returns whether the caller has to queue its number: if its task is in its slot and no wake
    /// came before. If a worker has the task, its next `put` reports the wake. Allocates no memory.
    #[inline(always)]
    pub fn wake(&self, rt: &impl Wait, f: u16) -> bool
        requires within { f < self.now.fibers }
    {
        self.slots[f as usize].lock(rt).wake()
    }

    // Puts a task into its slot, if the slot is at home and empty. Otherwise returns the task, and the slot is as it
    // was.
    #[inline(always)]
    fn lay(&self, seat: &mut BaySeat<'a>, f: u16, task: FiberTask<'a>) -> Option<FiberTask<'a>>
        requires here { IsSeatOf self.now seat.old }
        requires within { f < self.now.fibers }
        requires own { (task.state.number ≡ f) × IsNamed self.now.named task }
        ensures same { seat.new ≡ seat.old }
        ensures back { IfSome result (λ t. t ≡ task.entry) }
    {
        if !self.take_out(&mut seat.seat, f) {
            return Some(task);
        }
        let before = self
            .table
            .shared
            .exchange(&mut seat.seat, f as usize, Some(task));
        let back = match before {
            None => None,
            Some(other) => self
                .table
                .shared
                .exchange(&mut seat.seat, f as usize, Some(other)),
        };
        self.give_back(&mut seat.seat, f);
        back
    }

    // Takes a slot out, if it is at home. Tries once: a seat that has the slot is putting or taking.
    #[inline(always)]
    fn take_out(&self, seat: &mut Seat<Option<FiberTask<'a>>, Knowledge>, f: u16) -> bool
        requires here { seat.old.table_id ≡ self.now.table }
        requires free { seat.old.me.1 ≡ [] }
        requires within { f < self.now.fibers }
        ensures table { seat.new.table_id ≡ seat.old.table_id }
        ensures known { seat.new.me.0 ≡ seat.old.me.0 }
        ensures out { result ≡ true → (y : Option TaskView) × (seat.new.me.1 ≡ (f, y) ∷ []) ×
            MayLie seat.old.me.0.named f y }
        ensures kept { result ≡ false → seat.new.me.1 ≡ [] }
    {
        let found = self
            .table
            .shared
            .compare_exchange::<Goes>(seat, f as usize, 0, 1);
        found == 0
    }

    // Brings a slot home, with what it can hold.
    #[inline(always)]
    fn give_back(&self, seat: &mut Seat<Option<FiberTask<'a>>, Knowledge>, f: u16)
        requires here { seat.old.table_id ≡ self.now.table }
        requires out { (y : Option TaskView) × (seat.old.me.1 ≡ (f, y) ∷ []) × MayLie seat.old.me.0.named f y }
        requires within { f < self.now.fibers }
        ensures table { seat.new.table_id ≡ seat.old.table_id }
        ensures known { seat.new.me.0 ≡ seat.old.me.0 }
        ensures free { seat.new.me.1 ≡ [] }
    {
        self.table.shared.store::<Returns>(seat, f as usize, 0);
    }
}

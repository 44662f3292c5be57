//! A worker's seat at the bay.
ghost use Rattle.std.specs.Prelude.{◌≡◌, ◌⊎◌, ◌<◌, IfErr, IfOk, IfSome};
ghost use Rattle.wait_bay.specs.Bays.{IsSeatOf};
ghost use Rattle.wait_bay.specs.Names.{IsNamed};
ghost use Rattle.steal_pool.specs.Runs.{ChildIsNamed};

use cell_registry::RunError;
use fiber_poll::{FiberTask, Topic, Turn};
use run_recording::TurnLog;
use std::marker::Model;
use std::sync::Wait;
use wait_bay::{Bay, BaySeat};

/// A bay and one worker's seat at it, through which the worker takes tasks, moves them and puts them back. For a fiber
/// or a topic beyond the bay it returns `Lost`.
#[derive(Drop)]
pub(crate) struct WorkerSeat<'b, 'a> {
    bay: &'b Bay<'a>,
    seat: BaySeat<'a>,
}

impl<'b, 'a> Model for WorkerSeat<'b, 'a> {
    ghost use Rattle.std.specs.Coded.{codes};
    ghost use Rattle.derived_ops.specs.Stored.{tree_code};
    ghost use Rattle.atomic_table.specs.Seated.{table_id_coded};
    ghost use Rattle.wait_bay.specs.Bays.{BayView, IsSeatOf};

    ghost Value = { BayView };

    ghost coded = { Prim.hlevel (codes, tree_code, table_id_coded) };

    ghost view = { λ b. b.bay.now };

    ghost invariant = { λ b. IsSeatOf b.bay.now b.seat };
}

impl<'b, 'a> WorkerSeat<'b, 'a> {
    /// A seat at this bay.
    pub(crate) fn new(bay: &'b Bay<'a>, seat: BaySeat<'a>) -> WorkerSeat<'b, 'a>
        requires here { IsSeatOf bay.now seat }
        ensures { result ≡ bay.now }
    {
        WorkerSeat { bay, seat }
    }

    /// Takes the task of a fiber, if it is in its slot.
    #[inline(always)]
    pub(crate) fn take(&mut self, rt: &impl Wait, number: u16) -> Option<FiberTask<'a>>
        ensures same { self.new ≡ self.old }
        ensures own { IfSome result (λ t. t.state.number ≡ number) }
        ensures named { IfSome result (IsNamed self.old.named) }
    {
        if number < self.bay.fibers() {
            self.bay.take(rt, &mut self.seat, number)
        } else {
            None
        }
    }

    /// Puts a task back. Returns whether its number has to be queued.
    #[inline(always)]
    pub(crate) fn put(
        &mut self,
        rt: &impl Wait,
        task: FiberTask<'a>,
        ready: bool,
    ) -> Result<bool, RunError>
        requires named { IsNamed self.old.named task }
        ensures same { self.new ≡ self.old }
    {
        let number = task.number();
        if number >= self.bay.fibers() {
            return Err(RunError::Lost(number));
        }
        match self.bay.put(rt, &mut self.seat, number, task, ready) {
            Ok(queued) => Ok(queued),
            Err(_) => Err(RunError::Lost(number)),
        }
    }

    /// Makes a turn of a task of this bay, and reports it to this log. Unless memory was refused, the task still
    /// belongs to what the bay names.
    #[inline(always)]
    pub(crate) fn turn<L: TurnLog>(
        &self,
        task: &mut FiberTask<'a>,
        budget: u32,
        log: &mut L,
    ) -> Result<Turn<'a>, RunError>
        requires named { IsNamed self.now.named task.old }
        requires budget { 1 < budget }
        ensures named { IfOk result (λ _. IsNamed self.now.named task.new) }
        ensures child { IfOk result (ChildIsNamed self.now.named) }
        ensures kept { IfErr result (λ error. (error ≡ RunError.NoMemory) ⊎ IsNamed self.now.named task.new) }
    {
        log.begins(&*task);
        let answer = task.turn_noted(budget, log);
        log.turned(&*task, &answer);
        answer
    }

    /// Wakes a fiber. Returns whether its number has to be queued.
    #[inline(always)]
    pub(crate) fn wake(&self, rt: &impl Wait, number: u16) -> Result<bool, RunError> {
        if number >= self.bay.fibers() {
            return Err(RunError::Lost(number));
        }
        Ok(self.bay.wake(rt, number))
    }

    /// Records that a fiber waits for a topic.
    pub(crate) fn register(
        &self,
        rt: &impl Wait,
        topic: Topic,
        number: u16,
    ) -> Result<(), RunError> {
        if !self.bay.has(topic) {
            return Err(RunError::Lost(number));
        }
        self.bay.register(rt, topic, number)?;
        Ok(())
    }

    /// Whether fibers possibly wait for this topic, on which a turn of this fiber acted.
    #[inline(always)]
    pub(crate) fn is_awaited(&self, topic: Topic, number: u16) -> Result<bool, RunError> {
        if !self.bay.has(topic) {
            return Err(RunError::Lost(number));
        }
        Ok(self.bay.is_awaited(topic))
    }

    /// Takes the fibers that wait for this topic, on which a turn of this fiber acted; the list is then empty.
    pub(crate) fn drain(
        &self,
        rt: &impl Wait,
        topic: Topic,
        number: u16,
    ) -> Result<Vec<u16>, RunError> {
        if !self.bay.has(topic) {
            return Err(RunError::Lost(number));
        }
        Ok(self.bay.drain_topic(rt, topic))
    }
}

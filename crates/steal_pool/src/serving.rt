//! How a worker serves a number: it takes the task, makes turns of it, and puts it back.
ghost use Rattle.std.specs.Prelude.{◌≡◌, ◌<◌, IfOk};
ghost use Rattle.steal_pool.specs.Runs.{ChildIsNamed};
ghost use Rattle.wait_bay.specs.Names.{IsNamed};

use crate::queues::Queues;
use crate::watch::Watch;
use crate::worker::Shared;
use crate::worker_seat::WorkerSeat;
use cell_registry::RunError;
use fiber_poll::{FiberTask, Topic, Turn};
use ready_queues::FaultCell;
use std::mem;
use std::sync::Wait;

// Why a worker puts a task back.
#[derive(Clone, Copy)]
enum Why {
    // The run is over.
    Over,
    // The fiber has ended.
    Ended,
    // The fiber can't go on.
    Rests,
    // The fiber could go on, but the worker serves this number next.
    MakesWay(u16),
    // The fiber met this fault, and still has its term.
    Fault(RunError),
}

// What a worker does after a turn.
#[derive(Clone, Copy)]
enum Step {
    // Makes another one. The fiber possibly waits for this topic.
    GoesOn(Option<Topic>),
    // Puts the task back.
    Stops(Why),
}

impl<'g, 'f, W: Watch, C: FaultCell> Shared<'g, 'f, W, C> {
    /// Makes turns of a fiber's task until it is put back. Returns the number that the worker has taken from its own
    /// queue to serve next, if it has.
    ///
    /// A fiber that could go on at once is put back only if the worker's queue has another number: the worker takes
    /// that one and puts this one last. Otherwise the worker goes on with it. If it has started a child, the child is
    /// that other number: the parent is put back and queued, and the worker goes on with the child, which has never
    /// been in the bay.
    #[inline(never)]
    pub(crate) fn serve<'b, 'a, R: Wait>(
        &self,
        rt: &R,
        worker: u8,
        queues: &mut Queues<'_>,
        seat: &mut WorkerSeat<'b, 'a>,
        number: u16,
        log: &mut W::Log,
    ) -> Result<Option<u16>, RunError>
        ensures same { seat.new ≡ seat.old }
    {
        let Some(mut task) = seat.take(rt, number) else {
            return Err(RunError::Lost(number));
        };
        match self.run_on(rt, worker, queues, seat, &mut task, log)? {
            // The task is put back, so that the fault can be found again.
            Why::Over => {
                seat.put(rt, task, false)?;
                Ok(None)
            }
            Why::Ended => self.end(rt, queues, seat, task),
            Why::Rests => self.rest(rt, queues, seat, task),
            Why::MakesWay(next) => self.make_way(rt, queues, seat, task, next),
            Why::Fault(fault) => {
                seat.put(rt, task, false)?;
                Err(fault)
            }
        }
    }

    // Makes turns of a fiber's task until it has to be put back, and returns why. If the worker goes on with a child,
    // the child's task takes the place of its parent's. After an error no task is put back.
    #[inline(always)]
    fn run_on<'b, 'a, R: Wait>(
        &self,
        rt: &R,
        worker: u8,
        queues: &mut Queues<'_>,
        seat: &mut WorkerSeat<'b, 'a>,
        task: &mut FiberTask<'a>,
        log: &mut W::Log,
    ) -> Result<Why, RunError>
        requires named { IsNamed seat.old.named task.old }
        ensures same { seat.new ≡ seat.old }
        ensures named { IfOk result (λ _. IsNamed seat.old.named task.new) }
    {
        let mut waited = None;
        for _ in rt.forever() {
            if self.first_fault.is_known() {
                return Ok(Why::Over);
            }
            self.watch.enter(worker, task.number());
            match self.step(rt, queues, seat, task, waited, log)? {
                Step::GoesOn(topic) => waited = topic,
                Step::Stops(why) => return Ok(why),
            }
        }
        unreachable!()
    }

    // Makes one turn and what belongs to it. `waited` is what the fiber waited for in the turn before.
    #[inline(always)]
    fn step<'b, 'a, R: Wait>(
        &self,
        rt: &R,
        queues: &mut Queues<'_>,
        seat: &mut WorkerSeat<'b, 'a>,
        task: &mut FiberTask<'a>,
        waited: Option<Topic>,
        log: &mut W::Log,
    ) -> Result<Step, RunError>
        requires named { IsNamed seat.old.named task.old }
        ensures same { seat.new ≡ seat.old }
        ensures named { IfOk result (λ _. IsNamed seat.old.named task.new) }
    {
        match seat.turn(task, self.budget, log) {
            Ok(turn) => self.follow(rt, queues, seat, task, turn, waited),
            // The fiber has lost its term.
            Err(RunError::NoMemory) => Err(RunError::NoMemory),
            Err(fault) => Ok(Step::Stops(Why::Fault(fault))),
        }
    }

    // Does what belongs to a turn that was made.
    #[inline(always)]
    fn follow<'b, 'a, R: Wait>(
        &self,
        rt: &R,
        queues: &mut Queues<'_>,
        seat: &mut WorkerSeat<'b, 'a>,
        task: &mut FiberTask<'a>,
        turn: Turn<'a>,
        waited: Option<Topic>,
    ) -> Result<Step, RunError>
        requires named { IsNamed seat.old.named task.old }
        requires child { ChildIsNamed seat.old.named turn }
        ensures same { seat.new ≡ seat.old }
        ensures named { IfOk result (λ _. IsNamed seat.old.named task.new) }
    {
        match turn {
            Turn::Ended(_) => Ok(Step::Stops(Why::Ended)),
            Turn::Waits(topic) => wait_for(rt, seat, topic, task.number(), waited),
            Turn::OutOfMoves => Ok(Step::Stops(Why::Rests)),
            Turn::Cedes => Ok(next_step(queues)),
            Turn::Started(child) => self.go_on_with(rt, queues, seat, task, child),
            Turn::WakeFiber(other) => {
                self.wake(rt, queues, seat, other)?;
                Ok(next_step(queues))
            }
            Turn::WakeTopic(topic) => {
                self.wake_all_of(rt, queues, seat, topic, task.number())?;
                Ok(next_step(queues))
            }
        }
    }

    // Queues the child that a fiber has started, if the worker's queue has another number, and otherwise the fiber
    // itself: the worker then holds the child in place of its parent.
    #[inline(always)]
    fn go_on_with<'b, 'a, R: Wait>(
        &self,
        rt: &R,
        queues: &mut Queues<'_>,
        seat: &mut WorkerSeat<'b, 'a>,
        task: &mut FiberTask<'a>,
        child: FiberTask<'a>,
    ) -> Result<Step, RunError>
        requires named { IsNamed seat.old.named task.old }
        requires child { IsNamed seat.old.named child }
        ensures same { seat.new ≡ seat.old }
        ensures named { IfOk result (λ _. IsNamed seat.old.named task.new) }
    {
        if let Some(next) = queues.own.take() {
            self.put_ready(rt, queues, seat, child)?;
            return Ok(Step::Stops(Why::MakesWay(next)));
        }
        self.put_ready(rt, queues, seat, mem::replace(task, child))?;
        Ok(Step::GoesOn(None))
    }

    // Puts back the task of a fiber that could go on, and queues it, since the worker serves this number next.
    #[inline(always)]
    fn make_way<'b, 'a, R: Wait>(
        &self,
        rt: &R,
        queues: &mut Queues<'_>,
        seat: &mut WorkerSeat<'b, 'a>,
        task: FiberTask<'a>,
        next: u16,
    ) -> Result<Option<u16>, RunError>
        requires named { IsNamed seat.old.named task }
        ensures same { seat.new ≡ seat.old }
    {
        let number = task.number();
        seat.put(rt, task, true)?;
        self.pass_on(queues, number)?;
        Ok(Some(next))
    }

    // Puts back the task of a fiber that can't go on. Queues it if it was woken meanwhile.
    fn rest<'b, 'a, R: Wait>(
        &self,
        rt: &R,
        queues: &mut Queues<'_>,
        seat: &mut WorkerSeat<'b, 'a>,
        task: FiberTask<'a>,
    ) -> Result<Option<u16>, RunError>
        requires named { IsNamed seat.old.named task }
        ensures same { seat.new ≡ seat.old }
    {
        let number = task.number();
        if seat.put(rt, task, false)? {
            self.pass_on(queues, number)?;
        } else {
            self.release();
        }
        Ok(None)
    }

    // Puts back the task of a fiber that has ended, and wakes all that wait for its end. The number is held until they
    // are queued.
    fn end<'b, 'a, R: Wait>(
        &self,
        rt: &R,
        queues: &mut Queues<'_>,
        seat: &mut WorkerSeat<'b, 'a>,
        task: FiberTask<'a>,
    ) -> Result<Option<u16>, RunError>
        requires named { IsNamed seat.old.named task }
        ensures same { seat.new ≡ seat.old }
    {
        let number = task.number();
        let woken = seat.put(rt, task, false)?;
        let topic = Topic::Fiber(number);
        if seat.is_awaited(topic, number)? {
            self.wake_all_of(rt, queues, seat, topic, number)?;
        }
        if woken {
            self.pass_on(queues, number)?;
        } else {
            self.release();
        }
        Ok(None)
    }

    // Puts the task of a fiber into its slot, and queues its number, which counts as one more that is queued or held.
    fn put_ready<'b, 'a, R: Wait>(
        &self,
        rt: &R,
        queues: &mut Queues<'_>,
        seat: &mut WorkerSeat<'b, 'a>,
        task: FiberTask<'a>,
    ) -> Result<(), RunError>
        requires named { IsNamed seat.old.named task }
        ensures same { seat.new ≡ seat.old }
    {
        let number = task.number();
        seat.put(rt, task, true)?;
        self.queue(queues, number)
    }

    // Wakes a fiber.
    fn wake<'b, 'a, R: Wait>(
        &self,
        rt: &R,
        queues: &mut Queues<'_>,
        seat: &WorkerSeat<'b, 'a>,
        other: u16,
    ) -> Result<(), RunError> {
        if seat.wake(rt, other)? {
            self.queue(queues, other)?;
        }
        Ok(())
    }

    // Wakes all that wait for this topic, on which a turn of this fiber acted.
    fn wake_all_of<'b, 'a, R: Wait>(
        &self,
        rt: &R,
        queues: &mut Queues<'_>,
        seat: &WorkerSeat<'b, 'a>,
        topic: Topic,
        number: u16,
    ) -> Result<(), RunError> {
        for waiter in seat.drain(rt, topic, number)? {
            self.wake(rt, queues, seat, waiter)?;
        }
        Ok(())
    }
}

// After a turn that waits for this topic: the fiber rests if it waited for it in the turn before, too.
#[inline(always)]
fn wait_for<'b, 'a, R: Wait>(
    rt: &R,
    seat: &WorkerSeat<'b, 'a>,
    topic: Topic,
    number: u16,
    waited: Option<Topic>,
) -> Result<Step, RunError> {
    if waited == Some(topic) {
        return Ok(Step::Stops(Why::Rests));
    }
    seat.register(rt, topic, number)?;
    Ok(Step::GoesOn(Some(topic)))
}

// After a turn of a fiber that could go on: it makes way if the worker's queue has another number.
#[inline(always)]
fn next_step(queues: &mut Queues<'_>) -> Step {
    match queues.own.take() {
        Some(next) => Step::Stops(Why::MakesWay(next)),
        None => Step::GoesOn(None),
    }
}

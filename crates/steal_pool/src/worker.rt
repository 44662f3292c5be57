//! One worker: the numbers that it serves, and its life.
ghost use Rattle.std.specs.Prelude.{◌<◌};

use crate::idle::{Idle, Sleeper};
use crate::laws;
use crate::queues::Queues;
use crate::watch::Watch;
use crate::worker_seat::WorkerSeat;
use cell_registry::RunError;
use crossbeam_utils::Backoff;
use crossbeam_utils::sync::Parker;
use ready_queues::{FaultCell, FirstFault, Learned};
use std::alloc::{AllocError, Global};
use std::mem::drop;
use std::sync::Wait;
use std::sync::atomic::{AtomicU64, Ordering};

// How often an idle worker looks at all queues before it sleeps. The looks take some microseconds.
const LOOKS: u32 = 10;

/// One worker: its queues, its seat at the bay, its parker, and room for a fault that it can meet.
#[derive(Drop)]
pub(crate) struct Worker<'q, 'b, 'a> {
    number: u8,
    queues: Queues<'q>,
    seat: WorkerSeat<'b, 'a>,
    parker: Parker,
    room: Box<RunError>,
}

impl<'q, 'b, 'a> Worker<'q, 'b, 'a> {
    /// A worker, and its unparker. Returns `AllocError` if there is no memory for them.
    pub(crate) fn new(
        alloc: Global,
        number: u8,
        queues: Queues<'q>,
        seat: WorkerSeat<'b, 'a>,
    ) -> Result<(Worker<'q, 'b, 'a>, Sleeper), AllocError> {
        let (parker, sleeper, room) = parts(alloc)?;
        let worker = Worker {
            number,
            queues,
            seat,
            parker,
            room,
        };
        Ok((worker, sleeper))
    }
}

// A worker's parker, its unparker, and room for a fault.
fn parts(alloc: Global) -> Result<(Parker, Sleeper, Box<RunError>), AllocError> {
    let parker = Parker::new(alloc)?;
    let sleeper = Sleeper::new(parker.unparker().clone()?);
    let room = Box::new(alloc, RunError::NoWorker).map_err(AllocError::from)?;
    Ok((parker, sleeper, room))
}

/// What the workers share, besides the bay and the queues.
pub(crate) struct Shared<'g, 'f, W: Watch, C: FaultCell> {
    pub watch: &'g W,
    pub budget: u32,
    /// The number of numbers that are queued or held.
    pub active: AtomicU64,
    pub idle: Idle,
    pub first_fault: FirstFault<'f, C>,
    ghost some: { 1 < budget },
}

impl<'g, 'f, W: Watch, C: FaultCell> Drop for Shared<'g, 'f, W, C> {
    fn drop(self) {
        let Self {
            watch: _,
            budget: _,
            active: _,
            idle,
            first_fault: _,
        } = self;
        drop(idle);
    }
}

// The result of a look around.
#[derive(Clone, Copy)]
enum Searched {
    Found(u16),
    Nothing,
    Over,
}

impl<'g, 'f, W: Watch, C: FaultCell> Shared<'g, 'f, W, C> {
    /// Works until the run is over, and returns what is then known of the first fault.
    pub(crate) fn work<'q, 'b, 'a, R: Wait>(
        &self,
        rt: &R,
        worker: Worker<'q, 'b, 'a>,
    ) -> Learned<C> {
        let Worker {
            number,
            mut queues,
            mut seat,
            parker,
            room,
        } = worker;
        let mut log = self.watch.log();
        let ended = self.serve_all(rt, number, &mut queues, &mut seat, &parker, &mut log);
        self.watch.keep(number, log);
        match ended {
            Ok(()) => self.first_fault.learned(None),
            Err(fault) => self.tell(room, fault),
        }
    }

    // Serves one number after another until the run is over.
    fn serve_all<'b, 'a, R: Wait>(
        &self,
        rt: &R,
        worker: u8,
        queues: &mut Queues<'_>,
        seat: &mut WorkerSeat<'b, 'a>,
        parker: &Parker,
        log: &mut W::Log,
    ) -> Result<(), RunError> {
        let mut next = None;
        for _ in rt.forever() {
            let Some(number) = self.next(rt, worker, next, queues, parker) else {
                return Ok(());
            };
            next = self.serve(rt, worker, queues, seat, number, log)?;
        }
        unreachable!()
    }

    // Records the fault in `room` and stops all workers.
    fn tell(&self, room: Box<RunError>, fault: RunError) -> Learned<C> {
        let mut room = room;
        *room = fault;
        let learned = self.first_fault.learned(Some(room));
        self.idle.wake_all();
        learned
    }

    // The number to serve next: the given one, the first of the worker's own queue, or one that it searches for. `None`
    // once the run is over.
    #[inline(always)]
    fn next<R: Wait>(
        &self,
        rt: &R,
        worker: u8,
        hand: Option<u16>,
        queues: &mut Queues<'_>,
        parker: &Parker,
    ) -> Option<u16> {
        if hand.is_some() {
            return hand;
        }
        match queues.own.take() {
            Some(number) => Some(number),
            None => self.search(rt, worker, queues, parker),
        }
    }

    // Searches for a number, and sleeps if there is none for a while. `None` once the run is over.
    fn search<R: Wait>(
        &self,
        rt: &R,
        worker: u8,
        queues: &mut Queues<'_>,
        parker: &Parker,
    ) -> Option<u16> {
        self.idle.begin_search();
        for _ in rt.forever() {
            match self.look_on(rt, queues) {
                Searched::Found(number) => {
                    self.idle.end_search();
                    return Some(number);
                }
                Searched::Over => return None,
                Searched::Nothing => {}
            }
            self.idle.park(worker);
            let last = self.look(rt, queues);
            if let Searched::Nothing = last {
                parker.park(rt);
            }
            self.idle.get_up(worker);
            if let Searched::Found(number) = last {
                self.idle.end_search();
                return Some(number);
            }
        }
        unreachable!()
    }

    // Looks at all queues, several times.
    fn look_on<R: Wait>(&self, rt: &R, queues: &mut Queues<'_>) -> Searched {
        let backoff = Backoff::new();
        for _ in 0..LOOKS {
            let look = self.look(rt, queues);
            let Searched::Nothing = look else {
                return look;
            };
            backoff.snooze();
        }
        Searched::Nothing
    }

    // Looks at all queues once.
    fn look<R: Wait>(&self, rt: &R, queues: &mut Queues<'_>) -> Searched {
        if self.active.load(Ordering::SeqCst) == 0 || self.first_fault.is_known() {
            return Searched::Over;
        }
        match queues.steal(rt) {
            Some(number) => Searched::Found(number),
            None => Searched::Nothing,
        }
    }

    /// Queues a number that was neither queued nor held.
    #[inline(always)]
    pub(crate) fn queue(&self, queues: &mut Queues<'_>, number: u16) -> Result<(), RunError> {
        self.active.fetch_add(1, Ordering::SeqCst);
        self.pass_on(queues, number)
    }

    /// Queues a number that was held.
    #[inline(always)]
    pub(crate) fn pass_on(&self, queues: &mut Queues<'_>, number: u16) -> Result<(), RunError> {
        match queues.own.push(number) {
            Ok(()) => {
                self.idle.wake_one();
                Ok(())
            }
            Err(_) => Err(RunError::NoMemory),
        }
    }

    /// Releases a number that was held. The run is over once none is queued or held.
    #[inline(always)]
    pub(crate) fn release(&self) {
        if laws::was_last(self.active.fetch_sub(1, Ordering::SeqCst)) {
            self.idle.wake_all();
        }
    }
}

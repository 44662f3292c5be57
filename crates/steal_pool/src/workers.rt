//! The workers before they start.
ghost use Rattle.std.specs.Prelude.{◌≡◌, ◌<◌};
ghost use Rattle.wait_bay.specs.Bays.{IsSeatOf};

use crate::idle::{Idle, Sleeper};
use crate::queues::Queues;
use crate::worker::Worker;
use crate::worker_seat::WorkerSeat;
use ready_queues::{InjectorEnd, ReadyDeque, ReadyInjector, Victim};
use std::alloc::{AllocError, Global};
use wait_bay::{Bay, BaySeat};

// The number of numbers that a worker's queue has room for at first.
const ROOM: usize = 64;

/// The workers before they start, and their sleepers.
#[derive(Drop)]
pub(crate) struct Workers<'q, 'b, 'a> {
    pub workers: Vec<Worker<'q, 'b, 'a>>,
    pub idle: Idle,
}

impl<'q, 'b, 'a> Workers<'q, 'b, 'a> {
    /// This number of workers of this bay, each with a queue, and this injector.
    pub(crate) fn new(
        alloc: Global,
        bay: &'b Bay<'a>,
        seat: BaySeat<'a>,
        injector: &'q ReadyInjector,
        workers: u8,
    ) -> Result<Workers<'q, 'b, 'a>, AllocError>
        requires here { IsSeatOf bay.now seat }
        requires some { 0 < bay.now.fibers }
    {
        let deques = deques(alloc, workers)?;
        let ends = ends(alloc, deques.as_slice())?;
        of_queues(alloc, bay, seat, injector, deques, ends)
    }
}

// A worker of this bay for each of these queues, with its ends of the others.
fn of_queues<'q, 'b, 'a>(
    alloc: Global,
    bay: &'b Bay<'a>,
    seat: BaySeat<'a>,
    injector: &'q ReadyInjector,
    deques: Vec<ReadyDeque>,
    ends: Vec<Vec<Victim>>,
) -> Result<Workers<'q, 'b, 'a>, AllocError>
    requires here { IsSeatOf bay.now seat }
    requires some { 0 < bay.now.fibers }
{
    let mut seat = seat;
    let mut all = Vec::new(alloc);
    let mut sleepers = Vec::new(alloc);
    let mut number = 0u8;
    for (own, victims) in deques.into_iter().zip(ends) {
        let queues = Queues {
            own,
            victims,
            injector: InjectorEnd::of(injector),
        };
        let one = new_worker(alloc, bay, &mut seat, number, queues)?;
        add(&mut all, &mut sleepers, one)?;
        number = number.wrapping_add(1);
    }
    Ok(Workers {
        workers: all,
        idle: Idle::new(sleepers),
    })
}

// A worker of this bay with these queues, and its unparker.
fn new_worker<'q, 'b, 'a>(
    alloc: Global,
    bay: &'b Bay<'a>,
    seat: &mut BaySeat<'a>,
    number: u8,
    queues: Queues<'q>,
) -> Result<(Worker<'q, 'b, 'a>, Sleeper), AllocError>
    requires here { IsSeatOf bay.now seat.old }
    requires some { 0 < bay.now.fibers }
    ensures { seat.new ≡ seat.old }
{
    let seat = WorkerSeat::new(bay, bay.split(seat));
    Worker::new(alloc, number, queues, seat)
}

// Adds a worker and its unparker.
fn add<'q, 'b, 'a>(
    workers: &mut Vec<Worker<'q, 'b, 'a>>,
    sleepers: &mut Vec<Sleeper>,
    one: (Worker<'q, 'b, 'a>, Sleeper),
) -> Result<(), AllocError> {
    let (worker, sleeper) = one;
    workers.push(worker)?;
    sleepers.push(sleeper)?;
    Ok(())
}

// This number of empty queues.
fn deques(alloc: Global, workers: u8) -> Result<Vec<ReadyDeque>, AllocError> {
    let mut deques = Vec::new(alloc);
    for _ in 0..workers {
        deques.push(ReadyDeque::new(alloc, ROOM)?)?;
    }
    Ok(deques)
}

// For each queue, the ends of all others.
fn ends(alloc: Global, deques: &[ReadyDeque]) -> Result<Vec<Vec<Victim>>, AllocError> {
    let mut ends = Vec::new(alloc);
    for own in 0..deques.len() {
        let (before, behind) = deques.split_at(own);
        ends.push(victims(alloc, before, behind)?)?;
    }
    Ok(ends)
}

// Ends of all queues other than the first one of `behind`, from the next one on.
fn victims(
    alloc: Global,
    before: &[ReadyDeque],
    behind: &[ReadyDeque],
) -> Result<Vec<Victim>, AllocError> {
    let mut victims = Vec::new(alloc);
    for deque in behind.iter().skip(1).chain(before.iter()) {
        victims.push(deque.victim()?)?;
    }
    Ok(victims)
}

//! The end of a run, once its workers have ended.
ghost use Rattle.std.specs.Prelude.{◌≡◌, ◌++◌, ◌∷◌, [], ℕ, All, IfErr, IfOk, OnOk, true};
ghost use Rattle.derived_ops.specs.Tree.{Tree};
ghost use Rattle.fiber_poll.specs.Tasks.{IsBroken, IsTaskOf};
ghost use Rattle.run_ends.specs.Gathering.{IsLawful};
ghost use Rattle.run_ends.specs.Ends.{IsEnd, IsNoRefusal, IsRunFault};
ghost use Rattle.run_ends.specs.Leaving.{FinishesLeft, Gathered};
ghost use Rattle.run_ends.specs.Private.Gathered.{AreInOrder, AreRests};

use crate::gathering::{meet, push};
use cell_registry::{Pass, PlainRegistry, Registry, RunError};
use derived_ops::Code;
use fiber_frames::{Ask, Config};
use fiber_poll::FiberTask;
use scheduled_core::{EntryLog, Report, enter_all, report_of_fibers, settle_noted};
use std::alloc::{AllocError, Global};

/// The end of a run.
#[derive(Drop)]
pub struct RunEnd {
    /// The report of each fiber.
    pub report: Report,
    /// A fiber that hasn't ended and has used up its moves. If there is none, the report is complete: each fiber has
    /// ended, or rests at a wait that nothing ends.
    pub stopped: Option<u16>,
    /// The number of moves after the workers had ended, by fibers that could still move: 0 if each wake arrived.
    pub finished: u64,
}

/// What the workers of a run leave.
#[derive(Drop)]
pub struct Leavings {
    /// A pass that has met those of all tasks.
    pub met: Pass,
    /// The states of their fibers, the last one first.
    pub configs: Vec<Config>,
    /// The number of moves that each has left, from the first one on.
    pub rests: Vec<u32>,
}

impl Leavings {
    /// What is left of a run with these tasks, which are in the order of their numbers. Returns `Lost` with the first
    /// number whose task is missing, `Lost(0)` if there is no task, and `NoMemory` if memory is refused.
    pub fn of<'a>(
        alloc: Global,
        registry: &Registry,
        code: &Code,
        tasks: Vec<FiberTask<'a>>,
    ) -> Result<Leavings, RunError>
        requires { (most : ℕ) × All (IsTaskOf registry.now code.now most) tasks.items }
        ensures left { IfOk result (λ it. (most : ℕ) → All (IsTaskOf registry.now code.now most) tasks.entry.items →
            Gathered registry.now code.now most it.met it.configs.items it.rests.items) }
        ensures none { IfErr result IsNoRefusal }
    {
        let rests = rests(alloc, tasks.as_slice())?;
        let (met, configs) = meet(alloc, registry, tasks)?;
        Ok(Leavings {
            met,
            configs,
            rests,
        })
    }

    /// The end of the run with this registry: one thread moves the fibers on until none can move, and reads their
    /// report; `finished` is the number of these moves. Returns `NoMemory` if memory is or was refused, `Full` and
    /// `Spent` as a turn does, and `Lost` with the least number of a started fiber that has no task. Each move is
    /// reported to this log.
    pub fn finish<L: EntryLog>(
        self,
        alloc: Global,
        registry: Registry,
        log: &mut L,
    ) -> Result<RunEnd, RunError>
        requires met { (code : Tree) × (most : ℕ) ×
            Gathered registry code most self.met self.configs.items self.rests.items }
        ensures ends { IfOk result (λ it. (code : Tree) (most : ℕ) →
            Gathered registry code most self.met self.configs.items self.rests.items →
            IsEnd code registry.limits most it) }
        ensures finished { IfOk result (FinishesLeft registry.limits self.met self.configs.items self.rests.items) }
        ensures lawful { IfOk result (λ it. All IsLawful it.report.fibers) }
        ensures faults { IfErr result (λ e. (code : Tree) (most : ℕ) →
            Gathered registry code most self.met self.configs.items self.rests.items →
            IsRunFault code registry.limits e) }
    {
        let Leavings {
            met,
            configs,
            rests,
        } = self;
        let mut registry = registry.into_plain(alloc, met)?;
        let mut fibers = in_order(alloc, configs, registry.born())?;
        if rests.len() != fibers.len() {
            return Err(RunError::Lost(registry.born()));
        }
        let mut rests = rests;
        let settled = match settle_noted(&mut fibers, &mut registry, &mut rests, log) {
            Ok(settled) => settled,
            Err(fault) => return Err(fault),
        };
        let report = report_of_fibers(alloc, fibers)?;
        Ok(RunEnd {
            report,
            stopped: settled.stopped,
            finished: settled.finished,
        })
    }

    /// The fault of the run with this registry after a worker's call was refused: one thread makes one entry of each
    /// fiber, in the order of their numbers, and the first refused call is the fault, `Full` or `Spent`. Returns
    /// `NoMemory` if memory is or was refused, and `Lost` with the least number of a started fiber that has no task, or
    /// with the number of started fibers if no call is refused.
    pub fn refused(self, alloc: Global, registry: Registry) -> RunError
        requires met { (code : Tree) × (most : ℕ) ×
            Gathered registry code most self.met self.configs.items self.rests.items }
        ensures { (code : Tree) (most : ℕ) →
            Gathered registry code most self.met self.configs.items self.rests.items →
            IsRunFault code registry.limits result }
    {
        match self.enter_each(alloc, registry) {
            Ok(born) => RunError::Lost(born),
            Err(fault) => fault,
        }
    }

    // Makes one more entry of each fiber. Returns the number of fibers if no call is refused.
    fn enter_each(self, alloc: Global, registry: Registry) -> Result<u16, RunError>
        requires met { (code : Tree) × (most : ℕ) ×
            Gathered registry code most self.met self.configs.items self.rests.items }
        ensures { IfErr result (λ e. (code : Tree) (most : ℕ) →
            Gathered registry code most self.met self.configs.items self.rests.items →
            IsRunFault code registry.limits e) }
    {
        let Leavings {
            met,
            configs,
            rests,
        } = self;
        let mut registry = registry.into_plain(alloc, met)?;
        let born = registry.born();
        let mut fibers = in_order(alloc, configs, born)?;
        if rests.len() != fibers.len() {
            return Err(RunError::Lost(born));
        }
        let numbers = numbers_below(alloc, born)?;
        match enter_all(&mut fibers, &mut registry, numbers.as_slice()) {
            Ok(()) => Ok(born),
            Err(fault) => Err(fault),
        }
    }
}

// The numbers below this one, in order.
fn numbers_below(alloc: Global, end: u16) -> Result<Vec<u16>, AllocError> {
    let mut numbers = Vec::with_capacity(alloc, usize::from(end))?;
    for number in 0..end {
        numbers.push(number)?;
    }
    Ok(numbers)
}

// The numbers of moves that these tasks have left, if each is at the place of its number.
fn rests<'a>(alloc: Global, tasks: &[FiberTask<'a>]) -> Result<Vec<u32>, RunError>
    ensures rests { IfOk result (λ it. AreRests tasks.now it.items) }
    ensures none { IfErr result IsNoRefusal }
{
    let mut rests = Vec::with_capacity(alloc, tasks.len())?;
    for task in tasks {
        if usize::from(task.number()) != rests.len() {
            return Err(missing(rests.len()));
        }
        add(&mut rests, task.moves())?;
    }
    Ok(rests)
}

// Adds the number of moves that a task has left.
fn add(rests: &mut Vec<u32>, moves: u32) -> Result<(), AllocError>
    ensures { OnOk result (rests.new.items ≡ rests.old.items ++ moves ∷ []) }
{
    rests.push(moves)?;
    Ok(())
}

// The fault if this place has no task.
fn missing(place: usize) -> RunError
    ensures { IsNoRefusal result }
{
    match u16::try_from(place) {
        Ok(number) => RunError::Lost(number),
        Err(_) => RunError::Lost(u16::MAX),
    }
}

// The states of the fibers below a number, in order. In `configs` each comes before those of lower numbers, and none is
// missing or broken.
fn in_order(alloc: Global, configs: Vec<Config>, born: u16) -> Result<Vec<Config>, RunError>
    ensures order { IfOk result (λ it. AreInOrder configs.items born it.items) }
    ensures none { IfErr result IsNoRefusal }
{
    let mut configs = configs;
    let mut fibers = Vec::with_capacity(alloc, usize::from(born))?;
    for number in 0..born {
        let Some(config) = configs.pop() else {
            return Err(RunError::Lost(number));
        };
        if config.number() != number {
            return Err(RunError::Lost(number));
        }
        if is_broken(&config) {
            return Err(RunError::NoMemory);
        }
        push(&mut fibers, config)?;
    }
    Ok(fibers)
}

// Whether memory was refused in a move of the fiber.
fn is_broken(config: &Config) -> bool
    ensures { IsBroken config.now → result ≡ true }
{
    match config.ask() {
        Ask::Broken => true,
        _ => false,
    }
}

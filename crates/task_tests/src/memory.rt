//! Calls that allocate memory. Each of these tests holds with every request for memory refused in turn.

ghost use Rattle.std.specs.Prelude.{◌≡◌, ◌<◌};
ghost use Rattle.wait_bay.specs.Bays.{IsSeatOf};

use crate::programs::{few, opened};
use crate::turning::{Told, answered, end_of};
use cell_registry::RunError;
use effect_term::{Outcome, Value};
use fiber_frames::Mark;
use fiber_poll::{FiberTask, Topic, alone, first};
use outcome_trace::read_program;
use std::alloc::{AllocError, AllocGlobal, Global};
use std::random::RandomSource;
use std::sync::Wait;
use wait_bay::{Bay, BaySeat};

// Three brackets, which are cut in the innermost body.
const NESTED: &str =
    "(bracket a (pure 1) (bracket b (pure 2) (bracket c (pure 3) (canceled) (say c)) (say b)) (say a))";

fn say(number: i32) -> Mark {
    Mark::Say(Value::from_i32(number))
}

// Their marks.
fn nested_marks() -> [Mark; 25] {
    [
        Mark::Enter(0),
        Mark::Acquired(0),
        Mark::Enter(1),
        Mark::PollIn(1),
        Mark::PollIn(0),
        Mark::Enter(2),
        Mark::Acquired(2),
        Mark::Enter(3),
        Mark::PollIn(3),
        Mark::PollIn(2),
        Mark::Enter(4),
        Mark::Acquired(4),
        Mark::Enter(5),
        Mark::PollIn(5),
        Mark::PollIn(4),
        Mark::Cut,
        Mark::Releasing(4),
        say(3),
        Mark::Released(4),
        Mark::Releasing(2),
        say(2),
        Mark::Released(2),
        Mark::Releasing(0),
        say(1),
        Mark::Released(0),
    ]
}

// The result of a turn. The task of a fiber that it started is dropped.
fn turn_told(task: &mut FiberTask<'_>) -> Result<Told, AllocError> {
    let (told, _) = answered(task.turn(999))?;
    Ok(told)
}

// Whether each turn of a task that lacked memory returns this again, and makes no move.
fn is_broken(task: &mut FiberTask<'_>) -> bool {
    let made = task.trace().len();
    for _ in 0..3 {
        if turn_told(task).is_ok() || task.trace().len() != made || task.outcome().is_some() {
            return false;
        }
    }
    true
}

// Whether one turn ends the fiber with this outcome and these marks, or runs out of memory.
fn ends(task: &mut FiberTask<'_>, outcome: Outcome, marks: &[Mark]) -> bool {
    match turn_told(task) {
        Ok(told) => told == end_of(outcome) && task.trace() == marks,
        Err(AllocError) => marks.starts_with(task.trace()) && is_broken(task),
    }
}

// Whether the nested brackets end as they should; `None` if memory ran out before the turn.
fn nested_ends(alloc: Global) -> Option<bool> {
    let (code, registry, pass) = opened(alloc, NESTED, few(1, 99)).ok()?;
    let mut task = first(alloc, &registry, pass, &code, 999).ok()?;
    Some(ends(&mut task, Outcome::Canceled, nested_marks().as_slice()))
}

// The turn has its result and the marks, or memory ran out, which each later turn returns, too.
#[test]
fn a_turn_ends_the_fiber_or_memory_ran_out(rt: HostRuntime) {
    assert!(rt; nested_ends(rt.alloc()) != Some(false));
}

// A program whose first turn starts fiber 1.
const STARTING: &str =
    "(let x (pure 7) (let y (pure 8) (start f (say y) (join f z (say z) e (pure 0) (pure 0)))))";

// Whether one turn starts a fiber that then ends, or runs out of memory.
fn starts(parent: &mut FiberTask<'_>) -> bool {
    match answered(parent.turn(999)) {
        Ok((told, Some(mut child))) => {
            let ends = ends(
                &mut child,
                Outcome::Succeeded(Value::ZERO),
                [say(8)].as_slice(),
            );
            told == Told::Started(1) && ends
        }
        Ok((_, None)) => false,
        Err(AllocError) => is_broken(parent),
    }
}

// Whether the program starts a fiber as it should; `None` if memory ran out before the turn.
fn first_starts(alloc: Global) -> Option<bool> {
    let (code, registry, pass) = opened(alloc, STARTING, few(2, 99)).ok()?;
    let mut parent = first(alloc, &registry, pass, &code, 999).ok()?;
    Some(starts(&mut parent))
}

// The turn returns the child's task, which has its mark, or memory ran out, which each later turn returns, too.
#[test]
fn a_turn_starts_a_fiber_or_memory_ran_out(rt: HostRuntime) {
    assert!(rt; first_starts(rt.alloc()) != Some(false));
}

// Whether `alone` runs the nested brackets to the end that they should have; `None` if memory ran out before that.
fn nested_ends_alone<R: Wait + RandomSource + AllocGlobal>(rt: &R) -> Option<bool> {
    let program = read_program(rt.alloc(), NESTED.as_bytes()).ok()?;
    if program.starts() {
        return Some(false);
    }
    match alone(rt, program, 999) {
        Ok(outcome) => Some(outcome == Some(Outcome::Canceled)),
        Err(RunError::NoMemory | RunError::NoWorker) => Some(true),
        Err(_) => Some(false),
    }
}

// The future's queue allocates memory, too. If it is refused, the thread can't wait.
#[test]
fn a_program_ends_alone_or_memory_ran_out(rt: HostRuntime) {
    assert!(&rt; nested_ends_alone(&rt) != Some(false));
}

// Whether a waiting fiber is recorded, if there is memory for it.
fn notes(rt: &impl Wait, bay: &Bay<'_>) -> bool
    requires { 1 < bay.now.deferreds }
{
    let topic = Topic::Deferred(1);
    let noted = bay.register(rt, topic, 2).is_ok();
    let told = bay.drain_topic(rt, topic);
    if noted {
        told.as_slice() == [2u16].as_slice()
    } else {
        told.is_empty()
    }
}

// Whether the task of fiber 0 can be put into its slot, and has to be queued.
fn takes_in<'a>(rt: &impl Wait, bay: &Bay<'a>, seat: &mut BaySeat<'a>, task: FiberTask<'a>) -> bool
    requires here { IsSeatOf bay.now seat.old }
    requires some { 0 < bay.now.fibers }
    requires nameless { bay.now.named ≡ None }
    ensures { seat.new ≡ seat.old }
{
    match bay.put(rt, seat, 0, task, true) {
        Ok(queued) => queued,
        Err(_) => false,
    }
}

// Whether a bay takes this task in, and still has it at its end; `None` if memory ran out.
fn keeps<'a>(alloc: Global, rt: &impl Wait, task: FiberTask<'a>) -> Option<bool> {
    let (bay, mut seat) = Bay::new(alloc, 3, 2, None).ok()?;
    let takes = takes_in(rt, &bay, &mut seat, task);
    let notes = notes(rt, &bay);
    let kept = match bay.empty() {
        Ok(tasks) => tasks.len() == 1,
        Err(AllocError) => true,
    };
    Some(takes && notes && kept)
}

// Whether a bay keeps the task of fiber 0; `None` if memory ran out.
fn first_is_kept(alloc: Global, rt: &impl Wait) -> Option<bool> {
    let (code, registry, pass) = opened(alloc, "(pure 7)", few(1, 9)).ok()?;
    let task = first(alloc, &registry, pass, &code, 9).ok()?;
    keeps(alloc, rt, task)
}

#[test]
fn a_bay_keeps_what_it_took_or_memory_ran_out(rt: HostRuntime) {
    assert!(&rt; first_is_kept(rt.alloc(), &rt) != Some(false));
}

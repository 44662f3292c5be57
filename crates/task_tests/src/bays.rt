//! Bays: slots, wakes, and the lists of waiting fibers.

ghost use Rattle.std.specs.Prelude.{◌≡◌, ◌<◌};
ghost use Rattle.cell_registry.specs.Passes.{first_pass};
ghost use Rattle.wait_bay.specs.Bays.{IsSeatOf};

use crate::programs::{few, opened};
use crate::turning::{answered, child_of};
use cell_registry::{Pass, Registry};
use derived_ops::Code;
use effect_term::{Outcome, Value};
use fiber_poll::{FiberTask, Topic, first};
use std::alloc::{AllocError, Global};
use std::sync::Wait;
use std::test::Fail;
use wait_bay::{Bay, BaySeat, PutError, PutFault};

// A program whose first turn starts fiber 1.
const STARTING: &str = "(start f (say 1) (pure 2))";

// The task of fiber 1, which fiber 0 starts.
fn only_child<'a>(
    alloc: Global,
    code: &Code,
    registry: &'a Registry,
    pass: Pass,
) -> Result<FiberTask<'a>, Fail>
    requires { pass ≡ first_pass registry.now }
{
    let mut parent = first(alloc, registry, pass, code, 99)?;
    child_of(registry, code, 99, &mut parent)
}

// Tasks of two fibers with the number 1, of two registries. The first of them has ended.
fn two_children<'a>(
    alloc: Global,
    code: &Code,
    registry: &'a Registry,
    pass: Pass,
    elsewhere: &'a Registry,
    its_pass: Pass,
) -> Result<(FiberTask<'a>, FiberTask<'a>), Fail>
    requires first { pass ≡ first_pass registry.now }
    requires second { its_pass ≡ first_pass elsewhere.now }
{
    let mut ended = only_child(alloc, code, registry, pass)?;
    answered(ended.turn(64))?;
    Ok((ended, only_child(alloc, code, elsewhere, its_pass)?))
}

// Puts the task of fiber 1. Whether its number has to be queued; `None` if the task is refused.
fn puts<'a>(
    rt: &impl Wait,
    bay: &Bay<'a>,
    seat: &mut BaySeat<'a>,
    task: FiberTask<'a>,
    ready: bool,
) -> Option<bool>
    requires here { IsSeatOf bay.now seat.old }
    requires two { 1 < bay.now.fibers }
    requires nameless { bay.now.named ≡ None }
    ensures { seat.new ≡ seat.old }
{
    match bay.put(rt, seat, 1, task, ready) {
        Ok(queued) => Some(queued),
        Err(_) => None,
    }
}

// Whether the slot of fiber 1 takes its task, and another slot doesn't.
fn takes_one<'a>(rt: &impl Wait, bay: &Bay<'a>, seat: &mut BaySeat<'a>, task: FiberTask<'a>) -> bool
    requires here { IsSeatOf bay.now seat.old }
    requires three { 2 < bay.now.fibers }
    requires nameless { bay.now.named ≡ None }
    ensures { seat.new ≡ seat.old }
{
    match bay.put(rt, seat, 2, task, true) {
        Ok(_) => false,
        Err(PutFault { task, error }) => {
            let queued = puts(rt, bay, seat, task, false);
            (error, queued) == (PutError::WrongSlot(2), Some(false))
        }
    }
}

// Whether the slot refuses a second task.
fn takes_no_other<'a>(
    rt: &impl Wait,
    bay: &Bay<'a>,
    seat: &mut BaySeat<'a>,
    other: FiberTask<'a>,
) -> bool
    requires here { IsSeatOf bay.now seat.old }
    requires two { 1 < bay.now.fibers }
    requires nameless { bay.now.named ≡ None }
    ensures { seat.new ≡ seat.old }
{
    match bay.put(rt, seat, 1, other, true) {
        Ok(_) => false,
        Err(PutFault { task, error }) => {
            (error, task.number(), task.outcome()) == (PutError::Occupied(1), 1, None)
        }
    }
}

// The outcome of the fiber whose task is in this slot; `None` if there is no task.
fn taken_outcome<'a>(
    rt: &impl Wait,
    bay: &Bay<'a>,
    seat: &mut BaySeat<'a>,
    slot: u16,
) -> Option<Option<Outcome>>
    requires here { IsSeatOf bay.now seat.old }
    requires within { slot < bay.now.fibers }
    ensures { seat.new ≡ seat.old }
{
    match bay.take(rt, seat, slot) {
        Some(task) => Some(task.outcome()),
        None => None,
    }
}

// Whether the task of fiber 1, which has ended, can be taken once.
fn gives_one<'a>(rt: &impl Wait, bay: &Bay<'a>, seat: &mut BaySeat<'a>) -> bool
    requires here { IsSeatOf bay.now seat.old }
    requires three { 2 < bay.now.fibers }
{
    let woken = bay.wake(rt, 1);
    let first = taken_outcome(rt, bay, seat, 1);
    let second = taken_outcome(rt, bay, seat, 1);
    let other = taken_outcome(rt, bay, seat, 2);
    let ended = Some(Some(Outcome::Succeeded(Value::ZERO)));
    (woken, first, second, other) == (true, ended, None, None)
}

// Whether a bay for three fibers keeps the first of these tasks of fiber 1.
fn holds_one<'a>(
    alloc: Global,
    rt: &impl Wait,
    task: FiberTask<'a>,
    other: FiberTask<'a>,
) -> Result<bool, AllocError> {
    let (bay, mut seat) = Bay::new(alloc, 3, 1, None)?;
    let takes = takes_one(rt, &bay, &mut seat, task);
    let refuses = takes_no_other(rt, &bay, &mut seat, other);
    let gives = gives_one(rt, &bay, &mut seat);
    Ok(takes && refuses && gives)
}

#[test]
fn a_slot_holds_one_task_of_its_own_fiber(rt: HostRuntime) -> Result<(), Fail> {
    let (code, registry, pass) = opened(rt.alloc(), STARTING, few(2, 9))?;
    let (_, elsewhere, its_pass) = opened(rt.alloc(), STARTING, few(2, 9))?;
    let (ended, other) = two_children(rt.alloc(), &code, &registry, pass, &elsewhere, its_pass)?;
    assert!(&rt; holds_one(rt.alloc(), &rt, ended, other)?);
    Ok(())
}

// Takes the task of fiber 1 and puts it back. Whether its number has to be queued; `None` if the task is lost.
fn puts_back<'a>(rt: &impl Wait, bay: &Bay<'a>, seat: &mut BaySeat<'a>, ready: bool) -> Option<bool>
    requires here { IsSeatOf bay.now seat.old }
    requires two { 1 < bay.now.fibers }
    requires nameless { bay.now.named ≡ None }
    ensures { seat.new ≡ seat.old }
{
    match bay.take(rt, seat, 1) {
        Some(task) => puts(rt, bay, seat, task, ready),
        None => None,
    }
}

// Whether the first of several wakes of fiber 1 has to be queued while its task is in its slot, and the others don't.
// Taking the task forgets the wakes so far.
fn tells_once<'a>(alloc: Global, rt: &impl Wait, task: FiberTask<'a>) -> Result<bool, AllocError> {
    let (bay, mut seat) = Bay::new(alloc, 2, 1, None)?;
    let put = puts(rt, &bay, &mut seat, task, false);
    let wakes = (bay.wake(rt, 1), bay.wake(rt, 1));
    let again = puts_back(rt, &bay, &mut seat, false);
    let woken = bay.wake(rt, 1);
    Ok((put, wakes, again, woken) == (Some(false), (true, false), Some(false), true))
}

#[test]
fn a_wake_is_told_once(rt: HostRuntime) -> Result<(), Fail> {
    let (code, registry, pass) = opened(rt.alloc(), STARTING, few(2, 9))?;
    let task = only_child(rt.alloc(), &code, &registry, pass)?;
    assert!(&rt; tells_once(rt.alloc(), &rt, task)?);
    Ok(())
}

// Whether a wake of fiber 1 is kept while its task isn't there, and has no effect while it is queued.
fn keeps_wake<'a>(alloc: Global, rt: &impl Wait, task: FiberTask<'a>) -> Result<bool, AllocError> {
    let (bay, mut seat) = Bay::new(alloc, 2, 1, None)?;
    let before = bay.wake(rt, 1);
    let put = puts(rt, &bay, &mut seat, task, false);
    let queued = bay.wake(rt, 1);
    let again = puts_back(rt, &bay, &mut seat, true);
    let woken = (before, queued, bay.wake(rt, 1));
    Ok((put, again, woken) == (Some(true), Some(true), (false, false, false)))
}

#[test]
fn a_wake_before_the_put_is_kept(rt: HostRuntime) -> Result<(), Fail> {
    let (code, registry, pass) = opened(rt.alloc(), STARTING, few(2, 9))?;
    let task = only_child(rt.alloc(), &code, &registry, pass)?;
    assert!(&rt; keeps_wake(rt.alloc(), &rt, task)?);
    Ok(())
}

const DEFERRED: Topic = Topic::Deferred(0);

// The fibers that begin to wait, and those that the list of each topic then has.
struct Waiting<'a> {
    come: &'a [(Topic, u16)],
    told: &'a [(Topic, &'a [u16])],
}

const WAITS: &[Waiting<'static>] = &[
    Waiting {
        come: &[(DEFERRED, 1)],
        told: &[(DEFERRED, &[1]), (DEFERRED, &[])],
    },
    Waiting {
        come: &[
            (Topic::Fiber(2), 1),
            (Topic::Fiber(2), 0),
            (Topic::Never, 2),
        ],
        told: &[
            (DEFERRED, &[]),
            (Topic::Never, &[]),
            (Topic::Fiber(1), &[]),
            (Topic::Fiber(2), &[1, 0]),
        ],
    },
];

// The lists of two topics are apart, however far apart the numbers of the topics are.
const FAR_WAITS: &[Waiting<'static>] = &[
    Waiting {
        come: &[(Topic::Fiber(64), 3)],
        told: &[
            (Topic::Fiber(0), &[]),
            (Topic::Fiber(63), &[]),
            (Topic::Fiber(65), &[]),
            (Topic::Fiber(128), &[]),
            (Topic::Fiber(129), &[]),
            (Topic::Deferred(64), &[]),
            (Topic::Fiber(64), &[3]),
        ],
    },
    Waiting {
        come: &[
            (Topic::Fiber(63), 5),
            (Topic::Fiber(129), 6),
            (Topic::Deferred(65), 7),
            (Topic::Fiber(127), 8),
            (Topic::Deferred(1), 9),
        ],
        told: &[
            (Topic::Fiber(31), &[]),
            (Topic::Fiber(62), &[]),
            (Topic::Fiber(95), &[]),
            (Topic::Deferred(33), &[]),
            (Topic::Deferred(65), &[7]),
            (Topic::Fiber(127), &[8]),
            (Topic::Fiber(63), &[5]),
            (Topic::Fiber(129), &[6]),
            (Topic::Fiber(65), &[]),
            (Topic::Deferred(1), &[9]),
        ],
    },
];

// Records the waiting fibers, if the bay has a list for the topic.
fn notes(rt: &impl Wait, bay: &Bay<'_>, come: &[(Topic, u16)]) -> Result<(), AllocError> {
    for (topic, fiber) in come {
        if bay.has(*topic) {
            bay.register(rt, *topic, *fiber)?;
        }
    }
    Ok(())
}

// Whether these fibers wait for a topic, and none after the list is drained.
fn is_told(rt: &impl Wait, bay: &Bay<'_>, topic: Topic, fibers: &[u16]) -> bool {
    if !bay.has(topic) || bay.is_awaited(topic) == fibers.is_empty() {
        return false;
    }
    bay.drain_topic(rt, topic).as_slice() == fibers && !bay.is_awaited(topic)
}

// Whether these fibers wait, topic by topic.
fn are_told(rt: &impl Wait, bay: &Bay<'_>, told: &[(Topic, &[u16])]) -> bool {
    for (topic, fibers) in told {
        if !is_told(rt, bay, *topic, fibers) {
            return false;
        }
    }
    true
}

// Whether the lists of a bay are as expected.
fn tells_all(rt: &impl Wait, bay: &Bay<'_>, cases: &[Waiting<'_>]) -> Result<bool, AllocError> {
    for case in cases {
        notes(rt, bay, case.come)?;
        if !are_told(rt, bay, case.told) {
            return Ok(false);
        }
    }
    Ok(true)
}

#[test]
fn those_that_wait_are_told_once_in_their_order(rt: HostRuntime) -> Result<(), Fail> {
    let (bay, _) = Bay::new(rt.alloc(), 3, 1, None)?;
    assert!(&rt; tells_all(&rt, &bay, WAITS)?);
    let (bay, _) = Bay::new(rt.alloc(), 130, 66, None)?;
    assert!(&rt; tells_all(&rt, &bay, FAR_WAITS)?);
    Ok(())
}

// Whether a bay for three fibers and one deferred has a list for each topic.
const LISTS: &[(Topic, bool)] = &[
    (Topic::Fiber(2), true),
    (Topic::Fiber(3), false),
    (Topic::Deferred(0), true),
    (Topic::Deferred(1), false),
    (Topic::Never, true),
];

// Whether the bay has lists for exactly the topics that it should.
fn has_lists(bay: &Bay<'_>, lists: &[(Topic, bool)]) -> bool {
    for (topic, has) in lists {
        if bay.has(*topic) != *has {
            return false;
        }
    }
    true
}

#[test]
fn a_bay_has_a_list_for_each_number(rt: HostRuntime) -> Result<(), Fail> {
    let (bay, _) = Bay::new(rt.alloc(), 3, 1, None)?;
    assert!(&rt; bay.fibers() == 3 && has_lists(&bay, LISTS));
    Ok(())
}

// Whether a bay that has only this task of fiber 1 still has it at the end.
fn leaves_one<'a>(alloc: Global, rt: &impl Wait, task: FiberTask<'a>) -> Result<bool, AllocError> {
    let (bay, mut seat) = Bay::new(alloc, 3, 1, None)?;
    let put = puts(rt, &bay, &mut seat, task, false);
    let tasks = bay.empty()?;
    Ok(put == Some(false) && tasks.len() == 1 && tasks[0].number() == 1)
}

#[test]
fn what_lies_in_a_bay_is_left_at_its_end(rt: HostRuntime) -> Result<(), Fail> {
    let (code, registry, pass) = opened(rt.alloc(), STARTING, few(2, 9))?;
    let task = only_child(rt.alloc(), &code, &registry, pass)?;
    assert!(&rt; leaves_one(rt.alloc(), &rt, task)?);
    Ok(())
}

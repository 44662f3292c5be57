//! Four threads at one registry: one ends fibers, and three join them.

ghost use Rattle.std.specs.Prelude.{◌≡◌, ◌<◌};
ghost use Rattle.effect_term.specs.Values.{IsValue};
ghost use Rattle.cell_registry.specs.Cells.{IsOpen};
ghost use Rattle.cell_registry.specs.Passes.{IsOf};

use crate::values::numbered;
use cell_registry::{JoinReply, Outcome, Pass, Registry};
use effect_term::Value;
use std::alloc::{AllocError, Global};
use std::thread;
use std::thread::Threads;

// The first of the fibers whose ends are joined: 500 in each of 20 registries, numbered behind those of the four
// threads.
const FIRST: u16 = 4;

const FIBERS: u16 = 504;

// The value that a fiber of this number ends with. Both halves of the value word are the number. So the words of two
// fibers differ in both halves, and both halves of each word differ from the 0 before.
fn value_of(fiber: u16) -> Value
    ensures range { IsValue result }
{
    numbered(i64::from(fiber) * 4_294_967_297)
}

// Starts the fibers and ends each at once. Returns whether no call was refused.
fn end_all(registry: &Registry, pass: Pass) -> (Pass, bool)
    requires own { IsOf registry.now pass }
    requires open { IsOpen pass.stage }
    ensures own { IsOf registry.now result.0 }
{
    let mut pass = pass;
    for _ in FIRST..FIBERS {
        let Ok(mut child) = registry.start(&mut pass) else {
            return (pass, false);
        };
        let outcome = Outcome::Succeeded(value_of(child.number()));
        let Ok(()) = registry.finish(&mut child, outcome) else {
            return (pass, false);
        };
    }
    (pass, true)
}

// Joins the fiber until it has ended, at most `times` times. Whether each join that found an end found the fiber's own.
fn join_often(registry: &Registry, pass: &mut Pass, fiber: u16, times: u32) -> bool
    requires own { IsOf registry.now pass.old }
    requires within { fiber < registry.now.limits.fibers }
    ensures own { IsOf registry.now pass.new }
{
    for _ in 0..times {
        match registry.join(pass, fiber) {
            JoinReply::Waits => {}
            JoinReply::Ended(outcome) => return outcome == Outcome::Succeeded(value_of(fiber)),
        }
    }
    true
}

fn join_all(registry: &Registry, pass: Pass) -> (Pass, bool)
    requires own { IsOf registry.now pass }
    requires fibers { registry.now.limits.fibers ≡ 504 }
    ensures own { IsOf registry.now result.0 }
{
    let mut pass = pass;
    for fiber in FIRST..FIBERS {
        if !join_often(registry, &mut pass, fiber, 1000) {
            return (pass, false);
        }
    }
    (pass, true)
}

// Whether a join of each fiber finds its end.
fn have_ended(registry: &Registry, pass: Pass) -> bool
    requires own { IsOf registry.now pass }
    requires fibers { registry.now.limits.fibers ≡ 504 }
{
    let mut pass = pass;
    for fiber in FIRST..FIBERS {
        let wanted = JoinReply::Ended(Outcome::Succeeded(value_of(fiber)));
        if registry.join(&mut pass, fiber) != wanted {
            return false;
        }
    }
    true
}

// One thread ends the fibers, and one joins them.
fn end_and_join<R: Threads + Sync>(
    rt: &R,
    registry: &Registry,
    ending: Pass,
    joining: Pass,
) -> ((Pass, bool), (Pass, bool))
    requires own { IsOf registry.now ending × IsOf registry.now joining }
    requires open { IsOpen ending.stage }
    requires fibers { registry.now.limits.fibers ≡ 504 }
    ensures own { IsOf registry.now result.0.0 × IsOf registry.now result.1.0 }
{
    thread::join(
        rt,
        move || -> (Pass, bool)
            requires { IsOf registry.now ending × IsOpen ending.stage }
            ensures { IsOf registry.entry.now result.0 }
        { end_all(registry, ending) },
        move || -> (Pass, bool)
            requires { IsOf registry.now joining × (registry.now.limits.fibers ≡ 504) }
            ensures { IsOf registry.entry.now result.0 }
        { join_all(registry, joining) },
    )
}

// Two threads join the fibers.
fn join_twice<R: Threads + Sync>(
    rt: &R,
    registry: &Registry,
    first: Pass,
    second: Pass,
) -> ((Pass, bool), (Pass, bool))
    requires own { IsOf registry.now first × IsOf registry.now second }
    requires fibers { registry.now.limits.fibers ≡ 504 }
    ensures own { IsOf registry.now result.0.0 × IsOf registry.now result.1.0 }
{
    thread::join(
        rt,
        move || -> (Pass, bool)
            requires { IsOf registry.now first × (registry.now.limits.fibers ≡ 504) }
            ensures { IsOf registry.entry.now result.0 }
        { join_all(registry, first) },
        move || -> (Pass, bool)
            requires { IsOf registry.now second × (registry.now.limits.fibers ≡ 504) }
            ensures { IsOf registry.entry.now result.0 }
        { join_all(registry, second) },
    )
}

// Ends 500 fibers while three threads join them. Whether no call was refused, each join found the fiber's own end, and
// one more join of each does.
fn joins_agree<R: Threads + Sync>(rt: &R, alloc: Global) -> Result<bool, AllocError> {
    let (registry, mut pass) = Registry::new(alloc, FIBERS, 1, 1, 1)?;
    let Ok(first) = registry.start(&mut pass) else {
        return Ok(false);
    };
    let Ok(second) = registry.start(&mut pass) else {
        return Ok(false);
    };
    let Ok(third) = registry.start(&mut pass) else {
        return Ok(false);
    };
    let shared = &registry;
    let ((ended, joined), others) = thread::join(
        rt,
        move || -> ((Pass, bool), (Pass, bool))
            requires { IsOf shared.now pass × IsOf shared.now first × IsOpen pass.stage ×
                (shared.now.limits.fibers ≡ 504) }
            ensures { IsOf shared.entry.now result.0.0 }
        { end_and_join(rt, shared, pass, first) },
        move || -> ((Pass, bool), (Pass, bool))
            requires { IsOf shared.now second × IsOf shared.now third × (shared.now.limits.fibers ≡ 504) }
        { join_twice(rt, shared, second, third) },
    );
    Ok(ended.1 && joined.1 && others.0.1 && others.1.1 && have_ended(&registry, ended.0))
}

#[test]
fn three_threads_join_what_a_fourth_ends(rt: HostRuntime) -> Result<(), AllocError> {
    for _ in 0..20 {
        assert_eq!(rt; joins_agree(&rt, rt.alloc())?, true);
    }
    Ok(())
}

//! A registry that two threads share, as in the example of `cell_registry`.

ghost use Rattle.std.specs.Prelude.{◌≡◌, ◌<◌};
ghost use Rattle.cell_registry.specs.Cells.{IsOpen};
ghost use Rattle.cell_registry.specs.Passes.{IsOf};

use cell_registry::{CancelReply, Pass, Registry};
use std::alloc::Global;
use std::rt::HostRuntime;
use std::test::Fail;
use std::thread;
use std::thread::Threads;

// One thread requests the cancellation of the child, and the other looks for the request.
fn request_and_look<R: Threads + Sync>(
    rt: &R,
    registry: &Registry,
    parent: Pass,
    child: Pass,
) -> (CancelReply, bool)
    requires own { IsOf registry.now parent × IsOf registry.now child }
    requires fibers { 1 < registry.now.limits.fibers }
    requires child { IsOpen child.stage × (child.depth ≡ 0) }
{
    let mut parent = parent;
    let mut child = child;
    thread::join(
        rt,
        move || -> CancelReply
            requires { IsOf registry.now parent × (1 < registry.now.limits.fibers) }
        { registry.cancel(&mut parent, 1) },
        move || -> bool
            requires { IsOf registry.now child × IsOpen child.stage × (child.depth ≡ 0) }
        { registry.look(&mut child) },
    )
}

// Whichever thread comes first, the request is the first one.
#[test]
fn two_threads_share_a_registry(rt: HostRuntime) -> Result<(), Fail> {
    let (registry, mut parent) = Registry::new(rt.alloc(), 2, 1, 1, 10)?;
    let child = registry.start(&mut parent)?;
    let (asked, _seen) = request_and_look(&rt, &registry, parent, child);
    assert_eq!(rt; asked, CancelReply::Asked);
    Ok(())
}

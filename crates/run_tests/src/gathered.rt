//! The result of gathering when no task is left.

use crate::answers::program;
use cell_registry::{Registry, RunError};
use derived_ops::expand;
use std::alloc::Global;
use std::test::Fail;
use steal_pool::gather;

// The fault if no task of a program is left.
fn fault_without_tasks(alloc: Global) -> Result<Option<RunError>, Fail> {
    let code = expand(alloc, &program(alloc, "(pure 7)")?)?;
    let (registry, _pass) = Registry::new(alloc, 2, 1, 1, 10)?;
    Ok(gather(alloc, &registry, &code, Vec::new(alloc)).err())
}

#[test]
fn without_tasks_fiber_0_is_lost(rt: HostRuntime) -> Result<(), Fail> {
    assert_eq!(rt; fault_without_tasks(rt.alloc())?, Some(RunError::Lost(0)));
    Ok(())
}

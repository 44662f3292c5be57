//! The first task of a registry.
ghost use Rattle.std.specs.Prelude.{◌≡◌, IfOk};
ghost use Rattle.cell_registry.specs.Passes.{first_pass};
ghost use Rattle.fiber_frames.specs.Fiber.{begins};
ghost use Rattle.fiber_poll.specs.Tasks.{IsTaskOf};

use crate::task::FiberTask;
use cell_registry::{Pass, Registry};
use derived_ops::Code;
use fiber_frames::Config;
use std::alloc::{AllocError, Global};

/// Fiber 0 of a code, before its first move, at a registry in which no call was made yet. The pass is the one that the
/// registry was made with. The task has `moves` moves. Returns `AllocError` if memory is refused.
pub fn first<'a>(
    alloc: Global,
    registry: &'a Registry,
    pass: Pass,
    code: &Code,
    moves: u32,
) -> Result<FiberTask<'a>, AllocError>
    requires { pass ≡ first_pass registry.now }
    ensures task { IfOk result (λ task. task ≡ record {
      home = registry.now;
      pass = pass;
      state = begins 0 code.now;
      moves = moves;
    }) }
    ensures of { IfOk result (λ task. IsTaskOf registry.now code.now moves task) }
{
    let _words = code.words();
    let config = Config::new(alloc, code)?;
    Ok(FiberTask::new(registry, pass, config, moves))
}

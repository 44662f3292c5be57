//! Runs a program that starts no fiber.
ghost use Rattle.std.specs.Prelude.{◌≡◌, ◌⊎◌, false, replicate, Err as Fails};
ghost use Rattle.cell_registry.specs.Passes.{first_pass};
ghost use Rattle.derived_ops.specs.Expansion.{code_of};
ghost use Rattle.derived_ops.specs.Reading.{source_of};
ghost use Rattle.effect_term.specs.Starts.{starts_fiber};
ghost use Rattle.fiber_frames.specs.Fiber.{begins};
ghost use Rattle.scheduled_core.specs.Core.{core};
ghost use Rattle.fiber_poll.specs.Futures.{Comes, default_limits, first_result};

use crate::future::FiberFuture;
use crate::opening::first;
use cell_registry::{Outcome, Pass, Registry, RunError};
use derived_ops::{Code, expand};
use effect_term::Program;
use futures::executor::block_on;
use std::alloc::AllocGlobal;
use std::random::RandomSource;
use std::sync::Wait;

// The numbers of fibers, refs and deferreds of the registry.
const NUMBERS: u16 = 1000;

// The greatest number of changes that a fiber can make to its cell.
const COUNT: u64 = 1_099_511_627_775;

// The greatest number of moves of a poll.
const BUDGET: u32 = 64;

/// Runs a program in which no word starts a fiber ([`Program::starts`]) for at most `moves` moves, at a registry of the
/// greatest limits.
///
/// Returns the outcome of the core's fiber 0 after as many entries of 0, or `None` if it hasn't ended, or the fault of
/// the core. Other than these, it returns [`RunError::NoMemory`] if memory is refused, and [`RunError::NoWorker`] if
/// the thread can't wait for the fiber's future.
pub fn alone<R: Wait + RandomSource + AllocGlobal>(
    rt: &R,
    program: Program,
    moves: u32,
) -> Result<Option<Outcome>, RunError>
    requires { starts_fiber program ≡ false }
    ensures { (result ≡ Fails RunError.NoMemory) ⊎ (result ≡ Fails RunError.NoWorker) ⊎
        (result ≡ first_result (core (code_of (source_of program)) default_limits (replicate moves 0))) }
{
    let alloc = rt.alloc();
    let code = expand(alloc, &program)?;
    let (registry, pass) = Registry::new(alloc, NUMBERS, NUMBERS, NUMBERS, COUNT)?;
    run_first(rt, &registry, pass, &code, moves)
}

// Runs fiber 0 of a code for at most `moves` moves, at a registry in which no call was made yet.
fn run_first<R: Wait + RandomSource + AllocGlobal>(
    rt: &R,
    registry: &Registry,
    pass: Pass,
    code: &Code,
    moves: u32,
) -> Result<Option<Outcome>, RunError>
    requires { pass ≡ first_pass registry.now }
    ensures { (result ≡ Fails RunError.NoMemory) ⊎ (result ≡ Fails RunError.NoWorker) ⊎
        (Comes (record { home = registry.now; pass = pass; state = begins 0 code.now; moves = moves }) result) }
{
    let task = first(rt.alloc(), registry, pass, code, moves)?;
    let future = FiberFuture {
        task,
        budget: BUDGET,
    };
    match block_on(rt, future) {
        Ok(result) => result,
        Err(_) => Err(RunError::NoWorker),
    }
}

//! Programs of texts, and their reports by the core.

ghost use Rattle.std.specs.Prelude.{◌≡◌, ◌<◌, ◌≤◌, ◌^◌, IfOk, false};
ghost use Rattle.cell_registry.specs.Cells.{AreLimits};
ghost use Rattle.cell_registry.specs.Passes.{first_pass};
ghost use Rattle.effect_term.specs.Starts.{starts_fiber};

use cell_registry::{Limits, Pass, Registry, RunError};
use derived_ops::{Code, expand};
use effect_term::Program;
use outcome_trace::{Refused, Report, read_program, read_schedule, replay, text_of_report};
use std::alloc::Global;
use std::test::Fail;

/// The program that a text spells, which starts no fiber.
pub fn quiet_program(alloc: Global, text: &str) -> Result<Program, Fail>
    ensures { IfOk result (λ program. starts_fiber program ≡ false) }
{
    let program = read_program(alloc, text.as_bytes())?;
    if program.starts() {
        return Err(Fail::new("the program starts a fiber"));
    }
    Ok(program)
}

// The code of the program that a text spells.
fn code(alloc: Global, text: &str) -> Result<Code, Refused> {
    let program = read_program(alloc, text.as_bytes())?;
    match expand(alloc, &program) {
        Ok(code) => Ok(code),
        Err(_) => Err(Refused::Run(RunError::NoMemory)),
    }
}

/// The code of the program that a text spells, a registry of these limits, and fiber 0's pass.
pub fn opened(alloc: Global, text: &str, limits: Limits) -> Result<(Code, Registry, Pass), Refused>
    requires { AreLimits limits }
    ensures limits { IfOk result (λ it. it.1.limits ≡ limits) }
    ensures pass { IfOk result (λ it. it.2 ≡ first_pass it.1) }
{
    let Limits {
        fibers,
        refs,
        deferreds,
        count,
    } = limits;
    let code = code(alloc, text)?;
    match Registry::new(alloc, fibers, refs, deferreds, count) {
        Ok((registry, pass)) => Ok((code, registry, pass)),
        Err(_) => Err(Refused::Run(RunError::NoMemory)),
    }
}

/// Limits of `fibers` fibers, one ref, one deferred, and `count` changes, each at least 1.
pub const fn few(fibers: u16, count: u64) -> Limits
    requires fibers { (0 < fibers) × (fibers ≤ 1000) }
    requires count { (0 < count) × (count < 2 ^ 40) }
    ensures limits { AreLimits result }
    ensures fibers { result.fibers ≡ fibers }
{
    Limits {
        fibers,
        refs: 1,
        deferreds: 1,
        count,
    }
}

/// Limits that none of these programs reaches.
pub fn ample() -> Limits
    ensures { AreLimits result }
{
    Limits {
        fibers: 9,
        refs: 9,
        deferreds: 9,
        count: 99,
    }
}

/// The text of the core's report of a program under a schedule's text.
pub fn replayed(alloc: Global, text: &str, limits: Limits, schedule: &str) -> Result<String, Fail>
    requires { AreLimits limits }
{
    let report = report_of(alloc, text, limits, schedule)?;
    Ok(text_of_report(alloc, &report)?)
}

// The core's report of a program under a schedule's text.
fn report_of(alloc: Global, text: &str, limits: Limits, schedule: &str) -> Result<Report, Fail>
    requires { AreLimits limits }
{
    let program = read_program(alloc, text.as_bytes())?;
    let entries = read_schedule(alloc, schedule)?;
    Ok(replay(alloc, &program, entries.as_slice(), limits)?)
}

/// Whether this is the text of the core's report of a program under a schedule's text.
pub fn is_replayed(
    alloc: Global,
    text: &str,
    limits: Limits,
    schedule: &str,
    report: &str,
) -> Result<bool, Fail>
    requires { AreLimits limits }
{
    is_text_of(alloc, &report_of(alloc, text, limits, schedule)?, report)
}

/// Whether this is the report's text.
pub fn is_text_of(alloc: Global, report: &Report, text: &str) -> Result<bool, Fail> {
    Ok(text_of_report(alloc, report)?.as_str() == text)
}

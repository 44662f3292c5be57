//! Why the fibers of a program haven't ended under a schedule.

ghost use Rattle.std.specs.Prelude.{◌≡◌, ◌≢◌, ◌++◌, [], Bool, IfOk, OnOk, codes, decimal, true};
ghost use Rattle.cell_registry.specs.Cells.{AreLimits};
ghost use Rattle.derived_ops.specs.Expansion.{code_of};
ghost use Rattle.derived_ops.specs.Reading.{source_of};
ghost use Rattle.scheduled_core.specs.Finals.{IsFinal};
ghost use Rattle.scheduled_core.specs.Fitting.{AllFit, world_of};
ghost use Rattle.reasons.specs.Whys.{AreWhyLines, IsUnendedText, uncompleted, why_line};

use cell_registry::{Limits, PlainRegistry, RunError};
use effect_term::Program;
use fiber_frames::Config;
use itoa::Buffer;
use outcome_trace::{Why, enter_all, first_fibers, is_done, why_of};
use std::alloc::{AllocError, Global};

/// For each fiber of a program that hasn't ended under a schedule, a line with the reason. Empty if the schedule ends
/// in a fault.
pub(crate) fn unended_reasons(
    alloc: Global,
    program: &Program,
    schedule: &[u16],
    limits: Limits,
) -> Result<Vec<u8>, AllocError>
    requires { AreLimits limits }
    ensures { IfOk result (λ told. IsUnendedText (code_of (source_of program.now)) limits schedule.now told.items) }
{
    let mut fibers = first_fibers(alloc, program)?;
    let mut registry = PlainRegistry::new(
        alloc,
        limits.fibers,
        limits.refs,
        limits.deferreds,
        limits.count,
    )?;
    match enter_all(&mut fibers, &mut registry, schedule) {
        Ok(()) => why_lines(alloc, fibers.as_slice(), &registry),
        Err(error) => fault_reasons(alloc, error),
    }
}

// A fault has no reasons. Returns `AllocError` if memory ran out.
fn fault_reasons(alloc: Global, error: RunError) -> Result<Vec<u8>, AllocError>
    ensures none { IfOk result (λ told. told.items ≡ []) }
    ensures memory { OnOk result (error ≢ RunError.NoMemory) }
{
    match error {
        RunError::NoMemory => Err(AllocError),
        _ => Ok(Vec::new(alloc)),
    }
}

// A line for each fiber that hasn't ended.
fn why_lines(
    alloc: Global,
    fibers: &[Config],
    registry: &PlainRegistry,
) -> Result<Vec<u8>, AllocError>
    requires { AllFit (world_of fibers.now registry.now.state) }
    ensures { IfOk result (λ told. (final : Bool) × (final ≡ true → IsFinal (world_of fibers.now registry.now.state)) ×
        AreWhyLines final registry.now.state 0 fibers.now told.items) }
{
    let last = is_final(fibers, registry);
    let mut told = Vec::new(alloc);
    for config in fibers {
        push_why(&mut told, last, config.number(), why_of(config, registry))?;
    }
    Ok(told)
}

// Whether each fiber has ended, or waits for something that can't come.
fn is_final(fibers: &[Config], registry: &PlainRegistry) -> bool
    requires { AllFit (world_of fibers.now registry.now.state) }
    ensures { result ≡ true → IsFinal (world_of fibers.now registry.now.state) }
{
    for config in fibers {
        if !is_done(config, registry) {
            return false;
        }
    }
    true
}

// Appends the line of a fiber.
fn push_why(told: &mut Vec<u8>, last: bool, fiber: u16, why: Why) -> Result<(), AllocError>
    ensures { OnOk result (told.new.items ≡ told.old.items ++ why_line last fiber why) }
{
    match why {
        Why::Ended => Ok(()),
        Why::WaitsForEnd(other) => push_wait(
            told,
            fiber,
            b" waits for the end of fiber ",
            other,
            b"\n",
        ),
        Why::WaitsForDeferred(number) => {
            push_wait(
                told,
                fiber,
                b" waits for deferred ",
                number,
                uncompleted(last),
            )
        }
        Why::WaitsWithoutEnd => push_line(told, b"fiber ", fiber, b" waits without end\n"),
        Why::CouldGoOn => push_line(told, b"fiber ", fiber, b" could still go on\n"),
    }
}

// The words about a deferred that a fiber waits for.
fn uncompleted(last: bool) -> &'static [u8]
    ensures { result.now ≡ uncompleted last }
{
    if last {
        b", which nobody completes\n"
    } else {
        b", which is empty at the end\n"
    }
}

// Appends a fiber, words, a number and an end.
fn push_wait(
    told: &mut Vec<u8>,
    fiber: u16,
    words: &[u8],
    number: u16,
    end: &[u8],
) -> Result<(), AllocError>
    ensures { OnOk result (told.new.items ≡ told.old.items ++
        (codes "fiber " ++ (decimal fiber ++ (words.now ++ (decimal number ++ end.now))))) }
{
    push_line(told, b"fiber ", fiber, words)?;
    push_line(told, b"", number, end)
}

// Appends words, a number and an end.
fn push_line(told: &mut Vec<u8>, words: &[u8], number: u16, end: &[u8]) -> Result<(), AllocError>
    ensures { OnOk result (told.new.items ≡ told.old.items ++ (words.now ++ (decimal number ++ end.now))) }
{
    let mut digits = Buffer::new();
    told.extend_from_slice(words)?;
    told.extend_from_slice(digits.format(number).as_bytes())?;
    told.extend_from_slice(end)
}

//! The values of refs at a moment.

ghost use Rattle.std.specs.Prelude.{◌≡◌, IfOk, OnOk};
ghost use Rattle.std.specs.List.{All};
ghost use Rattle.cell_registry.specs.Cells.{AreLimits, ref_of};
ghost use Rattle.model_runs.specs.Holding.{IsHeldIn};

use crate::result::HeldRef;
use cell_registry::{Limits, PlainRegistry, RunError};
use effect_term::{Program, Value};
use every_schedule::ClaimWord;
use scheduled_core::{enter_all, first_fibers};
use std::alloc::{AllocError, Global};

/// Returns the values, after a schedule, of the refs that these words compare: each ref once, in the order of the
/// words. Empty if the schedule ends in a fault.
pub(crate) fn held_refs(
    alloc: Global,
    program: &Program,
    limits: Limits,
    schedule: &[u16],
    words: &[ClaimWord],
) -> Result<Vec<HeldRef>, AllocError>
    requires limits { AreLimits limits }
{
    let mut fibers = first_fibers(alloc, program)?;
    let mut registry = PlainRegistry::new(
        alloc,
        limits.fibers,
        limits.refs,
        limits.deferreds,
        limits.count,
    )?;
    match enter_all(&mut fibers, &mut registry, schedule) {
        Ok(()) => values_of(alloc, &mut registry, words),
        Err(RunError::NoMemory) => Err(AllocError),
        Err(_) => Ok(Vec::new(alloc)),
    }
}

// Returns the values in a registry of the refs that these words compare, each ref once.
fn values_of(
    alloc: Global,
    registry: &mut PlainRegistry,
    words: &[ClaimWord],
) -> Result<Vec<HeldRef>, AllocError>
    ensures held { IfOk result (λ it. All (IsHeldIn registry.old.state) it.items) }
{
    let mut held = Vec::new(alloc);
    for word in words {
        if let ClaimWord::Compare(number, _, _) = *word {
            add_held(registry, number, &mut held)?;
        }
    }
    Ok(held)
}

// Adds the value of a ref, unless the list has the ref.
fn add_held(
    registry: &mut PlainRegistry,
    number: u16,
    held: &mut Vec<HeldRef>,
) -> Result<(), AllocError>
    requires { All (IsHeldIn registry.old.state) held.old.items }
    ensures same { registry.new ≡ registry.old }
    ensures held { OnOk result (All (IsHeldIn registry.old.state) held.new.items) }
{
    for one in held.iter() {
        if one.number == number {
            return Ok(());
        }
    }
    let value = value_of(registry, number);
    held.push(HeldRef { number, value })?;
    Ok(())
}

// The value of the ref of this number; 0 if there is no such ref.
#[tactic(auto, using(every_schedule::proofs::RefValues::may_get, every_schedule::proofs::RefValues::got_value, every_schedule::proofs::RefValues::got_same, every_schedule::proofs::RefValues::past_ref))]
fn value_of(registry: &mut PlainRegistry, number: u16) -> Value
    ensures value { result ≡ ref_of registry.old.state number }
    ensures same { registry.new ≡ registry.old }
{
    if number >= registry.limits().refs {
        return Value::ZERO;
    }
    registry.get(0, number)
}

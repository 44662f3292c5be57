//! Makes cycles shorter.

ghost use Rattle.std.specs.Prelude.{◌≡◌, ◌<◌, ◌≤◌, ℕ, length, take, true, IfOk, IfSome, OnOk, Some, Ok as GoesWell};
ghost use Rattle.std.specs.List.{slice_get};
ghost use Rattle.world_search.specs.Lists.{IsIn, IsMore};
ghost use Rattle.world_search.specs.Systems.{run};
ghost use Rattle.fair_ends.specs.Fair.{IsFairCycle};
ghost use Rattle.fair_ends.specs.Private.Tables.{LeadsToWorld};

use crate::ending::Cycle;
use crate::resting::Resting;
use crate::walking::has;
use std::alloc::AllocError;
use world_search::{Entered, Landing};

// A cycle with more entries isn't shortened.
const LONGEST: usize = 10_000;

/// Cuts the cycle where its entries first lead back and include all its fibers. Free moves that are made at once can
/// make a cycle longer than needed.
pub fn shortened<W: Resting>(worlds: &mut W, found: Cycle) -> Result<Cycle, AllocError>
    requires { 0 < length (W.worlds worlds.old) }
    ensures grows { OnOk result (IsMore (W.worlds worlds.old) (W.worlds worlds.new)) }
    ensures cycle { IfOk result (λ it. (first : W.World) → slice_get (W.worlds worlds.old) 0 ≡ Some first →
        IsFairCycle W.entry W.rests first found.stem.items found.cycle.items →
        IsFairCycle W.entry W.rests first it.stem.items it.cycle.items) }
{
    let begins = match walk_alone(&mut *worlds, found.stem.as_slice())? {
        None => return Ok(found),
        Some(it) => it,
    };
    let many = first_return(worlds, begins, found.cycle.as_slice())?;
    let Cycle { stem, mut cycle } = found;
    cycle.truncate(many);
    Ok(Cycle { stem, cycle })
}

// The world that entries lead to from the first world, each made alone. `None` if they end in a fault.
fn walk_alone<W: Resting>(worlds: &mut W, entries: &[u16]) -> Result<Option<usize>, AllocError>
    requires { 0 < length (W.worlds worlds.old) }
    ensures grows { OnOk result (IsMore (W.worlds worlds.old) (W.worlds worlds.new)) }
    ensures leads { IfOk result (λ it. IfSome it (λ to. (first : W.World) →
        slice_get (W.worlds worlds.old) 0 ≡ Some first →
        LeadsToWorld W.entry (W.worlds worlds.new) first entries.now to)) }
    ensures low { IfOk result (λ it. IfSome it (λ to. to < length (W.worlds worlds.new))) }
{
    let mut at = 0;
    for fiber in entries {
        match next_alone(&mut *worlds, at, *fiber)? {
            None => return Ok(None),
            Some(to) => at = to,
        }
    }
    Ok(Some(at))
}

// The number of first entries of a cycle that lead from `begins` back to it and include all fibers of the cycle.
fn first_return<W: Resting>(
    worlds: &mut W,
    begins: usize,
    cycle: &[u16],
) -> Result<usize, AllocError>
    requires { begins < length (W.worlds worlds.old) }
    ensures grows { OnOk result (IsMore (W.worlds worlds.old) (W.worlds worlds.new)) }
    ensures returns { IfOk result (λ n. (w : W.World) → slice_get (W.worlds worlds.old) begins ≡ Some w →
        run W.entry (GoesWell w) cycle.now ≡ GoesWell w → run W.entry (GoesWell w) (take n cycle.now) ≡ GoesWell w) }
    ensures all { IfOk result (λ n. (f : ℕ) → IsIn f cycle.now → IsIn f (take n cycle.now)) }
{
    if cycle.len() > LONGEST {
        return Ok(cycle.len());
    }
    let mut at = begins;
    for index in 0..cycle.len() {
        match next_alone(&mut *worlds, at, cycle[index])? {
            None => return Ok(cycle.len()),
            Some(to) => at = to,
        }
        if at == begins && has_all_of(cycle, index + 1) {
            return Ok(index + 1);
        }
    }
    Ok(cycle.len())
}

// The world that the entry of a fiber, made alone, leads to. `None` if it ends in a fault.
fn next_alone<W: Resting>(
    worlds: &mut W,
    at: usize,
    fiber: u16,
) -> Result<Option<usize>, AllocError>
    requires { at < length (W.worlds worlds.old) }
    ensures grows { OnOk result (IsMore (W.worlds worlds.old) (W.worlds worlds.new)) }
    ensures leads { IfOk result (λ it. IfSome it (λ to. (w : W.World) → slice_get (W.worlds worlds.old) at ≡ Some w →
        (x : W.World) × (slice_get (W.worlds worlds.new) to ≡ Some x) × (W.entry w fiber ≡ GoesWell x))) }
    ensures low { IfOk result (λ it. IfSome it (λ to. to < length (W.worlds worlds.new))) }
{
    match worlds.enter_alone(at, fiber, usize::MAX)? {
        Entered::At(Landing::World(to)) if to < worlds.len() => Ok(Some(to)),
        Entered::At(Landing::World(_)) => Ok(None),
        Entered::At(Landing::Fault(_)) => Ok(None),
        Entered::Full => Ok(None),
    }
}

// Whether each fiber of the cycle is among its first `many` entries.
fn has_all_of(cycle: &[u16], many: usize) -> bool
    requires { many ≤ length cycle.now }
    ensures { result ≡ true → (f : ℕ) → IsIn f cycle.now → IsIn f (take many cycle.now) }
{
    let first = &cycle[..many];
    for fiber in cycle {
        if !has(first, *fiber) {
            return false;
        }
    }
    true
}

//! Entries with own moves after them.
ghost use Rattle.std.specs.Prelude.{◌≡◌, ◌⊎◌, Bool, ◌++◌, ◌<◌, ◌≤◌, [], ◌∷◌, length, false, IfErr, IfOk, OnOk};
ghost use Rattle.std.specs.Prelude.{Ok as GoesWell, Err as Fails};
ghost use Rattle.scheduled_core.specs.Fitting.{AllFit};
ghost use Rattle.every_outcome.specs.Places.{unmarked_place};
ghost use Rattle.every_outcome.specs.Private.Reduced.{IsTrail, after_own, leapt, moved_on, pushed, pushed_once};

use crate::core_world::CoreWorld;
use crate::own_moves::{enters_mask, may_move};
use cell_registry::RunError;
use effect_term::facts_of;
use std::alloc::AllocError;

// The number of rounds of own moves after an entry. In each turn a loop enters the same masks. If their number divides
// that of the rounds, own moves lead from its masks back to the same mask, not to every place in the loop.
const ROUNDS: usize = 12;

// The greatest number of own moves of a fiber in a round.
const MOST: usize = 50;

/// Makes the entry of a fiber, and then own moves of each fiber; without `stores`, none that sets or changes a ref.
/// Adds these entries to the trail, also one that ends in a fault. For a fiber that wasn't started, makes and adds
/// nothing. After an error nothing is known of the world.
pub(crate) fn leap(
    world: &mut CoreWorld,
    fiber: u16,
    stores: bool,
    trail: &mut Vec<u16>,
) -> Result<(), RunError>
    requires { AllFit world.old.world }
    ensures fits { OnOk result (AllFit world.new.world) }
    ensures goes { OnOk result ((says : Bool) →
        leapt says stores (unmarked_place says world.old) fiber ≡ GoesWell (unmarked_place says world.new)) }
    ensures trail { OnOk result ((says : Bool) → IsTrail says trail.old.items trail.new.items
        (unmarked_place says world.old) (GoesWell (unmarked_place says world.new))) }
    ensures stops { IfErr result (λ e. (e ≡ RunError.NoMemory) ⊎ ((says : Bool) →
        (leapt says stores (unmarked_place says world.old) fiber ≡ Fails e) ×
        IsTrail says trail.old.items trail.new.items (unmarked_place says world.old) (Fails e))) }
{
    if usize::from(fiber) >= few_born(&*world) {
        return Ok(());
    }
    add(&mut *trail, fiber)?;
    world.enter(fiber)?;
    push(world, stores, trail)?;
    Ok(())
}

// The number of fibers that were started.
fn few_born(world: &CoreWorld) -> usize
    requires { AllFit world.now.world }
    ensures born { result ≡ length world.now.world.fibers }
    ensures few { result ≤ 1000 }
{
    // The registry is within its limits, and has given each fiber its number.
    facts_of(world.registry().limits());
    world.fibers().len()
}

// Adds an entry.
fn add(trail: &mut Vec<u16>, fiber: u16) -> Result<(), AllocError>
    ensures { OnOk result (trail.new.items ≡ trail.old.items ++ fiber ∷ []) }
{
    trail.push(fiber)?;
    Ok(())
}

// Makes the rounds of own moves, until no fiber has one.
fn push(world: &mut CoreWorld, stores: bool, trail: &mut Vec<u16>) -> Result<(), AllocError>
    requires { AllFit world.old.world }
    ensures fits { OnOk result (AllFit world.new.world) }
    ensures goes { OnOk result ((says : Bool) →
        unmarked_place says world.new ≡ pushed says stores 12 (unmarked_place says world.old)) }
    ensures trail { OnOk result ((says : Bool) → IsTrail says trail.old.items trail.new.items
        (unmarked_place says world.old) (GoesWell (unmarked_place says world.new))) }
{
    for _round in 0..ROUNDS {
        let moved = push_once(&mut *world, stores, &mut *trail)?;
        if !moved {
            return Ok(());
        }
    }
    Ok(())
}

// Makes the own moves of a round, the last fiber first. Returns whether any was made.
fn push_once(world: &mut CoreWorld, stores: bool, trail: &mut Vec<u16>) -> Result<bool, AllocError>
    requires { AllFit world.old.world }
    ensures fits { OnOk result (AllFit world.new.world) }
    ensures goes { OnOk result ((says : Bool) →
        unmarked_place says world.new ≡ pushed_once says stores (unmarked_place says world.old)) }
    ensures stays { IfOk result (λ it. it ≡ false → (says : Bool) →
        pushed_once says stores (unmarked_place says world.new) ≡ unmarked_place says world.new) }
    ensures trail { OnOk result ((says : Bool) → IsTrail says trail.old.items trail.new.items
        (unmarked_place says world.old) (GoesWell (unmarked_place says world.new))) }
{
    let born = few_born(&*world);
    let mut moved = false;
    for done in 0..born {
        let fiber = (born - 1 - done) as u16;
        let made = push_on(&mut *world, fiber, stores, &mut *trail)?;
        moved = either(moved, made);
    }
    Ok(moved)
}

// Whether one of the two is true.
fn either(one: bool, other: bool) -> bool
    ensures { result ≡ false → (one ≡ false) × (other ≡ false) }
{
    one || other
}

// Makes own moves of this fiber: as long as it has one, at most `MOST`, and none after one behind which the next move
// enters a mask. Returns whether any was made.
fn push_on(
    world: &mut CoreWorld,
    fiber: u16,
    stores: bool,
    trail: &mut Vec<u16>,
) -> Result<bool, AllocError>
    requires few { fiber < 1000 }
    requires fits { AllFit world.old.world }
    ensures fits { OnOk result (AllFit world.new.world) }
    ensures goes { OnOk result ((says : Bool) →
        unmarked_place says world.new ≡ moved_on says stores 50 fiber (unmarked_place says world.old)) }
    ensures stays { IfOk result (λ it. it ≡ false → (says : Bool) →
        unmarked_place says world.new ≡ unmarked_place says world.old) }
    ensures trail { OnOk result ((says : Bool) → IsTrail says trail.old.items trail.new.items
        (unmarked_place says world.old) (GoesWell (unmarked_place says world.new))) }
{
    let mut moved = false;
    for _again in 0..MOST {
        let made = push_fiber(&mut *world, fiber, stores, &mut *trail)?;
        if !made {
            return Ok(moved);
        }
        moved = true;
        if enters_mask(&*world, fiber) {
            return Ok(moved);
        }
    }
    Ok(moved)
}

// Makes the own move of this fiber, if it has one that is allowed. Returns whether the move was made.
fn push_fiber(
    world: &mut CoreWorld,
    fiber: u16,
    stores: bool,
    trail: &mut Vec<u16>,
) -> Result<bool, AllocError>
    requires few { fiber < 1000 }
    requires fits { AllFit world.old.world }
    ensures fits { OnOk result (AllFit world.new.world) }
    ensures goes { OnOk result ((says : Bool) →
        unmarked_place says world.new ≡ after_own says stores (unmarked_place says world.old) fiber) }
    ensures stays { IfOk result (λ it. it ≡ false → (says : Bool) →
        unmarked_place says world.new ≡ unmarked_place says world.old) }
    ensures trail { OnOk result ((says : Bool) → IsTrail says trail.old.items trail.new.items
        (unmarked_place says world.old) (GoesWell (unmarked_place says world.new))) }
{
    if !may_move(&*world, fiber, stores) {
        return Ok(false);
    }
    match world.enter(fiber) {
        Ok(()) => {}
        // An own move takes no number of a band, so memory ran out.
        Err(_) => return Err(AllocError),
    }
    add(trail, fiber)?;
    Ok(true)
}

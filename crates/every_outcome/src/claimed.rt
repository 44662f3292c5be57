//! Searches every schedule for worlds that meet claims, in worlds without marks.
ghost use Rattle.std.specs.Prelude.{◌≡◌, ◌++◌, ◌<◌, ◌≤◌, ℕ, List, [], ◌∷◌, max, IfErr, IfOk, OnOk, Some, true, false};
ghost use Rattle.std.specs.List.{All, slice_get};
ghost use Rattle.derived_ops.specs.Expansion.{code_of};
ghost use Rattle.derived_ops.specs.Reading.{source_of};
ghost use Rattle.cell_registry.specs.Cells.{AreLimits};
ghost use Rattle.world_search.specs.declared.claims.Met.{Met as TheMet};
ghost use Rattle.world_search.specs.Claims.{IsFew, IsFound};
ghost use Rattle.every_schedule.specs.declared.claims.ClaimWord.{ClaimWord as TheClaimWord};
ghost use Rattle.every_schedule.specs.Claims.{IsMetIn, Meets};
ghost use Rattle.every_outcome.specs.Outcomes.{counted};

use crate::claim_worlds::ClaimWorlds;
use crate::reporting::GREATEST_COUNT;
use crate::unfolding::unfold;
use cell_registry::{Limits, RunError};
use effect_term::Program;
use every_schedule::{Claim, certify, none_rise};
use std::alloc::{AllocError, Global};
use world_search::{Bounds, Claimed, Met, Watcher};

/// Returns the claims that some world of a program meets, under any schedule, as [`every_schedule::search_claims`]
/// does. Worlds count as one as in [`explore_outcomes`](crate::explore_outcomes), so a loop with masks and brackets in
/// it leads back to a known world.
///
/// The search takes it that some fiber can go on in each world. So it isn't complete if one of the claims can be true
/// only because no fiber can go on.
///
/// Each claim is checked in each world that a schedule leads to. If the search is complete, no schedule leads, under
/// any count of changes, to a world that meets any other of the claims. The claims that it returns are met in any case,
/// under the count of the limits.
///
/// The search makes own moves at once, but none that sets or changes a ref: the values of the refs in each world that a
/// schedule leads to are those in a kept world. `bounds.entries` doesn't count the own moves after the entries.
///
/// The limits are in their ranges ([`Limits`]). A world takes several times as long as one of
/// [`every_schedule::search_claims`]. [`RunError::NoMemory`] is the only error.
pub fn search_outcome_claims<V: Watcher>(
    alloc: Global,
    program: &Program,
    limits: Limits,
    bounds: Bounds,
    claims: &[Claim],
    watcher: &mut V,
) -> Result<Claimed, RunError>
    requires limits { AreLimits limits }
    ensures met { IfOk result (λ it. All (IsMetIn (code_of (source_of program.now)) limits claims.now) it.met.items) }
    ensures unmet { IfOk result (λ it. it.complete ≡ true → (i : ℕ) (words : List TheClaimWord) →
        slice_get claims.now i ≡ Some words → (IsFound i it.met.items → ⊥) → (count : ℕ) (schedule : List ℕ) →
        Meets (code_of (source_of program.now)) (counted limits count) words schedule → ⊥) }
    ensures numbers { IfOk result (λ it. All (IsFew 1000) it.met.items) }
    ensures spare { IfOk result (λ it. it.complete ≡ true → it.bytes < bounds.memory) }
    ensures room { IfOk result (λ it. it.worlds ≤ max bounds.worlds 1) }
    ensures halted { IfOk result (λ it. it.halted ≡ true → V.has_stopped watcher.new ≡ true) }
    ensures may { IfOk result (λ it. it.halted ≡ true → V.can_stop watcher.old ≡ true) }
    ensures apart { IfOk result (λ it. it.complete ≡ true → it.halted ≡ false) }
    ensures watches { V.can_stop watcher.new ≡ V.can_stop watcher.old }
    ensures memory { IfErr result (λ e. e ≡ RunError.NoMemory) }
{
    // The search uses the greatest count, which no fiber uses up.
    let explored = Limits {
        count: GREATEST_COUNT,
        ..limits
    };
    let mut worlds = ClaimWorlds::new(alloc, program, explored)?;
    let found = world_search::search_claims(alloc, &mut worlds, claims, bounds, watcher)?;
    let met = unfold_met(alloc, program, explored, found.met.as_slice())?;
    let sure = none_rise(alloc, claims)?;
    let unfolded = Claimed {
        met,
        complete: are_both(found.complete, sure),
        halted: found.halted,
        worlds: found.worlds,
        bytes: found.bytes,
    };
    let certified = certify(alloc, program, limits, claims, unfolded)?;
    Ok(certified)
}

// Whether both are true.
fn are_both(one: bool, other: bool) -> bool
    ensures { result ≡ true → (one ≡ true) × (other ≡ true) }
{
    one && other
}

// Returns the claims that the search met, with schedules in which each entry is one move.
fn unfold_met(
    alloc: Global,
    program: &Program,
    limits: Limits,
    found: &[Met],
) -> Result<Vec<Met>, RunError>
    requires { AreLimits limits }
    ensures all { IfOk result (λ it. (k : ℕ) (m : TheMet) → slice_get found.now k ≡ Some m →
        IsFound m.claim it.items) }
    ensures numbers { IfOk result (λ it. All (IsFew 1000) it.items) }
    ensures memory { IfErr result (λ e. e ≡ RunError.NoMemory) }
{
    let mut met = Vec::new(alloc);
    for i in 0..found.len() {
        let one = &found[i];
        let schedule = unfold(alloc, program, limits, one.schedule.as_slice(), false)?;
        add(&mut met, one.claim, schedule)?;
    }
    Ok(met)
}

// Adds a claim, with its schedule.
fn add(met: &mut Vec<Met>, claim: usize, schedule: Vec<u16>) -> Result<(), AllocError>
    ensures { OnOk result (met.new.items ≡ met.old.items ++ record { claim = claim; schedule = schedule } ∷ []) }
{
    met.push(Met { claim, schedule })?;
    Ok(())
}

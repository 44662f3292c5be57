//! Searches every schedule for worlds that meet claims.
ghost use Rattle.std.specs.Prelude.{◌≡◌, ◌++◌, ◌<◌, ◌≤◌, ℕ, List, [], ◌∷◌, max, take, true, false};
ghost use Rattle.std.specs.Prelude.{IfErr, IfOk, OnOk, Some};
ghost use Rattle.std.specs.List.{All, slice_get};
ghost use Rattle.derived_ops.specs.Expansion.{code_of};
ghost use Rattle.derived_ops.specs.Reading.{source_of};
ghost use Rattle.cell_registry.specs.Cells.{AreLimits};
ghost use Rattle.world_search.specs.declared.claims.Met.{Met as TheMet};
ghost use Rattle.world_search.specs.Claims.{IsFew, IsFound};
ghost use Rattle.world_search.specs.Lists.{IsMore};
ghost use Rattle.every_schedule.specs.declared.claims.ClaimWord.{ClaimWord as TheClaimWord};
ghost use Rattle.every_schedule.specs.Claims.{IsMetIn, Meets};
ghost use Rattle.every_schedule.specs.Leanings.{leaning_of};

use crate::claims::{Claim, SeenWorld};
use crate::core_world::CoreWorld;
use crate::leanings::none_fall;
use crate::leaping::is_memory;
use crate::own_moves::stored_by;
use crate::seen_worlds::{STILL, SeenWorlds, StrictWorlds, note_ref};
use crate::unfolding::unfold;
use cell_registry::{Limits, RunError};
use effect_term::Program;
use std::alloc::{AllocError, Global};
use world_search::{Bounds, Claimed, Met, Watcher};

/// Returns the claims that some world of a program meets, under any schedule. Each has a schedule, as `replay` takes
/// it, to the first such world that was found.
///
/// Each claim is checked in each world that a schedule leads to. Refs are numbered in the order in which they are made.
/// A claim isn't met, whatever it says, before each ref that it compares was set; the first set of a ref follows when
/// the ref is made.
///
/// If the search is complete, no schedule leads to a world that meets any other of the claims. The claims that it
/// returns are met in any case.
///
/// The search is reduced as in [`explore`](crate::explore), but makes no move at once that sets or changes a ref: the
/// values of the refs in each world that a schedule leads to are those in a kept world. `bounds.entries` doesn't count
/// the own moves after the entries. If one of the claims can be false only because no fiber can go on, as one with a
/// `not` before `final` can, no move is made at once.
///
/// The limits are in their ranges ([`Limits`]). The watcher is asked as in
/// [`explore_watched`](crate::explore_watched). [`RunError::NoMemory`] is the only error.
pub fn search_claims<V: Watcher>(
    alloc: Global,
    program: &Program,
    limits: Limits,
    bounds: Bounds,
    claims: &[Claim],
    watcher: &mut V,
) -> Result<Claimed, RunError>
    requires limits { AreLimits limits }
    ensures met { IfOk result (λ it. All (IsMetIn (code_of (source_of program.now)) limits claims.now) it.met.items) }
    ensures unmet { IfOk result (λ it. it.complete ≡ true → (i : ℕ) (words : List TheClaimWord) →
        slice_get claims.now i ≡ Some words → (IsFound i it.met.items → ⊥) → (schedule : List ℕ) →
        Meets (code_of (source_of program.now)) limits words schedule → ⊥) }
    ensures numbers { IfOk result (λ it. All (IsFew 1000) it.met.items) }
    ensures spare { IfOk result (λ it. it.complete ≡ true → it.bytes < bounds.memory) }
    ensures room { IfOk result (λ it. it.worlds ≤ max bounds.worlds 1) }
    ensures halted { IfOk result (λ it. it.halted ≡ true → V.has_stopped watcher.new ≡ true) }
    ensures may { IfOk result (λ it. it.halted ≡ true → V.can_stop watcher.old ≡ true) }
    ensures apart { IfOk result (λ it. it.complete ≡ true → it.halted ≡ false) }
    ensures watches { V.can_stop watcher.new ≡ V.can_stop watcher.old }
    ensures memory { IfErr result (λ e. e ≡ RunError.NoMemory) }
{
    let found = chosen_search(alloc, program, limits, bounds, claims, watcher)?;
    let certified = certify(alloc, program, limits, claims, found)?;
    Ok(certified)
}

// The search that makes moves at once, if no claim can be false only because no fiber can go on, or else the one that
// makes none.
fn chosen_search<V: Watcher>(
    alloc: Global,
    program: &Program,
    limits: Limits,
    bounds: Bounds,
    claims: &[Claim],
    watcher: &mut V,
) -> Result<Claimed, RunError>
    requires { AreLimits limits }
    ensures unmet { IfOk result (λ it. it.complete ≡ true → (i : ℕ) (words : List TheClaimWord) →
        slice_get claims.now i ≡ Some words → (IsFound i it.met.items → ⊥) → (schedule : List ℕ) →
        Meets (code_of (source_of program.now)) limits words schedule → ⊥) }
    ensures numbers { IfOk result (λ it. All (IsFew 1000) it.met.items) }
    ensures spare { IfOk result (λ it. it.complete ≡ true → it.bytes < bounds.memory) }
    ensures room { IfOk result (λ it. it.worlds ≤ max bounds.worlds 1) }
    ensures halted { IfOk result (λ it. it.halted ≡ true → V.has_stopped watcher.new ≡ true) }
    ensures may { IfOk result (λ it. it.halted ≡ true → V.can_stop watcher.old ≡ true) }
    ensures apart { IfOk result (λ it. it.complete ≡ true → it.halted ≡ false) }
    ensures watches { V.can_stop watcher.new ≡ V.can_stop watcher.old }
    ensures memory { IfErr result (λ e. e ≡ RunError.NoMemory) }
{
    if none_fall(alloc, claims)? {
        return still_search(alloc, program, limits, bounds, claims, watcher);
    }
    strict_search(alloc, program, limits, bounds, claims, watcher)
}

// The search that makes at once moves that set or change no ref. No claim is false only because no fiber can go on.
fn still_search<V: Watcher>(
    alloc: Global,
    program: &Program,
    limits: Limits,
    bounds: Bounds,
    claims: &[Claim],
    watcher: &mut V,
) -> Result<Claimed, RunError>
    requires limits { AreLimits limits }
    requires up { (i : ℕ) (words : List TheClaimWord) → slice_get claims.now i ≡ Some words →
        (leaning_of words).falls ≡ false }
    ensures unmet { IfOk result (λ it. it.complete ≡ true → (i : ℕ) (words : List TheClaimWord) →
        slice_get claims.now i ≡ Some words → (IsFound i it.met.items → ⊥) → (schedule : List ℕ) →
        Meets (code_of (source_of program.now)) limits words schedule → ⊥) }
    ensures numbers { IfOk result (λ it. All (IsFew 1000) it.met.items) }
    ensures spare { IfOk result (λ it. it.complete ≡ true → it.bytes < bounds.memory) }
    ensures room { IfOk result (λ it. it.worlds ≤ max bounds.worlds 1) }
    ensures halted { IfOk result (λ it. it.halted ≡ true → V.has_stopped watcher.new ≡ true) }
    ensures may { IfOk result (λ it. it.halted ≡ true → V.can_stop watcher.old ≡ true) }
    ensures apart { IfOk result (λ it. it.complete ≡ true → it.halted ≡ false) }
    ensures watches { V.can_stop watcher.new ≡ V.can_stop watcher.old }
    ensures memory { IfErr result (λ e. e ≡ RunError.NoMemory) }
{
    let mut worlds = SeenWorlds::new(alloc, program, limits)?;
    let found = world_search::search_claims(alloc, &mut worlds, claims, bounds, watcher)?;
    let met = unfold_met(alloc, program, limits, found.met.as_slice())?;
    Ok(Claimed {
        met,
        complete: found.complete,
        halted: found.halted,
        worlds: found.worlds,
        bytes: found.bytes,
    })
}

// The search that makes no move at once.
fn strict_search<V: Watcher>(
    alloc: Global,
    program: &Program,
    limits: Limits,
    bounds: Bounds,
    claims: &[Claim],
    watcher: &mut V,
) -> Result<Claimed, RunError>
    requires { AreLimits limits }
    ensures unmet { IfOk result (λ it. it.complete ≡ true → (i : ℕ) (words : List TheClaimWord) →
        slice_get claims.now i ≡ Some words → (IsFound i it.met.items → ⊥) → (schedule : List ℕ) →
        Meets (code_of (source_of program.now)) limits words schedule → ⊥) }
    ensures numbers { IfOk result (λ it. All (IsFew 1000) it.met.items) }
    ensures spare { IfOk result (λ it. it.complete ≡ true → it.bytes < bounds.memory) }
    ensures room { IfOk result (λ it. it.worlds ≤ max bounds.worlds 1) }
    ensures halted { IfOk result (λ it. it.halted ≡ true → V.has_stopped watcher.new ≡ true) }
    ensures may { IfOk result (λ it. it.halted ≡ true → V.can_stop watcher.old ≡ true) }
    ensures apart { IfOk result (λ it. it.complete ≡ true → it.halted ≡ false) }
    ensures watches { V.can_stop watcher.new ≡ V.can_stop watcher.old }
    ensures memory { IfErr result (λ e. e ≡ RunError.NoMemory) }
{
    let mut worlds = StrictWorlds::new(alloc, program, limits)?;
    let found = world_search::search_claims(alloc, &mut worlds, claims, bounds, watcher)?;
    Ok(found)
}

// Returns the claims that a reduced search met, with schedules in which each entry is one move.
fn unfold_met(
    alloc: Global,
    program: &Program,
    limits: Limits,
    found: &[Met],
) -> Result<Vec<Met>, RunError>
    requires { AreLimits limits }
    ensures all { IfOk result (λ it. (k : ℕ) (m : TheMet) → slice_get found.now k ≡ Some m →
        IsFound m.claim it.items) }
    ensures numbers { IfOk result (λ it. All (IsFew 1000) it.items) }
    ensures memory { IfErr result (λ e. e ≡ RunError.NoMemory) }
{
    let mut met = Vec::new(alloc);
    for i in 0..found.len() {
        let one = &found[i];
        let schedule = unfold(alloc, program, limits, one.schedule.as_slice(), STILL)?;
        add(&mut met, one.claim, schedule)?;
    }
    Ok(met)
}

// Adds a claim, with its schedule.
fn add(met: &mut Vec<Met>, claim: usize, schedule: Vec<u16>) -> Result<(), AllocError>
    ensures { OnOk result (met.new.items ≡ met.old.items ++ record { claim = claim; schedule = schedule } ∷ []) }
{
    met.push(Met { claim, schedule })?;
    Ok(())
}

/// Replays the schedules that a search found, in which each entry is one move. Keeps the claims up to the first that
/// the core doesn't meet under its schedule; if there is such a claim, the result isn't complete.
///
/// The limits are in their ranges ([`Limits`]). [`RunError::NoMemory`] is the only error.
pub fn certify(
    alloc: Global,
    program: &Program,
    limits: Limits,
    claims: &[Claim],
    found: Claimed,
) -> Result<Claimed, RunError>
    requires limits { AreLimits limits }
    ensures met { IfOk result (λ it. All (IsMetIn (code_of (source_of program.now)) limits claims.now) it.met.items) }
    ensures kept { IfOk result (λ it. IsMore it.met.items found.met.items) }
    ensures whole { IfOk result (λ it. it.complete ≡ true → it.met.items ≡ found.met.items) }
    ensures complete { IfOk result (λ it. it.complete ≡ true → found.complete ≡ true) }
    ensures halted { IfOk result (λ it. it.halted ≡ found.halted) }
    ensures worlds { IfOk result (λ it. it.worlds ≡ found.worlds) }
    ensures bytes { IfOk result (λ it. it.bytes ≡ found.bytes) }
    ensures memory { IfErr result (λ e. e ≡ RunError.NoMemory) }
{
    let many = many_met(alloc, program, limits, claims, found.met.as_slice())?;
    let Claimed {
        mut met,
        complete,
        halted,
        worlds,
        bytes,
    } = found;
    if many < met.len() {
        met.truncate(many);
        return Ok(Claimed {
            met,
            complete: false,
            halted,
            worlds,
            bytes,
        });
    }
    Ok(Claimed {
        met,
        complete,
        halted,
        worlds,
        bytes,
    })
}

// The number of these claims before the first that the core doesn't meet under its schedule.
fn many_met(
    alloc: Global,
    program: &Program,
    limits: Limits,
    claims: &[Claim],
    found: &[Met],
) -> Result<usize, RunError>
    requires { AreLimits limits }
    ensures met { IfOk result (λ it.
        All (IsMetIn (code_of (source_of program.now)) limits claims.now) (take it found.now)) }
    ensures memory { IfErr result (λ e. e ≡ RunError.NoMemory) }
{
    for i in 0..found.len() {
        let met = is_met(alloc, program, limits, claims, &found[i])?;
        if !met {
            return Ok(i);
        }
    }
    Ok(found.len())
}

// Whether the core meets a claim under its schedule.
fn is_met(
    alloc: Global,
    program: &Program,
    limits: Limits,
    claims: &[Claim],
    found: &Met,
) -> Result<bool, RunError>
    requires { AreLimits limits }
    ensures met { IfOk result (λ it. it ≡ true →
        IsMetIn (code_of (source_of program.now)) limits claims.now found.now) }
    ensures memory { IfErr result (λ e. e ≡ RunError.NoMemory) }
{
    if found.claim >= claims.len() {
        return Ok(false);
    }
    let claim = &claims[found.claim];
    let met = leads(alloc, program, limits, found.schedule.as_slice(), claim)?;
    Ok(met)
}

// Whether a schedule of the core leads to a world that meets the claim.
fn leads(
    alloc: Global,
    program: &Program,
    limits: Limits,
    schedule: &[u16],
    claim: &Claim,
) -> Result<bool, RunError>
    requires { AreLimits limits }
    ensures meets { IfOk result (λ it. it ≡ true →
        Meets (code_of (source_of program.now)) limits claim.now schedule.now) }
    ensures memory { IfErr result (λ e. e ≡ RunError.NoMemory) }
{
    let mut world = CoreWorld::first(alloc, program, limits)?;
    let mut seen = Vec::new(alloc);
    for fiber in schedule {
        let stored = stored_by(&world, *fiber);
        note_ref(&mut seen, stored)?;
        match world.enter(*fiber) {
            Ok(next) => world = next,
            Err(fault) => {
                if is_memory(fault) {
                    return Err(RunError::NoMemory);
                }
                return Ok(false);
            }
        }
    }
    let met = SeenWorld::new(world, seen).meets(alloc, claim)?;
    Ok(met)
}

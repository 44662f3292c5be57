//! Whether every fair schedule ends.

ghost use Rattle.std.specs.Prelude.{◌≡◌, ℕ, ◌<◌, length, IfOk, OnOk, Some};
ghost use Rattle.std.specs.List.{slice_get};
ghost use Rattle.world_search.specs.Lists.{IsMore};
ghost use Rattle.fair_ends.specs.declared.ending.Cycle.{Cycle as TheCycle};
ghost use Rattle.fair_ends.specs.Fair.{AreRight, EndsUnder, IsFair, IsFairCycle};
ghost use Rattle.fair_ends.specs.Private.Tables.{IsTable};

use crate::certificate::are_ranked;
use crate::components::components_of;
use crate::cycles::cycle_in;
use crate::ending::{Cycle, Ending};
use crate::ranking::rank_all;
use crate::resting::Resting;
use crate::shortening::shortened;
use crate::table::{Row, table_of};
use crate::walking::fair_cycle;
use std::alloc::{AllocError, Global};
use world_search::{Bounds, Watcher};

/// Decides whether every fair schedule from world 0 of a store ends: in a fault, or in a world at rest.
///
/// Schedules are infinite here. A schedule is fair if each fiber has entries again and again; an entry of a fiber that
/// waits, has ended or isn't born changes nothing. The search makes the steps of the store: an entry, followed at once
/// by some free moves. The clause `ends` has the premise that these moves are free, and that a world at rest stays at
/// rest; the caller shows both for its store ([`Resting`]).
///
/// A world's rank is the number of its strongly connected component. A fiber is helpful if its steps, and all steps
/// that make an entry of it, leave the component. In a component without one, a fair schedule can stay for ever.
///
/// The ranks are checked at each world before [`Ending::Ends`] is returned, and the cycle before [`Ending::Repeats`].
/// [`Ending::Undecided`] is returned at the bound on worlds or on memory ([`Bounds`]; the bound on entries isn't used),
/// if the watcher ends the search or the work on its table, or if a check fails. The watcher is asked at each hundredth
/// world whether the search goes on. `AllocError` if memory is refused.
pub fn decide_ends<W: Resting, V: Watcher>(
    alloc: Global,
    worlds: &mut W,
    bounds: Bounds,
    watcher: &mut V,
) -> Result<Ending, AllocError>
    requires { 0 < length (W.worlds worlds.old) }
    ensures grows { OnOk result (IsMore (W.worlds worlds.old) (W.worlds worlds.new)) }
    ensures ends { IfOk result (λ it. it ≡ Ending.Ends → AreRight W.entry W.free W.rests → (first : W.World) →
        slice_get (W.worlds worlds.old) 0 ≡ Some first → (schedule : ℕ → ℕ) → IsFair W.most_born schedule →
        EndsUnder W.entry W.rests first schedule) }
    ensures repeats { IfOk result (λ it. (c : TheCycle) → it ≡ Ending.Repeats c → (first : W.World) →
        slice_get (W.worlds worlds.old) 0 ≡ Some first →
        IsFairCycle W.entry W.rests first c.stem.items c.cycle.items) }
    ensures watches { V.can_stop watcher.new ≡ V.can_stop watcher.old }
{
    match table_of(alloc, &mut *worlds, bounds, &mut *watcher)? {
        None => Ok(Ending::Undecided),
        Some(rows) => {
            let found = judge(alloc, &*worlds, rows.as_slice(), watcher)?;
            with_short_cycle(worlds, found)
        }
    }
}

// Returns the same ending. If it has a cycle, shortens the cycle.
fn with_short_cycle<W: Resting>(worlds: &mut W, found: Ending) -> Result<Ending, AllocError>
    requires { 0 < length (W.worlds worlds.old) }
    ensures grows { OnOk result (IsMore (W.worlds worlds.old) (W.worlds worlds.new)) }
    ensures ends { IfOk result (λ it. it ≡ Ending.Ends → found ≡ Ending.Ends) }
    ensures repeats { IfOk result (λ it. (c : TheCycle) → it ≡ Ending.Repeats c → (d : TheCycle) ×
        (found ≡ Ending.Repeats d) × ((first : W.World) → slice_get (W.worlds worlds.old) 0 ≡ Some first →
        IsFairCycle W.entry W.rests first d.stem.items d.cycle.items →
        IsFairCycle W.entry W.rests first c.stem.items c.cycle.items)) }
{
    match found {
        Ending::Ends => Ok(Ending::Ends),
        Ending::Undecided => Ok(Ending::Undecided),
        Ending::Repeats(cycle) => {
            let short = shortened(worlds, cycle)?;
            Ok(Ending::Repeats(short))
        }
    }
}

// The quarters of the time after a search that the components, and those that the ranks can take.
const PARTED: u32 = 1;

const RANKED: u32 = 2;

// Decides by the table of all worlds whether every fair schedule ends. `Undecided` also if the watcher ends this work
// after the components or after the ranks were found.
fn judge<W: Resting, V: Watcher>(
    alloc: Global,
    worlds: &W,
    rows: &[Row],
    watcher: &mut V,
) -> Result<Ending, AllocError>
    requires table { IsTable W.entry W.free W.step W.most_born (W.worlds worlds.now) rows.now }
    requires some { 0 < length rows.now }
    ensures ends { IfOk result (λ it. it ≡ Ending.Ends → AreRight W.entry W.free W.rests → (first : W.World) →
        slice_get (W.worlds worlds.now) 0 ≡ Some first → (schedule : ℕ → ℕ) → IsFair W.most_born schedule →
        EndsUnder W.entry W.rests first schedule) }
    ensures repeats { IfOk result (λ it. (c : TheCycle) → it ≡ Ending.Repeats c → (first : W.World) →
        slice_get (W.worlds worlds.now) 0 ≡ Some first →
        IsFairCycle W.entry W.rests first c.stem.items c.cycle.items) }
    ensures watches { V.can_stop watcher.new ≡ V.can_stop watcher.old }
{
    let components = components_of(alloc, rows)?;
    if !watcher.lists_on(PARTED) {
        return Ok(Ending::Undecided);
    }
    let ranking = rank_all(alloc, worlds, rows, components.as_slice())?;
    if !watcher.lists_on(RANKED) {
        return Ok(Ending::Undecided);
    }
    match cycle_in(alloc, rows, components.as_slice(), ranking.stuck.as_slice())? {
        Some(steps) => checked(alloc, worlds, rows, &steps),
        None => {
            if are_ranked(worlds, rows, ranking.ranks.as_slice())? {
                Ok(Ending::Ends)
            } else {
                Ok(Ending::Undecided)
            }
        }
    }
}

// Returns the entries of a cycle of steps if a fair schedule can repeat them, otherwise `Undecided`.
fn checked<W: Resting>(
    alloc: Global,
    worlds: &W,
    rows: &[Row],
    steps: &Cycle,
) -> Result<Ending, AllocError>
    requires table { IsTable W.entry W.free W.step W.most_born (W.worlds worlds.now) rows.now }
    requires some { 0 < length rows.now }
    ensures ends { IfOk result (λ it. it ≡ Ending.Ends → ⊥) }
    ensures repeats { IfOk result (λ it. (c : TheCycle) → it ≡ Ending.Repeats c → (first : W.World) →
        slice_get (W.worlds worlds.now) 0 ≡ Some first →
        IsFairCycle W.entry W.rests first c.stem.items c.cycle.items) }
{
    if let Some(cycle) = fair_cycle(alloc, worlds, rows, steps)? {
        return Ok(Ending::Repeats(cycle));
    }
    Ok(Ending::Undecided)
}

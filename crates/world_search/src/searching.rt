//! The search of every schedule.

ghost use Rattle.std.specs.Prelude.{◌≡◌, ℕ, ◌*◌, ◌<◌, ◌≤◌, ◌++◌, List, length, true, false, max, min, Ok as GoesWell};
ghost use Rattle.std.specs.Prelude.{IfOk, OnOk, Some};
ghost use Rattle.std.specs.List.{slice_get, All};
ghost use Rattle.world_search.specs.Answers.{IsAtBound, IsCovered, IsRight, IsEnd, IsShort, IsNumbered, TellOnce};
ghost use Rattle.world_search.specs.Answers.{bytes_of};
ghost use Rattle.world_search.specs.Free.{AreGrowing};
ghost use Rattle.world_search.specs.Lists.{IsMore};
ghost use Rattle.world_search.specs.Systems.{run};

use crate::answers::{Bounds, Found};
use crate::expanding::{Limits, bytes_of, explore};
use crate::graphs::begin;
use crate::listing::{list_faults, list_worlds};
use crate::spread::spread;
use crate::store::Worlds;
use crate::watching::Watcher;
use std::alloc::{AllocError, Global};

/// Searches every schedule from the first world of a store, which has number 0.
///
/// The entries are made at one world after another, in the order in which the worlds were met. Each entry is made once
/// at each world. The first world has number 0. The watcher is asked ([`Watcher::goes_on`]) before the entries at the
/// worlds 99, 199, 299 and so on. It is also asked at each world where the counted bytes ([`Found::bytes`]) have grown
/// by 1,048,576 or more. They have grown since it was last asked for this reason, or since the beginning. If the watcher
/// ends the search, the result is what was found so far ([`Found::halted`]). [`Unwatched`](crate::Unwatched) ends no
/// search.
///
/// `AllocError` where memory is refused; a bound on memory ([`Bounds::memory`]) can stop the search before that.
///
/// If each entry keeps the report or makes it larger, and the search is complete, then after each schedule some further
/// entries lead to an answer (`onward`).
pub fn search<W: Worlds, V: Watcher>(
    alloc: Global,
    worlds: &mut W,
    bounds: Bounds,
    watcher: &mut V,
) -> Result<Found, AllocError>
    requires { 0 < length (W.worlds worlds.old) }
    ensures grows { OnOk result (IsMore (W.worlds worlds.old) (W.worlds worlds.new)) }
    ensures adds { OnOk result (IsMore (W.faults worlds.old) (W.faults worlds.new)) }
    ensures all { IfOk result (λ it. it.complete ≡ true → (first : W.World) →
        slice_get (W.worlds worlds.old) 0 ≡ Some first → (schedule : List ℕ) →
        IsCovered W.step W.report (W.worlds worlds.new) (W.faults worlds.new) it.answers.items
        (run W.step (GoesWell first) schedule)) }
    ensures each { IfOk result (λ it. (first : W.World) → slice_get (W.worlds worlds.old) 0 ≡ Some first →
        All (IsRight W.step W.report (W.worlds worlds.new) (W.faults worlds.new) first) it.answers.items) }
    ensures onward { IfOk result (λ it. it.complete ≡ true → (size : W.Report → ℕ) → AreGrowing W.step W.report size →
        (first : W.World) → slice_get (W.worlds worlds.old) 0 ≡ Some first → (schedule : List ℕ) →
        (more : List ℕ) × IsEnd W.step W.report (W.worlds worlds.new) (W.faults worlds.new) it.answers.items
        (run W.step (GoesWell first) (schedule ++ more))) }
    ensures once { IfOk result (λ it. TellOnce W.report (W.worlds worlds.new) it.answers.items) }
    ensures numbers { IfOk result (λ it. All (IsNumbered W.most_born) it.answers.items) }
    ensures short { IfOk result (λ it. All (IsShort bounds.entries) it.answers.items) }
    ensures room { OnOk result (length (W.worlds worlds.new) ≤ max bounds.worlds (length (W.worlds worlds.old))) }
    ensures count { IfOk result (λ it. it.worlds ≡ length (W.worlds worlds.new)) }
    ensures stopped { IfOk result (λ it. it.complete ≡ false → it.halted ≡ false → length (W.worlds worlds.old) ≡ 1 →
        IsAtBound bounds it.worlds it.bytes) }
    ensures halted { IfOk result (λ it. it.halted ≡ true → V.has_stopped watcher.new ≡ true) }
    ensures may { IfOk result (λ it. it.halted ≡ true → V.can_stop watcher.old ≡ true) }
    ensures apart { IfOk result (λ it. it.complete ≡ true → it.halted ≡ false) }
    ensures watches { V.can_stop watcher.new ≡ V.can_stop watcher.old }
    ensures spare { IfOk result (λ it. it.complete ≡ true → it.bytes < bounds.memory) }
    ensures counted { IfOk result (λ it. it.bytes ≡ bytes_of it.worlds it.edges (W.bytes worlds.new)) }
    ensures edges { IfOk result (λ it. it.edges ≤ W.most_born * it.worlds) }
{
    let limits = Limits {
        worlds: capped(bounds.worlds),
        entries: capped(bounds.entries),
        memory: bounds.memory,
    };
    let mut graph = begin(alloc)?;
    let closing = explore(&mut *worlds, &mut graph, limits, watcher)?;
    spread(graph.edges.as_slice(), &mut graph.unsettled);
    let mut answers = Vec::new(alloc);
    list_worlds(alloc, &*worlds, &graph, &mut answers)?;
    list_faults(alloc, &graph, &mut answers)?;
    Ok(Found {
        answers,
        complete: closing.is_whole(),
        halted: closing.is_halted(),
        worlds: worlds.len(),
        edges: graph.edges.len(),
        bytes: bytes_of(&*worlds, &graph),
    })
}

/// The limits of these bounds, in the number types of the graph.
pub fn limits_of(bounds: Bounds) -> Limits
    ensures worlds { result.worlds ≡ min bounds.worlds 4294967295 }
    ensures entries { result.entries ≡ min bounds.entries 4294967295 }
    ensures memory { result.memory ≡ bounds.memory }
{
    let worlds = capped(bounds.worlds);
    let entries = capped(bounds.entries);
    Limits {
        worlds,
        entries,
        memory: bounds.memory,
    }
}

// The bound, or 2^32 - 1 if the bound is greater.
fn capped(bound: usize) -> u32
    ensures below { result ≤ bound }
    ensures exact { result ≡ min bound 4294967295 }
{
    if bound > u32::MAX as usize {
        u32::MAX
    } else {
        bound as u32
    }
}

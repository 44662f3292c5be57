//! Schedules along a table.

ghost use Rattle.std.specs.Prelude.{◌≡◌, ◌⊎◌, ℕ, ◌<◌, length, true, false, IfOk, IfSome, Some, Ok as GoesWell};
ghost use Rattle.std.specs.List.{slice_get};
ghost use Rattle.world_search.specs.Lists.{IsIn};
ghost use Rattle.world_search.specs.Systems.{run};
ghost use Rattle.fair_ends.specs.declared.table.Edge.{Edge as TheEdge};
ghost use Rattle.fair_ends.specs.Fair.{IsFairCycle};
ghost use Rattle.fair_ends.specs.Private.Tables.{IsStill, IsTable, LandsOn, fault};

use crate::ending::Cycle;
use crate::resting::Resting;
use crate::table::{Edge, FAULT, Row};
use std::alloc::{AllocError, Global};

// Where some steps lead, and the entries that they make.
#[derive(Drop)]
struct Course {
    end: u32,
    entries: Vec<u16>,
}

/// Returns the entries that these steps make, if they are a cycle that a fair schedule can repeat for ever.
pub fn fair_cycle<W: Resting>(
    alloc: Global,
    worlds: &W,
    rows: &[Row],
    steps: &Cycle,
) -> Result<Option<Cycle>, AllocError>
    requires table { IsTable W.entry W.free W.step W.most_born (W.worlds worlds.now) rows.now }
    requires some { 0 < length rows.now }
    ensures { IfOk result (λ it. IfSome it (λ c. (first : W.World) → slice_get (W.worlds worlds.now) 0 ≡ Some first →
        IsFairCycle W.entry W.rests first c.stem.items c.cycle.items)) }
{
    let stem = walk(alloc, worlds, rows, 0, steps.stem.as_slice())?;
    let begins = stem.end;
    if begins == FAULT || begins as usize >= rows.len() {
        return Ok(None);
    }
    let cycle = walk(alloc, worlds, rows, begins, steps.cycle.as_slice())?;
    if cycle.end != begins || !has_all(cycle.entries.as_slice(), &rows[begins as usize], begins) {
        return Ok(None);
    }
    if !worlds.can_go_on(begins as usize)? {
        return Ok(None);
    }
    Ok(Some(Cycle {
        stem: stem.entries,
        cycle: cycle.entries,
    }))
}

// Returns where steps lead from a world, and the entries that they make.
fn walk<W: Resting>(
    alloc: Global,
    worlds: &W,
    rows: &[Row],
    from: u32,
    steps: &[u16],
) -> Result<Course, AllocError>
    requires table { IsTable W.entry W.free W.step W.most_born (W.worlds worlds.now) rows.now }
    requires low { from < fault }
    ensures { IfOk result (λ it. (w : W.World) → slice_get (W.worlds worlds.now) from ≡ Some w →
        LandsOn (W.worlds worlds.now) it.end (run W.entry (GoesWell w) it.entries.items)) }
{
    let mut end = from;
    let mut entries = Vec::new(alloc);
    for fiber in steps {
        end = next(worlds, rows, end, *fiber, &mut entries)?;
    }
    Ok(Course { end, entries })
}

// Returns where the step of a fiber leads, and adds the entries that the step makes.
fn next<W: Resting>(
    worlds: &W,
    rows: &[Row],
    at: u32,
    fiber: u16,
    entries: &mut Vec<u16>,
) -> Result<u32, AllocError>
    requires { IsTable W.entry W.free W.step W.most_born (W.worlds worlds.now) rows.now }
    ensures { IfOk result (λ to. (w : W.World) →
        LandsOn (W.worlds worlds.now) at (run W.entry (GoesWell w) entries.old.items) →
        LandsOn (W.worlds worlds.now) to (run W.entry (GoesWell w) entries.new.items)) }
{
    if at == FAULT || at as usize >= rows.len() || at as usize >= worlds.len() {
        return Ok(at);
    }
    match rows[at as usize].edges.get(usize::from(fiber)) {
        None => Ok(at),
        Some(edge) => {
            entries.extend_from_slice(edge.made.as_slice())?;
            Ok(edge.target)
        }
    }
}

// Whether each fiber has an entry, or its entry at the world `begins`, which has this row, changes nothing.
fn has_all(entries: &[u16], row: &Row, begins: u32) -> bool
    ensures { result ≡ true → (f : ℕ) (e : TheEdge) → slice_get row.now.edges.items f ≡ Some e →
        IsIn f entries.now ⊎ IsStill begins f e }
{
    let edges = row.edges.as_slice();
    if edges.len() > 65_535 {
        return false;
    }
    for fiber in 0..edges.len() {
        if !comes(entries, &edges[fiber], begins, fiber as u16) {
            return false;
        }
    }
    true
}

// Whether a fiber has an entry, or its entry at the world `begins` changes nothing.
fn comes(entries: &[u16], edge: &Edge, begins: u32, fiber: u16) -> bool
    ensures { result ≡ true → IsIn fiber entries.now ⊎ IsStill begins fiber edge.now }
{
    has(entries, fiber) || is_idle(edge, begins, fiber)
}

/// Whether the step of a fiber at a world makes no entry of that fiber, or its entry alone, which leads back.
pub(crate) fn is_idle(edge: &Edge, world: u32, fiber: u16) -> bool
    ensures { result ≡ true → IsStill world fiber edge.now }
{
    let made = edge.made.as_slice();
    if !has(made, fiber) {
        return true;
    }
    made.len() == 1 && made[0] == fiber && edge.target == world
}

/// Whether one of these entries is this fiber's.
pub(crate) fn has(entries: &[u16], fiber: u16) -> bool
    ensures yes { result ≡ true → IsIn fiber entries.now }
    ensures no { result ≡ false → IsIn fiber entries.now → ⊥ }
{
    for it in entries {
        if *it == fiber {
            return true;
        }
    }
    false
}

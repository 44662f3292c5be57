//! The table of a system: all its worlds, and where the steps at each of them lead.

ghost use Rattle.std.specs.Prelude.{◌≡◌, ℕ, ◌<◌, ◌≤◌, length, Some, IfOk, IfSome, OnOk};
ghost use Rattle.std.specs.List.{slice_get};
ghost use Rattle.world_search.specs.Lists.{IsMore};
ghost use Rattle.fair_ends.specs.Private.Tables.{IsRow, IsTable, IsTarget, fault};

use crate::resting::Resting;
use std::alloc::{AllocError, Global};
use world_search::{Bounds, Entered, Landing, Watcher, Worlds};

/// The target of a step that ends in a fault, in place of the number of a world.
pub const FAULT: u32 = u32::MAX;

// The watcher is asked once in this number of worlds.
const ASKED_EACH: usize = 100;

/// Where the step of a fiber leads.
#[derive(Drop)]
pub struct Edge {
    /// The number of a world, or [`FAULT`].
    pub target: u32,
    /// The fibers whose entries the step makes, in turn.
    pub made: Vec<u16>,
}

/// Where the steps at one world lead, by the number of the fiber.
#[derive(Drop)]
pub struct Row {
    /// The steps of the fibers that are born.
    pub edges: Vec<Edge>,
}

/// Returns the rows of all worlds that any schedule leads to. `None` at a bound, or if the watcher ended the search.
pub fn table_of<W: Resting, V: Watcher>(
    alloc: Global,
    worlds: &mut W,
    bounds: Bounds,
    watcher: &mut V,
) -> Result<Option<Vec<Row>>, AllocError>
    ensures grows { OnOk result (IsMore (W.worlds worlds.old) (W.worlds worlds.new)) }
    ensures rows { IfOk result (λ it. IfSome it (λ rows.
        IsTable W.entry W.free W.step W.most_born (W.worlds worlds.new) rows.items)) }
    ensures watches { V.can_stop watcher.new ≡ V.can_stop watcher.old }
{
    let mut rows = Vec::new(alloc);
    let mut bytes: usize = 0;
    for index in 0..bounds.worlds {
        if index >= worlds.len() {
            return Ok(Some(rows));
        }
        if worlds.bytes().saturating_add(bytes) >= bounds.memory {
            return Ok(None);
        }
        if !lets_go_on(&mut *watcher, &*worlds, index) {
            return Ok(None);
        }
        match row_at(alloc, &mut *worlds, index, bounds.worlds)? {
            None => return Ok(None),
            Some(row) => {
                bytes = bytes.saturating_add(size_of_row(&row));
                rows.push(row)?;
            }
        }
    }
    Ok(None)
}

// About how many bytes a row takes.
fn size_of_row(row: &Row) -> usize {
    let mut size: usize = 40;
    for edge in row.edges.as_slice() {
        size = size.saturating_add(size_of_edge(edge));
    }
    size
}

// About how many bytes an edge takes.
fn size_of_edge(edge: &Edge) -> usize {
    edge.made.len().saturating_mul(2).saturating_add(56)
}

// Whether the search goes on at the world of this number. The watcher is asked at each hundredth world.
fn lets_go_on<W: Worlds, V: Watcher>(watcher: &mut V, worlds: &W, index: usize) -> bool
    ensures same { V.can_stop watcher.new ≡ V.can_stop watcher.old }
{
    if index % ASKED_EACH != ASKED_EACH - 1 {
        return true;
    }
    watcher.goes_on(worlds.len(), index)
}

// Returns where the steps at a world lead. `None` if there is no room for one of the worlds to which they lead.
fn row_at<W: Resting>(
    alloc: Global,
    worlds: &mut W,
    index: usize,
    most: usize,
) -> Result<Option<Row>, AllocError>
    requires { index < length (W.worlds worlds.old) }
    ensures grows { OnOk result (IsMore (W.worlds worlds.old) (W.worlds worlds.new)) }
    ensures row { IfOk result (λ it. IfSome it (λ row. (w : W.World) → slice_get (W.worlds worlds.new) index ≡ Some w →
        IsRow W.entry W.free W.step W.most_born (W.worlds worlds.new) w row)) }
{
    let born = worlds.many(index);
    let mut edges = Vec::new(alloc);
    for fiber in 0..born {
        let step = worlds.make(index, fiber, most)?;
        match target(step.to) {
            None => return Ok(None),
            Some(target) => edges.push(Edge {
                target,
                made: step.entries,
            })?,
        }
    }
    Ok(Some(Row { edges }))
}

// The target of a step: [`FAULT`], or a world's number below that. `None` if there is no such target.
fn target(entered: Entered) -> Option<u32>
    ensures { IfSome result (λ t. IsTarget entered t) }
{
    match entered {
        Entered::Full => None,
        Entered::At(Landing::Fault(_)) => Some(FAULT),
        Entered::At(Landing::World(to)) => {
            if to >= FAULT as usize {
                return None;
            }
            Some(to as u32)
        }
    }
}

//! Makes the entries at each world that was met.

ghost use Rattle.std.specs.Prelude.{◌≡◌, ◌≢◌, ◌⊎◌, ℕ, ◌+◌, ◌*◌, ◌<◌, ◌≤◌, length, true, false, max, IfOk, OnOk, Some};
ghost use Rattle.std.specs.List.{slice_get};
ghost use Rattle.world_search.specs.declared.graphs.Node.{Node};
ghost use Rattle.world_search.specs.Answers.{bytes_of};
ghost use Rattle.world_search.specs.Landings.{LandsAt};
ghost use Rattle.world_search.specs.Lists.{IsMore};
ghost use Rattle.world_search.specs.Private.Shapes.{shape};
ghost use Rattle.world_search.specs.Private.Graphs.{Fits, Grows, CanEnter, ComesTo, IsDone, SameFlags, worse_of};
ghost use Rattle.world_search.specs.Private.Graphs.{IsNearly, IsSnug, IsStopped};

use crate::graphs::{Edge, Graph, Node, add_edge, keep, note, set_quiet};
use crate::landings::{Entered, Landing};
use crate::store::Worlds;
use crate::watching::Watcher;
use std::alloc::AllocError;

// The watcher is asked once for this number of worlds, and once these bytes were counted since it was asked last.
const ASKED_EACH: usize = 100;

const ASKED_BYTES: usize = 1 << 20;

/// The limits of a search.
#[derive(Clone, Copy)]
pub struct Limits {
    /// The greatest number of worlds.
    pub worlds: u32,
    /// The greatest number of entries that lead to a world.
    pub entries: u32,
    /// The number of bytes at which no more entries are made.
    pub memory: usize,
}

/// The result of entries at a world.
#[derive(Clone, Copy)]
pub enum Came {
    /// Each entry changes nothing, or leads to a world of the same report.
    Stays,
    /// One entry changes the report or ends in a fault. Each entry leads to a world or a fault that was met.
    Leaves,
    /// One entry leads to a world that isn't kept.
    Lost,
}

/// How a search ended.
#[derive(Clone, Copy)]
pub enum Closing {
    /// Each entry was made, and leads to a world or a fault that was met.
    Whole,
    /// A limit was met.
    Bounded,
    /// The watcher ended the search.
    Halted,
}

impl Closing {
    /// Whether each entry was made, and leads to a world or a fault that was met.
    pub fn is_whole(self) -> bool
        ensures yes { result ≡ true → self ≡ Closing.Whole }
        ensures no { result ≡ false → self ≢ Closing.Whole }
    {
        matches!(self, Closing::Whole)
    }

    /// Whether the watcher ended the search.
    pub fn is_halted(self) -> bool
        ensures yes { result ≡ true → self ≡ Closing.Halted }
        ensures no { result ≡ false → self ≢ Closing.Halted }
    {
        matches!(self, Closing::Halted)
    }
}

/// Makes the entries at all worlds that are met, within the limits and until the watcher ends the search. Returns how
/// the search ended.
pub fn explore<W: Worlds, V: Watcher>(
    worlds: &mut W,
    graph: &mut Graph,
    limits: Limits,
    watcher: &mut V,
) -> Result<Closing, AllocError>
    requires { Fits W.step W.report W.most_born limits.entries
        (W.worlds worlds.old) (W.faults worlds.old) (shape graph.old) }
    ensures grows { OnOk result (Grows (W.worlds worlds.old) (W.worlds worlds.new) (W.faults worlds.old)
        (W.faults worlds.new) (shape graph.old) (shape graph.new)) }
    ensures fits { OnOk result (Fits W.step W.report W.most_born limits.entries (W.worlds worlds.new)
        (W.faults worlds.new) (shape graph.new)) }
    ensures done { IfOk result (λ it. it ≡ Closing.Whole → (i : ℕ) → i < length graph.new.nodes.items →
        IsDone W.step W.report W.most_born limits.entries
        (W.worlds worlds.new) (W.faults worlds.new) (shape graph.new) i) }
    ensures room { OnOk result (length (W.worlds worlds.new) ≤ max limits.worlds (length (W.worlds worlds.old))) }
    ensures snug { IsSnug (length (W.worlds worlds.old)) (shape graph.old) →
        OnOk result (IsSnug (length (W.worlds worlds.new)) (shape graph.new)) }
    ensures stopped { IfOk result (λ it. it ≡ Closing.Bounded → IsSnug (length (W.worlds worlds.old)) (shape graph.old) →
        IsStopped limits.worlds limits.entries (length (W.worlds worlds.new)) ⊎
        (limits.memory ≤ bytes_of (length (W.worlds worlds.new)) (length graph.new.edges.items) (W.bytes worlds.new))) }
    ensures spare { IfOk result (λ it. it ≡ Closing.Whole → bytes_of (length (W.worlds worlds.new))
        (length graph.new.edges.items) (W.bytes worlds.new) < limits.memory) }
    ensures edges { OnOk result (length graph.new.edges.items ≤
        length graph.old.edges.items + W.most_born * length graph.new.nodes.items) }
    ensures halted { IfOk result (λ it. it ≡ Closing.Halted → V.has_stopped watcher.new ≡ true) }
    ensures may { IfOk result (λ it. it ≡ Closing.Halted → V.can_stop watcher.old ≡ true) }
    ensures watches { V.can_stop watcher.new ≡ V.can_stop watcher.old }
{
    let mut whole = true;
    let mut index = 0;
    let mut asked = 0;
    while index < graph.nodes.len() && has_room(&*worlds, &*graph, index, limits) {
        let bytes = bytes_of(&*worlds, &*graph);
        let grown = bytes.saturating_sub(asked);
        if grown >= ASKED_BYTES {
            asked = bytes;
        }
        if !lets_go_on(&mut *watcher, &*graph, index, grown) {
            return Ok(Closing::Halted);
        }
        if !expand(&mut *worlds, &mut *graph, index, limits)? {
            whole = false;
        }
        index += 1;
    }
    if whole {
        Ok(closing_at(&*worlds, &*graph, index, limits))
    } else {
        Ok(Closing::Bounded)
    }
}

/// The number of bytes that are counted for the worlds and the graph.
pub fn bytes_of<W: Worlds>(worlds: &W, graph: &Graph) -> usize
    ensures { result ≡ bytes_of (length (W.worlds worlds.now)) (length graph.now.edges.items) (W.bytes worlds.now) }
{
    let nodes = worlds.len().saturating_mul(13);
    let edges = graph.edges.len().saturating_mul(8);
    nodes.saturating_add(edges).saturating_add(worlds.bytes())
}

// Whether the limits of worlds and of memory allow the entries at the world of this number.
fn has_room<W: Worlds>(worlds: &W, graph: &Graph, index: usize, limits: Limits) -> bool
    ensures few { result ≡ true → index < limits.worlds }
    ensures room { result ≡ true → bytes_of (length (W.worlds worlds.now)) (length graph.now.edges.items)
        (W.bytes worlds.now) < limits.memory }
    ensures stops { result ≡ false → (limits.worlds ≤ index) ⊎ (limits.memory ≤ bytes_of
        (length (W.worlds worlds.now)) (length graph.now.edges.items) (W.bytes worlds.now)) }
{
    index < limits.worlds as usize && bytes_of(worlds, graph) < limits.memory
}

// How a search ended whose next world has this number: whole if no world with this number was met, and the memory is
// below its limit.
fn closing_at<W: Worlds>(worlds: &W, graph: &Graph, index: usize, limits: Limits) -> Closing
    ensures all { result ≡ Closing.Whole → length graph.now.nodes.items ≤ index }
    ensures spare { result ≡ Closing.Whole → bytes_of (length (W.worlds worlds.now)) (length graph.now.edges.items)
        (W.bytes worlds.now) < limits.memory }
    ensures goes { result ≢ Closing.Halted }
    ensures isnt { result ≡ Closing.Bounded → (index < length graph.now.nodes.items) ⊎
        (limits.memory ≤ bytes_of (length (W.worlds worlds.now)) (length graph.now.edges.items) (W.bytes worlds.now)) }
{
    if index >= graph.nodes.len() && bytes_of(worlds, graph) < limits.memory {
        Closing::Whole
    } else {
        Closing::Bounded
    }
}

// Whether the search goes on at the world of this number: asks the watcher if it is due. `grown` is the number of bytes
// that were counted since it was asked last for their sake.
fn lets_go_on<V: Watcher>(watcher: &mut V, graph: &Graph, index: usize, grown: usize) -> bool
    requires { index < length graph.now.nodes.items }
    ensures same { V.can_stop watcher.new ≡ V.can_stop watcher.old }
    ensures can { result ≡ false → V.can_stop watcher.old ≡ true }
    ensures says { result ≡ false → V.has_stopped watcher.new ≡ true }
{
    if index % ASKED_EACH != ASKED_EACH - 1 && grown < ASKED_BYTES {
        return true;
    }
    watcher.goes_on(graph.nodes.len(), graph.nodes[index].depth as usize)
}

// Makes all entries at one world. Returns whether they were made and each leads to a world or a fault that was met.
fn expand<W: Worlds>(
    worlds: &mut W,
    graph: &mut Graph,
    index: usize,
    limits: Limits,
) -> Result<bool, AllocError>
    requires fits { Fits W.step W.report W.most_born limits.entries
        (W.worlds worlds.old) (W.faults worlds.old) (shape graph.old) }
    requires low { index < length graph.old.nodes.items }
    requires few { index < limits.worlds }
    requires spare { bytes_of (length (W.worlds worlds.old)) (length graph.old.edges.items) (W.bytes worlds.old) <
        limits.memory }
    ensures grows { OnOk result (Grows (W.worlds worlds.old) (W.worlds worlds.new) (W.faults worlds.old)
        (W.faults worlds.new) (shape graph.old) (shape graph.new)) }
    ensures fits { OnOk result (Fits W.step W.report W.most_born limits.entries (W.worlds worlds.new)
        (W.faults worlds.new) (shape graph.new)) }
    ensures edges { OnOk result (length graph.new.edges.items ≤ length graph.old.edges.items + W.most_born) }
    ensures flags { OnOk result (SameFlags index graph.old.unsettled.items graph.new.unsettled.items) }
    ensures done { IfOk result (λ it. it ≡ true →
        IsDone W.step W.report W.most_born limits.entries
        (W.worlds worlds.new) (W.faults worlds.new) (shape graph.new) index) }
    ensures room { OnOk result (length (W.worlds worlds.new) ≤ max limits.worlds (length (W.worlds worlds.old))) }
    ensures snug { IsSnug (length (W.worlds worlds.old)) (shape graph.old) →
        OnOk result (IsSnug (length (W.worlds worlds.new)) (shape graph.new)) }
    ensures stopped { IfOk result (λ it. it ≡ false → IsSnug (length (W.worlds worlds.old)) (shape graph.old) →
        IsStopped limits.worlds limits.entries (length (W.worlds worlds.new))) }
{
    if graph.nodes[index].depth >= limits.entries {
        return Ok(false);
    }
    let born = worlds.born(index);
    let mut came = Came::Stays;
    for fiber in 0..born {
        came = worse(
            came,
            enter(&mut *worlds, &mut *graph, index, fiber, limits)?,
        );
    }
    match came {
        Came::Stays => {
            set_quiet(graph, index);
            Ok(true)
        }
        Came::Leaves => Ok(true),
        Came::Lost => Ok(false),
    }
}

// The result of some entries and of one more, from the results of both.
fn worse(one: Came, other: Came) -> Came
    ensures { result ≡ worse_of one other }
{
    match (one, other) {
        (Came::Lost, _) | (_, Came::Lost) => Came::Lost,
        (Came::Leaves, _) | (_, Came::Leaves) => Came::Leaves,
        (Came::Stays, Came::Stays) => Came::Stays,
    }
}

// Makes one entry at one world.
fn enter<W: Worlds>(
    worlds: &mut W,
    graph: &mut Graph,
    index: usize,
    fiber: u16,
    limits: Limits,
) -> Result<Came, AllocError>
    requires fits { Fits W.step W.report W.most_born limits.entries
        (W.worlds worlds.old) (W.faults worlds.old) (shape graph.old) }
    requires low { index < length graph.old.nodes.items }
    requires few { index < limits.worlds }
    requires deep { (n : Node) → slice_get graph.old.nodes.items index ≡ Some n → n.depth < limits.entries }
    requires small { fiber < W.most_born }
    ensures grows { OnOk result (Grows (W.worlds worlds.old) (W.worlds worlds.new) (W.faults worlds.old)
        (W.faults worlds.new) (shape graph.old) (shape graph.new)) }
    ensures fits { OnOk result (Fits W.step W.report W.most_born limits.entries (W.worlds worlds.new)
        (W.faults worlds.new) (shape graph.new)) }
    ensures flags { OnOk result (IsMore graph.old.unsettled.items graph.new.unsettled.items) }
    ensures came { IfOk result (λ it. (w : W.World) → slice_get (W.worlds worlds.old) index ≡ Some w →
        ComesTo W.step W.report W.most_born limits.entries (W.worlds worlds.new) (W.faults worlds.new)
        (shape graph.new) index w it (W.step w fiber)) }
    ensures room { OnOk result (length (W.worlds worlds.new) ≤ max limits.worlds (length (W.worlds worlds.old))) }
    ensures snug { IsSnug (length (W.worlds worlds.old)) (shape graph.old) →
        OnOk result (IsSnug (length (W.worlds worlds.new)) (shape graph.new)) }
    ensures lost { IfOk result (λ it. it ≡ Came.Lost → IsSnug (length (W.worlds worlds.old)) (shape graph.old) →
        limits.worlds ≤ length (W.worlds worlds.new)) }
    ensures edges { OnOk result (length graph.new.edges.items ≤ length graph.old.edges.items + 1) }
{
    let node = Node {
        from: index as u32,
        depth: graph.nodes[index].depth + 1,
        fiber,
    };
    match worlds.enter(index, fiber, limits.worlds as usize)? {
        Entered::Full => Ok(Came::Lost),
        Entered::At(Landing::World(to)) => meet(&*worlds, graph, node, to, limits),
        Entered::At(Landing::Fault(fault)) => {
            note(graph, fault, node)?;
            Ok(Came::Leaves)
        }
    }
}

// Records that an entry leads to the world of this number.
fn meet<W: Worlds>(
    worlds: &W,
    graph: &mut Graph,
    node: Node,
    to: usize,
    limits: Limits,
) -> Result<Came, AllocError>
    requires fits { Fits W.step W.report W.most_born limits.entries
        (W.worlds worlds.now) (W.faults worlds.now) (shape graph.old) }
    requires low { node.from < length graph.old.nodes.items }
    requires how { CanEnter W.most_born limits.entries graph.old.nodes.items node }
    requires lands { (w : W.World) → slice_get (W.worlds worlds.now) node.from ≡ Some w →
        LandsAt (W.worlds worlds.now) (W.faults worlds.now) (Landing.World to) (W.step w node.fiber) }
    ensures grows { OnOk result (Grows (W.worlds worlds.now) (W.worlds worlds.now) (W.faults worlds.now)
        (W.faults worlds.now) (shape graph.old) (shape graph.new)) }
    ensures fits { OnOk result (Fits W.step W.report W.most_born limits.entries (W.worlds worlds.now)
        (W.faults worlds.now) (shape graph.new)) }
    ensures flags { OnOk result (IsMore graph.old.unsettled.items graph.new.unsettled.items) }
    ensures came { IfOk result (λ it. (w : W.World) → slice_get (W.worlds worlds.now) node.from ≡ Some w →
        ComesTo W.step W.report W.most_born limits.entries (W.worlds worlds.now) (W.faults worlds.now)
        (shape graph.new) node.from w it (W.step w node.fiber)) }
    ensures snug { IsNearly (length (W.worlds worlds.now)) to limits.worlds (shape graph.old) →
        OnOk result (IsSnug (length (W.worlds worlds.now)) (shape graph.new)) }
    ensures lost { IfOk result (λ it. it ≡ Came.Lost →
        IsNearly (length (W.worlds worlds.now)) to limits.worlds (shape graph.old) →
        limits.worlds ≤ length (W.worlds worlds.now)) }
    ensures edges { OnOk result (length graph.new.edges.items ≤ length graph.old.edges.items + 1) }
{
    if !keep(&mut *graph, node, to, limits.worlds)? {
        return Ok(Came::Lost);
    }
    let from = node.from as usize;
    if to == from {
        return Ok(Came::Stays);
    }
    add_edge(
        graph,
        Edge {
            from: node.from,
            to: to as u32,
        },
    )?;
    if worlds.same_report(from, to) {
        Ok(Came::Stays)
    } else {
        Ok(Came::Leaves)
    }
}

//! The graph of a search: the worlds that it has met, and the entries between them.

ghost use Rattle.std.specs.Prelude.{◌≡◌, ◌⊎◌, ◌<◌, ◌^◌, ◌≤◌, length, true, false, IfOk, OnOk};
ghost use Rattle.world_search.specs.Private.Shapes.{shape, begun, Keeps, Notes, IsNotedIn};
ghost use Rattle.world_search.specs.Private.Shapes.{with_edge, with_quiet};

use std::alloc::{AllocError, Global};

/// The entry by which a world or a fault was met first.
#[derive(Clone, Copy)]
pub struct Node {
    /// The number of the world at which the entry was made.
    pub from: u32,
    /// The number of entries that lead here: 0 only for the first world.
    pub depth: u32,
    /// The fiber that made the entry.
    pub fiber: u16,
}

/// An entry that leads from one world to another.
#[derive(Clone, Copy)]
pub struct Edge {
    /// The number of the world at which the entry is made.
    pub from: u32,
    /// The number of the world that the entry leads to.
    pub to: u32,
}

/// A fault, and the entry by which it was met first.
#[derive(Clone, Copy)]
pub struct Noted {
    /// The number of the fault.
    pub fault: usize,
    /// The entry that ends in the fault.
    pub node: Node,
}

/// The worlds that were met, each with a number, and where their entries lead.
#[derive(Drop)]
pub struct Graph {
    /// The entry by which each world was met first.
    pub nodes: Vec<Node>,
    /// The entries that lead from one world to another one.
    pub edges: Vec<Edge>,
    /// The faults that were met.
    pub noted: Vec<Noted>,
    /// For each world, `false` once all of its entries are known to keep its report; `true` if not all of them were
    /// made, one of them ends in a fault, or one changes the report.
    pub unsettled: Vec<bool>,
}

/// The graph of the first world alone.
pub fn begin(alloc: Global) -> Result<Graph, AllocError>
    ensures { IfOk result (λ it. shape it ≡ begun) }
{
    let mut nodes = Vec::new(alloc);
    nodes.push(Node {
        from: 0,
        depth: 0,
        fiber: 0,
    })?;
    let mut unsettled = Vec::new(alloc);
    unsettled.push(true)?;
    Ok(Graph {
        nodes,
        edges: Vec::new(alloc),
        noted: Vec::new(alloc),
        unsettled,
    })
}

/// Whether the graph has the world `to`, and `to` is below `most`. If it is the next number, the world is added first;
/// `node` is the entry that leads to the world.
pub fn keep(graph: &mut Graph, node: Node, to: usize, most: u32) -> Result<bool, AllocError>
    ensures keeps { OnOk result (Keeps (shape graph.old) (shape graph.new) node to) }
    ensures kept { IfOk result (λ it. it ≡ true → to < length graph.new.nodes.items) }
    ensures small { IfOk result (λ it. it ≡ true → to < most) }
    ensures refused { IfOk result (λ it. it ≡ false → (most ≤ to) ⊎ (length graph.old.nodes.items < to)) }
{
    if to >= most as usize || to > graph.nodes.len() {
        return Ok(false);
    }
    if to == graph.nodes.len() {
        graph.nodes.push(node)?;
        graph.unsettled.push(true)?;
    }
    Ok(true)
}

/// Adds an entry from one world to another.
pub fn add_edge(graph: &mut Graph, edge: Edge) -> Result<(), AllocError>
    ensures { OnOk result (shape graph.new ≡ with_edge (shape graph.old) edge) }
{
    graph.edges.push(edge)?;
    Ok(())
}

/// Adds the fault that this entry ends in, unless it was noted before.
pub fn note(graph: &mut Graph, fault: usize, node: Node) -> Result<(), AllocError>
    ensures { OnOk result (Notes (shape graph.old) (shape graph.new) fault node) }
{
    if is_noted(graph.noted.as_slice(), fault) {
        return Ok(());
    }
    graph.noted.push(Noted { fault, node })?;
    Ok(())
}

// Whether the fault was noted.
fn is_noted(noted: &[Noted], fault: usize) -> bool
    ensures yes { result ≡ true → IsNotedIn noted.now fault }
    ensures no { result ≡ false → IsNotedIn noted.now fault → ⊥ }
{
    for it in noted {
        if it.fault == fault {
            return true;
        }
    }
    false
}

/// Records that the entries at this world keep its report.
pub fn set_quiet(graph: &mut Graph, index: usize)
    requires { index < length graph.old.unsettled.items }
    ensures { shape graph.new ≡ with_quiet (shape graph.old) index }
{
    graph.unsettled[index] = false;
}

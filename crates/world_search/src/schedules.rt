//! The schedule that leads to a world or a fault, read back from its last entry.

ghost use Rattle.std.specs.Prelude.{IfOk};
ghost use Rattle.world_search.specs.Private.Paths.{AreChained, IsChained, IsPath};

use crate::graphs::Node;
use std::alloc::{AllocError, Global};

/// Returns the schedule that leads to the node `last`.
pub fn schedule_to(alloc: Global, nodes: &[Node], last: Node) -> Result<Vec<u16>, AllocError>
    requires nodes { AreChained nodes.now }
    requires last { IsChained nodes.now last }
    ensures { IfOk result (λ it. IsPath nodes.now last it.items) }
{
    let mut schedule = Vec::new(alloc);
    let mut node = last;
    for _entry in 0..last.depth {
        schedule.push(node.fiber)?;
        node = nodes[node.from as usize];
    }
    schedule.reverse();
    Ok(schedule)
}

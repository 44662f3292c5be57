//! Flags that spread from a world back to all worlds that lead there.

ghost use Rattle.std.specs.Prelude.{◌≡◌, ℕ, ◌<◌, ◌≤◌, length, true, false, vec_len, slice_set, Some};
ghost use Rattle.std.specs.List.{slice_get};
ghost use Rattle.world_search.specs.Private.Flags.{AreWithin, AreFlagged, KeepsFlags, AreBack, unset};

use crate::graphs::Edge;

/// Flags each world from which edges lead to a flagged one.
pub fn spread(edges: &[Edge], flags: &mut Vec<bool>)
    requires { AreWithin edges.now (length flags.old.items) }
    ensures long { length flags.new.items ≡ length flags.old.items }
    ensures keeps { KeepsFlags flags.old.items flags.new.items }
    ensures flagged { AreFlagged edges.now flags.old.items flags.new.items }
    ensures back { AreBack edges.now flags.new.items 0 }
{
    while sweep(edges, &mut *flags) {}
}

// Passes once over the edges, from the last to the first. Returns whether a flag was set.
fn sweep(edges: &[Edge], flags: &mut Vec<bool>) -> bool
    requires { AreWithin edges.now (length flags.old.items) }
    ensures long { length flags.new.items ≡ length flags.old.items }
    ensures keeps { KeepsFlags flags.old.items flags.new.items }
    ensures flagged { AreFlagged edges.now flags.old.items flags.new.items }
    ensures back { result ≡ false → AreBack edges.now flags.new.items 0 }
    ensures fewer { result ≡ true → unset flags.new.items < unset flags.old.items }
{
    let mut changed = false;
    for done in 0..edges.len() {
        if pass(edges[edges.len() - 1 - done], &mut *flags) {
            changed = true;
        }
    }
    changed
}

// Flags the world at which the edge begins, if the edge leads to a flagged one. Returns whether the flag was set.
fn pass(edge: Edge, flags: &mut Vec<bool>) -> bool
    requires from { edge.from < length flags.old.items }
    requires to { edge.to < length flags.old.items }
    ensures same { result ≡ false → flags.new ≡ flags.old }
    ensures back { result ≡ false → slice_get flags.new.items edge.to ≡ Some true →
        slice_get flags.new.items edge.from ≡ Some true }
    ensures sets { result ≡ true → flags.new.items ≡ slice_set flags.old.items edge.from true }
    ensures was { result ≡ true → slice_get flags.old.items edge.from ≡ Some false }
    ensures ahead { result ≡ true → slice_get flags.old.items edge.to ≡ Some true }
    ensures long { length flags.new.items ≡ length flags.old.items }
{
    if !flags[edge.to as usize] || flags[edge.from as usize] {
        return false;
    }
    flags[edge.from as usize] = true;
    true
}

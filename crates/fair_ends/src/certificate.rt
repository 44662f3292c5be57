//! Checks whether ranks are right.

ghost use Rattle.std.specs.Prelude.{◌≡◌, ◌≢◌, ℕ, ◌<◌, length, true, Some, IfOk, Result as TheResult};
ghost use Rattle.std.specs.List.{slice_get};
ghost use Rattle.world_search.specs.Lists.{IsIn};
ghost use Rattle.fair_ends.specs.declared.rank.Rank.{Rank as TheRank};
ghost use Rattle.fair_ends.specs.Private.Ranks.{AreRanked, Falls, IsRanked, Leads, LeadsOn};
ghost use Rattle.fair_ends.specs.Private.Tables.{IsRow, IsTable, LandsOn};

use crate::rank::Rank;
use crate::resting::Resting;
use crate::table::{Edge, FAULT, Row};
use crate::walking::has;
use std::alloc::AllocError;

/// Whether each world has a rank that is right.
pub fn are_ranked<W: Resting>(worlds: &W, rows: &[Row], ranks: &[Rank]) -> Result<bool, AllocError>
    requires { IsTable W.entry W.free W.step W.most_born (W.worlds worlds.now) rows.now }
    ensures even { IfOk result (λ it. it ≡ true → length ranks.now ≡ length rows.now) }
    ensures ranked { IfOk result (λ it. it ≡ true →
        AreRanked W.entry W.free W.step W.rests W.most_born (W.worlds worlds.now) ranks.now) }
{
    if ranks.len() != rows.len() {
        return Ok(false);
    }
    for index in 0..rows.len() {
        if !is_ranked(worlds, &rows[index], ranks, index)? {
            return Ok(false);
        }
    }
    Ok(true)
}

// Whether the rank of this world is right.
fn is_ranked<W: Resting>(
    worlds: &W,
    row: &Row,
    ranks: &[Rank],
    index: usize,
) -> Result<bool, AllocError>
    requires low { index < length ranks.now }
    requires even { length ranks.now ≡ length (W.worlds worlds.now) }
    requires row { (w : W.World) → slice_get (W.worlds worlds.now) index ≡ Some w →
        IsRow W.entry W.free W.step W.most_born (W.worlds worlds.now) w row.now }
    ensures { IfOk result (λ it. it ≡ true → (a : TheRank) (w : W.World) → slice_get ranks.now index ≡ Some a →
        slice_get (W.worlds worlds.now) index ≡ Some w →
        IsRanked W.entry W.free W.step W.rests W.most_born (W.worlds worlds.now) ranks.now a w) }
{
    if ranks[index].quiet {
        return worlds.is_at_rest(index);
    }
    Ok(falls_everywhere(worlds, row, ranks, index))
}

// Whether the helpful fiber of this world, which isn't quiet, is born, and each step passes (`passes`).
fn falls_everywhere<W: Resting>(worlds: &W, row: &Row, ranks: &[Rank], index: usize) -> bool
    requires low { index < length ranks.now }
    requires even { length ranks.now ≡ length (W.worlds worlds.now) }
    requires row { (w : W.World) → slice_get (W.worlds worlds.now) index ≡ Some w →
        IsRow W.entry W.free W.step W.most_born (W.worlds worlds.now) w row.now }
    ensures leads { result ≡ true → (a : TheRank) (w : W.World) → slice_get ranks.now index ≡ Some a →
        slice_get (W.worlds worlds.now) index ≡ Some w → (f : ℕ) →
        LeadsOn W.entry W.free W.step W.rests W.most_born (W.worlds worlds.now) ranks.now a w f }
    ensures helped { result ≡ true → (a : TheRank) → slice_get ranks.now index ≡ Some a →
        a.helper < length row.now.edges.items }
{
    let edges = row.edges.as_slice();
    if !is_helped(ranks, index, edges) {
        return false;
    }
    for fiber in 0..edges.len() {
        if !passes(worlds, ranks, index, fiber, &edges[fiber]) {
            return false;
        }
    }
    true
}

// Whether the helpful fiber of a world is born.
fn is_helped(ranks: &[Rank], index: usize, edges: &[Edge]) -> bool
    requires { index < length ranks.now }
    ensures { result ≡ true → (a : TheRank) → slice_get ranks.now index ≡ Some a → a.helper < length edges.now }
{
    usize::from(ranks[index].helper) < edges.len()
}

// Whether the step of a fiber at a world leads to a fault or to a quiet world, or changes the rank as `falls` allows.
fn passes<W: Resting>(worlds: &W, ranks: &[Rank], index: usize, fiber: usize, edge: &Edge) -> bool
    requires low { index < length ranks.now }
    requires even { length ranks.now ≡ length (W.worlds worlds.now) }
    ensures { result ≡ true → (a : TheRank) → slice_get ranks.now index ≡ Some a → (y : TheResult W.World W.Fault) →
        LandsOn (W.worlds worlds.now) edge.now.target y →
        Leads W.entry W.free W.step W.rests W.most_born (W.worlds worlds.now) ranks.now a fiber
        edge.now.made.items y }
{
    if edge.target == FAULT {
        return true;
    }
    let to = edge.target as usize;
    if to >= worlds.len() {
        return false;
    }
    ranks[to].quiet || falls(ranks, index, to, fiber, edge)
}

// Whether the rank falls from one world to the other; or the rank and the helpful fiber stay, and the step isn't that
// fiber's and makes no entry of it.
fn falls(ranks: &[Rank], index: usize, to: usize, fiber: usize, edge: &Edge) -> bool
    requires index { index < length ranks.now }
    requires to { to < length ranks.now }
    ensures { result ≡ true → (a b : TheRank) → slice_get ranks.now index ≡ Some a → slice_get ranks.now to ≡ Some b →
        Falls a fiber edge.now.made.items b }
{
    is_lower(ranks[index], fiber, edge, ranks[to])
}

// The same for the two ranks.
fn is_lower(rank: Rank, fiber: usize, edge: &Edge, next: Rank) -> bool
    ensures { result ≡ true → Falls rank fiber edge.now.made.items next }
{
    next.rank < rank.rank || keeps(rank, fiber, edge, next)
}

// Whether the rank and the helpful fiber stay, and the step isn't that fiber's and makes no entry of it.
fn keeps(rank: Rank, fiber: usize, edge: &Edge, next: Rank) -> bool
    ensures rank { result ≡ true → next.rank ≡ rank.rank }
    ensures helper { result ≡ true → next.helper ≡ rank.helper }
    ensures other { result ≡ true → fiber ≢ rank.helper }
    ensures made { result ≡ true → IsIn rank.helper edge.now.made.items → ⊥ }
{
    next.rank == rank.rank
        && next.helper == rank.helper
        && fiber != usize::from(rank.helper)
        && !has(edge.made.as_slice(), rank.helper)
}

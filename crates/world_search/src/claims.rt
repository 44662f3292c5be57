//! Claims of worlds, checked in each world that was met.

ghost use Rattle.std.specs.Prelude.{◌≡◌, ◌⊎◌, ℕ, ◌<◌, ◌≤◌, List, Bool, length, true, false, max, Ok as GoesWell};
ghost use Rattle.std.specs.Prelude.{IfNone, IfOk, IfSome, OnOk, Some};
ghost use Rattle.std.specs.List.{slice_get, All};
ghost use Rattle.world_search.specs.Answers.{IsAtBound};
ghost use Rattle.world_search.specs.Claims.{IsMetBy, IsFound, IsFew, IsBrief};
ghost use Rattle.world_search.specs.Lists.{IsMore};
ghost use Rattle.world_search.specs.Systems.{run};
ghost use Rattle.world_search.specs.Private.Claimed.{AddsMet, AreLooked, AreListedMet, MeetsNone};
ghost use Rattle.world_search.specs.Private.Paths.{AreChained};

use crate::answers::Bounds;
use crate::expanding::{bytes_of, explore};
use crate::graphs::{Node, begin};
use crate::schedules::schedule_to;
use crate::searching::limits_of;
use crate::store::Worlds;
use crate::watching::Watcher;
use std::alloc::{AllocError, Global};

// The quarters of the time after a search that the check of claims can take.
const CHECKED: u32 = 2;

/// A store of worlds that may meet claims.
pub trait Claims: Worlds {
    /// A claim of a world.
    type Claim;

    // Whether a world meets a claim.
    ghost meets: { Self.World → Self.Claim → Bool };

    /// Whether the world of this number meets a claim. `AllocError` where memory is refused.
    fn meets(&self, world: usize, claim: &Self::Claim) -> Result<bool, AllocError>
        requires { world < length (Self.worlds self.now) }
        ensures { IfOk result (λ it. (w : Self.World) → slice_get (Self.worlds self.now) world ≡ Some w →
            it ≡ meets w claim.now) };
}

/// A claim that a world meets, and a schedule that leads there.
#[derive(Drop)]
pub struct Met {
    /// The number of the claim.
    pub claim: usize,
    /// The fibers that make the entries, in order.
    pub schedule: Vec<u16>,
}

/// The result of a search for worlds that meet claims.
#[derive(Drop)]
pub struct Claimed {
    /// The claims that some world meets, in their order, each with a schedule to the first world found that meets the
    /// claim.
    pub met: Vec<Met>,
    /// Whether every schedule was searched: then no schedule leads to a world that meets another of the claims.
    pub complete: bool,
    /// Whether the watcher ended the search.
    pub halted: bool,
    /// The number of worlds in the store.
    pub worlds: usize,
    /// The number of bytes that are counted, as in [`Found`](crate::Found).
    pub bytes: usize,
}

/// Searches every schedule from the first world of a store for worlds that meet claims.
///
/// The search meets the same worlds as [`search`](crate::search), and checks each claim in one world after another
/// until a world meets the claim. The watcher and the bound on memory have the same effects as there. Before each claim
/// but the first, the watcher is asked whether the check goes on; if it ends the check, the result isn't complete.
pub fn search_claims<W: Claims, V: Watcher>(
    alloc: Global,
    worlds: &mut W,
    claims: &[W::Claim],
    bounds: Bounds,
    watcher: &mut V,
) -> Result<Claimed, AllocError>
    requires { 0 < length (W.worlds worlds.old) }
    ensures grows { OnOk result (IsMore (W.worlds worlds.old) (W.worlds worlds.new)) }
    ensures met { IfOk result (λ it. (first : W.World) → slice_get (W.worlds worlds.old) 0 ≡ Some first →
        All (IsMetBy W.step W.meets first claims.now) it.met.items) }
    ensures unmet { IfOk result (λ it. it.complete ≡ true → (first : W.World) →
        slice_get (W.worlds worlds.old) 0 ≡ Some first → (i : ℕ) (c : W.Claim) → slice_get claims.now i ≡ Some c →
        (IsFound i it.met.items → ⊥) → (schedule : List ℕ) (w : W.World) →
        run W.step (GoesWell first) schedule ≡ GoesWell w → W.meets w c ≡ false) }
    ensures numbers { IfOk result (λ it. All (IsFew W.most_born) it.met.items) }
    ensures short { IfOk result (λ it. All (IsBrief bounds.entries) it.met.items) }
    ensures room { OnOk result (length (W.worlds worlds.new) ≤ max bounds.worlds (length (W.worlds worlds.old))) }
    ensures count { IfOk result (λ it. it.worlds ≡ length (W.worlds worlds.new)) }
    ensures stopped { IfOk result (λ it. it.complete ≡ false → it.halted ≡ false → length (W.worlds worlds.old) ≡ 1 →
        IsAtBound bounds it.worlds it.bytes) }
    ensures halted { IfOk result (λ it. it.halted ≡ true → V.has_stopped watcher.new ≡ true) }
    ensures may { IfOk result (λ it. it.halted ≡ true → V.can_stop watcher.old ≡ true) }
    ensures apart { IfOk result (λ it. it.complete ≡ true → it.halted ≡ false) }
    ensures watches { V.can_stop watcher.new ≡ V.can_stop watcher.old }
    ensures spare { IfOk result (λ it. it.complete ≡ true → it.bytes < bounds.memory) }
{
    let mut graph = begin(alloc)?;
    let closing = explore(&mut *worlds, &mut graph, limits_of(bounds), &mut *watcher)?;
    let listed = list_met(alloc, &*worlds, graph.nodes.as_slice(), claims, watcher)?;
    Ok(Claimed {
        met: listed.met,
        complete: both(closing.is_whole(), listed.whole),
        halted: either(closing.is_halted(), !listed.whole),
        worlds: worlds.len(),
        bytes: bytes_of(&*worlds, &graph),
    })
}

// Whether both are true.
fn both(one: bool, other: bool) -> bool
    ensures one { result ≡ true → one ≡ true }
    ensures other { result ≡ true → other ≡ true }
    ensures neither { result ≡ false → (one ≡ false) ⊎ (other ≡ false) }
{
    one && other
}

// Whether one of the two is true.
fn either(one: bool, other: bool) -> bool
    ensures some { result ≡ true → (one ≡ true) ⊎ (other ≡ true) }
    ensures one { result ≡ false → one ≡ false }
    ensures other { result ≡ false → other ≡ false }
{
    one || other
}

// The claims that worlds meet, and whether all claims were checked.
#[derive(Drop)]
struct Checked {
    met: Vec<Met>,
    whole: bool,
}

// Lists the claims that worlds of these nodes meet. Before each claim but the first, the watcher can end the list.
fn list_met<W: Claims, V: Watcher>(
    alloc: Global,
    worlds: &W,
    nodes: &[Node],
    claims: &[W::Claim],
    watcher: &mut V,
) -> Result<Checked, AllocError>
    requires chained { AreChained nodes.now }
    requires known { length nodes.now ≤ length (W.worlds worlds.now) }
    ensures listed { IfOk result (λ it. AreListedMet W.meets (W.worlds worlds.now) nodes.now claims.now it.met.items) }
    ensures looked { IfOk result (λ it. it.whole ≡ true → AreLooked W.meets (W.worlds worlds.now) (length nodes.now)
        claims.now (length claims.now) it.met.items) }
    ensures halted { IfOk result (λ it. it.whole ≡ false → V.has_stopped watcher.new ≡ true) }
    ensures may { IfOk result (λ it. it.whole ≡ false → V.can_stop watcher.old ≡ true) }
    ensures keeps { V.has_stopped watcher.old ≡ true → V.has_stopped watcher.new ≡ true }
    ensures watches { V.can_stop watcher.new ≡ V.can_stop watcher.old }
{
    let mut met = Vec::new(alloc);
    for number in 0..claims.len() {
        if number > 0 && !watcher.lists_on(CHECKED) {
            return Ok(Checked { met, whole: false });
        }
        look_for(alloc, worlds, nodes, claims, number, &mut met)?;
    }
    Ok(Checked { met, whole: true })
}

// Adds the claim of this number, if a world meets it.
fn look_for<W: Claims>(
    alloc: Global,
    worlds: &W,
    nodes: &[Node],
    claims: &[W::Claim],
    number: usize,
    met: &mut Vec<Met>,
) -> Result<(), AllocError>
    requires chained { AreChained nodes.now }
    requires known { length nodes.now ≤ length (W.worlds worlds.now) }
    requires low { number < length claims.now }
    ensures adds { OnOk result (AddsMet W.meets (W.worlds worlds.now) nodes.now claims.now number met.old.items
        met.new.items) }
{
    match first_meeting(worlds, nodes.len(), &claims[number])? {
        None => Ok(()),
        Some(world) => {
            let last = nodes[world];
            let schedule = schedule_to(alloc, nodes, last)?;
            met.push(Met {
                claim: number,
                schedule,
            })?;
            Ok(())
        }
    }
}

// The first of the worlds below number `many` that meets a claim.
fn first_meeting<W: Claims>(
    worlds: &W,
    many: usize,
    claim: &W::Claim,
) -> Result<Option<usize>, AllocError>
    requires { many ≤ length (W.worlds worlds.now) }
    ensures within { IfOk result (λ it. IfSome it (λ j. j < many)) }
    ensures meets { IfOk result (λ it. IfSome it (λ j. (w : W.World) → slice_get (W.worlds worlds.now) j ≡ Some w →
        W.meets w claim.now ≡ true)) }
    ensures none { IfOk result (λ it. IfNone it (MeetsNone W.meets (W.worlds worlds.now) many claim.now)) }
{
    for world in 0..many {
        if worlds.meets(world, claim)? {
            return Ok(Some(world));
        }
    }
    Ok(None)
}

//! Lists the answers of a search from its graph.

ghost use Rattle.std.specs.Prelude.{◌≡◌, ℕ, ◌<◌, ◌≤◌, ◌%◌, List, [], length, true, false, OnOk, Some};
ghost use Rattle.std.specs.Prelude.{Ok as GoesWell};
ghost use Rattle.std.specs.List.{slice_get};
ghost use Rattle.world_search.specs.declared.answers.Answer.{Answer};
ghost use Rattle.world_search.specs.declared.graphs.Noted.{Noted};
ghost use Rattle.world_search.specs.Answers.{AreApart, IsAnswered, TellOnce};
ghost use Rattle.world_search.specs.Lists.{IsMore};
ghost use Rattle.world_search.specs.Private.Listed.{Adds, AddsFaults, AreListed, AreNotedChained, HaveNoFault};
ghost use Rattle.world_search.specs.Private.Listed.{IsNamed};
ghost use Rattle.world_search.specs.Private.Paths.{AreChained, IsChained};
ghost use Rattle.world_search.specs.Private.Shapes.{AreNotedOnce, shape};
ghost use Rattle.world_search.specs.Private.Told.{AreFiled, IsFiled};

use crate::answers::Answer;
use crate::graphs::{Graph, Node};
use crate::landings::Landing;
use crate::schedules::schedule_to;
use crate::store::Worlds;
use crate::told::{Told, have_report};
use std::alloc::{AllocError, Global};

/// Adds an answer for each report of a world that isn't unsettled.
pub fn list_worlds<W: Worlds>(
    alloc: Global,
    worlds: &W,
    graph: &Graph,
    answers: &mut Vec<Answer>,
) -> Result<(), AllocError>
    requires chained { AreChained graph.now.nodes.items }
    requires known { length graph.now.nodes.items ≤ length (W.worlds worlds.now) }
    requires flags { length graph.now.unsettled.items ≡ length graph.now.nodes.items }
    requires listed { AreListed (shape graph.now) answers.old.items }
    requires none { answers.old.items ≡ [] }
    ensures listed { OnOk result (AreListed (shape graph.now) answers.new.items) }
    ensures once { OnOk result (TellOnce W.report (W.worlds worlds.now) answers.old.items →
        TellOnce W.report (W.worlds worlds.now) answers.new.items) }
    ensures faultless { OnOk result (HaveNoFault answers.old.items → HaveNoFault answers.new.items) }
    ensures told { OnOk result ((i : ℕ) (w : W.World) → slice_get graph.now.unsettled.items i ≡ Some false →
        slice_get (W.worlds worlds.now) i ≡ Some w →
        IsAnswered W.step W.report (W.worlds worlds.now) (W.faults worlds.now) answers.new.items (GoesWell w)) }
{
    let mut told = Told::new(alloc, graph.nodes.len() / 8 + 1)?;
    for index in 0..graph.nodes.len() {
        list_world(alloc, worlds, graph, index, &mut told, &mut *answers)?;
    }
    Ok(())
}

// Adds an answer for one world, unless it is unsettled or an answer has its report.
fn list_world<W: Worlds>(
    alloc: Global,
    worlds: &W,
    graph: &Graph,
    index: usize,
    told: &mut Told,
    answers: &mut Vec<Answer>,
) -> Result<(), AllocError>
    requires chained { AreChained graph.now.nodes.items }
    requires known { length graph.now.nodes.items ≤ length (W.worlds worlds.now) }
    requires flags { length graph.now.unsettled.items ≡ length graph.now.nodes.items }
    requires listed { AreListed (shape graph.now) answers.old.items }
    requires low { index < length graph.now.nodes.items }
    requires some { 0 < length told.old.buckets.items }
    requires filed { AreFiled W.report_digest W.report (W.worlds worlds.now) answers.old.items told.old.buckets.items }
    ensures some { OnOk result (0 < length told.new.buckets.items) }
    ensures filed { OnOk result (AreFiled W.report_digest W.report (W.worlds worlds.now) answers.new.items
        told.new.buckets.items) }
    ensures listed { OnOk result (AreListed (shape graph.now) answers.new.items) }
    ensures more { OnOk result (IsMore answers.old.items answers.new.items) }
    ensures once { OnOk result (TellOnce W.report (W.worlds worlds.now) answers.old.items →
        TellOnce W.report (W.worlds worlds.now) answers.new.items) }
    ensures faultless { OnOk result (HaveNoFault answers.old.items → HaveNoFault answers.new.items) }
    ensures told { OnOk result ((w : W.World) → slice_get graph.now.unsettled.items index ≡ Some false →
        slice_get (W.worlds worlds.now) index ≡ Some w →
        IsAnswered W.step W.report (W.worlds worlds.now) (W.faults worlds.now) answers.new.items (GoesWell w)) }
{
    if graph.unsettled[index] {
        return Ok(());
    }
    let bucket = told.bucket_of(worlds, index);
    if is_told(worlds, &*told, bucket, index) {
        return Ok(());
    }
    tell(
        alloc,
        graph.nodes.as_slice(),
        graph.nodes[index],
        Landing::World(index),
        answers,
    )?;
    told.file(bucket, index)?;
    Ok(())
}

// Whether one of the answers has the report of this world. The answers are filed, and the world is of this bucket.
fn is_told<W: Worlds>(worlds: &W, told: &Told, bucket: usize, index: usize) -> bool
    requires low { index < length (W.worlds worlds.now) }
    requires bucket { bucket < length told.now.buckets.items }
    requires digest { (w : W.World) → slice_get (W.worlds worlds.now) index ≡ Some w →
        bucket ≡ W.report_digest (W.report w) % length told.now.buckets.items }
    requires within { (b j : ℕ) → IsFiled told.now.buckets.items b j → j < length (W.worlds worlds.now) }
    ensures yes { result ≡ true → (answers : List Answer) (w : W.World) →
        AreFiled W.report_digest W.report (W.worlds worlds.now) answers told.now.buckets.items →
        slice_get (W.worlds worlds.now) index ≡ Some w →
        IsAnswered W.step W.report (W.worlds worlds.now) (W.faults worlds.now) answers (GoesWell w) }
    ensures no { result ≡ false → (answers : List Answer) (k : ℕ) (a : Answer) →
        AreFiled W.report_digest W.report (W.worlds worlds.now) answers told.now.buckets.items →
        slice_get answers k ≡ Some a → AreApart W.report (W.worlds worlds.now) a.end (Landing.World index) }
{
    have_report(worlds, told.buckets[bucket].as_slice(), index)
}

// Adds an answer with this end and the schedule that leads there.
fn tell(
    alloc: Global,
    nodes: &[Node],
    last: Node,
    end: Landing,
    answers: &mut Vec<Answer>,
) -> Result<(), AllocError>
    requires chained { AreChained nodes.now }
    requires last { IsChained nodes.now last }
    ensures { OnOk result (Adds nodes.now last end answers.old.items answers.new.items) }
{
    let schedule = schedule_to(alloc, nodes, last)?;
    answers.push(Answer { schedule, end })?;
    Ok(())
}

/// Adds an answer for each fault.
pub fn list_faults(
    alloc: Global,
    graph: &Graph,
    answers: &mut Vec<Answer>,
) -> Result<(), AllocError>
    requires chained { AreChained graph.now.nodes.items }
    requires noted { AreNotedChained (shape graph.now) }
    requires once { AreNotedOnce graph.now.noted.items }
    requires listed { AreListed (shape graph.now) answers.old.items }
    requires faultless { HaveNoFault answers.old.items }
    ensures listed { OnOk result (AreListed (shape graph.now) answers.new.items) }
    ensures more { OnOk result (IsMore answers.old.items answers.new.items) }
    ensures adds { OnOk result (AddsFaults answers.old.items answers.new.items) }
    ensures told { OnOk result ((k : ℕ) (n : Noted) → slice_get graph.now.noted.items k ≡ Some n →
        IsNamed answers.new.items (Landing.Fault n.fault)) }
{
    for index in 0..graph.noted.len() {
        let noted = graph.noted[index];
        tell(
            alloc,
            graph.nodes.as_slice(),
            noted.node,
            Landing::Fault(noted.fault),
            &mut *answers,
        )?;
    }
    Ok(())
}

//! Explorations of every schedule of a program.
ghost use Rattle.std.specs.Prelude.{◌≡◌, ◌⊎◌, ◌++◌, ◌*◌, ◌<◌, ◌≤◌, ℕ, List, length, max, min, IfOk, IfErr, true, false};
ghost use Rattle.std.specs.Prelude.{Some, None};
ghost use Rattle.std.specs.Prelude.{Ok as GoesWell, Err as Fails, Result as TheResult};
ghost use Rattle.cell_registry.specs.declared.limits.RunError.{RunError as TheRunError};
ghost use Rattle.std.specs.List.{All};
ghost use Rattle.derived_ops.specs.Expansion.{code_of};
ghost use Rattle.derived_ops.specs.Reading.{source_of};
ghost use Rattle.fiber_frames.specs.Marks.{AreLawful};
ghost use Rattle.cell_registry.specs.Cells.{AreLimits};
ghost use Rattle.scheduled_core.specs.declared.report.Report.{Report as TheReport};
ghost use Rattle.scheduled_core.specs.Core.{World, core, first_world, reported};
ghost use Rattle.scheduled_core.specs.Finals.{IsSettled};
ghost use Rattle.every_schedule.specs.Explored.{AllHaveEnded, AreInOrder, AreMoves, EndAlike, HasLawfulMarks};
ghost use Rattle.every_schedule.specs.Explored.{HasNoFault, HasOutcome, NeverEnds};
ghost use Rattle.world_search.specs.Answers.{IsAtBound};
ghost use Rattle.every_schedule.specs.Explored.{IsAnswered, IsCovered, IsPastBound, IsReached, ListOnce};
ghost use Rattle.every_schedule.specs.Private.Keeping.{AreSingle};
ghost use Rattle.every_schedule.specs.Private.Telling.{AreTold, IsEnd, IsTold, IsWithin};

use crate::core_worlds::CoreWorlds;
use crate::exploration::{Answer, Answers, Exploration, Schedule};
use crate::reduced_worlds::{AT_ONCE, ReducedWorlds};
use crate::unfolding::{Cause, unfold_all};
use crate::worths::Worths;
use cell_registry::{Limits, RunError};
use effect_term::{Program, facts_of};
use scheduled_core::Report;
use std::alloc::{AllocError, Global};
use world_search::{Bounds, Landing, Unwatched, Watcher, search};

/// Explores every schedule of a program. Returns each final report and each fault, with a schedule that leads to it and
/// that `replay` takes.
///
/// If the exploration is complete, no schedule leads to another final report or fault, and after each schedule some
/// further entries lead to an answer. If it isn't complete, the search kept `bounds.worlds` worlds, or more worlds than
/// `bounds.entries`, or counted `bounds.memory` bytes; or a schedule of more than `bounds.entries` entries, each of a
/// fiber that has a next move, leads to an end that isn't listed. Each answer is right in any case.
///
/// The bytes are an estimate: at least 13 for each world, 8 for each entry from one world to another, and about the
/// size of each kept state of a fiber or a registry. No contract says how much memory is really taken.
///
/// A complete exploration shows more. If no fault is listed, no schedule faults. If all answers have the same end, the
/// report doesn't depend on the schedule. If a fiber has ended in each answer, some further entries end it after each
/// schedule. If all fibers have ended in each answer, no schedule leads to a world in which a fiber can never end
/// (`deadlock`).
///
/// Each report and each fault is listed once. Reports come before faults, and in each group shorter schedules come
/// first. The limits are in their ranges ([`Limits`]); a registry takes memory for each number that they allow.
/// [`RunError::NoMemory`] is the only error.
///
/// The search uses partial-order reduction. After each entry it makes up to 100 own moves of each fiber at once, which
/// no other fiber can see or influence. These are moves without a shared call, except the wait of a `never`; mask
/// entries and exits, and cuts; looks, if the request is set or no other fiber can still set it; joins and requests of
/// a fiber that has ended; calls on a completed deferred; and calls on a ref, completions of a deferred and the end of
/// a fiber, if no other fiber can still see or influence them.
///
/// At a world it makes only the entries of a persistent set, if it finds one: fibers whose next moves no other fiber
/// can see or influence, whatever the others do. The entry of one of them leads to a world whose fibers have less left
/// to run, so no fiber is left out for ever.
///
/// In the schedules of the answers each entry is one move, of a fiber that has a next move there. They needn't be the
/// shortest; those of [`explore_full`] are. During the search, `bounds.entries` doesn't count the own moves. An answer
/// whose schedule has more than `bounds.entries` entries with them is left out, and the exploration isn't complete.
pub fn explore(
    alloc: Global,
    program: &Program,
    limits: Limits,
    bounds: Bounds,
) -> Result<Exploration, RunError>
    requires limits { AreLimits limits }
    ensures all { IfOk result (λ it. it.complete ≡ true → (schedule : List ℕ) →
        IsCovered limits it.answers (core (code_of (source_of program.now)) limits schedule)) }
    ensures each { IfOk result (λ it. All (IsReached (code_of (source_of program.now)) limits) it.answers) }
    ensures onward { IfOk result (λ it. it.complete ≡ true → (schedule : List ℕ) →
        (more : List ℕ) × IsAnswered limits it.answers
        (core (code_of (source_of program.now)) limits (schedule ++ more))) }
    ensures faultless { IfOk result (λ it. it.complete ≡ true → HasNoFault it.answers →
        (schedule : List ℕ) (e : TheRunError) → core (code_of (source_of program.now)) limits schedule ≡ Fails e → ⊥) }
    ensures alike { IfOk result (λ it. it.complete ≡ true → (end : TheResult TheReport TheRunError) →
        EndAlike it.answers end → (schedule : List ℕ) (w : World) →
        core (code_of (source_of program.now)) limits schedule ≡ GoesWell w → IsSettled limits w →
        reported (GoesWell w) ≡ end) }
    ensures can_end { IfOk result (λ it. it.complete ≡ true → (f : ℕ) →
        All (λ a. HasOutcome f a.end) it.answers → (schedule : List ℕ) → (more : List ℕ) ×
        HasOutcome f (reported (core (code_of (source_of program.now)) limits (schedule ++ more)))) }
    ensures deadlock { IfOk result (λ it. it.complete ≡ true → All (λ a. AllHaveEnded a.end) it.answers →
        (schedule : List ℕ) (w : World) → core (code_of (source_of program.now)) limits schedule ≡ GoesWell w →
        (f : ℕ) → NeverEnds limits w f → ⊥) }
    ensures once { IfOk result (λ it. ListOnce it.answers) }
    ensures stopped { IfOk result (λ it. it.complete ≡ false → IsAtBound bounds it.worlds it.bytes ⊎
        IsPastBound (code_of (source_of program.now)) limits bounds.entries it.answers) }
    ensures unhalted { IfOk result (λ it. it.halted ≡ false) }
    ensures room { IfOk result (λ it. it.worlds ≤ max bounds.worlds 1) }
    ensures spare { IfOk result (λ it. it.complete ≡ true → it.bytes < bounds.memory) }
    ensures counted { IfOk result (λ it. min (13 * it.worlds) 18446744073709551615 ≤ it.bytes) }
    ensures numbers { IfOk result (λ it. All (λ a. All (λ f. f < 1000) a.schedule) it.answers) }
    ensures short { IfOk result (λ it. All (λ a. length a.schedule ≤ bounds.entries) it.answers) }
    ensures moves { IfOk result (λ it.
        All (λ a. AreMoves limits (first_world (code_of (source_of program.now)) limits) a.schedule) it.answers) }
    ensures order { IfOk result (λ it. AreInOrder it.answers) }
    ensures lawful { IfOk result (λ it. All HasLawfulMarks it.answers) }
    ensures memory { IfErr result (λ e. e ≡ RunError.NoMemory) }
{
    explore_watched(alloc, program, limits, bounds, &mut Unwatched)
}

/// Does the same as [`explore`], and asks a watcher whether the work goes on.
///
/// The search makes the entries at one world after another, in the order in which the worlds were found. The first world
/// has number 0. The watcher is asked ([`Watcher::goes_on`]) before the entries at the worlds 99, 199, 299 and so on. It
/// is also asked at each world where the counted bytes ([`Exploration::bytes`]) have grown by 1,048,576 or more. They
/// have grown since it was last asked for this reason, or since the beginning. The watcher gets the number of worlds
/// found and the number of entries that lead to this world, without own moves.
///
/// Then the answers are listed. Faults are listed in any case, and so is the first report with each outcome of fiber 0,
/// for the first 100 outcomes. Before each other answer the watcher is asked ([`Watcher::lists_on`]). After an
/// incomplete search, no other answer is listed once the listed ones take a quarter of `bounds.memory`.
///
/// If the watcher ends the search or the list, the result has what was found, and isn't complete
/// ([`Exploration::halted`]).
pub fn explore_watched<V: Watcher>(
    alloc: Global,
    program: &Program,
    limits: Limits,
    bounds: Bounds,
    watcher: &mut V,
) -> Result<Exploration, RunError>
    requires limits { AreLimits limits }
    ensures all { IfOk result (λ it. it.complete ≡ true → (schedule : List ℕ) →
        IsCovered limits it.answers (core (code_of (source_of program.now)) limits schedule)) }
    ensures each { IfOk result (λ it. All (IsReached (code_of (source_of program.now)) limits) it.answers) }
    ensures onward { IfOk result (λ it. it.complete ≡ true → (schedule : List ℕ) →
        (more : List ℕ) × IsAnswered limits it.answers
        (core (code_of (source_of program.now)) limits (schedule ++ more))) }
    ensures faultless { IfOk result (λ it. it.complete ≡ true → HasNoFault it.answers →
        (schedule : List ℕ) (e : TheRunError) → core (code_of (source_of program.now)) limits schedule ≡ Fails e → ⊥) }
    ensures alike { IfOk result (λ it. it.complete ≡ true → (end : TheResult TheReport TheRunError) →
        EndAlike it.answers end → (schedule : List ℕ) (w : World) →
        core (code_of (source_of program.now)) limits schedule ≡ GoesWell w → IsSettled limits w →
        reported (GoesWell w) ≡ end) }
    ensures can_end { IfOk result (λ it. it.complete ≡ true → (f : ℕ) →
        All (λ a. HasOutcome f a.end) it.answers → (schedule : List ℕ) → (more : List ℕ) ×
        HasOutcome f (reported (core (code_of (source_of program.now)) limits (schedule ++ more)))) }
    ensures deadlock { IfOk result (λ it. it.complete ≡ true → All (λ a. AllHaveEnded a.end) it.answers →
        (schedule : List ℕ) (w : World) → core (code_of (source_of program.now)) limits schedule ≡ GoesWell w →
        (f : ℕ) → NeverEnds limits w f → ⊥) }
    ensures once { IfOk result (λ it. ListOnce it.answers) }
    ensures stopped { IfOk result (λ it. it.complete ≡ false → it.halted ≡ false →
        IsAtBound bounds it.worlds it.bytes ⊎
        IsPastBound (code_of (source_of program.now)) limits bounds.entries it.answers) }
    ensures halted { IfOk result (λ it. it.halted ≡ true → V.has_stopped watcher.new ≡ true) }
    ensures may { IfOk result (λ it. it.halted ≡ true → V.can_stop watcher.old ≡ true) }
    ensures apart { IfOk result (λ it. it.complete ≡ true → it.halted ≡ false) }
    ensures watches { V.can_stop watcher.new ≡ V.can_stop watcher.old }
    ensures room { IfOk result (λ it. it.worlds ≤ max bounds.worlds 1) }
    ensures spare { IfOk result (λ it. it.complete ≡ true → it.bytes < bounds.memory) }
    ensures counted { IfOk result (λ it. min (13 * it.worlds) 18446744073709551615 ≤ it.bytes) }
    ensures numbers { IfOk result (λ it. All (λ a. All (λ f. f < 1000) a.schedule) it.answers) }
    ensures short { IfOk result (λ it. All (λ a. length a.schedule ≤ bounds.entries) it.answers) }
    ensures moves { IfOk result (λ it.
        All (λ a. AreMoves limits (first_world (code_of (source_of program.now)) limits) a.schedule) it.answers) }
    ensures order { IfOk result (λ it. AreInOrder it.answers) }
    ensures lawful { IfOk result (λ it. All HasLawfulMarks it.answers) }
    ensures memory { IfErr result (λ e. e ≡ RunError.NoMemory) }
{
    let mut worlds = ReducedWorlds::new(alloc, program, limits)?;
    let found = search(alloc, &mut worlds, bounds, &mut *watcher)?;
    let raw = found.answers.as_slice();
    let kept = worlds.worlds();
    let room = room_for(found.complete, bounds.memory);
    let worths = Worths::of(alloc, kept, raw, room)?;
    let unfolded = unfold_all(
        alloc,
        program,
        limits,
        raw,
        AT_ONCE,
        bounds.entries,
        &worths,
        watcher,
    )?;
    let answers = told(alloc, kept, unfolded.answers)?;
    Ok(Exploration {
        answers: Answers::new(answers),
        worlds: found.worlds,
        bytes: found.bytes,
        complete: is_whole(found.complete, unfolded.whole, unfolded.left),
        halted: is_halted(found.halted, unfolded.left),
    })
}

// The number of bytes at which the list of answers ends: a quarter of the bound on memory, or none if the search was
// complete.
fn room_for(complete: bool, memory: usize) -> usize
    ensures { result < 18446744073709551615 → complete ≡ false }
{
    if complete { usize::MAX } else { memory / 4 }
}

// Whether an exploration is complete: the search was, and no answer was left out.
fn is_whole(complete: bool, whole: bool, left: Option<Cause>) -> bool
    ensures complete { result ≡ true → complete ≡ true }
    ensures whole { result ≡ true → whole ≡ true }
    ensures all { result ≡ true → left ≡ None }
    ensures isnt { result ≡ false → (complete ≡ false) ⊎ (whole ≡ false) ⊎ (left ≡ Some Cause.Time) ⊎
        (left ≡ Some Cause.Room) }
{
    match left {
        None => complete && whole,
        Some(Cause::Time) => false,
        Some(Cause::Room) => false,
    }
}

// Whether the watcher ended the search or the list.
fn is_halted(halted: bool, left: Option<Cause>) -> bool
    ensures yes { result ≡ true → (halted ≡ true) ⊎ (left ≡ Some Cause.Time) }
    ensures search { result ≡ false → halted ≡ false }
    ensures list { left ≡ Some Cause.Time → result ≡ true }
    ensures isnt { halted ≡ false → left ≡ None → result ≡ false }
{
    match left {
        Some(Cause::Time) => true,
        Some(Cause::Room) => halted,
        None => halted,
    }
}

/// Does the same as [`explore`], without the reduction: each entry is one move. There are far more worlds, and each
/// report has a shortest schedule.
pub fn explore_full(
    alloc: Global,
    program: &Program,
    limits: Limits,
    bounds: Bounds,
) -> Result<Exploration, RunError>
    requires limits { AreLimits limits }
    ensures all { IfOk result (λ it. it.complete ≡ true → (schedule : List ℕ) →
        IsCovered limits it.answers (core (code_of (source_of program.now)) limits schedule)) }
    ensures each { IfOk result (λ it. All (IsReached (code_of (source_of program.now)) limits) it.answers) }
    ensures onward { IfOk result (λ it. it.complete ≡ true → (schedule : List ℕ) →
        (more : List ℕ) × IsAnswered limits it.answers
        (core (code_of (source_of program.now)) limits (schedule ++ more))) }
    ensures faultless { IfOk result (λ it. it.complete ≡ true → HasNoFault it.answers →
        (schedule : List ℕ) (e : TheRunError) → core (code_of (source_of program.now)) limits schedule ≡ Fails e → ⊥) }
    ensures alike { IfOk result (λ it. it.complete ≡ true → (end : TheResult TheReport TheRunError) →
        EndAlike it.answers end → (schedule : List ℕ) (w : World) →
        core (code_of (source_of program.now)) limits schedule ≡ GoesWell w → IsSettled limits w →
        reported (GoesWell w) ≡ end) }
    ensures can_end { IfOk result (λ it. it.complete ≡ true → (f : ℕ) →
        All (λ a. HasOutcome f a.end) it.answers → (schedule : List ℕ) → (more : List ℕ) ×
        HasOutcome f (reported (core (code_of (source_of program.now)) limits (schedule ++ more)))) }
    ensures deadlock { IfOk result (λ it. it.complete ≡ true → All (λ a. AllHaveEnded a.end) it.answers →
        (schedule : List ℕ) (w : World) → core (code_of (source_of program.now)) limits schedule ≡ GoesWell w →
        (f : ℕ) → NeverEnds limits w f → ⊥) }
    ensures once { IfOk result (λ it. ListOnce it.answers) }
    ensures stopped { IfOk result (λ it. it.complete ≡ false → IsAtBound bounds it.worlds it.bytes) }
    ensures unhalted { IfOk result (λ it. it.halted ≡ false) }
    ensures room { IfOk result (λ it. it.worlds ≤ max bounds.worlds 1) }
    ensures spare { IfOk result (λ it. it.complete ≡ true → it.bytes < bounds.memory) }
    ensures counted { IfOk result (λ it. min (13 * it.worlds) 18446744073709551615 ≤ it.bytes) }
    ensures numbers { IfOk result (λ it. All (λ a. All (λ f. f < 1000) a.schedule) it.answers) }
    ensures short { IfOk result (λ it. All (λ a. length a.schedule ≤ bounds.entries) it.answers) }
    ensures lawful { IfOk result (λ it. All HasLawfulMarks it.answers) }
    ensures memory { IfErr result (λ e. e ≡ RunError.NoMemory) }
{
    let mut worlds = CoreWorlds::new(alloc, program, limits)?;
    let found = search(alloc, &mut worlds, bounds, &mut Unwatched)?;
    let answers = told(alloc, &worlds, found.answers)?;
    Ok(Exploration {
        answers: Answers::new(answers),
        worlds: found.worlds,
        bytes: found.bytes,
        complete: found.complete,
        halted: found.halted,
    })
}

// Returns the answers of a search, each with its report or fault.
fn told(
    alloc: Global,
    worlds: &CoreWorlds,
    found: Vec<world_search::Answer>,
) -> Result<Vec<Answer>, AllocError>
    requires { All (λ a. IsWithin worlds.now a.end) found.items }
    ensures told { IfOk result (λ answers. AreTold worlds.now found.items answers.items) }
    ensures lawful { IfOk result (λ answers. All HasLawfulMarks answers.items) }
    ensures single { AreSingle worlds.now.faults }
{
    // No fault was kept twice.
    facts_of(worlds.many_faults());
    let mut answers = Vec::new(alloc);
    for it in found {
        answers.push(answer(worlds, it)?)?;
    }
    Ok(answers)
}

// Returns an answer of a search, with its report or fault.
fn answer(worlds: &CoreWorlds, found: world_search::Answer) -> Result<Answer, AllocError>
    requires { IsWithin worlds.now found.end }
    ensures told { IfOk result (λ answer. IsTold worlds.now found answer) }
    ensures lawful { IfOk result (λ answer. HasLawfulMarks answer) }
{
    let end = end(worlds, found.end)?;
    Ok(Answer {
        schedule: Schedule::new(found.schedule),
        end,
    })
}

// The report of the world, or the fault, to which an answer leads.
fn end(worlds: &CoreWorlds, found: Landing) -> Result<Result<Report, RunError>, AllocError>
    requires { IsWithin worlds.now found }
    ensures told { IfOk result (λ end. IsEnd worlds.now found end) }
    ensures lawful { IfOk result (λ end. IfOk end (λ r. All (λ f. AreLawful f.marks f.outcome) r.fibers)) }
{
    match found {
        Landing::World(world) => Ok(Ok(worlds.report(world)?)),
        Landing::Fault(number) => Ok(Err(worlds.fault(number))),
    }
}

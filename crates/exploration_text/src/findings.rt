//! The search for the first finding of a program. Random schedules meet a finding soon if many schedules lead to one; a
//! search of every schedule meets a finding if there is one.

ghost use Rattle.std.specs.Prelude.{◌≡◌, ◌⊎◌, ◌≤◌, ℕ, IfNone, IfOk, IfSome, Some as There, false, true};
ghost use Rattle.std.specs.List.{slice_get};
ghost use Rattle.cell_registry.specs.Cells.{AreLimits};
ghost use Rattle.derived_ops.specs.Expansion.{code_of};
ghost use Rattle.derived_ops.specs.Reading.{source_of};
ghost use Rattle.scheduled_core.specs.Core.{core, reported};
ghost use Rattle.exploration_text.specs.ExplorationText.{has_failure};
ghost use Rattle.exploration_text.specs.declared.findings.First.TheVariants.{Explored as Searched};
ghost use Rattle.exploration_text.specs.Findings.{IsDecided, IsDrawn, IsFirst, IsOfMore, Shows, bounds_within};
ghost use Rattle.exploration_text.specs.Wants.{is_failure};

use crate::explore_texts::ExploreOrder;
use crate::texts::{first_outcome, is_failure};
use crate::wants::Want;
use cell_registry::{Limits, RunError};
use effect_term::Program;
use every_schedule::{Answer, Bounds, Exploration, Schedule, Watcher, explore_watched};
use outcome_trace::{Report, replay};
use sampled_schedules::{Coming, sample_watched};
use std::alloc::{AllocError, Global};

// The number of samples of each length, of schedules of each sample, and the lengths: the greatest numbers of entries.
// Short schedules come first, since they are easier to read. All samples take less than a second.
const SAMPLES: u64 = 10;

const SCHEDULES: u32 = 100;

const LENGTHS: &[u32] = &[64, 256, 1000];

// The greatest number of worlds of each search before the last one, so that a near finding is reported soon.
const NEAR: usize = 10_000;

const FAR: usize = 1_000_000;

/// A fault or an outcome of fiber 0 that is not wanted, and a schedule that leads to it.
#[derive(Drop)]
pub struct Finding {
    /// The schedule, and the report or the fault that a replay under it answers.
    pub answer: Answer,
    /// Whether no further entry changes this end. Otherwise fiber 0 has ended, and other fibers can go on.
    pub last: bool,
    /// Whether the schedule was drawn at random. Otherwise the search of every schedule found it.
    pub drawn: bool,
}

/// What the search for a finding returns.
#[derive(Drop)]
pub enum First {
    /// A finding.
    Found(Finding),
    /// An exploration that lists none.
    Explored(Exploration),
}

/// Draws 3,000 schedules of a program by fixed seeds, 1,000 each of at most 64, 256 and 1,000 entries, and returns the
/// first finding among their ends. If there is none, explores every schedule, and returns the first answer that is a
/// finding, or the exploration. The exploration consists of three searches: of at most 10,000 worlds, of at most
/// 1,000,000 worlds, and within the bounds.
///
/// The watcher can end the drawing and each search. It is asked before each schedule is drawn and at each fiftieth row of
/// its entries ([`sample_watched`]), and during a search as in [`explore_watched`]. If the watcher ends a search with
/// fewer worlds than the one before, the result is the exploration before.
pub fn first_finding<V: Watcher>(
    alloc: Global,
    program: &Program,
    order: &ExploreOrder,
    watcher: &mut V,
) -> Result<First, AllocError>
    ensures { IfOk result (IsFirst (code_of (source_of program.now)) order.now.limits order.now.bounds
        (V.can_stop watcher.old) order.now.wants.items) }
{
    match drawn_finding(alloc, program, order, &mut *watcher)? {
        Some(finding) => Ok(First::Found(finding)),
        None => searched_in_turn(alloc, program, order, watcher),
    }
}

// The result of three searches, each with more worlds than the one before.
fn searched_in_turn<V: Watcher>(
    alloc: Global,
    program: &Program,
    order: &ExploreOrder,
    watcher: &mut V,
) -> Result<First, AllocError>
    ensures { IfOk result (IsFirst (code_of (source_of program.now)) order.now.limits order.now.bounds
        (V.can_stop watcher.old) order.now.wants.items) }
{
    let near = searched(alloc, program, order, within(order.bounds, NEAR), watcher)?;
    if is_last(&near, order.bounds, NEAR) {
        return Ok(near);
    }
    let found = searched(alloc, program, order, within(order.bounds, FAR), watcher)?;
    let far = of_more(near, found);
    if is_last(&far, order.bounds, FAR) {
        return Ok(far);
    }
    let found = searched(alloc, program, order, order.bounds, watcher)?;
    Ok(of_more(far, found))
}

// These bounds, with at most this number of worlds.
fn within(bounds: Bounds, worlds: usize) -> Bounds
    ensures { result ≡ bounds_within bounds worlds }
{
    Bounds {
        worlds: bounds.worlds.min(worlds),
        entries: bounds.entries,
        memory: bounds.memory,
    }
}

// Whether a search with at most this number of worlds is the last one: it has a finding, it is complete, the watcher
// ended it, or the bounds allow no more worlds.
fn is_last(first: &First, bounds: Bounds, worlds: usize) -> bool
    ensures { result ≡ true → IsDecided first.now ⊎ bounds.worlds ≤ worlds }
{
    if bounds.worlds <= worlds {
        return true;
    }
    match first {
        First::Found(_) => true,
        First::Explored(exploration) => exploration.complete || exploration.halted,
    }
}

// The result of the later of two searches. If the watcher ended the later one and it has fewer worlds, the result of
// the one before, marked as ended.
fn of_more(before: First, later: First) -> First
    ensures { IsOfMore before later result }
{
    match later {
        First::Found(finding) => First::Found(finding),
        First::Explored(last) => more_of(before, last),
    }
}

// The same for a later search without a finding.
fn more_of(before: First, last: Exploration) -> First
    ensures { IsOfMore before (Searched last) result }
{
    match before {
        First::Explored(before) if last.halted && last.worlds < before.worlds => {
            First::Explored(Exploration {
                answers: before.answers,
                worlds: before.worlds,
                bytes: before.bytes,
                complete: before.complete,
                halted: true,
            })
        }
        _ => First::Explored(last),
    }
}

// The result of a search within these bounds.
fn searched<V: Watcher>(
    alloc: Global,
    program: &Program,
    order: &ExploreOrder,
    bounds: Bounds,
    watcher: &mut V,
) -> Result<First, AllocError>
    requires { bounds.entries ≤ 1000000 }
    ensures found { IfOk result (IsFirst (code_of (source_of program.now)) order.now.limits bounds
        (V.can_stop watcher.old) order.now.wants.items) }
    ensures watcher { V.can_stop watcher.new ≡ V.can_stop watcher.old }
{
    let Ok(exploration) = explore_watched(alloc, program, order.limits, bounds, watcher) else {
        return Err(AllocError);
    };
    let wants = order.wants.as_slice();
    let Some(answer) = first_failure(exploration.answers.as_slice(), wants) else {
        return Ok(First::Explored(exploration));
    };
    let schedule = answer.schedule.as_slice();
    Ok(First::Found(Finding {
        answer: replayed(alloc, program, order.limits, schedule)?,
        last: true,
        drawn: false,
    }))
}

/// The first finding among the ends of all random schedules. The watcher can end the drawing ([`sample_watched`]).
pub(crate) fn drawn_finding<V: Watcher>(
    alloc: Global,
    program: &Program,
    order: &ExploreOrder,
    watcher: &mut V,
) -> Result<Option<Finding>, AllocError>
    ensures drawn { IfOk result (λ found. IfSome found (IsDrawn (code_of (source_of program.now)) order.now.limits
        order.now.wants.items)) }
    ensures watches { V.can_stop watcher.new ≡ V.can_stop watcher.old }
{
    for length in LENGTHS {
        if let Some(finding) = finding_within(alloc, program, order, *length, &mut *watcher)? {
            return Ok(Some(finding));
        }
    }
    Ok(None)
}

// The first finding among the ends of the random schedules of at most `length` entries.
fn finding_within<V: Watcher>(
    alloc: Global,
    program: &Program,
    order: &ExploreOrder,
    length: u32,
    watcher: &mut V,
) -> Result<Option<Finding>, AllocError>
    ensures drawn { IfOk result (λ found. IfSome found (IsDrawn (code_of (source_of program.now)) order.now.limits
        order.now.wants.items)) }
    ensures watches { V.can_stop watcher.new ≡ V.can_stop watcher.old }
{
    let entries = order.bounds.entries.min(length as usize) as u32;
    for seed in 0..SAMPLES {
        let found = finding_of_sample(alloc, program, order, seed, entries, &mut *watcher)?;
        if let Some(finding) = found {
            return Ok(Some(finding));
        }
    }
    Ok(None)
}

// The first finding among the ends of the schedules that this seed draws.
fn finding_of_sample<V: Watcher>(
    alloc: Global,
    program: &Program,
    order: &ExploreOrder,
    seed: u64,
    entries: u32,
    watcher: &mut V,
) -> Result<Option<Finding>, AllocError>
    requires { entries ≤ order.now.bounds.entries }
    ensures drawn { IfOk result (λ found. IfSome found (IsDrawn (code_of (source_of program.now)) order.now.limits
        order.now.wants.items)) }
    ensures watches { V.can_stop watcher.new ≡ V.can_stop watcher.old }
{
    let drawn = sample_watched(
        alloc,
        program,
        order.limits,
        seed,
        SCHEDULES,
        entries,
        watcher,
    );
    let Ok(found) = drawn else {
        return Err(AllocError);
    };
    let wants = order.wants.as_slice();
    let Some((coming, last)) = first_shown(found.comings.as_slice(), wants, entries) else {
        return Ok(None);
    };
    let schedule = coming.answer.schedule.as_slice();
    Ok(Some(Finding {
        answer: replayed(alloc, program, order.limits, schedule)?,
        last,
        drawn: true,
    }))
}

// The first end that is a finding, and whether no further entry changes it.
fn first_shown<'a>(
    comings: &'a [Coming],
    wants: &[Want],
    entries: u32,
) -> Option<(&'a Coming, bool)>
    ensures { IfSome result (λ found. (i : ℕ) × (slice_get comings.now i ≡ There found.0.now) ×
        Shows wants.now entries found.0.now.answer found.1) }
{
    for coming in comings {
        if let Some(last) = shown(&coming.answer, wants, entries) {
            return Some((coming, last));
        }
    }
    None
}

// Whether no further entry changes the end of an answer; `None` if the answer is no finding.
fn shown(answer: &Answer, wants: &[Want], entries: u32) -> Option<bool>
    ensures { IfSome result (Shows wants.now entries answer.now) }
{
    if !is_failure(&answer.end, wants) {
        return None;
    }
    match &answer.end {
        Ok(report) => {
            if answer.schedule.as_slice().len() < entries as usize {
                return Some(true);
            }
            match first_outcome(report) {
                Some(_) => Some(false),
                None => None,
            }
        }
        Err(_) => Some(true),
    }
}

// The first answer that is a fault or not wanted.
fn first_failure<'a>(answers: &'a [Answer], wants: &[Want]) -> Option<&'a Answer>
    ensures some { IfSome result (λ a. (i : ℕ) × (slice_get answers.now i ≡ There a.now) ×
        (is_failure wants.now a.now.end ≡ true)) }
    ensures none { IfNone result (has_failure wants.now answers.now ≡ false) }
{
    for answer in answers {
        if is_failure(&answer.end, wants) {
            return Some(answer);
        }
    }
    None
}

// The schedule, with the report or fault of a replay under it.
fn replayed(
    alloc: Global,
    program: &Program,
    limits: Limits,
    schedule: &[u16],
) -> Result<Answer, AllocError>
    requires { AreLimits limits }
    ensures schedule { IfOk result (λ a. a.schedule ≡ schedule.now) }
    ensures end { IfOk result (λ a.
        reported (core (code_of (source_of program.now)) limits schedule.now) ≡ a.end) }
{
    let entries = Vec::from_slice(alloc, schedule)?;
    Ok(Answer {
        schedule: Schedule::new(entries),
        end: replayed_end(alloc, program, limits, schedule)?,
    })
}

// The report or fault of a replay under a schedule. `AllocError` if memory ran out.
fn replayed_end(
    alloc: Global,
    program: &Program,
    limits: Limits,
    schedule: &[u16],
) -> Result<Result<Report, RunError>, AllocError>
    requires { AreLimits limits }
    ensures { IfOk result (λ end.
        reported (core (code_of (source_of program.now)) limits schedule.now) ≡ end) }
{
    match replay(alloc, program, schedule, limits) {
        Ok(report) => Ok(Ok(report)),
        Err(RunError::NoMemory) => Err(AllocError),
        Err(fault) => Ok(Err(fault)),
    }
}

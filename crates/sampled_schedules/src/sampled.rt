//! The ends of schedules that are drawn at random.
ghost use Rattle.std.specs.Prelude.{◌≡◌, ◌≢◌, ◌+◌, ◌<◌, ◌≤◌, ◌^◌, ℕ, [], ◌∷◌, length, IfErr, IfNone, IfOk, IfSome};
ghost use Rattle.std.specs.Prelude.{OnOk, true, false};
ghost use Rattle.std.specs.Prelude.{Some as There, None, Err as Fails, Ok as GoesWell};
ghost use Rattle.std.specs.List.{All, slice_get, sum_by};
ghost use Rattle.derived_ops.specs.Expansion.{code_of};
ghost use Rattle.derived_ops.specs.Reading.{source_of};
ghost use Rattle.derived_ops.specs.Tree.{Tree};
ghost use Rattle.fiber_frames.specs.Fiber.{begins};
ghost use Rattle.fiber_frames.specs.Marks.{AreLawful};
ghost use Rattle.cell_registry.specs.Cells.{AreLimits, Cells, opening};
ghost use Rattle.scheduled_core.specs.Core.{core, reported};
ghost use Rattle.scheduled_core.specs.Fitting.{AllFit, world_of};
ghost use Rattle.every_schedule.specs.Explored.{HasLawfulMarks, IsReached};
ghost use Rattle.sampled_schedules.specs.declared.comings.Coming.{Coming as TheComing};
ghost use Rattle.sampled_schedules.specs.Sampled.{IsCutShort, IsDrawing, IsSampleOf, StaysSo};
ghost use Rattle.sampled_schedules.specs.Private.Noting.{IsNoted, came_in_all, raised};
ghost use Rattle.sampled_schedules.specs.Private.Walking.{came, was_cut, was_walked};

use crate::comings::{Coming, Comings, Drawn, Sample};
use crate::draws::Draws;
use crate::ends::same_end;
use crate::walks::walk;
use cell_registry::{Limits, PlainRegistry, RunError};
use effect_term::Program;
use every_schedule::{Answer, Schedule, Unwatched, Watcher};
use fiber_frames::Config;
use scheduled_core::{Report, first_fibers, report_of_fibers};
use std::alloc::{AllocError, Global};

/// Draws random schedules of a program from a seed, and returns their ends: the different reports and faults, each with
/// the number of its schedules and the first of these, in the form that `replay` takes.
///
/// Each entry is of a fiber that can go on, chosen among all of these. The chosen fiber makes a number of entries in a
/// row, usually few and sometimes many. A schedule ends if every fiber has ended or rests, if a call is refused, or if
/// it has the greatest number of entries. So no further entry changes the report of a shorter schedule, and a complete
/// exploration lists this report. A report is marked as cut short if each of its schedules was, since further entries
/// can still change it. The same seed gives the same sample on every machine. The limits are in their ranges
/// ([`Limits`]). [`RunError::NoMemory`] is the only error.
pub fn sample(
    alloc: Global,
    program: &Program,
    limits: Limits,
    seed: u64,
    times: u32,
    entries: u32,
) -> Result<Sample, RunError>
    requires limits { AreLimits limits }
    ensures each { IfOk result (λ it. All (λ c.
        reported (core (code_of (source_of program.now)) limits c.answer.schedule) ≡ c.answer.end) it.comings) }
    ensures stays { IfOk result (λ it. All (λ c. length c.answer.schedule < entries →
        IsReached (code_of (source_of program.now)) limits c.answer) it.comings) }
    ensures uncut { IfOk result (λ it. All (λ c. c.cut ≡ false →
        StaysSo (code_of (source_of program.now)) limits c.answer.end) it.comings) }
    ensures cut { IfOk result (λ it. All (λ c. c.cut ≡ true → IsCutShort entries c.answer) it.comings) }
    ensures tally { IfOk result (λ it. IsSampleOf (code_of (source_of program.now)) limits entries times it.comings) }
    ensures counted { IfOk result (λ it. sum_by (λ c. c.times) it.comings ≡ times) }
    ensures schedules { IfOk result (λ it. it.schedules ≡ times) }
    ensures numbers { IfOk result (λ it. All (λ c. All (λ f. f < 1000) c.answer.schedule) it.comings) }
    ensures short { IfOk result (λ it. All (λ c. length c.answer.schedule ≤ entries) it.comings) }
    ensures lawful { IfOk result (λ it. All (λ c. HasLawfulMarks c.answer) it.comings) }
    ensures memory { IfErr result (λ e. e ≡ RunError.NoMemory) }
{
    sample_watched(alloc, program, limits, seed, times, entries, &mut Unwatched)
}

/// Samples as [`sample`] does. The watcher is asked before each schedule, and while one is drawn at each fiftieth row of
/// entries, whether the drawing goes on (`lists_on`). It can end the sample, which then has the schedules that were drawn
/// whole. A watcher that can't end the sample leaves all of them.
pub fn sample_watched<V: Watcher>(
    alloc: Global,
    program: &Program,
    limits: Limits,
    seed: u64,
    times: u32,
    entries: u32,
    watcher: &mut V,
) -> Result<Sample, RunError>
    requires limits { AreLimits limits }
    ensures each { IfOk result (λ it. All (λ c.
        reported (core (code_of (source_of program.now)) limits c.answer.schedule) ≡ c.answer.end) it.comings) }
    ensures stays { IfOk result (λ it. All (λ c. length c.answer.schedule < entries →
        IsReached (code_of (source_of program.now)) limits c.answer) it.comings) }
    ensures uncut { IfOk result (λ it. All (λ c. c.cut ≡ false →
        StaysSo (code_of (source_of program.now)) limits c.answer.end) it.comings) }
    ensures cut { IfOk result (λ it. All (λ c. c.cut ≡ true → IsCutShort entries c.answer) it.comings) }
    ensures tally { IfOk result (λ it.
        IsSampleOf (code_of (source_of program.now)) limits entries it.schedules it.comings) }
    ensures counted { IfOk result (λ it. sum_by (λ c. c.times) it.comings ≡ it.schedules) }
    ensures few { IfOk result (λ it. it.schedules ≤ times) }
    ensures watches { V.can_stop watcher.new ≡ V.can_stop watcher.old }
    ensures whole { V.can_stop watcher.old ≡ false → IfOk result (λ it. it.schedules ≡ times) }
    ensures numbers { IfOk result (λ it. All (λ c. All (λ f. f < 1000) c.answer.schedule) it.comings) }
    ensures short { IfOk result (λ it. All (λ c. length c.answer.schedule ≤ entries) it.comings) }
    ensures lawful { IfOk result (λ it. All (λ c. HasLawfulMarks c.answer) it.comings) }
    ensures memory { IfErr result (λ e. e ≡ RunError.NoMemory) }
{
    let first = first_fibers(alloc, program)?;
    let mut draws = Draws::new(seed);
    let mut comings = Vec::new(alloc);
    let mut schedules = 0;
    while schedules < times {
        match draw(
            alloc,
            first.as_slice(),
            limits,
            &mut draws,
            entries as usize,
            &mut *watcher,
        )? {
            None => break,
            Some(drawn) => note(&mut comings, drawn)?,
        }
        schedules += 1;
    }
    Ok(Sample {
        schedules,
        comings: Comings::new(comings),
    })
}

/// Draws one more schedule. `first` has the fibers of the program before the first move. `None` if the watcher ended the
/// drawing.
pub(crate) fn draw<V: Watcher>(
    alloc: Global,
    first: &[Config],
    limits: Limits,
    draws: &mut Draws,
    most: usize,
    watcher: &mut V,
) -> Result<Option<Drawn>, AllocError>
    requires limits { AreLimits limits }
    requires fits { AllFit (world_of first.now (opening limits)) }
    ensures drawn { IfOk result (λ it. IfSome it (λ d. (code : Tree) → first.now ≡ begins 0 code ∷ [] →
        IsDrawing code limits most d)) }
    ensures lawful { IfOk result (λ it. IfSome it (λ d. HasLawfulMarks d.answer)) }
    ensures may { IfOk result (λ it. it ≡ None → V.can_stop watcher.old ≡ true) }
    ensures watches { V.can_stop watcher.new ≡ V.can_stop watcher.old }
{
    let mut fibers = copies(alloc, first)?;
    let mut registry = PlainRegistry::new(
        alloc,
        limits.fibers,
        limits.refs,
        limits.deferreds,
        limits.count,
    )?;
    let mut schedule = Vec::new(alloc);
    let walked = walk(
        &mut fibers,
        &mut registry,
        &mut schedule,
        draws,
        most,
        watcher,
    );
    match ended(walked) {
        None => Ok(None),
        Some(walked) => {
            let cut = was_cut(&walked);
            let end = end(alloc, walked, fibers)?;
            let answer = Answer {
                schedule: Schedule::new(schedule),
                end,
            };
            Ok(Some(Drawn { answer, cut }))
        }
    }
}

/// Draws one more schedule, whose drawing nothing ends.
pub(crate) fn draw_whole(
    alloc: Global,
    first: &[Config],
    limits: Limits,
    draws: &mut Draws,
    most: usize,
) -> Result<Drawn, AllocError>
    requires limits { AreLimits limits }
    requires fits { AllFit (world_of first.now (opening limits)) }
    ensures drawn { IfOk result (λ d. (code : Tree) → first.now ≡ begins 0 code ∷ [] → IsDrawing code limits most d) }
    ensures lawful { IfOk result (λ d. HasLawfulMarks d.answer) }
{
    match draw(alloc, first, limits, draws, most, &mut Unwatched)? {
        Some(drawn) => Ok(drawn),
        None => Err(AllocError),
    }
}

// The result of entries that the watcher didn't end.
fn ended(walked: Result<Option<bool>, RunError>) -> Option<Result<bool, RunError>>
    ensures some { IfSome result (λ it. walked ≡ was_walked it) }
    ensures none { IfNone result (walked ≡ GoesWell None) }
{
    match walked {
        Ok(None) => None,
        Ok(Some(cut)) => Some(Ok(cut)),
        Err(fault) => Some(Err(fault)),
    }
}

// Whether the entries were cut short.
fn was_cut(walked: &Result<bool, RunError>) -> bool
    ensures { result ≡ was_cut walked.now }
{
    match walked {
        Ok(cut) => *cut,
        Err(_) => false,
    }
}

// Copies of the fibers.
fn copies(alloc: Global, fibers: &[Config]) -> Result<Vec<Config>, AllocError>
    ensures { IfOk result (λ copies. copies.items ≡ fibers.now) }
{
    let mut copies = Vec::with_capacity(alloc, fibers.len())?;
    for fiber in fibers {
        copies.push(fiber.copy(alloc)?)?;
    }
    Ok(copies)
}

// The report of the fibers, or the fault that ended their schedule. Running out of memory isn't an end.
fn end(
    alloc: Global,
    walked: Result<bool, RunError>,
    fibers: Vec<Config>,
) -> Result<Result<Report, RunError>, AllocError>
    ensures end { IfOk result (λ end. (cells : Cells) → end ≡ reported (came walked (world_of fibers.items cells))) }
    ensures memory { OnOk result (walked ≢ Fails RunError.NoMemory) }
    ensures lawful { IfOk result (λ end. IfOk end (λ r. All (λ f. AreLawful f.marks f.outcome) r.fibers)) }
{
    match walked {
        Ok(_) => Ok(Ok(report_of_fibers(alloc, fibers)?)),
        Err(RunError::NoMemory) => Err(AllocError),
        Err(fault) => Ok(Err(fault)),
    }
}

// Records the end of one more schedule.
fn note(comings: &mut Vec<Coming>, drawn: Drawn) -> Result<(), AllocError>
    requires { came_in_all comings.old.items + 1 < 2 ^ 32 }
    ensures { OnOk result (IsNoted comings.old.items drawn comings.new.items) }
{
    let Drawn { answer, cut } = drawn;
    match place(comings.as_slice(), &answer) {
        Some(place) => raise(&mut comings[place], cut),
        None => comings.push(Coming {
            answer,
            times: 1,
            cut,
        })?,
    }
    Ok(())
}

// Counts one more schedule with this end; `cut` is whether it was cut short.
fn raise(coming: &mut Coming, cut: bool)
    requires { coming.old.times + 1 < 2 ^ 32 }
    ensures { coming.new ≡ raised coming.old cut }
{
    coming.times += 1;
    coming.cut = coming.cut && cut;
}

// The place of an answer with the same end.
fn place(comings: &[Coming], answer: &Answer) -> Option<usize>
    ensures some { IfSome result (λ i. (c : TheComing) × (slice_get comings.now i ≡ There c) ×
        (c.answer.end ≡ answer.now.end)) }
    ensures none { IfNone result ((i : ℕ) (c : TheComing) → slice_get comings.now i ≡ There c →
        c.answer.end ≢ answer.now.end) }
{
    for (index, coming) in comings.iter().enumerate() {
        if same_end(&coming.answer.end, &answer.end) {
            return Some(index);
        }
    }
    None
}

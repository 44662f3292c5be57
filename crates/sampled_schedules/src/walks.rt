//! One schedule, drawn entry by entry while the fibers make their moves.
ghost use Rattle.std.specs.Prelude.{◌≡◌, ◌⊎◌, ◌+◌, ◌++◌, ◌<◌, ◌≤◌, [], ◌∷◌, length, IfNone, IfOk, IfSome, OnOk};
ghost use Rattle.std.specs.Prelude.{Err as Fails, true, false, None, Some};
ghost use Rattle.scheduled_core.specs.Finals.{IsFinal};
ghost use Rattle.scheduled_core.specs.Fitting.{AllFit, world_of};
ghost use Rattle.sampled_schedules.specs.Private.Walking.{HasUnendedFiber, IsWalk, came};

use crate::draws::Draws;
use cell_registry::{PlainRegistry, RunError};
use effect_term::facts_of;
use every_schedule::Watcher;
use fiber_frames::Config;
use scheduled_core::{enter, is_done};
use std::alloc::AllocError;

// The watcher is asked once in this number of rows of entries.
const ASKED_EACH: usize = 50;

// The quarters of the time after a search that samples can take.
const DRAWN: u32 = 4;

/// Draws entries until no fiber can go on, or the schedule has `most` entries. Returns whether it was cut short: it has
/// `most` entries, and a fiber could still go on. `None` if the watcher ended the drawing before.
pub(crate) fn walk<V: Watcher>(
    fibers: &mut Vec<Config>,
    registry: &mut PlainRegistry,
    schedule: &mut Vec<u16>,
    draws: &mut Draws,
    most: usize,
    watcher: &mut V,
) -> Result<Option<bool>, RunError>
    requires fits { AllFit (world_of fibers.old.items registry.old.state) }
    requires start { schedule.old.items ≡ [] }
    ensures walked { (result ≡ Fails RunError.NoMemory) ⊎
        IsWalk registry.old.limits (world_of fibers.old.items registry.old.state) schedule.old.items
        (came result (world_of fibers.new.items registry.new.state)) schedule.new.items most }
    ensures ended { IfOk result (λ cut. cut ≡ Some false → IsFinal (world_of fibers.new.items registry.new.state)) }
    ensures cut { IfOk result (λ cut. cut ≡ Some true →
        (length schedule.new.items ≡ most) × HasUnendedFiber fibers.new.items) }
    ensures may { IfOk result (λ cut. cut ≡ None → V.can_stop watcher.old ≡ true) }
    ensures watches { V.can_stop watcher.new ≡ V.can_stop watcher.old }
{
    let mut rows = 0usize;
    while schedule.len() < most {
        if !lets_draw(&mut *watcher, rows) {
            return Ok(None);
        }
        let Some(number) = pick(fibers.as_slice(), registry, draws) else {
            return Ok(Some(false));
        };
        let many = (draws.row() as usize).min(most - schedule.len());
        make_row(fibers, registry, schedule, number, many)?;
        rows = rows.wrapping_add(1);
    }
    Ok(Some(could_go_on(fibers.as_slice(), registry)))
}

// Whether the drawing goes on after so many rows of entries. The watcher is asked at the first of each 50.
fn lets_draw<V: Watcher>(watcher: &mut V, rows: usize) -> bool
    ensures same { V.can_stop watcher.new ≡ V.can_stop watcher.old }
    ensures can { result ≡ false → V.can_stop watcher.old ≡ true }
{
    rows % ASKED_EACH != 0 || watcher.lists_on(DRAWN)
}

// Whether a fiber could still go on.
fn could_go_on(fibers: &[Config], registry: &PlainRegistry) -> bool
    requires { AllFit (world_of fibers.now registry.now.state) }
    ensures none { result ≡ false → IsFinal (world_of fibers.now registry.now.state) }
    ensures some { result ≡ true → HasUnendedFiber fibers.now }
{
    for fiber in fibers {
        if !is_done(fiber, registry) {
            return true;
        }
    }
    false
}

// One of the fibers that can go on, each with the same probability; `None` if none can.
fn pick(fibers: &[Config], registry: &PlainRegistry, draws: &mut Draws) -> Option<u16>
    requires { AllFit (world_of fibers.now registry.now.state) }
    ensures none { IfNone result (IsFinal (world_of fibers.now registry.now.state)) }
    ensures number { IfSome result (λ f. f < 1000) }
{
    // The registry is within its limits.
    facts_of(registry.limits());
    let mut picked = None;
    let mut able = 0;
    for (index, config) in fibers.iter().enumerate() {
        if !is_done(config, registry) {
            able += 1;
            if picked.is_none() || draws.below(able) == 0 {
                picked = Some(index as u16);
            }
        }
    }
    picked
}

// Makes entries of one fiber in a row: at most `many`, until the fiber can't go on, and at least one.
fn make_row(
    fibers: &mut Vec<Config>,
    registry: &mut PlainRegistry,
    schedule: &mut Vec<u16>,
    number: u16,
    many: usize,
) -> Result<(), RunError>
    requires fits { AllFit (world_of fibers.old.items registry.old.state) }
    requires number { number < 1000 }
    requires many { 1 ≤ many }
    ensures limits { OnOk result (registry.new.limits ≡ registry.old.limits) }
    ensures fits { OnOk result (AllFit (world_of fibers.new.items registry.new.state)) }
    ensures grows { OnOk result (length schedule.old.items + 1 ≤ length schedule.new.items) }
    ensures walked { (result ≡ Fails RunError.NoMemory) ⊎
        IsWalk registry.old.limits (world_of fibers.old.items registry.old.state) schedule.old.items
        (came result (world_of fibers.new.items registry.new.state)) schedule.new.items many }
{
    make_entry(fibers, registry, schedule, number)?;
    for _ in 1..many {
        if !can_go_on(fibers.as_slice(), registry, number) {
            return Ok(());
        }
        make_entry(fibers, registry, schedule, number)?;
    }
    Ok(())
}

// Whether the fiber of this number was started and can go on.
fn can_go_on(fibers: &[Config], registry: &PlainRegistry, number: u16) -> bool
    requires { AllFit (world_of fibers.now registry.now.state) }
{
    let place = usize::from(number);
    place < fibers.len() && !is_done(&fibers[place], registry)
}

// Makes one more entry. The entry is added to the schedule before it is made, so that a schedule contains the entry of
// its fault.
fn make_entry(
    fibers: &mut Vec<Config>,
    registry: &mut PlainRegistry,
    schedule: &mut Vec<u16>,
    number: u16,
) -> Result<(), RunError>
    requires fits { AllFit (world_of fibers.old.items registry.old.state) }
    requires number { number < 1000 }
    ensures limits { OnOk result (registry.new.limits ≡ registry.old.limits) }
    ensures fits { OnOk result (AllFit (world_of fibers.new.items registry.new.state)) }
    ensures grows { OnOk result (length schedule.old.items + 1 ≤ length schedule.new.items) }
    ensures walked { (result ≡ Fails RunError.NoMemory) ⊎
        IsWalk registry.old.limits (world_of fibers.old.items registry.old.state) schedule.old.items
        (came result (world_of fibers.new.items registry.new.state)) schedule.new.items 1 }
{
    note(schedule, number)?;
    enter(fibers, registry, number)
}

// Appends the entry.
fn note(schedule: &mut Vec<u16>, number: u16) -> Result<(), AllocError>
    ensures { OnOk result (schedule.new.items ≡ schedule.old.items ++ number ∷ []) }
{
    schedule.push(number)?;
    Ok(())
}

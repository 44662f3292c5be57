//! What the fibers wait for that haven't ended under a schedule.

ghost use Rattle.std.specs.Prelude.{◌≡◌, IfOk, true};
ghost use Rattle.cell_registry.specs.Cells.{AreLimits};
ghost use Rattle.scheduled_core.specs.Fitting.{AllFit, world_of};

use crate::named::{Named, replay_named};
use crate::prepared::Prepared;
use cell_registry::{Limits, PlainRegistry, RunError};
use effect_term::Program;
use fiber_frames::Config;
use scheduled_core::{Why, enter, enter_all, first_fibers, is_done, same_end, why_of};
use std::alloc::{AllocError, Global};

// The greatest number of entries of fibers that can go on behind a schedule.
const MOST_MORE: usize = 1000;

/// The fibers of a term behind a schedule, when none can go on.
#[derive(Drop)]
pub struct Waits {
    /// The replay that goes on until no fiber can, in the names of the file.
    pub replay: Named,
    /// For each fiber, in the order of their numbers, what it waits for, or that it has ended.
    pub whys: Vec<Why>,
}

/// Returns what each fiber waits for behind a schedule with this replay, when no fiber can go on. `None` if the
/// schedule ends with a fault, if fibers could go on for long, or if the report would then be another one.
pub(crate) fn waits_behind(
    alloc: Global,
    prepared: &Prepared,
    entries: &[u16],
    limits: Limits,
    before: &Named,
) -> Result<Option<Waits>, AllocError>
    requires limits { AreLimits limits }
{
    let Some(rest) = rest_of(alloc, &prepared.program, entries, limits)? else {
        return Ok(None);
    };
    let replay = replay_named(alloc, prepared, rest.entries.as_slice(), limits)?;
    if same_end(&replay.end, &before.end) {
        Ok(Some(Waits {
            replay,
            whys: rest.whys,
        }))
    } else {
        Ok(None)
    }
}

// A schedule after which no fiber can go on.
#[derive(Drop)]
struct Rest {
    // The entries.
    entries: Vec<u16>,
    // What each fiber then waits for.
    whys: Vec<Why>,
}

// These entries and those of fibers that can go on, until none can. `None` if these entries end with a fault, or if
// fibers could go on for long.
fn rest_of(
    alloc: Global,
    program: &Program,
    entries: &[u16],
    limits: Limits,
) -> Result<Option<Rest>, AllocError>
    requires limits { AreLimits limits }
{
    let mut fibers = first_fibers(alloc, program)?;
    let mut registry = PlainRegistry::new(
        alloc,
        limits.fibers,
        limits.refs,
        limits.deferreds,
        limits.count,
    )?;
    match enter_all(&mut fibers, &mut registry, entries) {
        Ok(()) => {}
        Err(RunError::NoMemory) => return Err(AllocError),
        Err(_) => return Ok(None),
    }
    let mut all = Vec::from_slice(alloc, entries)?;
    if !add_moves(&mut fibers, &mut registry, &mut all)? {
        return Ok(None);
    }
    let whys = whys_of(alloc, fibers.as_slice(), &registry)?;
    Ok(Some(Rest { entries: all, whys }))
}

// Adds entries of fibers that can go on, until none can. Returns whether none can.
fn add_moves(
    fibers: &mut Vec<Config>,
    registry: &mut PlainRegistry,
    all: &mut Vec<u16>,
) -> Result<bool, AllocError>
    requires fits { AllFit (world_of fibers.old.items registry.old.state) }
    ensures fit { IfOk result (λ rests. rests ≡ true → AllFit (world_of fibers.new.items registry.new.state)) }
{
    for _ in 0..MOST_MORE {
        let Some(number) = going_on(fibers.as_slice(), registry) else {
            return Ok(true);
        };
        all.push(number)?;
        match enter(fibers, registry, number) {
            Ok(()) => {}
            Err(RunError::NoMemory) => return Err(AllocError),
            Err(_) => return Ok(false),
        }
    }
    Ok(false)
}

// The number of the first fiber that can go on, if one can.
fn going_on(fibers: &[Config], registry: &PlainRegistry) -> Option<u16>
    requires { AllFit (world_of fibers.now registry.now.state) }
{
    for config in fibers {
        if !is_done(config, registry) {
            return Some(config.number());
        }
    }
    None
}

// What each fiber waits for.
fn whys_of(
    alloc: Global,
    fibers: &[Config],
    registry: &PlainRegistry,
) -> Result<Vec<Why>, AllocError>
    requires { AllFit (world_of fibers.now registry.now.state) }
{
    let mut whys = Vec::new(alloc);
    for config in fibers {
        whys.push(why_of(config, registry))?;
    }
    Ok(whys)
}

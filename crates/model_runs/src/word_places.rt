//! The word at which a fiber is before its entry of a schedule.

ghost use Rattle.cell_registry.specs.Cells.{AreLimits};
ghost use Rattle.scheduled_core.specs.Fitting.{AllFit, world_of};

use cell_registry::{Limits, PlainRegistry, RunError};
use effect_term::Program;
use fiber_frames::Config;
use scheduled_core::{enter, first_fibers};
use std::alloc::{AllocError, Global};

/// Returns, for each entry of a schedule, the number of the word of the code at which its fiber is before the entry.
/// The list ends with the first entry that ends the replay with a fault.
pub(crate) fn word_places(
    alloc: Global,
    program: &Program,
    schedule: &[u16],
    limits: Limits,
) -> Result<Vec<usize>, AllocError>
    requires limits { AreLimits limits }
{
    let mut fibers = first_fibers(alloc, program)?;
    let mut registry = PlainRegistry::new(
        alloc,
        limits.fibers,
        limits.refs,
        limits.deferreds,
        limits.count,
    )?;
    places_along(alloc, &mut fibers, &mut registry, schedule)
}

// The word of each entry of a schedule that begins with these fibers and this registry.
fn places_along(
    alloc: Global,
    fibers: &mut Vec<Config>,
    registry: &mut PlainRegistry,
    schedule: &[u16],
) -> Result<Vec<usize>, AllocError>
    requires fits { AllFit (world_of fibers.old.items registry.old.state) }
{
    let mut places = Vec::new(alloc);
    for number in schedule {
        places.push(place_of(fibers.as_slice(), *number))?;
        match enter(fibers, registry, *number) {
            Ok(()) => {}
            Err(RunError::NoMemory) => return Err(AllocError),
            Err(_) => return Ok(places),
        }
    }
    Ok(places)
}

// The number of the word at which the fiber of this number is; `usize::MAX` if there is no such fiber.
fn place_of(fibers: &[Config], number: u16) -> usize {
    match fibers.get(usize::from(number)) {
        Some(fiber) => fiber.word_place(),
        None => usize::MAX,
    }
}

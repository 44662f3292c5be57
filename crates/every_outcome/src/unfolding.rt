//! The schedules of a search, with each own move as an entry.
ghost use Rattle.std.specs.Prelude.{◌≡◌, ◌≢◌, Bool, false, IfErr, IfOk};
ghost use Rattle.derived_ops.specs.Expansion.{code_of};
ghost use Rattle.derived_ops.specs.Reading.{source_of};
ghost use Rattle.cell_registry.specs.Cells.{AreLimits};
ghost use Rattle.every_outcome.specs.Places.{first_place};
ghost use Rattle.every_outcome.specs.Private.Reduced.{IsUnfolded};

use crate::core_world::CoreWorld;
use crate::leaping::leap;
use cell_registry::{Limits, RunError};
use effect_term::Program;
use std::alloc::Global;

/// Lists all entries that a schedule of the search makes, with those of own moves; `stores` is that of [`leap`].
pub(crate) fn unfold(
    alloc: Global,
    program: &Program,
    limits: Limits,
    schedule: &[u16],
    stores: bool,
) -> Result<Vec<u16>, RunError>
    requires { AreLimits limits }
    ensures entries { IfOk result (λ it. (says : Bool) →
        IsUnfolded says stores (first_place says (code_of (source_of program.now)) limits) schedule.now it.items) }
    ensures memory { IfErr result (λ e. e ≡ RunError.NoMemory) }
{
    let mut world = CoreWorld::first(alloc, program, limits)?;
    let mut trail = Vec::new(alloc);
    for fiber in schedule {
        match leap(&mut world, *fiber, stores, &mut trail) {
            Ok(()) => {}
            Err(fault) => {
                if is_memory(fault) {
                    return Err(RunError::NoMemory);
                }
                return Ok(trail);
            }
        }
    }
    Ok(trail)
}

// Whether memory ran out.
fn is_memory(fault: RunError) -> bool
    ensures { result ≡ false → fault ≢ RunError.NoMemory }
{
    match fault {
        RunError::NoMemory => true,
        RunError::Full(_, _) | RunError::Spent(_) | RunError::Lost(_) | RunError::NoWorker => false,
    }
}

//! Claims at the moments of schedules that are drawn at random.
ghost use Rattle.std.specs.Prelude.{◌≡◌, IfErr, IfOk};
ghost use Rattle.std.specs.List.{All};
ghost use Rattle.derived_ops.specs.Expansion.{code_of};
ghost use Rattle.derived_ops.specs.Reading.{source_of};
ghost use Rattle.cell_registry.specs.Cells.{AreLimits};
ghost use Rattle.world_search.specs.Claims.{IsBrief, IsFew};
ghost use Rattle.every_schedule.specs.Claims.{IsMetIn};
ghost use Rattle.sampled_schedules.specs.Claims.{LooksThrough};

use crate::draws::Draws;
use crate::sampled::draw_whole;
use cell_registry::{Limits, RunError};
use effect_term::Program;
use every_schedule::{Claim, Met, note_met};
use scheduled_core::first_fibers;
use std::alloc::Global;

/// Draws the schedules that [`sample`](crate::sample) draws, and returns the claims that a world on the way of one of
/// them meets. Each has the entries that led to the first such world, as `replay` takes them.
///
/// Each claim is checked in the world before the first entry of each schedule, and after each entry, until a world
/// meets it. Claims are read as in [`search_claims`](every_schedule::search_claims). That a claim isn't returned says
/// nothing about schedules that weren't drawn. The limits are in their ranges ([`Limits`]). [`RunError::NoMemory`] is
/// the only error.
pub fn sample_claims(
    alloc: Global,
    program: &Program,
    limits: Limits,
    seed: u64,
    times: u32,
    entries: u32,
    claims: &[Claim],
) -> Result<Vec<Met>, RunError>
    requires limits { AreLimits limits }
    ensures met { IfOk result (λ it. All (IsMetIn (code_of (source_of program.now)) limits claims.now) it.items) }
    ensures unmet { IfOk result (λ it.
        LooksThrough (code_of (source_of program.now)) limits entries times claims.now it.items) }
    ensures numbers { IfOk result (λ it. All (IsFew 1000) it.items) }
    ensures short { IfOk result (λ it. All (IsBrief entries) it.items) }
    ensures memory { IfErr result (λ e. e ≡ RunError.NoMemory) }
{
    let first = first_fibers(alloc, program)?;
    let mut draws = Draws::new(seed);
    let mut met = Vec::new(alloc);
    let mut schedules = 0;
    while schedules < times {
        let most = entries as usize;
        let drawn = draw_whole(alloc, first.as_slice(), limits, &mut draws, most)?;
        let schedule = drawn.answer.schedule.as_slice();
        note_met(alloc, program, limits, schedule, claims, &mut met)?;
        schedules += 1;
    }
    Ok(met)
}

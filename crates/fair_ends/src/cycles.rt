//! A cycle in a component that no fair schedule has to leave.

use crate::components::{NONE, number_at};
use crate::ending::Cycle;
use crate::paths::{Path, flags_of, set_flag, shortest};
use crate::ranking::{makes_within, target_at};
use crate::table::{Edge, Row};
use crate::walking::is_idle;
use std::alloc::{AllocError, Global};

/// Finds a cycle, as steps, in the nearest component that a fair schedule need not leave: for each fiber, a step that
/// makes an entry of that fiber stays in the component. `None` if `stuck` flags no world.
pub fn cycle_in(
    alloc: Global,
    rows: &[Row],
    components: &[u32],
    stuck: &[bool],
) -> Result<Option<Cycle>, AllocError> {
    let all = flags_of(alloc, rows.len(), true)?;
    let stem = match shortest(alloc, rows, all.as_slice(), 0, stuck)? {
        None => return Ok(None),
        Some(it) => it,
    };
    let component = number_at(components, stem.end, NONE);
    let inside = members_of(alloc, components, component)?;
    match round(alloc, rows, components, inside.as_slice(), stem.end)? {
        None => Ok(None),
        Some(cycle) => Ok(Some(Cycle {
            stem: stem.schedule,
            cycle,
        })),
    }
}

// Returns the flags of the worlds that are in the component.
fn members_of(alloc: Global, components: &[u32], component: u32) -> Result<Vec<bool>, AllocError> {
    let mut flags = Vec::new(alloc);
    for it in components {
        flags.push(*it == component)?;
    }
    Ok(flags)
}

// Returns steps within a component that lead from the world `begins` back to it, and make an entry of each fiber whose
// entry at that world can change something.
fn round(
    alloc: Global,
    rows: &[Row],
    components: &[u32],
    inside: &[bool],
    begins: u32,
) -> Result<Option<Vec<u16>>, AllocError> {
    let mut cycle = Vec::new(alloc);
    let mut at = begins;
    let mut fiber: u16 = 0;
    for _ in 0..many_at(rows, begins) {
        if moves(rows, begins, fiber) {
            match entry_of(alloc, rows, components, inside, at, fiber)? {
                None => return Ok(None),
                Some(found) => {
                    append(&mut cycle, found.schedule.as_slice())?;
                    at = found.end;
                }
            }
        }
        fiber = fiber.saturating_add(1);
    }
    let goals = goal_at(alloc, rows.len(), begins)?;
    match shortest(alloc, rows, inside, at, goals.as_slice())? {
        None => Ok(None),
        Some(found) => {
            append(&mut cycle, found.schedule.as_slice())?;
            Ok(Some(cycle))
        }
    }
}

// The number of fibers that are born at a world.
fn many_at(rows: &[Row], world: u32) -> usize {
    match rows.get(world as usize) {
        None => 0,
        Some(row) => row.edges.len(),
    }
}

// Whether the entry of a fiber at a world can change something.
fn moves(rows: &[Row], world: u32, fiber: u16) -> bool {
    match edge_at(rows, world, fiber) {
        None => false,
        Some(edge) => !is_idle(edge, world, fiber),
    }
}

// The step of a fiber at a world, if the fiber is born.
fn edge_at(rows: &[Row], world: u32, fiber: u16) -> Option<&Edge> {
    let row = rows.get(world as usize)?;
    row.edges.get(usize::from(fiber))
}

// Returns flags in which only this world is set.
fn goal_at(alloc: Global, many: usize, world: u32) -> Result<Vec<bool>, AllocError> {
    let mut goals = flags_of(alloc, many, false)?;
    set_flag(&mut goals, world, true);
    Ok(goals)
}

// The shortest schedule within a component whose last step makes an entry of this fiber.
fn entry_of(
    alloc: Global,
    rows: &[Row],
    components: &[u32],
    inside: &[bool],
    from: u32,
    fiber: u16,
) -> Result<Option<Path>, AllocError> {
    let mut goals = Vec::new(alloc);
    let mut world: u32 = 0;
    for is_member in inside {
        goals.push(*is_member && makes_within(rows, components, world, fiber).is_some())?;
        world = world.saturating_add(1);
    }
    match shortest(alloc, rows, inside, from, goals.as_slice())? {
        None => Ok(None),
        Some(found) => with_entry(rows, components, found, fiber),
    }
}

// Adds the step that makes an entry of this fiber to a schedule.
fn with_entry(
    rows: &[Row],
    components: &[u32],
    found: Path,
    fiber: u16,
) -> Result<Option<Path>, AllocError> {
    let Path { mut schedule, end } = found;
    match makes_within(rows, components, end, fiber) {
        None => Ok(None),
        Some(by) => match target_at(rows, end, by) {
            None => Ok(None),
            Some(to) => {
                schedule.push(by)?;
                Ok(Some(Path { schedule, end: to }))
            }
        },
    }
}

// Adds entries to a schedule.
fn append(schedule: &mut Vec<u16>, more: &[u16]) -> Result<(), AllocError> {
    for fiber in more {
        schedule.push(*fiber)?;
    }
    Ok(())
}

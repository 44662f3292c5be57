//! Shortest schedules along a table.

use crate::table::{FAULT, Row};
use std::alloc::{AllocError, Global};

// How a world was met.
#[derive(Clone, Copy)]
struct Step {
    met: bool,
    from: u32,
    fiber: u16,
}

// The state of a search.
#[derive(Drop)]
struct Search {
    steps: Vec<Step>,
    queue: Vec<u32>,
}

/// A schedule, and the world to which it leads.
#[derive(Drop)]
pub struct Path {
    /// The fibers whose steps are made, in turn.
    pub schedule: Vec<u16>,
    /// The number of the world.
    pub end: u32,
}

/// The shortest schedule from a world to one of the goals, through allowed worlds. `None` if there is none.
pub fn shortest(
    alloc: Global,
    rows: &[Row],
    allowed: &[bool],
    from: u32,
    goals: &[bool],
) -> Result<Option<Path>, AllocError> {
    let mut search = Search {
        steps: unmet(alloc, rows.len())?,
        queue: Vec::new(alloc),
    };
    search.meet(from, from, 0)?;
    for place in 0..rows.len() {
        match search.queue.get(place).copied() {
            None => return Ok(None),
            Some(world) => {
                if is_set(goals, world) {
                    let schedule = search.back(alloc, from, world)?;
                    return Ok(Some(Path {
                        schedule,
                        end: world,
                    }));
                }
                search.spread(rows, allowed, world)?;
            }
        }
    }
    Ok(None)
}

// Returns the steps to `many` worlds, none of which was met.
fn unmet(alloc: Global, many: usize) -> Result<Vec<Step>, AllocError> {
    let mut steps = Vec::new(alloc);
    for _ in 0..many {
        steps.push(Step {
            met: false,
            from: 0,
            fiber: 0,
        })?;
    }
    Ok(steps)
}

/// Whether the flag of a world is set.
pub fn is_set(flags: &[bool], world: u32) -> bool {
    match flags.get(world as usize) {
        Some(flag) => *flag,
        None => false,
    }
}

/// Returns `many` flags that are all `flag`.
pub fn flags_of(alloc: Global, many: usize, flag: bool) -> Result<Vec<bool>, AllocError> {
    let mut flags = Vec::new(alloc);
    for _ in 0..many {
        flags.push(flag)?;
    }
    Ok(flags)
}

/// Sets the flag of a world, if there is one.
pub fn set_flag(flags: &mut Vec<bool>, world: u32, flag: bool) {
    let place = world as usize;
    if place < flags.len() {
        flags[place] = flag;
    }
}

impl Search {
    // Meets a world, if it wasn't met before.
    fn meet(&mut self, world: u32, from: u32, fiber: u16) -> Result<(), AllocError> {
        let place = world as usize;
        if place >= self.steps.len() || self.steps[place].met {
            return Ok(());
        }
        self.steps[place] = Step {
            met: true,
            from,
            fiber,
        };
        self.queue.push(world)?;
        Ok(())
    }

    // Meets the allowed worlds to which the steps at a world lead.
    fn spread(&mut self, rows: &[Row], allowed: &[bool], world: u32) -> Result<(), AllocError> {
        if let Some(row) = rows.get(world as usize) {
            let mut fiber: u16 = 0;
            for edge in row.edges.as_slice() {
                let to = edge.target;
                if to != FAULT && is_set(allowed, to) {
                    self.meet(to, world, fiber)?;
                }
                fiber = fiber.saturating_add(1);
            }
        }
        Ok(())
    }

    // The steps that led from one world to the other.
    fn back(&self, alloc: Global, from: u32, to: u32) -> Result<Vec<u16>, AllocError> {
        let mut schedule = Vec::new(alloc);
        let mut at = to;
        for _ in 0..self.steps.len() {
            if at == from {
                break;
            }
            match self.steps.get(at as usize) {
                None => break,
                Some(step) => {
                    schedule.push(step.fiber)?;
                    at = step.from;
                }
            }
        }
        schedule.reverse();
        Ok(schedule)
    }
}

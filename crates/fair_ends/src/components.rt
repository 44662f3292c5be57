//! The strongly connected components of a table, by Tarjan's algorithm.

use crate::table::{FAULT, Row};
use std::alloc::{AllocError, Global};

/// The component of a world that is in none yet.
pub const NONE: u32 = u32::MAX;

// A world whose entries are being followed, and the fiber whose entry is next.
#[derive(Clone, Copy)]
struct Call {
    world: u32,
    fiber: u32,
}

// The state of a search. A world that wasn't met has the order 0.
#[derive(Drop)]
struct Search {
    orders: Vec<u32>,
    lows: Vec<u32>,
    components: Vec<u32>,
    stack: Vec<u32>,
    calls: Vec<Call>,
    met: u32,
    closed: u32,
}

/// Returns the number of each world's component. Entries that leave a component lead to lower numbers.
pub fn components_of(alloc: Global, rows: &[Row]) -> Result<Vec<u32>, AllocError> {
    let mut search = Search {
        orders: filled(alloc, rows.len(), 0)?,
        lows: filled(alloc, rows.len(), 0)?,
        components: filled(alloc, rows.len(), NONE)?,
        stack: Vec::new(alloc),
        calls: Vec::new(alloc),
        met: 0,
        closed: 0,
    };
    search.visit(0)?;
    for _step in 0..steps_of(rows) {
        if !search.go_on(rows)? {
            return Ok(search.components);
        }
    }
    Ok(search.components)
}

/// Returns a list of `many` times this number.
pub fn filled(alloc: Global, many: usize, number: u32) -> Result<Vec<u32>, AllocError> {
    let mut numbers = Vec::new(alloc);
    for _ in 0..many {
        numbers.push(number)?;
    }
    Ok(numbers)
}

// At least the steps of a search: one for each entry, one for each world, and one more.
fn steps_of(rows: &[Row]) -> usize {
    let mut steps: usize = 1;
    for row in rows {
        steps = steps.saturating_add(row.edges.len()).saturating_add(1);
    }
    steps
}

/// The number at a place, or `other` if there is none.
pub fn number_at(numbers: &[u32], place: u32, other: u32) -> u32 {
    match numbers.get(place as usize) {
        Some(number) => *number,
        None => other,
    }
}

/// Sets the number at a place, if there is one.
pub fn set_at(numbers: &mut Vec<u32>, place: u32, number: u32) {
    if (place as usize) < numbers.len() {
        numbers[place as usize] = number;
    }
}

impl Search {
    // Meets a world.
    fn visit(&mut self, world: u32) -> Result<(), AllocError> {
        self.met = self.met.saturating_add(1);
        set_at(&mut self.orders, world, self.met);
        set_at(&mut self.lows, world, self.met);
        self.stack.push(world)?;
        self.calls.push(Call { world, fiber: 0 })?;
        Ok(())
    }

    // Makes one step. Returns whether there was one.
    fn go_on(&mut self, rows: &[Row]) -> Result<bool, AllocError> {
        match self.calls.pop() {
            None => Ok(false),
            Some(call) => {
                self.go_on_at(rows, call)?;
                Ok(true)
            }
        }
    }

    // Follows the next entry at a world, or leaves the world after its last entry.
    fn go_on_at(&mut self, rows: &[Row], call: Call) -> Result<(), AllocError> {
        match target_of(rows, call) {
            None => {
                self.leave(call.world);
                Ok(())
            }
            Some(to) => {
                self.calls.push(Call {
                    world: call.world,
                    fiber: call.fiber.saturating_add(1),
                })?;
                self.meet(call.world, to)
            }
        }
    }

    // Follows an entry from one world to another, or to a fault.
    fn meet(&mut self, from: u32, to: u32) -> Result<(), AllocError> {
        if to == FAULT {
            return Ok(());
        }
        let order = number_at(self.orders.as_slice(), to, 1);
        if order == 0 {
            return self.visit(to);
        }
        if number_at(self.components.as_slice(), to, 0) == NONE {
            self.lower(from, order);
        }
        Ok(())
    }

    // Leaves a world after its last entry.
    fn leave(&mut self, world: u32) {
        let low = number_at(self.lows.as_slice(), world, 0);
        if low == number_at(self.orders.as_slice(), world, 0) {
            self.close(world);
        }
        let parent = self.calls.as_slice().last().copied();
        if let Some(call) = parent {
            self.lower(call.world, low);
        }
    }

    // Notes that entries lead from this world to one of this order.
    fn lower(&mut self, world: u32, order: u32) {
        if order < number_at(self.lows.as_slice(), world, 0) {
            set_at(&mut self.lows, world, order);
        }
    }

    // Makes a component of the worlds on the stack, down to this one.
    fn close(&mut self, world: u32) {
        let number = self.closed;
        self.closed = self.closed.saturating_add(1);
        for _ in 0..self.stack.len() {
            match self.stack.pop() {
                None => return,
                Some(it) => {
                    set_at(&mut self.components, it, number);
                    if it == world {
                        return;
                    }
                }
            }
        }
    }
}

// Where the entry of a fiber at a world leads, if there is one.
fn target_of(rows: &[Row], call: Call) -> Option<u32> {
    let row = rows.get(call.world as usize)?;
    let edge = row.edges.get(call.fiber as usize)?;
    Some(edge.target)
}

//! The parts of a running fiber: frames, the leaf, the waiting finalizers.

ghost use Rattle.std.specs.Prelude.{◌≡◌};
ghost use Rattle.derived_ops.specs.Cores.{value_in_core};
ghost use Rattle.fiber_frames.specs.Frames.{handle_of};
ghost use Rattle.fiber_frames.specs.Leaf.{handle_held, value_held};
ghost use Rattle.fiber_frames.specs.Rows.{handle_number, number_of};

use crate::kind::WordKind;
use crate::operand::{Handle, Mask};
use derived_ops::{Operand, Rest};
use effect_term::{Outcome, Value};
use std::mem::size_of;

/// What is done with the result of what runs inside the frame. A place in the table comes with its level, the number of
/// binders around it; for `let` and `handle` it is the level of the form.
#[derive(Clone, Copy)]
pub(crate) enum Frame {
    /// The word that runs after a value, which it binds.
    Let(usize, usize),
    /// The next part of a sequence.
    Seq(Rest, usize, usize),
    /// The body of a loop with this many turns left.
    Again(u32, usize, usize),
    /// The next turn of an endless loop, which is this word.
    Forever(usize, usize),
    /// The word that runs after an error, whose code it binds.
    Handle(usize, usize),
    /// The finalizer of what runs inside.
    Guarded(usize, usize),
    /// A poll that undid no mask.
    Idle(Mask),
    /// The mask of this number.
    Masked(u64),
    /// A poll that undid the fiber's own mask of this number.
    Polled(u64),
}

const _: () = prove!(size_of::<Frame>() == 24);

/// A waiting finalizer: its word and its level.
#[derive(Clone, Copy)]
pub(crate) struct Pending {
    pub index: usize,
    pub level: usize,
}

/// The place of the next move: its kind, and the fields, as far as the kind uses them.
#[derive(Clone, Copy)]
pub(crate) struct Place {
    pub kind: WordKind,
    /// Whether the value, or the fiber, is unbound: `part` is then the slot of its binder.
    pub open: bool,
    /// The ref, or the fiber of the `cancel`.
    pub handle: u16,
    /// The body of the loop, or the slot.
    pub part: u32,
    /// The word, or the number of turns left.
    pub index: usize,
    /// The level of the word, or of the body.
    pub level: usize,
    /// The value, the error's code, or the ref's first value.
    pub number: Value,
}

impl Place {
    /// Makes this the value.
    #[inline(always)]
    pub(crate) fn put_value(&mut self, value: Operand)
        ensures value { value_held self.new ≡ value }
        ensures kind { self.new.kind ≡ self.old.kind }
        ensures handle { self.new.handle ≡ self.old.handle }
    {
        match value {
            Operand::Number(number) => {
                self.open = false;
                self.number = number;
            }
            Operand::Slot(slot) => {
                self.open = true;
                self.part = slot;
            }
        }
    }

    /// Makes this the fiber.
    #[inline(always)]
    pub(crate) fn put_fiber(&mut self, fiber: Handle)
        ensures fiber { handle_held self.new ≡ fiber }
        ensures kind { self.new.kind ≡ self.old.kind }
    {
        match fiber {
            Handle::Known(number) => {
                self.open = false;
                self.handle = number;
            }
            Handle::Slot(slot) => {
                self.open = true;
                self.part = slot;
            }
        }
    }

    /// The number of the value, for a closed term.
    #[inline(always)]
    pub(crate) fn number(&self) -> Value
        ensures { result ≡ number_of (value_in_core (value_held self.now)) }
    {
        if self.open { Value::ZERO } else { self.number }
    }

    /// The number of the fiber, for a closed term.
    #[inline(always)]
    pub(crate) fn fiber(&self) -> u16
        ensures { result ≡ handle_number (handle_of (handle_held self.now)) }
    {
        if self.open { 0 } else { self.handle }
    }
}

/// How far a fiber has come.
#[derive(Clone, Copy)]
pub(crate) enum RunStage {
    /// At the program's term.
    Runs,
    /// After a cut, in a finalizer, in the mask of this number.
    Final(u64),
    /// After a cut, in the mask of this number, with no finalizer left.
    Drained(u64),
    /// Ended, with this outcome.
    Over(Outcome),
    /// Broken: memory for a move was refused.
    Broken,
}

/// What the runner of the fiber learns of a row.
#[derive(Clone, Copy)]
pub(crate) enum RowEnd {
    Plain,
    Waited,
    Ceded,
    /// A child that begins at this word, and its level.
    Born(usize, usize),
    Ended(Outcome),
}

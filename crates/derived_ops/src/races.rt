//! The expansions of the words that run two fibers, `race` and `both`, apart from their parts.
//!
//! The words of a term are written from the last to the first. What is written between parts is not inlined, so what it
//! holds takes no room on the stack below them.

ghost use Rattle.std.specs.Prelude.{◌≡◌, ◌+◌, ◌<◌, ◌^◌, ◌∷◌, pos, OnOk};
ghost use Rattle.derived_ops.specs.Expansion.{awaits, both_outcome, both_side, both_values, cancels_both, ended};
ghost use Rattle.derived_ops.specs.Expansion.{gives_up, race_outcome, race_side, race_winner};
ghost use Rattle.derived_ops.specs.declared.core_term.Action.TheVariants as action;
ghost use Rattle.derived_ops.specs.declared.core_term.Maker.TheVariants as maker;
ghost use Rattle.derived_ops.specs.declared.core_term.Operand.TheVariants as operand;
ghost use Rattle.derived_ops.specs.declared.core_word.CoreWord.TheVariants as word;
ghost use Rattle.derived_ops.specs.declared.core_word.Rest.TheVariants as rest;
ghost use Rattle.derived_ops.specs.Private.Writing.{before, distance, size};

use crate::core_term::{Action, Maker, Operand};
use crate::core_word::{CoreWord, Rest};
use crate::writer::Writer;
use effect_term::Value;
use std::alloc::AllocError;

impl Writer {
    // Waits for the end of the fiber, whatever its outcome.
    fn ended(&mut self, fiber: u32) -> Result<(), AllocError>
        ensures { OnOk result (self.new ≡ before (ended 0 fiber) self.old) }
    {
        self.put_all(&[
            CoreWord::Pure(Operand::Number(Value::ZERO)),
            CoreWord::Pure(Operand::Number(Value::ZERO)),
            CoreWord::Pure(Operand::Number(Value::ZERO)),
            CoreWord::Join(fiber, 1, 2),
        ])
    }

    // Both sides were canceled: observes a request for its own cancellation, or waits without end.
    fn gives_up(&mut self, poll: u32) -> Result<(), AllocError>
        ensures { OnOk result (self.new ≡ before (gives_up poll) self.old) }
    {
        self.put_all(&[
            CoreWord::Act(Action::Never),
            CoreWord::Act(Action::Canceled),
            CoreWord::Poll(poll),
            CoreWord::Seq(Rest::Last, 2),
        ])
    }

    // Cancels both sides at once, each from a fiber of its own, and waits for both.
    fn cancels_both(&mut self, poll: u32) -> Result<(), AllocError>
        requires { poll + 6 < 2 ^ 32 }
        ensures { OnOk result (self.new ≡ before (cancels_both poll) self.old) }
    {
        self.ended(poll + 5)?;
        self.ended(poll + 4)?;
        self.put_all(&[
            CoreWord::Seq(Rest::Last, 4),
            CoreWord::Cancel(poll + 3),
            CoreWord::Start(1),
            CoreWord::Cancel(poll + 2),
            CoreWord::Start(1),
        ])
    }

    // Waits inside the poll for the side that ends first, and cancels both if the wait is cut.
    fn race_winner(&mut self, poll: u32) -> Result<(), AllocError>
        requires { poll + 6 < 2 ^ 32 }
        ensures { OnOk result (self.new ≡ before (race_winner poll) self.old) }
    {
        self.cancels_both(poll)?;
        self.put_all(&[
            CoreWord::Act(Action::Await(poll + 1)),
            CoreWord::Poll(poll),
            CoreWord::OnCancel(2),
        ])
    }

    /// Binds the winner of the race in the words written so far; the race is inside the poll.
    #[inline(never)]
    pub(crate) fn decided(&mut self, poll: u32) -> Result<(), AllocError>
        requires { poll + 6 < 2 ^ 32 }
        ensures { OnOk result (self.new ≡ word.Let (distance (size (race_winner poll))) ∷
            before (race_winner poll) self.old) }
    {
        let last = self.len();
        self.race_winner(poll)?;
        let winner = self.distance(last);
        self.put(CoreWord::Let(winner))
    }

    // Waits for the fiber inside the poll, cancels it if the wait is cut, and goes on with the words written so far.
    fn awaits(&mut self, poll: u32, fiber: u32) -> Result<(), AllocError>
        ensures { OnOk result (self.new ≡ word.Seq rest.Last (distance (size (awaits poll 0 fiber))) ∷
            before (awaits poll 0 fiber) self.old) }
    {
        self.put(CoreWord::Cancel(fiber))?;
        self.ended(fiber)?;
        self.put_all(&[
            CoreWord::Poll(poll),
            CoreWord::OnCancel(5),
            CoreWord::Seq(Rest::Last, 7),
        ])
    }

    // Cancels the fiber, and goes on with the words written so far.
    fn canceled_first(&mut self, fiber: u32) -> Result<(), AllocError>
        ensures { OnOk result (self.new ≡ word.Seq rest.Last 1 ∷ word.Cancel fiber ∷ self.old) }
    {
        self.put_all(&[CoreWord::Cancel(fiber), CoreWord::Seq(Rest::Last, 1)])
    }

    // The result of a race if `winner` has ended first.
    fn race_side(&mut self, poll: u32, slot: u32, winner: u32, loser: u32) -> Result<(), AllocError>
        ensures { OnOk result (self.new ≡ before (race_side poll slot winner loser) self.old) }
    {
        self.gives_up(poll)?;
        self.put_all(&[
            CoreWord::Raise(Operand::Slot(slot)),
            CoreWord::Pure(Operand::Slot(slot)),
            CoreWord::Join(loser, 1, 2),
        ])?;
        self.awaits(poll, loser)?;
        self.put(CoreWord::Raise(Operand::Slot(slot)))?;
        self.canceled_first(loser)?;
        self.put(CoreWord::Pure(Operand::Slot(slot)))?;
        self.canceled_first(loser)?;
        self.put(CoreWord::Join(winner, 3, 6))
    }

    /// The result of a race, by its winner.
    #[inline(never)]
    pub(crate) fn race_outcome(&mut self, poll: u32) -> Result<(), AllocError>
        requires { poll + 6 < 2 ^ 32 }
        ensures { OnOk result (self.new ≡ before (race_outcome poll) self.old) }
    {
        // Each side has 22 words.
        self.race_side(poll, poll + 5, poll + 3, poll + 2)?;
        self.race_side(poll, poll + 5, poll + 2, poll + 3)?;
        self.put(CoreWord::If0(Operand::Slot(poll + 4), 22))
    }

    // Waits for the other fiber's value, and gives the value in the slot `first`, once the value in the slot
    // `second` is in the ref.
    fn both_values(
        &mut self,
        poll: u32,
        kept: u32,
        slot: u32,
        other: u32,
        second: u32,
        first: u32,
    ) -> Result<(), AllocError>
        ensures { OnOk result (self.new ≡ before (both_values poll kept slot other second first) self.old) }
    {
        self.gives_up(poll)?;
        self.put_all(&[
            CoreWord::Raise(Operand::Slot(slot)),
            CoreWord::Pure(Operand::Slot(first)),
            CoreWord::Act(Action::Set(kept, Operand::Slot(second))),
            CoreWord::Seq(Rest::Last, 1),
            CoreWord::Join(other, 3, 4),
        ])?;
        self.awaits(poll, other)
    }

    // The result of `both` if `early` has ended first: the value in the slot `first`, once the value in the slot
    // `second` is in the ref.
    fn both_side(
        &mut self,
        poll: u32,
        kept: u32,
        slot: u32,
        early: u32,
        late: u32,
        second: u32,
        first: u32,
    ) -> Result<(), AllocError>
        requires { slot + 1 < 2 ^ 32 }
        ensures { OnOk result (self.new ≡ before (both_side poll kept slot early late second first) self.old) }
    {
        self.gives_up(poll)?;
        self.canceled_first(late)?;
        self.put(CoreWord::Raise(Operand::Slot(slot)))?;
        self.canceled_first(late)?;
        self.both_values(poll, kept, slot + 1, late, second, first)?;
        self.put(CoreWord::Join(early, 17, 20))
    }

    /// The result of `both`, by its winner.
    #[inline(never)]
    pub(crate) fn both_outcome(&mut self, poll: u32, kept: u32) -> Result<(), AllocError>
        requires { poll + 6 < 2 ^ 32 }
        ensures { OnOk result (self.new ≡ before (both_outcome poll kept) self.old) }
    {
        let (a, b) = (poll + 2, poll + 3);
        let (own, other) = (poll + 5, poll + 6);
        self.both_side(poll, kept, own, b, a, own, other)?;
        let last = self.len();
        self.both_side(poll, kept, own, a, b, other, own)?;
        let first = self.distance(last);
        self.put(CoreWord::If0(Operand::Slot(poll + 4), first))
    }

    /// Binds the value of the ref in the words written so far.
    #[inline(never)]
    pub(crate) fn get_bound(&mut self, slot: u32) -> Result<(), AllocError>
        ensures { OnOk result (self.new ≡ word.Let 1 ∷ word.Act (action.Get slot) ∷ self.old) }
    {
        self.put_all(&[CoreWord::Act(Action::Get(slot)), CoreWord::Let(1)])
    }

    /// Makes a ref that holds 0 for the words written so far: a first term of `first` words, and a second one that
    /// binds its value.
    #[inline(never)]
    pub(crate) fn made_let(&mut self, first: u32) -> Result<(), AllocError>
        ensures { OnOk result (self.new ≡ word.Make (maker.Ref (operand.Number (pos 0))) ∷ word.Let first ∷ self.old) }
    {
        self.put_all(&[
            CoreWord::Let(first),
            CoreWord::Make(Maker::Ref(Operand::Number(Value::ZERO))),
        ])
    }
}

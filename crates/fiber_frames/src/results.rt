//! The rows of results: how a value or an error leaves the form around it.

ghost use Rattle.std.specs.Prelude.{◌≡◌, length, OnOk, OnErr, IfOk};
ghost use Rattle.effect_term.specs.declared.reply.Outcome.TheVariants as outcomes;
ghost use Rattle.fiber_frames.specs.declared.frame.Frame.TheVariants as frames;
ghost use Rattle.fiber_frames.specs.declared.kind.WordKind.TheVariants as kinds;
ghost use Rattle.derived_ops.specs.Cores.{value_in_core};
ghost use Rattle.fiber_frames.specs.Leaf.{value_held};
ghost use Rattle.fiber_frames.specs.Rows.{number_of};
ghost use Rattle.fiber_frames.specs.Frames.{Levels, Under};
ghost use Rattle.fiber_frames.specs.Machine.{over, passed, given, thrown, value_at_root, root_row_end, went};
ghost use Rattle.fiber_frames.specs.Machine.{error_row, result_row_end};
ghost use Rattle.fiber_frames.specs.Machines.{state_of, Kept, KeptWhere};

use crate::env::{EnvEntry, rebind};
use crate::frame::{Frame, RowEnd, RunStage};
use crate::kind::WordKind;
use crate::machine::Machine;
use crate::mark::Mark;
use crate::stack::push;
use effect_term::Outcome;
use std::alloc::AllocError;

impl Machine {
    /// Ends the fiber with this outcome. The memory of its stacks is freed at once, for fibers that begin later; its
    /// marks stay.
    #[inline(never)]
    pub(crate) fn end(&mut self, outcome: Outcome)
        ensures { state_of self.new ≡ over (state_of self.old) outcome }
    {
        let alloc = *self.env.allocator();
        self.stage = RunStage::Over(outcome);
        self.frames = Vec::new(alloc);
        self.masks = Vec::new(alloc);
        self.env = Vec::new(alloc);
        self.finalizers = Vec::new(alloc);
    }

    // The result leaves the mask of this number; its frame is removed.
    #[tactic(auto, using(crate::proofs::Reversing::reverse_push))]
    #[inline(never)]
    fn leave_mask(&mut self, number: u64) -> Result<(), AllocError>
        ensures state { OnOk result (state_of self.new ≡
            passed (state_of self.old) (state_of self.old).leaf (frames.Masked number)) }
        ensures kept { OnErr result (Kept self.old self.new) }
    {
        let _ = self.masks.pop();
        self.note(Mark::Leave(number))
    }

    // The result leaves the poll that undid the mask of this number; its frame is removed.
    #[tactic(auto, using(crate::proofs::Reversing::reverse_push))]
    #[inline(never)]
    fn leave_poll(&mut self, number: u64) -> Result<(), AllocError>
        ensures state { OnOk result (state_of self.new ≡
            passed (state_of self.old) (state_of self.old).leaf (frames.Polled number)) }
        ensures kept { OnErr result (Kept self.old self.new) }
    {
        push(&mut self.masks, number)?;
        self.note(Mark::PollOut(number))
    }

    /// Gives the value at the leaf to this frame, which is removed. Returns the word that runs next, if there is one.
    #[inline(always)]
    pub(crate) fn give_under(&mut self, frame: Frame) -> Result<Option<(usize, usize)>, AllocError>
        requires value { self.old.place.kind ≡ kinds.Value }
        requires level { Levels frame (length self.old.env.items) }
        ensures state { IfOk result (λ next. went (state_of self.new) next ≡
            given (state_of self.old) (value_held self.old.place) frame) }
        ensures goes { IfOk result (λ next. KeptWhere next self.old self.new) }
        ensures kept { OnErr result (Kept self.old self.new) }
    {
        match frame {
            Frame::Seq(_, next, level) => return Ok(Some((next, level))),
            Frame::Let(next, level) => {
                let value = self.place.number();
                // Except for the first time, something is bound at the level.
                if level < self.env.len() {
                    rebind(&mut self.env, level, EnvEntry::Value(value));
                    return Ok(Some((next, level + 1)));
                }
                self.go_below_value(next, level, value)?;
            }
            Frame::Again(body, turns, level) => {
                self.place.kind = WordKind::Turns;
                self.place.index = turns;
                self.place.part = body;
                self.place.level = level;
            }
            Frame::Forever(index, level) => self.stand(WordKind::Always, index, level),
            Frame::Handle(_, _) | Frame::Guarded(_, _) | Frame::Idle(_) => {}
            Frame::Masked(number) => self.leave_mask(number)?,
            Frame::Polled(number) => self.leave_poll(number)?,
        }
        Ok(None)
    }

    // Gives the error at the leaf to this frame, which is removed.
    #[inline(always)]
    fn throw_under(&mut self, frame: Frame) -> Result<(), AllocError>
        requires error { self.old.place.kind ≡ kinds.Error }
        requires level { Levels frame (length self.old.env.items) }
        ensures state { OnOk result (state_of self.new ≡ thrown (state_of self.old) (value_held self.old.place) frame) }
        ensures kept { OnErr result (Kept self.old self.new) }
    {
        let code = self.place.number();
        match frame {
            Frame::Handle(next, level) => self.go_below_value(next, level, code),
            Frame::Let(_, _) | Frame::Seq(_, _, _) | Frame::Again(_, _, _) => Ok(()),
            Frame::Forever(_, _) | Frame::Guarded(_, _) | Frame::Idle(_) => Ok(()),
            Frame::Masked(number) => self.leave_mask(number),
            Frame::Polled(number) => self.leave_poll(number),
        }
    }

    /// The row of a value at the leaf, with no frame around it.
    #[inline(always)]
    pub(crate) fn value_at_root(&mut self) -> Result<RowEnd, AllocError>
        ensures state { OnOk result (state_of self.new ≡ value_at_root (state_of self.old) (value_held self.old.place)
            self.old.stage) }
        ensures row_end { IfOk result (λ it. it ≡
            root_row_end (outcomes.Succeeded (number_of (value_in_core (value_held self.old.place)))) self.old.stage) }
        ensures kept { OnErr result (Kept self.old self.new) }
    {
        if let RunStage::Final(mask) = self.stage {
            self.begin_finalizer(mask)?;
            return Ok(RowEnd::Plain);
        }
        let number = self.place.number();
        self.end(Outcome::Succeeded(number));
        Ok(RowEnd::Ended(Outcome::Succeeded(number)))
    }

    // What the runner learns of the row of this result.
    #[tactic(auto, using(crate::proofs::Reversing::reverse_push))]
    #[inline(always)]
    fn result_row_end(&self, outcome: Outcome) -> RowEnd
        ensures { result ≡ result_row_end outcome self.now.stage (state_of self.now).frames }
    {
        if self.frames.last().is_some() {
            return RowEnd::Plain;
        }
        match self.stage {
            RunStage::Final(_) => RowEnd::Plain,
            RunStage::Runs | RunStage::Drained(_) | RunStage::Over(_) | RunStage::Broken => {
                RowEnd::Ended(outcome)
            }
        }
    }

    // The error at the leaf leaves the form around it, or ends the fiber.
    #[tactic(auto, using(crate::proofs::Reversing::reverse_push))]
    #[inline(never)]
    fn throw(&mut self) -> Result<(), AllocError>
        requires error { self.old.place.kind ≡ kinds.Error }
        requires under { Under (length self.old.env.items) (state_of self.old).frames }
        ensures state { OnOk result (state_of self.new ≡ error_row (state_of self.old) (value_held self.old.place)
            (state_of self.old).frames) }
        ensures kept { OnErr result (Kept self.old self.new) }
    {
        let code = self.place.number();
        if let Some(frame) = self.frames.pop() {
            return self.throw_under(frame);
        }
        if let RunStage::Final(mask) = self.stage {
            self.begin_finalizer(mask)?;
            return self.note(Mark::Dropped(code));
        }
        self.end(Outcome::Errored(code));
        Ok(())
    }

    /// The row of an error at the leaf.
    #[inline(always)]
    pub(crate) fn error_row(&mut self) -> Result<RowEnd, AllocError>
        requires error { self.old.place.kind ≡ kinds.Error }
        requires under { Under (length self.old.env.items) (state_of self.old).frames }
        ensures state { OnOk result (state_of self.new ≡ error_row (state_of self.old) (value_held self.old.place)
            (state_of self.old).frames) }
        ensures row_end { IfOk result (λ it. it ≡
            result_row_end (outcomes.Errored (number_of (value_in_core (value_held self.old.place))))
            (state_of self.old).stage (state_of self.old).frames) }
        ensures kept { OnErr result (Kept self.old self.new) }
    {
        let row_end = self.result_row_end(Outcome::Errored(self.place.number()));
        self.throw()?;
        Ok(row_end)
    }
}

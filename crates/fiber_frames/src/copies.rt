//! Copies of a fiber, and whether two fibers are equal.

ghost use Rattle.std.specs.Prelude.{◌≡◌, List, true, IfOk};
ghost use Rattle.fiber_frames.specs.declared.env.EnvEntry.{EnvEntry};
ghost use Rattle.fiber_frames.specs.Frames.{Sound, finalizer_of, leaf_of, step_of};
ghost use Rattle.fiber_frames.specs.Leaf.{handle_held, leaf_in, value_held};
ghost use Rattle.fiber_frames.specs.Machines.{IsOver, NamesParts, SameCourse, SameParts, fiber_in, state_of};
ghost use Rattle.fiber_frames.specs.SlotNames.{Names};

use crate::frame::{Frame, Pending, Place, RunStage};
use crate::kind::WordKind;
use crate::machine::Machine;
use crate::sameness::{Digest, Same, mixed, mixed_items, same_items};
use crate::slots::{mixed_at, same_at};
use std::alloc::{AllocError, Global};
use std::sync::Arc;

impl Machine {
    /// A copy of the fiber, or `AllocError` if memory is refused.
    pub(crate) fn copy(&self, alloc: Global) -> Result<Machine, AllocError>
        requires { Sound (state_of self.now) }
        ensures fiber { IfOk result (λ it. fiber_in it ≡ fiber_in self.now) }
        ensures sound { IfOk result (λ it. Sound (state_of it)) }
    {
        Ok(Machine {
            own: self.own,
            look: self.look,
            words: Arc::try_clone(&self.words)?,
            place: self.place,
            stage: self.stage,
            next: self.next,
            frames: Vec::from_slice(alloc, self.frames.as_slice())?,
            masks: Vec::from_slice(alloc, self.masks.as_slice())?,
            env: Vec::from_slice(alloc, self.env.as_slice())?,
            finalizers: Vec::from_slice(alloc, self.finalizers.as_slice())?,
            marks: Vec::from_slice(alloc, self.marks.as_slice())?,
        })
    }

    // Whether the fiber has ended.
    fn is_over(&self) -> bool
        ensures { result ≡ true → IsOver self.now.stage }
    {
        matches!(self.stage, RunStage::Over(_))
    }

    /// Whether two fibers are equal, as far as their stored parts show. Entries at slots that they can't name any more
    /// can differ.
    #[tactic(auto, using(crate::proofs::SameFibers::same_over, crate::proofs::SameFibers::same_parts))]
    pub(crate) fn same(&self, other: &Machine) -> bool
        ensures { result ≡ true → fiber_in self.now ≡ fiber_in other.now }
    {
        if !self.has_same_course(other) {
            return false;
        }
        self.is_over() || self.has_same_parts(other)
    }

    // Whether the fibers have come equally far, with the same marks.
    fn has_same_course(&self, other: &Machine) -> bool
        ensures { result ≡ true → SameCourse self.now other.now }
    {
        self.own == other.own
            && self.next == other.next
            && self.look.same(&other.look)
            && self.stage.same(&other.stage)
            && same_items(self.marks.as_slice(), other.marks.as_slice())
    }

    // Whether the fibers run the same. The words are compared last, since they are the largest part.
    fn has_same_parts(&self, other: &Machine) -> bool
        ensures { result ≡ true → SameParts self.now other.now }
    {
        self.place.is_same_leaf(&other.place)
            && same_items(self.frames.as_slice(), other.frames.as_slice())
            && same_items(self.finalizers.as_slice(), other.finalizers.as_slice())
            && same_at(self.slots(), self.env.as_slice(), other.env.as_slice())
            && same_items(self.words.as_slice(), other.words.as_slice())
    }

    /// A hash, equal for fibers that are the [`same`](Machine::same).
    pub(crate) fn digest(&self) -> u64 {
        let digest = mixed(u64::from(self.own), self.next);
        let digest = self.stage.mixed_into(self.look.mixed_into(digest));
        let digest = mixed_items(digest, self.marks.as_slice());
        if self.is_over() {
            return digest;
        }
        let digest = self.place.mixed_into(digest);
        let digest = mixed_items(digest, self.frames.as_slice());
        mixed_at(digest, self.slots(), self.env.as_slice())
    }

    // The slots that the fiber still names.
    fn slots(&self) -> u64
        ensures { NamesParts result self.now }
    {
        let mut slots = self.leaf_slots();
        for frame in self.frames.as_slice() {
            slots |= self.frame_slots(*frame);
        }
        for it in self.finalizers.as_slice() {
            slots |= self.pending_slots(*it);
        }
        slots
    }

    // The slots that a finalizer names.
    fn pending_slots(&self, it: Pending) -> u64
        ensures { Names result (λ (es : List EnvEntry). finalizer_of self.now.words.value es it) }
    {
        self.words.slots(it.index, it.level)
    }

    // The slots that the leaf names.
    fn leaf_slots(&self) -> u64
        ensures { Names result (λ (es : List EnvEntry). leaf_of self.now.words.value es (leaf_in self.now.place)) }
    {
        match self.place.kind {
            WordKind::Value
            | WordKind::Error
            | WordKind::Request
            | WordKind::Ending
            | WordKind::Store => 0,
            WordKind::Turns => self.words.slots(self.place.part as usize, self.place.level),
            _ => self.words.slots(self.place.index, self.place.level),
        }
    }

    // The slots that a frame names.
    fn frame_slots(&self, frame: Frame) -> u64
        ensures { Names result (λ (es : List EnvEntry). step_of self.now.words.value es self.now.own frame) }
    {
        match frame {
            Frame::Let(index, level) => self.words.slots(index, level),
            Frame::Seq(_, index, level) => self.words.slots(index, level),
            Frame::Forever(index, level) => self.words.slots(index, level),
            Frame::Handle(index, level) => self.words.slots(index, level),
            Frame::Guarded(index, level) => self.words.slots(index, level),
            Frame::Again(index, _, level) => self.words.slots(index as usize, level),
            Frame::Masked(_) | Frame::Polled(_) | Frame::Idle(_) => 0,
        }
    }
}

impl Place {
    // Whether the two are the same leaf. Fields that their kind doesn't use can differ.
    fn is_same_leaf(&self, other: &Place) -> bool
        ensures { result ≡ true → leaf_in self.now ≡ leaf_in other.now }
    {
        if self.kind != other.kind {
            return false;
        }
        match self.kind {
            WordKind::Value | WordKind::Error => self.has_same_value(other),
            WordKind::Request | WordKind::Ending => self.has_same_fiber(other),
            WordKind::Store => self.handle == other.handle && self.has_same_value(other),
            WordKind::Turns => {
                self.index == other.index && self.part == other.part && self.level == other.level
            }
            _ => self.index == other.index && self.level == other.level,
        }
    }

    // Whether the values are the same.
    fn has_same_value(&self, other: &Place) -> bool
        ensures { result ≡ true → value_held self.now ≡ value_held other.now }
    {
        match (self.open, other.open) {
            (true, true) => self.part == other.part,
            (false, false) => self.number.same(&other.number),
            (true, false) | (false, true) => false,
        }
    }

    // Whether the fibers are the same.
    fn has_same_fiber(&self, other: &Place) -> bool
        ensures { result ≡ true → handle_held self.now ≡ handle_held other.now }
    {
        match (self.open, other.open) {
            (true, true) => self.part == other.part,
            (false, false) => self.handle == other.handle,
            (true, false) | (false, true) => false,
        }
    }
}

impl Digest for Place {
    fn mixed_into(&self, digest: u64) -> u64 {
        let digest = mixed(digest, self.kind as u64);
        match self.kind {
            WordKind::Value | WordKind::Error => {
                if self.open {
                    mixed(digest, u64::from(self.part))
                } else {
                    self.number.mixed_into(digest)
                }
            }
            WordKind::Request | WordKind::Ending | WordKind::Store => digest,
            WordKind::Turns => mixed(mixed(digest, self.index as u64), u64::from(self.part)),
            _ => mixed(mixed(digest, self.index as u64), self.level as u64),
        }
    }
}

//! Fibers without their marks, which are compared in place of fibers.

ghost use Rattle.std.specs.Prelude.{◌≡◌, ◌++◌, ◌∷◌, [], ℕ, map, true, IfOk, OnOk};
ghost use Rattle.effect_term.specs.declared.reply.Reply.{Reply};
ghost use Rattle.fiber_frames.specs.Fiber.{ask_of, child, move, outcome_of};
ghost use Rattle.fiber_frames.specs.Machines.{fiber_in};
ghost use Rattle.fiber_frames.specs.Shapes.{entry_placed, frame_placed, idle_placed, numbers_in, path_masks};
ghost use Rattle.fiber_frames.specs.Shapes.{stage_placed};
ghost use Rattle.fiber_frames.specs.Unmarked.{own_place, place_in as the_place, unmarked};

use crate::config::Config;
use crate::env::EnvEntry;
use crate::frame::{Frame, RunStage};
use crate::machine::Machine;
use crate::operand::Mask;
use effect_term::facts_of;
use std::alloc::{AllocError, Global};
use std::marker::Model;
use std::sync::Arc;

/// A fiber without its marks, where each mask that it can still undo has its place on the path for its number. Two
/// fibers of the same shape go on in the same way under any replies, but for the numbers of their masks.
#[derive(Drop)]
pub struct FiberShape {
    machine: Box<Machine>,
}

impl Model for FiberShape {
    ghost use Rattle.std.specs.Coded.{codes};
    ghost use Rattle.derived_ops.specs.Stored.{tree_code};
    ghost use Rattle.fiber_frames.specs.Fiber.{Fiber};
    ghost use Rattle.fiber_frames.specs.Machines.{fiber_in};
    ghost use Rattle.fiber_frames.specs.contracts.ask.Look as the_look;
    ghost use Rattle.fiber_frames.specs.contracts.mark.Mark as the_mark;

    ghost Value = { Fiber };

    ghost coded = { Prim.hlevel (codes, tree_code, the_look.the_row.coded, the_mark.the_row.coded) };

    ghost view = { λ c. fiber_in c.machine.value };
}

impl FiberShape {
    /// The shape of a fiber, or `AllocError` if memory is refused.
    ///
    /// The fiber and its shape ask for the same and have the same outcome, and after a move under any reply they have
    /// the same shape again, and so have their children.
    pub fn of(alloc: Global, fiber: &Config) -> Result<FiberShape, AllocError>
        ensures shape { IfOk result (λ it. it ≡ unmarked fiber.now) }
        ensures asks { IfOk result (λ it. ask_of it ≡ ask_of fiber.now) }
        ensures ends { IfOk result (λ it. outcome_of it ≡ outcome_of fiber.now) }
        ensures moves { IfOk result (λ it. (reply : Reply) →
            unmarked (move it reply) ≡ unmarked (move fiber.now reply)) }
        ensures children { IfOk result (λ it. (number : ℕ) →
            unmarked (child it number) ≡ unmarked (child fiber.now number)) }
    {
        facts_of(fiber.ask());
        let machine = Box::new(alloc, fiber.machine().shape(alloc)?)?;
        Ok(FiberShape { machine })
    }

    /// A hash: equal for shapes that are the [`same`](FiberShape::same), and seldom equal for others. The hash is for
    /// lookups, and nothing else is promised of it.
    pub fn digest(&self) -> u64 {
        self.machine.digest()
    }

    /// Whether two shapes are equal, as far as their stored parts show: `true` means that they are. The result can be
    /// `false` for two equal shapes that came about by different moves.
    pub fn same(&self, other: &FiberShape) -> bool
        ensures { result ≡ true → self.now ≡ other.now }
    {
        self.machine.same(&*other.machine)
    }
}

impl Machine {
    // The machine of the fiber without its marks.
    fn shape(&self, alloc: Global) -> Result<Machine, AllocError>
        ensures { IfOk result (λ it. fiber_in it ≡ unmarked (fiber_in self.now)) }
    {
        let path = masks_of(alloc, self.stage, self.frames.as_slice())?;
        let masks = path.as_slice();
        Ok(Machine {
            own: self.own,
            look: self.look,
            words: Arc::try_clone(&self.words)?,
            place: self.place,
            stage: place_stage(self.own, masks, self.stage),
            next: masks.len() as u64 + 1,
            frames: place_frames(alloc, self.own, masks, self.frames.as_slice())?,
            masks: Vec::new(alloc),
            env: place_entries(alloc, self.own, masks, self.env.as_slice())?,
            finalizers: Vec::from_slice(alloc, self.finalizers.as_slice())?,
            marks: Vec::new(alloc),
        })
    }
}

// The masks on the path of a fiber that has come so far, with these frames.
fn masks_of(alloc: Global, stage: RunStage, frames: &[Frame]) -> Result<Vec<u64>, AllocError>
    ensures { IfOk result (λ it. it.items ≡ path_masks stage frames.now) }
{
    let mut masks = Vec::new(alloc);
    match stage {
        RunStage::Runs => {
            add_masks(frames, &mut masks)?;
            Ok(masks)
        }
        RunStage::Final(first) => {
            masks.push(first)?;
            add_masks(frames, &mut masks)?;
            Ok(masks)
        }
        RunStage::Drained(first) => {
            masks.push(first)?;
            Ok(masks)
        }
        RunStage::Over(_) | RunStage::Broken => Ok(masks),
    }
}

// Adds the masks of frames.
fn add_masks(frames: &[Frame], masks: &mut Vec<u64>) -> Result<(), AllocError>
    ensures { OnOk result (masks.new.items ≡ masks.old.items ++ numbers_in frames.now) }
{
    for frame in frames {
        add_mask(*frame, &mut *masks)?;
    }
    Ok(())
}

// Adds the mask of a frame, if it is one.
fn add_mask(frame: Frame, masks: &mut Vec<u64>) -> Result<(), AllocError>
    ensures { OnOk result (masks.new.items ≡ masks.old.items ++ numbers_in (frame ∷ [])) }
{
    match frame {
        Frame::Masked(number) => masks.push(number)?,
        Frame::Let(_, _) | Frame::Seq(_, _, _) | Frame::Again(_, _, _) => {}
        Frame::Forever(_, _) | Frame::Handle(_, _) | Frame::Guarded(_, _) => {}
        Frame::Polled(_) | Frame::Idle(_) => {}
    }
    Ok(())
}

// The place of a mask of a fiber among these masks of the fiber `own`, counted from 1; 0 if it isn't one of them.
fn place_of(own: u16, masks: &[u64], fiber: u16, number: u64) -> u64
    ensures { result ≡ own_place own masks.now fiber number }
{
    if fiber != own {
        return 0;
    }
    place_in(masks, number)
}

// The place of a number among these, counted from 1; 0 if it isn't one of them.
fn place_in(masks: &[u64], number: u64) -> u64
    ensures { result ≡ the_place masks.now number }
{
    for (index, mask) in masks.iter().enumerate() {
        if *mask == number {
            return index as u64 + 1;
        }
    }
    0
}

// How far a fiber has come, with the place of its mask.
fn place_stage(own: u16, masks: &[u64], stage: RunStage) -> RunStage
    ensures { result ≡ stage_placed own masks.now stage }
{
    match stage {
        RunStage::Final(number) => RunStage::Final(place_of(own, masks, own, number)),
        RunStage::Drained(number) => RunStage::Drained(place_of(own, masks, own, number)),
        RunStage::Runs | RunStage::Over(_) | RunStage::Broken => stage,
    }
}

// Frames, with the places of their masks.
fn place_frames(
    alloc: Global,
    own: u16,
    masks: &[u64],
    frames: &[Frame],
) -> Result<Vec<Frame>, AllocError>
    ensures { IfOk result (λ it. it.items ≡ map (frame_placed own masks.now) frames.now) }
{
    let mut placed = Vec::with_capacity(alloc, frames.len())?;
    for frame in frames {
        placed.push(place_frame(own, masks, *frame))?;
    }
    Ok(placed)
}

// A frame, with the place of its mask.
fn place_frame(own: u16, masks: &[u64], frame: Frame) -> Frame
    ensures { result ≡ frame_placed own masks.now frame }
{
    match frame {
        Frame::Masked(number) => Frame::Masked(place_of(own, masks, own, number)),
        Frame::Polled(number) => Frame::Polled(place_of(own, masks, own, number)),
        Frame::Idle(mask) => Frame::Idle(place_idle(own, masks, mask)),
        Frame::Let(_, _) | Frame::Seq(_, _, _) | Frame::Again(_, _, _) => frame,
        Frame::Forever(_, _) | Frame::Handle(_, _) | Frame::Guarded(_, _) => frame,
    }
}

// The mask of a poll that undid none, with its place.
fn place_idle(own: u16, masks: &[u64], mask: Mask) -> Mask
    ensures { result ≡ idle_placed own masks.now mask }
{
    match mask {
        Mask::Named(slot) => Mask::Named(slot),
        Mask::Pair(fiber, number) => Mask::Pair(own, place_of(own, masks, fiber, number)),
    }
}

// Entries of an environment, with the places of their masks.
fn place_entries(
    alloc: Global,
    own: u16,
    masks: &[u64],
    env: &[EnvEntry],
) -> Result<Vec<EnvEntry>, AllocError>
    ensures { IfOk result (λ it. it.items ≡ map (entry_placed own masks.now) env.now) }
{
    let mut placed = Vec::with_capacity(alloc, env.len())?;
    for entry in env {
        placed.push(place_entry(own, masks, *entry))?;
    }
    Ok(placed)
}

// An entry, with the place of its mask.
fn place_entry(own: u16, masks: &[u64], entry: EnvEntry) -> EnvEntry
    ensures { result ≡ entry_placed own masks.now entry }
{
    match entry {
        EnvEntry::Mask(fiber, number) => {
            EnvEntry::Mask(own, place_of(own, masks, fiber, number))
        }
        EnvEntry::Value(_) | EnvEntry::Handle(_) => entry,
    }
}

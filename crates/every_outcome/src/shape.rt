//! The part of a world by which a search recognizes the world.
ghost use Rattle.std.specs.Prelude.{◌≡◌, ◌≢◌, IfOk, false, map, true};
ghost use Rattle.scheduled_core.specs.Fitting.{world_of};
ghost use Rattle.every_outcome.specs.Places.{marks_of, shown, unmarked_world, with_says};

use crate::says::kept_of;
use cell_registry::PlainRegistry;
use fiber_frames::{Config, FiberShape, Mark};
use std::alloc::{AllocError, Global};
use std::marker::Model;

/// A fiber without the numbers of its masks, and with the marks that the search keeps.
#[derive(Drop)]
struct ShownFiber {
    shape: FiberShape,
    marks: Vec<Mark>,
}

impl Model for ShownFiber {
    ghost use Rattle.std.specs.Coded.{codes};
    ghost use Rattle.derived_ops.specs.Stored.{tree_code};
    ghost use Rattle.fiber_frames.specs.Fiber.{Fiber};
    ghost use Rattle.fiber_frames.specs.contracts.ask.Look as the_look;
    ghost use Rattle.fiber_frames.specs.contracts.mark.Mark as the_mark;

    ghost Value = { Fiber };

    ghost coded = { Prim.hlevel (codes, tree_code, the_look.the_row.coded, the_mark.the_row.coded) };

    ghost view = { λ f. record f.shape { marks = f.marks.items } };
}

impl ShownFiber {
    // What the search with this number keeps of a fiber.
    fn of(alloc: Global, fiber: &Config, search: u8) -> Result<ShownFiber, AllocError>
        ensures { IfOk result (λ it. it ≡ shown (with_says search) fiber.now) }
    {
        let shape = FiberShape::of(alloc, fiber)?;
        let marks = kept_of(alloc, fiber, search)?;
        Ok(ShownFiber { shape, marks })
    }

    // Whether two of these are equal: `true` means that they are.
    fn same(&self, other: &ShownFiber) -> bool
        ensures { result ≡ true → self.now ≡ other.now }
    {
        self.has_marks_of(other) && self.shape.same(&other.shape)
    }

    // Whether two of these have the same marks.
    fn has_marks_of(&self, other: &ShownFiber) -> bool
        ensures yes { result ≡ true → marks_of self.now ≡ marks_of other.now }
        ensures no { result ≡ false → marks_of self.now ≢ marks_of other.now }
    {
        same_marks(self.marks.as_slice(), other.marks.as_slice())
    }

    // A number that is the same for those that `same` finds equal.
    fn digest(&self) -> u64 {
        let mut digest = self.shape.digest();
        for mark in self.marks.as_slice() {
            digest = digest.rotate_left(9) ^ number_of(*mark);
        }
        digest
    }
}

// Whether two lists of marks are equal.
fn same_marks(one: &[Mark], other: &[Mark]) -> bool
    ensures yes { result ≡ true → one.now ≡ other.now }
    ensures no { result ≡ false → one.now ≢ other.now }
{
    one == other
}

// A number for a mark that is kept.
fn number_of(mark: Mark) -> u64 {
    match mark {
        Mark::Say(value) => value.get().cast_unsigned(),
        Mark::Dropped(code) => code.get().cast_unsigned().rotate_left(32),
        Mark::Enter(_) | Mark::Leave(_) | Mark::PollIn(_) | Mark::PollOut(_) => 0,
        Mark::Cut | Mark::Acquired(_) | Mark::Releasing(_) | Mark::Released(_) => 0,
    }
}

/// The fibers of a world as the search keeps them, and its registry without counts and notes.
#[derive(Drop)]
pub(crate) struct WorldShape {
    fibers: Vec<ShownFiber>,
    registry: PlainRegistry,
}

impl Model for WorldShape {
    ghost use Rattle.std.specs.Coded.{codes};
    ghost use Rattle.derived_ops.specs.Stored.{tree_code};
    ghost use Rattle.fiber_frames.specs.contracts.ask.Look as the_look;
    ghost use Rattle.fiber_frames.specs.contracts.mark.Mark as the_mark;
    ghost use Rattle.scheduled_core.specs.Fitting.{world_of};
    ghost use Rattle.every_outcome.specs.Places.{Place};

    ghost Value = { Place };

    ghost coded = { Prim.hlevel (codes, tree_code, the_look.the_row.coded, the_mark.the_row.coded) };

    ghost view = { λ w. record {
      limits = w.registry.limits;
      world = world_of w.fibers.items w.registry.state;
    } };
}

impl WorldShape {
    /// The shape of a world of these fibers and this registry, with the marks that the search with this number keeps.
    pub(crate) fn of(
        alloc: Global,
        fibers: &[Config],
        registry: &PlainRegistry,
        search: u8,
    ) -> Result<WorldShape, AllocError>
        ensures { IfOk result (λ it. it ≡ record {
          limits = registry.now.limits;
          world = unmarked_world (with_says search) (world_of fibers.now registry.now.state);
        }) }
    {
        let shapes = shapes_of(alloc, fibers, search)?;
        let mut bare = registry.copy(alloc)?;
        bare.forget_waits();
        bare.forget_counts();
        Ok(WorldShape {
            fibers: shapes,
            registry: bare,
        })
    }

    /// Whether two shapes are equal: `true` means that they are. The result can be `false` for equal shapes.
    pub(crate) fn same(&self, other: &WorldShape) -> bool
        ensures { result ≡ true → self.now ≡ other.now }
    {
        self.registry.same(&other.registry)
            && same_shapes(self.fibers.as_slice(), other.fibers.as_slice())
    }

    /// Whether the fibers of two shapes have the same marks.
    pub(crate) fn has_marks_of(&self, other: &WorldShape) -> bool
        ensures yes { result ≡ true → map marks_of self.now.world.fibers ≡ map marks_of other.now.world.fibers }
        ensures no { result ≡ false → map marks_of self.now.world.fibers ≢ map marks_of other.now.world.fibers }
    {
        have_same_marks(self.fibers.as_slice(), other.fibers.as_slice())
    }

    /// A number that is the same for shapes that `same` finds equal.
    pub(crate) fn digest(&self) -> u64 {
        let mut digest = self.registry.digest();
        for fiber in self.fibers.iter() {
            digest = digest.rotate_left(5).wrapping_mul(0x9E37_79B9_7F4A_7C15) ^ fiber.digest();
        }
        digest
    }
}

// What the search keeps of fibers.
fn shapes_of(alloc: Global, fibers: &[Config], search: u8) -> Result<Vec<ShownFiber>, AllocError>
    ensures { IfOk result (λ shapes. shapes.items ≡ map (shown (with_says search)) fibers.now) }
{
    let mut shapes = Vec::with_capacity(alloc, fibers.len())?;
    for fiber in fibers {
        shapes.push(ShownFiber::of(alloc, fiber, search)?)?;
    }
    Ok(shapes)
}

// Whether two lists of shapes are equal: `true` means that they are.
fn same_shapes(one: &[ShownFiber], other: &[ShownFiber]) -> bool
    ensures { result ≡ true → one.now ≡ other.now }
{
    if one.len() != other.len() {
        return false;
    }
    for (i, fiber) in one.iter().enumerate() {
        if !fiber.same(&other[i]) {
            return false;
        }
    }
    true
}

// Whether fibers have the same marks.
fn have_same_marks(one: &[ShownFiber], other: &[ShownFiber]) -> bool
    ensures yes { result ≡ true → map marks_of one.now ≡ map marks_of other.now }
    ensures no { result ≡ false → map marks_of one.now ≢ map marks_of other.now }
{
    if one.len() != other.len() {
        return false;
    }
    for (index, fiber) in one.iter().enumerate() {
        if !fiber.has_marks_of(&other[index]) {
            return false;
        }
    }
    true
}

//! Worlds that are at rest.

ghost use Rattle.std.specs.Prelude.{◌≡◌, ◌<◌, ◌≤◌, ℕ, [], length, true, IfOk, OnOk, Result, Some};
ghost use Rattle.std.specs.List.{slice_get};
ghost use Rattle.world_search.specs.Landings.{EntersAt};
ghost use Rattle.world_search.specs.Lists.{IsMore};
ghost use Rattle.fair_ends.specs.Fair.{Makes};

use std::alloc::AllocError;
use world_search::{Entered, Worlds};

/// Where a step has led, and the entries that the step has made.
#[derive(Drop)]
pub struct Made {
    /// The world or the fault.
    pub to: Entered,
    /// The fibers whose entries were made, in turn.
    pub entries: Vec<u16>,
}

/// A store of worlds that can be at rest. The store defines what that means: no fiber can go on.
///
/// A step of the store is the entry of a fiber, followed at once by free moves.
pub trait Resting: Worlds {
    // The entry of a fiber alone.
    ghost entry: { Self.World → ℕ → Result Self.World Self.Fault };
    // The next move of the fiber is a free one.
    ghost free: { Self.World → ℕ → Type 0 };
    // The world is at rest.
    ghost rests: { Self.World → Type 0 };

    /// The number of fibers of the world of this number. The step of any other fiber makes no entry.
    fn many(&self, world: usize) -> u16
        requires { world < length (Self.worlds self.now) }
        ensures none { (w : Self.World) → slice_get (Self.worlds self.now) world ≡ Some w → (f : ℕ) → result ≤ f →
            Makes entry free Self.step Self.most_born w f [] }
        ensures many { result ≤ Self.most_born };

    /// Makes the step of a fiber, as `enter` does. `AllocError` if memory is refused.
    fn make(&mut self, world: usize, fiber: u16, most: usize) -> Result<Made, AllocError>
        requires { world < length (Self.worlds self.old) }
        ensures worlds { OnOk result (IsMore (Self.worlds self.old) (Self.worlds self.new)) }
        ensures lands { IfOk result (λ it. (w : Self.World) → slice_get (Self.worlds self.old) world ≡ Some w →
            EntersAt (Self.worlds self.new) (Self.faults self.new) it.to (Self.step w fiber)) }
        ensures makes { IfOk result (λ it. (w : Self.World) → slice_get (Self.worlds self.old) world ≡ Some w →
            Makes entry free Self.step Self.most_born w fiber it.entries.items) };

    /// Makes the entry of a fiber alone. `AllocError` if memory is refused.
    fn enter_alone(&mut self, world: usize, fiber: u16, most: usize) -> Result<Entered, AllocError>
        requires { world < length (Self.worlds self.old) }
        ensures worlds { OnOk result (IsMore (Self.worlds self.old) (Self.worlds self.new)) }
        ensures lands { IfOk result (λ it. (w : Self.World) → slice_get (Self.worlds self.old) world ≡ Some w →
            EntersAt (Self.worlds self.new) (Self.faults self.new) it (entry w fiber)) };

    /// Whether the world of this number is known to be at rest. `AllocError` if memory is refused.
    fn is_at_rest(&self, world: usize) -> Result<bool, AllocError>
        requires { world < length (Self.worlds self.now) }
        ensures { IfOk result (λ it. it ≡ true → (w : Self.World) → slice_get (Self.worlds self.now) world ≡ Some w →
            rests w) };

    /// Whether the world of this number is known not to be at rest. `AllocError` if memory is refused.
    fn can_go_on(&self, world: usize) -> Result<bool, AllocError>
        requires { world < length (Self.worlds self.now) }
        ensures { IfOk result (λ it. it ≡ true → (w : Self.World) → slice_get (Self.worlds self.now) world ≡ Some w →
            rests w → ⊥) };
}

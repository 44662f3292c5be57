//! The operations of a system that a search uses.

ghost use Rattle.std.specs.Prelude.{◌≡◌, ◌≢◌, ℕ, ◌<◌, ◌≤◌, List, length, true, false, max, Result, Ok as GoesWell};
ghost use Rattle.std.specs.Prelude.{IfOk, OnOk, Some};
ghost use Rattle.std.specs.List.{slice_get};
ghost use Rattle.world_search.specs.Landings.{EntersAt, IsNext};
ghost use Rattle.world_search.specs.Lists.{IsMore};

use crate::landings::Entered;
use std::alloc::AllocError;

/// A growing store of worlds and faults, each of them with a number.
pub trait Worlds: Drop {
    /// A world. Only contracts use the type; the search makes no value of it.
    type World;
    /// Why an entry makes no move and ends the schedule. Only contracts use the type.
    type Fault;
    /// The report of a world. Only contracts use the type.
    type Report;

    // The worlds, by their numbers.
    ghost worlds: { Self → List Self.World };
    // The faults, by their numbers.
    ghost faults: { Self → List Self.Fault };
    // The entry of a fiber.
    ghost step: { Self.World → ℕ → Result Self.World Self.Fault };
    // The report of a world.
    ghost report: { Self.World → Self.Report };
    // A number by which reports are filed.
    ghost report_digest: { Self.Report → ℕ };
    // The greatest number of fibers of a world.
    ghost most_born: { ℕ };
    // The number of bytes that the store counts.
    ghost bytes: { Self → ℕ };

    /// The number of fibers of the world of this number. An entry of another fiber changes nothing.
    fn born(&self, world: usize) -> u16
        requires { world < length (worlds self.now) }
        ensures rests { (w : Self.World) → slice_get (worlds self.now) world ≡ Some w → (f : ℕ) → result ≤ f →
            step w f ≡ GoesWell w }
        ensures many { result ≤ most_born };

    /// Makes the entry of a fiber at the world of this number. The store then has the world or fault that the entry
    /// leads to. A new world gets the next number; no other world is added. If the world is new and the store has at
    /// least `most` worlds, no world is added, and the result is [`Entered::Full`]. `AllocError` where memory is
    /// refused.
    fn enter(&mut self, world: usize, fiber: u16, most: usize) -> Result<Entered, AllocError>
        requires { world < length (worlds self.old) }
        ensures worlds { OnOk result (IsMore (worlds self.old) (worlds self.new)) }
        ensures faults { OnOk result (IsMore (faults self.old) (faults self.new)) }
        ensures lands { IfOk result (λ it. (w : Self.World) → slice_get (worlds self.old) world ≡ Some w →
            EntersAt (worlds self.new) (faults self.new) it (step w fiber)) }
        ensures room { OnOk result (length (worlds self.new) ≤ max most (length (worlds self.old))) }
        ensures next { IfOk result (IsNext (length (worlds self.old)) (length (worlds self.new)) most) };

    /// Whether two worlds have the same report.
    fn same_report(&self, one: usize, other: usize) -> bool
        requires one { one < length (worlds self.now) }
        requires other { other < length (worlds self.now) }
        ensures yes { result ≡ true → (v w : Self.World) → slice_get (worlds self.now) one ≡ Some v →
            slice_get (worlds self.now) other ≡ Some w → report v ≡ report w }
        ensures no { result ≡ false → (v w : Self.World) → slice_get (worlds self.now) one ≡ Some v →
            slice_get (worlds self.now) other ≡ Some w → report v ≢ report w };

    /// The digest of a world's report: worlds of the same report have the same digest.
    fn report_digest(&self, world: usize) -> u64
        requires { world < length (worlds self.now) }
        ensures { (w : Self.World) → slice_get (worlds self.now) world ≡ Some w → result ≡ report_digest (report w) };

    /// The number of worlds.
    fn len(&self) -> usize
        ensures { result ≡ length (worlds self.now) };

    /// The number of bytes that the store counts, an estimate of its memory.
    fn bytes(&self) -> usize
        ensures { result ≡ bytes self.now };
}

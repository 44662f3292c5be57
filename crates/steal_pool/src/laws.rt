//! The laws of the queues, the end of a run and its first fault.
ghost use Rattle.std.specs.Prelude.{◌≡◌, ◌↔◌, IsTrue};

pub use ready_queues::{
    InjectorEnd, Ledgered, ReadyDeque, ReadyInjector, Traffic, Victim, empty_injector, first_fault,
    learn, within,
};

/// Whether the released number was the last one; `before` numbers were queued or held before.
pub fn was_last(before: u64) -> bool
    ensures { IsTrue result ↔ (before ≡ 1) }
{
    before == 1
}

//! The pass: a fiber's token, with which it makes its calls.
ghost use Rattle.std.specs.Prelude.{◌≡◌};
ghost use Rattle.cell_registry.specs.Passes.{IsPass};

use crate::cell::Stage;
use crate::knowledge::Knowledge;
use crate::phase::Phase;
use atomic_table::Seat;
use effect_term::Value;
use std::marker::Model;
use std::mem::size_of;

/// A fiber's token, with which it makes its calls at the registry that made it.
///
/// A pass can't be cloned: a fiber has one, and only `Registry::new`, `start` and `meet` make one. A pass knows what
/// only the fiber itself changes in its cell. Contracts see these numbers, the history that the pass has seen, and the
/// fibers whose calls it makes or made. As long as its fiber hasn't ended, it has stored nothing in the fiber's value
/// word.
#[derive(Drop)]
pub struct Pass {
    pub(crate) seat: Seat<u8, Knowledge>,
    // A pass is moved by value, and has 24 bytes. With a field of type `Stage` it would have 40, since a stage and its
    // outcome each have a tag.
    pub(crate) count: u64,
    // What the fiber ended with, if it succeeded or errored.
    pub(crate) value: Value,
    pub(crate) phase: Phase,
    pub(crate) number: u16,
    pub(crate) depth: u8,
    pub(crate) saw: bool,
}

const _: () = prove!(size_of::<Pass>() == 24);

impl Model for Pass {
    ghost use Rattle.std.specs.Prelude.{◌≡◌, []};
    ghost use Rattle.cell_registry.specs.Passes.{IsSeated, PassView, pass_of};
    ghost use Rattle.cell_registry.specs.Private.Kept.{stage_of};

    ghost Value = { PassView };

    ghost view = { λ p. pass_of p.seat.table_id p.seat.me.0 p.number (stage_of p.phase p.value) p.depth p.count p.saw };

    ghost invariant = { λ p. (p.seat.me.1 ≡ []) ×
        IsSeated p.seat.me.0 (pass_of p.seat.table_id p.seat.me.0 p.number (stage_of p.phase p.value) p.depth p.count
        p.saw) };
}

impl Pass {
    /// The fiber's number.
    pub fn number(&self) -> u16
        ensures number { result ≡ self.now.number }
        ensures lawful { IsPass self.now }
    {
        self.number
    }

    /// The number of masks that the fiber is in.
    pub fn depth(&self) -> u8
        ensures depth { result ≡ self.now.depth }
    {
        self.depth
    }

    /// How far the fiber has come: running, finalizing, or ended and how.
    pub fn phase(&self) -> Stage
        ensures stage { result ≡ self.now.stage }
    {
        self.phase.stage(self.value)
    }

    /// The number of changes that the fiber made to its own cell.
    pub fn count(&self) -> u64
        ensures count { result ≡ self.now.count }
    {
        self.count
    }

    /// The reply of the fiber's last look, `false` before the first.
    pub fn saw(&self) -> bool
        ensures saw { result ≡ self.now.saw }
    {
        self.saw
    }
}

//! The rule of the queues, and what each step on them shows.
use crossbeam_deque::protocol::{Outcome, Protocol};
use std::collections::LinkedList;

/// What one end of a queue has pushed and taken, first to last. No program makes such a value.
pub struct Traffic {
    pub pushed: LinkedList<u16>,
    pub taken: LinkedList<u16>,
}

/// The rule of a queue of ready numbers: the numbers pushed are, in order, those taken and then those left, and each
/// end knows its own part of both.
pub struct Ledgered;

impl Protocol<u16, Traffic> for Ledgered {
    ghost use Rattle.std.specs.Prelude.{[]};
    ghost use Rattle.ready_queues.specs.Ledger.{KeepsLedger, traffic};

    ghost holds = { KeepsLedger };

    ghost first = { traffic [] [] };

    ghost guest = { traffic [] [] };
}

/// A number is added to the end of the list.
pub(crate) struct Puts;

impl Outcome<u16, Traffic> for Puts {
    ghost use Rattle.ready_queues.specs.Moments.{PutLast};

    ghost then = { PutLast };
}

/// The first number is removed from the list, or the list is empty.
pub(crate) struct Takes;

impl Outcome<u16, Traffic> for Takes {
    ghost use Rattle.ready_queues.specs.Moments.{TookFirst, WasEmpty};

    ghost then = { TookFirst };

    ghost empty = { WasEmpty };
}

//! A worker's seat at a bay.
use crate::rule::Knowledge;
use atomic_table::Seat;
use fiber_poll::FiberTask;
use std::marker::Model;

/// A place at a bay, from which one worker puts and takes. Between its calls it has no slot.
#[derive(Drop)]
pub struct BaySeat<'a> {
    pub(crate) seat: Seat<Option<FiberTask<'a>>, Knowledge>,
}

impl<'a> Model for BaySeat<'a> {
    ghost use Rattle.std.specs.Prelude.{◌≡◌, []};
    ghost use Rattle.std.specs.Coded.{codes};
    ghost use Rattle.derived_ops.specs.Stored.{tree_code};
    ghost use Rattle.atomic_table.specs.Seated.{table_id_coded};
    ghost use Rattle.wait_bay.specs.Bays.{SeatView};

    ghost Value = { SeatView };

    ghost coded = { Prim.hlevel (codes, tree_code, table_id_coded) };

    ghost view = { λ b. record { table = b.seat.table_id; named = b.seat.me.0.named } };

    ghost invariant = { λ b. b.seat.me.1 ≡ [] };
}

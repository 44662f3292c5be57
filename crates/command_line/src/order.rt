//! An order to answer a text, with or without reasons.

ghost use Rattle.std.specs.Prelude.{◌≡◌, ◌<◌, ◌^◌, false};
ghost use Rattle.command_line.specs.Orders.{ObeysOrder};
ghost use Rattle.text_io.specs.Devices.{devices};

use outcome_trace::{Status, TextIn, TextOrder, TextOut, obey_text};
use reasons::{Reasons, obey_explained};
use std::alloc::Global;

/// Obeys an order as [`obey_explained`] does if reasons are asked for, otherwise as [`obey_text`] does.
pub fn obey_order<A: TextOrder, X: Reasons, I: TextIn, O: TextOut, E: TextOut>(
    alloc: Global,
    order: &A,
    reasons: &X,
    explain: bool,
    input: &mut I,
    out: &mut O,
    err: &mut E,
) -> Status
    requires input { (I.seen input.old).failed ≡ false }
    requires countable { (I.seen input.old).reads < 2 ^ 63 }
    requires out { (O.seen out.old).failed ≡ false }
    requires err { (E.seen err.old).failed ≡ false }
    ensures { ObeysOrder (A.answers order.now) (X.tells reasons.now) explain
        (devices (I.seen input.old) (O.seen out.old) (E.seen err.old))
        (devices (I.seen input.new) (O.seen out.new) (E.seen err.new)) result }
{
    if explain {
        obey_explained(alloc, order, reasons, input, out, err)
    } else {
        obey_text(alloc, order, input, out, err)
    }
}

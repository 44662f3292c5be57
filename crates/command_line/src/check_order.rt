//! The answers to a text alone: whether it is a program, and the expansion of its program.

ghost use Rattle.std.specs.Prelude.{◌≡◌, ◌≢◌, ◌<◌, ◌^◌, false};
ghost use Rattle.command_line.specs.Checks.{ObeysCheck, ObeysShow};
ghost use Rattle.text_io.specs.Devices.{devices};

use crate::order::obey_order;
use command_words::{Checking, Showing};
use json_answers::CheckJson;
use outcome_trace::{CheckOrder, ShowOrder, Status, TextIn, TextOut};
use reasons::TextReasons;
use std::alloc::Global;

/// Answers whether a text is a program. Returns the status of the answer, or `Status::Fault` if a device failed or
/// memory ran out. All but the answer goes to `err`.
pub fn obey_check<I: TextIn, O: TextOut, E: TextOut>(
    alloc: Global,
    checking: Checking,
    input: &mut I,
    out: &mut O,
    err: &mut E,
) -> Status
    requires input { (I.seen input.old).failed ≡ false }
    requires countable { (I.seen input.old).reads < 2 ^ 63 }
    requires out { (O.seen out.old).failed ≡ false }
    requires err { (E.seen err.old).failed ≡ false }
    ensures obeyed { ObeysCheck checking (devices (I.seen input.old) (O.seen out.old) (E.seen err.old))
        (devices (I.seen input.new) (O.seen out.new) (E.seen err.new)) result }
    ensures ends { result ≢ Status.Usage }
{
    let explain = checking.explain;
    if checking.json {
        obey_order(alloc, &CheckJson, &TextReasons, explain, input, out, err)
    } else {
        obey_order(alloc, &CheckOrder, &TextReasons, explain, input, out, err)
    }
}

/// Prints the expansion of a text's program, and returns the status, as [`obey_check`] does.
pub fn obey_show<I: TextIn, O: TextOut, E: TextOut>(
    alloc: Global,
    showing: Showing,
    input: &mut I,
    out: &mut O,
    err: &mut E,
) -> Status
    requires input { (I.seen input.old).failed ≡ false }
    requires countable { (I.seen input.old).reads < 2 ^ 63 }
    requires out { (O.seen out.old).failed ≡ false }
    requires err { (E.seen err.old).failed ≡ false }
    ensures obeyed { ObeysShow showing (devices (I.seen input.old) (O.seen out.old) (E.seen err.old))
        (devices (I.seen input.new) (O.seen out.new) (E.seen err.new)) result }
    ensures ends { result ≢ Status.Usage }
{
    obey_order(
        alloc,
        &ShowOrder,
        &TextReasons,
        showing.explain,
        input,
        out,
        err,
    )
}

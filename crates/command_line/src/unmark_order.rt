//! The outcomes of a text's program, without marks.

ghost use Rattle.std.specs.Prelude.{◌≡◌, ◌≢◌, ◌<◌, ◌^◌, false};
ghost use Rattle.command_line.specs.Unmarkings.{ObeysUnmark};
ghost use Rattle.text_io.specs.Devices.{devices};

use crate::watched_forms::obey_search;
use command_words::Unmarking;
use outcome_answers::{OutcomesJson, OutcomesOrder};
use outcome_trace::{Status, TextIn, TextOut};
use std::alloc::Global;
use std::time::Clock;

/// Answers a text's program with the outcomes that its fibers can have, without their marks. Returns the status of the
/// answer, or `Status::Fault` if a device failed or memory ran out. All but the answer goes to `err`. The clock ends
/// the search if its seconds are limited.
pub fn obey_unmark<C: Clock, I: TextIn, O: TextOut, E: TextOut>(
    clock: &C,
    alloc: Global,
    unmarking: Unmarking,
    input: &mut I,
    out: &mut O,
    err: &mut E,
) -> Status
    requires input { (I.seen input.old).failed ≡ false }
    requires countable { (I.seen input.old).reads < 2 ^ 63 }
    requires out { (O.seen out.old).failed ≡ false }
    requires err { (E.seen err.old).failed ≡ false }
    ensures obeyed { ObeysUnmark unmarking (devices (I.seen input.old) (O.seen out.old) (E.seen err.old))
        (devices (I.seen input.new) (O.seen out.new) (E.seen err.new)) result }
    ensures ends { result ≢ Status.Usage }
{
    let Unmarking {
        order,
        only_first,
        json,
        seconds,
        beside,
    } = unmarking;
    if json {
        let outcomes = OutcomesJson { order, only_first };
        obey_search(clock, alloc, outcomes, seconds, beside, input, out, err)
    } else {
        let outcomes = OutcomesOrder { order, only_first };
        obey_search(clock, alloc, outcomes, seconds, beside, input, out, err)
    }
}

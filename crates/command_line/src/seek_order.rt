//! The first finding of a text's program.

ghost use Rattle.std.specs.Prelude.{◌≡◌, ◌≢◌, ◌<◌, ◌^◌, false};
ghost use Rattle.command_line.specs.Seekings.{ObeysSeek};
ghost use Rattle.text_io.specs.Devices.{devices};

use crate::watched_forms::obey_form;
use command_words::Seeking;
use exploration_text::FirstOrder;
use json_answers::FirstJson;
use outcome_trace::{Status, TextIn, TextOut};
use std::alloc::Global;
use std::time::Clock;

/// Answers a text's program with its first finding, or with its exploration if there is none. Returns the status of the
/// answer, or `Status::Fault` if a device failed or memory ran out. All but the answer goes to `err`. The clock ends
/// the search if its seconds are limited.
pub fn obey_seek<C: Clock, I: TextIn, O: TextOut, E: TextOut>(
    clock: &C,
    alloc: Global,
    seeking: Seeking,
    input: &mut I,
    out: &mut O,
    err: &mut E,
) -> Status
    requires input { (I.seen input.old).failed ≡ false }
    requires countable { (I.seen input.old).reads < 2 ^ 63 }
    requires out { (O.seen out.old).failed ≡ false }
    requires err { (E.seen err.old).failed ≡ false }
    ensures obeyed { ObeysSeek seeking (devices (I.seen input.old) (O.seen out.old) (E.seen err.old))
        (devices (I.seen input.new) (O.seen out.new) (E.seen err.new)) result }
    ensures ends { result ≢ Status.Usage }
{
    let Seeking {
        order,
        json,
        seconds,
        beside,
    } = seeking;
    if json {
        let first = FirstJson { order };
        obey_form(clock, alloc, first, seconds, beside, input, out, err)
    } else {
        let first = FirstOrder { order };
        obey_form(clock, alloc, first, seconds, beside, input, out, err)
    }
}

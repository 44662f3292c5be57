//! Whether every fair schedule of a text's program ends.

ghost use Rattle.std.specs.Prelude.{◌≡◌, ◌≢◌, ◌<◌, ◌^◌, false};
ghost use Rattle.command_line.specs.Decidings.{ObeysDecide};
ghost use Rattle.text_io.specs.Devices.{devices};

use crate::watched_forms::obey_form;
use command_words::Deciding;
use ending_answers::{EndsJson, EndsOrder};
use outcome_trace::{Status, TextIn, TextOut};
use std::alloc::Global;
use std::time::Clock;

/// Answers a text's program with its exploration, and then with whether every fair schedule ends. Returns the status of
/// the answer, or `Status::Fault` if a device failed or memory ran out. All but the answer goes to `err`. The clock
/// ends the search if its seconds are limited.
pub fn obey_decide<C: Clock, I: TextIn, O: TextOut, E: TextOut>(
    clock: &C,
    alloc: Global,
    deciding: Deciding,
    input: &mut I,
    out: &mut O,
    err: &mut E,
) -> Status
    requires input { (I.seen input.old).failed ≡ false }
    requires countable { (I.seen input.old).reads < 2 ^ 63 }
    requires out { (O.seen out.old).failed ≡ false }
    requires err { (E.seen err.old).failed ≡ false }
    ensures obeyed { ObeysDecide deciding (devices (I.seen input.old) (O.seen out.old) (E.seen err.old))
        (devices (I.seen input.new) (O.seen out.new) (E.seen err.new)) result }
    ensures ends { result ≢ Status.Usage }
{
    let Deciding {
        order,
        json,
        seconds,
        beside,
    } = deciding;
    if json {
        let decided = EndsJson { order };
        obey_form(clock, alloc, decided, seconds, beside, input, out, err)
    } else {
        let decided = EndsOrder { order };
        obey_form(clock, alloc, decided, seconds, beside, input, out, err)
    }
}

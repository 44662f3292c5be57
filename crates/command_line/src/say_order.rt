//! The outcomes and says of a text's program.

ghost use Rattle.std.specs.Prelude.{◌≡◌, ◌≢◌, ◌<◌, ◌^◌, false};
ghost use Rattle.command_line.specs.Sayings.{ObeysSay};
ghost use Rattle.text_io.specs.Devices.{devices};

use crate::watched_forms::obey_search;
use command_words::Saying;
use outcome_answers::{SaysJson, SaysOrder};
use outcome_trace::{Status, TextIn, TextOut};
use std::alloc::Global;
use std::time::Clock;

/// Answers a text's program with the outcomes that its fibers can have, the values that they said and the codes that
/// were dropped, without their other marks. Returns the status of the answer, or `Status::Fault` if a device failed or
/// memory ran out. All but the answer goes to `err`. The clock ends the search if its seconds are limited.
pub fn obey_say<C: Clock, I: TextIn, O: TextOut, E: TextOut>(
    clock: &C,
    alloc: Global,
    saying: Saying,
    input: &mut I,
    out: &mut O,
    err: &mut E,
) -> Status
    requires input { (I.seen input.old).failed ≡ false }
    requires countable { (I.seen input.old).reads < 2 ^ 63 }
    requires out { (O.seen out.old).failed ≡ false }
    requires err { (E.seen err.old).failed ≡ false }
    ensures obeyed { ObeysSay saying (devices (I.seen input.old) (O.seen out.old) (E.seen err.old))
        (devices (I.seen input.new) (O.seen out.new) (E.seen err.new)) result }
    ensures ends { result ≢ Status.Usage }
{
    let Saying {
        order,
        json,
        seconds,
        beside,
    } = saying;
    if json {
        let says = SaysJson { order };
        obey_search(clock, alloc, says, seconds, beside, input, out, err)
    } else {
        let says = SaysOrder { order };
        obey_search(clock, alloc, says, seconds, beside, input, out, err)
    }
}

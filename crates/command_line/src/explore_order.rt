//! The exploration of a text's program.

ghost use Rattle.std.specs.Prelude.{◌≡◌, ◌≢◌, ◌<◌, ◌^◌, false};
ghost use Rattle.command_line.specs.Explorings.{ObeysExplore};
ghost use Rattle.text_io.specs.Devices.{devices};

use crate::watched_forms::obey_search;
use command_words::{ExploreForm, Exploring};
use json_answers::ExploreJson;
use outcome_trace::{Status, TextIn, TextOut};
use std::alloc::Global;
use std::time::Clock;
use timelines::ExploreTimelineOrder;

/// Answers a text's program with its exploration. Returns the status of the answer, or `Status::Fault` if a device
/// failed or memory ran out. All but the answer goes to `err`. The clock measures how fast the search goes, and ends it
/// if its seconds are limited.
pub fn obey_explore<C: Clock, I: TextIn, O: TextOut, E: TextOut>(
    clock: &C,
    alloc: Global,
    exploring: Exploring,
    input: &mut I,
    out: &mut O,
    err: &mut E,
) -> Status
    requires input { (I.seen input.old).failed ≡ false }
    requires countable { (I.seen input.old).reads < 2 ^ 63 }
    requires out { (O.seen out.old).failed ≡ false }
    requires err { (E.seen err.old).failed ≡ false }
    ensures obeyed { ObeysExplore exploring (devices (I.seen input.old) (O.seen out.old) (E.seen err.old))
        (devices (I.seen input.new) (O.seen out.new) (E.seen err.new)) result }
    ensures ends { result ≢ Status.Usage }
{
    let Exploring {
        order,
        form,
        seconds,
        beside,
    } = exploring;
    match form {
        ExploreForm::Report => obey_search(clock, alloc, order, seconds, beside, input, out, err),
        ExploreForm::Timeline => {
            let told = ExploreTimelineOrder { order };
            obey_search(clock, alloc, told, seconds, beside, input, out, err)
        }
        ExploreForm::Json => {
            let told = ExploreJson { order };
            obey_search(clock, alloc, told, seconds, beside, input, out, err)
        }
    }
}

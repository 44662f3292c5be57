//! An order with a search, and what is written beside its answer.

ghost use Rattle.std.specs.Prelude.{◌≡◌, ◌<◌, ◌^◌, false, is_some};
ghost use Rattle.command_line.specs.Explorings.{ObeysBeside};
ghost use Rattle.exploration_text.specs.Draws.{IsWithDraws};
ghost use Rattle.text_io.specs.Devices.{devices};

use crate::noted::obey_noted;
use command_words::Beside;
use exploration_text::{SearchOrder, TimedOrder, WatchedOrder, WithDraws, obey_watched};
use outcome_trace::{Status, TextIn, TextOut};
use reasons::TextReasons;
use std::alloc::Global;
use std::time::Clock;

/// Answers a text by an order. The search ends after `seconds`, if they are given.
pub fn obey_form<C: Clock, W: WatchedOrder + Drop, I: TextIn, O: TextOut, E: TextOut>(
    clock: &C,
    alloc: Global,
    order: W,
    seconds: Option<u64>,
    beside: Beside,
    input: &mut I,
    out: &mut O,
    err: &mut E,
) -> Status
    requires input { (I.seen input.old).failed ≡ false }
    requires countable { (I.seen input.old).reads < 2 ^ 63 }
    requires out { (O.seen out.old).failed ≡ false }
    requires err { (E.seen err.old).failed ≡ false }
    ensures { ObeysBeside beside W.Refusals.refuses (W.finds order (is_some seconds))
        (devices (I.seen input.old) (O.seen out.old) (E.seen err.old))
        (devices (I.seen input.new) (O.seen out.new) (E.seen err.new)) result }
{
    let timed = TimedOrder {
        clock,
        seconds,
        order,
    };
    match beside {
        Beside::Nothing => obey_noted(alloc, &timed, &TextReasons, false, input, out, err),
        Beside::Progress => obey_watched(clock, alloc, &timed.order, seconds, input, out, err),
        Beside::Reasons => obey_noted(alloc, &timed, &TextReasons, true, input, out, err),
    }
}

/// Answers a text by an order with a search, as [`obey_form`] does. If a bound stops the search, a finding of random
/// schedules is written behind its answer ([`WithDraws`]).
pub fn obey_search<C: Clock, W: SearchOrder + Drop, I: TextIn, O: TextOut, E: TextOut>(
    clock: &C,
    alloc: Global,
    order: W,
    seconds: Option<u64>,
    beside: Beside,
    input: &mut I,
    out: &mut O,
    err: &mut E,
) -> Status
    requires input { (I.seen input.old).failed ≡ false }
    requires countable { (I.seen input.old).reads < 2 ^ 63 }
    requires out { (O.seen out.old).failed ≡ false }
    requires err { (E.seen err.old).failed ≡ false }
    ensures { ObeysBeside beside W.Refusals.refuses
        (λ note t. IsWithDraws W.Findings.tells (W.searches order) t (W.finds order (is_some seconds) note t))
        (devices (I.seen input.old) (O.seen out.old) (E.seen err.old))
        (devices (I.seen input.new) (O.seen out.new) (E.seen err.new)) result }
{
    let drawing = WithDraws { order };
    obey_form(clock, alloc, drawing, seconds, beside, input, out, err)
}

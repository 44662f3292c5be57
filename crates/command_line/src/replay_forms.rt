//! The answer to a program under the entries of a schedule, in the requested form.

ghost use Rattle.std.specs.Prelude.{◌≡◌, ◌<◌, ◌^◌, false};
ghost use Rattle.cell_registry.specs.Cells.{AreLimits};
ghost use Rattle.command_line.specs.Orders.{ObeysOrder};
ghost use Rattle.command_line.specs.Replays.{answers_as};
ghost use Rattle.reasons.specs.Reasons.{IsReplayReasons};
ghost use Rattle.text_io.specs.Devices.{devices};

use crate::order::obey_order;
use command_words::AnswerForm;
use json_answers::ReplayJson;
use outcome_trace::{Limits, ReplayOrder, Status, TextIn, TextOut};
use reasons::ReplayReasons;
use std::alloc::Global;
use timelines::{PictureOrder, TimelineOrder};

/// Answers a text under the entries of `schedule`, in this form, with or without reasons.
pub fn obey_entries<I: TextIn, O: TextOut, E: TextOut>(
    alloc: Global,
    form: AnswerForm,
    explain: bool,
    schedule: &[u16],
    limits: Limits,
    input: &mut I,
    out: &mut O,
    err: &mut E,
) -> Status
    requires input { (I.seen input.old).failed ≡ false }
    requires countable { (I.seen input.old).reads < 2 ^ 63 }
    requires out { (O.seen out.old).failed ≡ false }
    requires err { (E.seen err.old).failed ≡ false }
    requires limits { AreLimits limits }
    ensures { ObeysOrder (answers_as form schedule.now limits) (IsReplayReasons schedule.now limits) explain
        (devices (I.seen input.old) (O.seen out.old) (E.seen err.old))
        (devices (I.seen input.new) (O.seen out.new) (E.seen err.new)) result }
{
    let why = &ReplayReasons { schedule, limits };
    match form {
        AnswerForm::Report => {
            let order = ReplayOrder { schedule, limits };
            obey_order(alloc, &order, why, explain, input, out, err)
        }
        AnswerForm::Timeline => {
            let order = TimelineOrder { schedule, limits };
            obey_order(alloc, &order, why, explain, input, out, err)
        }
        AnswerForm::Picture => {
            let order = PictureOrder { schedule, limits };
            obey_order(alloc, &order, why, explain, input, out, err)
        }
        AnswerForm::Json => {
            let order = ReplayJson { schedule, limits };
            obey_order(alloc, &order, why, explain, input, out, err)
        }
    }
}

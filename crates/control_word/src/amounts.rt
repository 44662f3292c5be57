//! The amounts that a fiber's owner adds to its word. Each sum changes the fields that the call changes, and keeps the
//! request and waited bits as they are, so one `fetch_add` is the whole call.

ghost use Rattle.std.specs.Prelude.{◌≡◌};
ghost use Rattle.control_word.specs.Word.{Cuts, Finishes, Masks, Unmasks, finish_sum, kind_of};

use crate::control::{bit_of, joined};
use effect_term::Outcome;

/// The amount that, added to a word, makes the depth greater by 1 and adds one change. The fiber hasn't ended, its
/// depth is below 255 and its count below the greatest.
pub fn mask_amount() -> u64
    ensures law { Masks result }
{
    1_099_511_627_777
}

/// The amount that, subtracted from a word, makes the depth less by 1 and adds one change. The fiber hasn't ended, its
/// depth is above 0 and its count below the greatest.
pub fn unmask_amount() -> u64
    ensures law { Unmasks result }
{
    1_099_511_627_775
}

/// The amount that, added to a word, makes the fiber finalizing, at depth 1, and adds one change. The fiber is running
/// without a mask, and its count is below the greatest.
pub fn cut_amount() -> u64
    ensures law { Cuts result }
{
    282_574_488_338_433
}

/// The amount that, added to a word, ends the fiber with this outcome and adds one change. The fiber hasn't ended,
/// `finalizing` is whether it is finalizing, and its count is below the greatest. The amount is `1 + 2^48 (2 - phase) +
/// 2^50 kind`: the value of the outcome has a word of its own, which no amount changes.
pub fn finish_amount(finalizing: bool, outcome: Outcome) -> u64
    ensures law { Finishes finalizing outcome result }
    ensures sum { result ≡ finish_sum finalizing outcome }
{
    let word = joined(kind_number(outcome), 2, 2 - bit_of(finalizing));
    joined(word, 48, 1)
}

fn kind_number(outcome: Outcome) -> u64
    ensures { result ≡ kind_of outcome }
{
    match outcome {
        Outcome::Succeeded(_) => 1,
        Outcome::Errored(_) => 2,
        Outcome::Canceled => 3,
    }
}

//! The places of words in the table, and the replies that a word gives.
ghost use Rattle.std.specs.Prelude.{◌≡◌, ◌+◌};
ghost use Rattle.effect_term.specs.Values.{value_bits};
ghost use Rattle.control_word.specs.Word.{value_of};
ghost use Rattle.cell_registry.specs.Steps.{band_word};
ghost use Rattle.cell_registry.specs.Words.{TellsCancel, TellsEnd, TellsLook, TellsOutcome, TellsRead, value_place};

use crate::limits::{Band, Limits};
use control_word::{unpack, value_word, word_value};
use effect_term::{CancelReply, Outcome, Value};

/// The number of claim words, which come before the fibers' words.
pub(crate) const CLAIM_WORDS: usize = 3;

/// The bit that is set when a cancellation is requested.
pub(crate) const CANCEL: u64 = 1 << 52;

/// The bit that a join sets.
pub(crate) const WAITED: u64 = 1 << 53;

/// The bit that the word of a completed deferred has above its value.
pub(crate) const FILLED: u64 = 1 << 63;

// The phase of a fiber that has ended, as in its word.
const ENDED: u8 = 2;

// How a fiber ended, as in its word.
const SUCCEEDED: u8 = 1;

const ERRORED: u8 = 2;

/// The place of the band's claim word, which holds the next number.
pub(crate) fn claim_place(band: Band) -> usize
    ensures { result ≡ band_word band }
{
    match band {
        Band::Fibers => 0,
        Band::Refs => 1,
        Band::Deferreds => 2,
    }
}

/// The place of a fiber's word.
pub(crate) fn cell_place(fiber: u16) -> usize
    ensures { result ≡ fiber + 3 }
{
    usize::from(fiber) + CLAIM_WORDS
}

/// The place of a ref's word.
pub(crate) fn ref_place(limits: Limits, number: u16) -> usize
    ensures { result ≡ number + (3 + limits.fibers) }
{
    usize::from(number) + (CLAIM_WORDS + usize::from(limits.fibers))
}

/// The place of a deferred's word.
pub(crate) fn deferred_place(limits: Limits, number: u16) -> usize
    ensures { result ≡ number + (3 + limits.fibers + limits.refs) }
{
    usize::from(number) + (CLAIM_WORDS + usize::from(limits.fibers) + usize::from(limits.refs))
}

/// The place of a fiber's value word, behind all words of the other kinds.
pub(crate) fn value_place(limits: Limits, fiber: u16) -> usize
    ensures { result ≡ value_place limits fiber }
{
    let numbers = usize::from(limits.fibers)
        + usize::from(limits.refs)
        + usize::from(limits.deferreds);
    usize::from(fiber) + (CLAIM_WORDS + numbers)
}

/// The value word of a fiber that ends with this outcome.
pub(crate) fn outcome_word(outcome: &Outcome) -> u64
    ensures { result ≡ value_bits (value_of outcome.now) }
{
    match *outcome {
        Outcome::Succeeded(value) => value_word(value),
        Outcome::Errored(code) => value_word(code),
        Outcome::Canceled => 0,
    }
}

/// The reply to a read, from the word of a deferred.
pub(crate) fn read_answer(word: u64) -> Option<Value>
    ensures { TellsRead word result }
{
    if word == 0 {
        None
    } else {
        Some(word_value(word))
    }
}

/// The reply to a request for cancellation, from the word that it found.
pub(crate) fn cancel_answer(word: u64) -> CancelReply
    ensures { TellsCancel word result }
{
    let control = unpack(word);
    if control.phase == ENDED {
        CancelReply::Ended
    } else if control.cancel {
        CancelReply::Already
    } else {
        CancelReply::Asked
    }
}

/// Whether the fiber with this word has ended.
pub(crate) fn has_ended(word: u64) -> bool
    ensures { TellsEnd word result }
{
    unpack(word).phase == ENDED
}

/// How the fiber with this word ended; `value` is its value word.
pub(crate) fn outcome_answer(word: u64, value: u64) -> Outcome
    ensures { TellsOutcome word value result }
{
    let control = unpack(word);
    if control.kind == SUCCEEDED {
        Outcome::Succeeded(word_value(value))
    } else if control.kind == ERRORED {
        Outcome::Errored(word_value(value))
    } else {
        Outcome::Canceled
    }
}

/// Whether the request is set in the word.
pub(crate) fn look_answer(word: u64) -> bool
    ensures { TellsLook word result }
{
    unpack(word).cancel
}

//! The fields of a control word, and their places in it.

ghost use Rattle.std.specs.Prelude.{◌≡◌, ◌+◌, ◌*◌, ◌/◌, ◌%◌, ◌^◌, ◌<◌};
ghost use Rattle.control_word.specs.Word.{InRange, IsPackedFrom, bit, control_of, word_of};

/// The fields of a control word, from the lowest bits up.
#[derive(Clone, Copy, PartialEq, Eq, Debug)]
pub struct Control {
    /// The number of changes that the owner made to its cell, below 2^40.
    pub count: u64,
    /// The number of masks that the fiber is in.
    pub depth: u8,
    /// 0 running, 1 finalizing, 2 ended.
    pub phase: u8,
    /// How the fiber ended: 0 not yet, 1 succeeded, 2 errored, 3 canceled.
    pub kind: u8,
    /// Whether its cancellation was requested.
    pub cancel: bool,
    /// Whether another fiber waits for its end.
    pub waited: bool,
}

/// The word with these fields: `count + 2^40 depth + 2^48 phase + 2^50 kind + 2^52 cancel + 2^53 waited`. Each field is
/// in its range.
pub fn pack(control: Control) -> u64
    requires in_range { InRange control }
    ensures sum { result ≡ word_of control }
{
    let word = joined(bit_of(control.waited), 1, bit_of(control.cancel));
    let word = joined(word, 2, u64::from(control.kind));
    let word = joined(word, 2, u64::from(control.phase));
    let word = joined(word, 8, u64::from(control.depth));
    joined(word, 40, control.count)
}

/// The fields of the word: the inverse of `pack` for every packed word.
pub fn unpack(word: u64) -> Control
    ensures fields { result ≡ control_of word }
    ensures inverse { IsPackedFrom word result }
{
    Control {
        count: field(word, 0, 40),
        depth: field(word, 40, 8) as u8,
        phase: field(word, 48, 2) as u8,
        kind: field(word, 50, 2) as u8,
        cancel: field(word, 52, 1) == 1,
        waited: field(word, 53, 1) == 1,
    }
}

/// The word with `low` in its lowest `width` bits and `high` above them.
pub(crate) fn joined(high: u64, width: u32, low: u64) -> u64
    requires width { width < 64 }
    requires fits { high * 2 ^ width < 2 ^ 64 }
    requires low { low < 2 ^ width }
    ensures { result ≡ high * 2 ^ width + low }
{
    (high << width) | low
}

// The field of `width` bits at the bit `place`.
fn field(word: u64, place: u32, width: u32) -> u64
    requires place { place < 64 }
    requires width { width < 64 }
    ensures { result ≡ word / 2 ^ place % 2 ^ width }
{
    (word >> place) & ((1 << width) - 1)
}

pub(crate) fn bit_of(flag: bool) -> u64
    ensures { result ≡ bit flag }
{
    if flag { 1 } else { 0 }
}

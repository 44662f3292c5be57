//! Values in words: the word of a value has its 63 bits, and its highest bit is free.

ghost use Rattle.std.specs.Prelude.{◌≡◌, ◌%◌, ◌^◌};
ghost use Rattle.effect_term.specs.Values.{bits_value, value_bits};
ghost use Rattle.control_word.specs.Word.{IsWordOf};

use effect_term::Value;

// The low 63 bits of a word.
const LOW: u64 = 0x7fff_ffff_ffff_ffff;

/// The word of this value: the value modulo 2^63. [`word_value`] gives the value back.
pub fn value_word(value: Value) -> u64
    ensures bits { result ≡ value_bits value }
    ensures inverse { bits_value result ≡ value }
{
    value.get().cast_unsigned() & LOW
}

/// The value that differs from this word by a multiple of 2^63: the inverse of [`value_word`].
pub fn word_value(word: u64) -> Value
    ensures value { result ≡ bits_value (word % 2 ^ 63) }
    ensures inverse { IsWordOf word result }
{
    let bits = word & LOW;
    let number = if bits < 1 << 62 {
        bits as i64
    } else {
        -(((1 << 63) - bits) as i64)
    };
    match Value::of(number) {
        Some(value) => value,
        None => unreachable!(),
    }
}

//! Adds numbers, words and spaces to a text.

use itoa::{Buffer, Integer};
use std::alloc::AllocError;

/// Adds a number in digits. `AllocError` if memory runs out.
pub(crate) fn push_number<I: Integer>(told: &mut Vec<u8>, number: I) -> Result<(), AllocError> {
    let mut digits = Buffer::new();
    told.extend_from_slice(digits.format(number).as_bytes())
}

/// Adds a word, and then a number. `AllocError` if memory runs out.
pub(crate) fn push_about<I: Integer>(
    told: &mut Vec<u8>,
    word: &str,
    number: I,
) -> Result<(), AllocError> {
    told.extend_from_slice(word.as_bytes())?;
    push_number(told, number)
}

/// Adds a word. `AllocError` if memory runs out.
pub(crate) fn push_word(told: &mut Vec<u8>, word: &str) -> Result<(), AllocError> {
    told.extend_from_slice(word.as_bytes())
}

/// Adds a byte `times` times. `AllocError` if memory runs out.
pub(crate) fn push_times(told: &mut Vec<u8>, byte: u8, times: usize) -> Result<(), AllocError> {
    for _ in 0..times {
        told.push(byte)?;
    }
    Ok(())
}

/// The number of digits of a number.
pub(crate) fn width_of<I: Integer>(number: I) -> usize {
    let mut digits = Buffer::new();
    digits.format(number).len()
}

/// Adds a number of things: `1 claim`, `2 claims`. `AllocError` if memory runs out.
pub(crate) fn push_count(told: &mut Vec<u8>, count: usize, what: &str) -> Result<(), AllocError> {
    push_number(told, count)?;
    told.push(b' ')?;
    push_word(told, what)?;
    if count != 1 {
        told.push(b's')?;
    }
    Ok(())
}

/// Adds milliseconds as seconds, with two digits after the point. `AllocError` if memory runs out.
pub(crate) fn push_seconds(told: &mut Vec<u8>, milliseconds: u64) -> Result<(), AllocError> {
    let hundredths = milliseconds / 10;
    push_number(told, hundredths / 100)?;
    told.push(b'.')?;
    push_number(told, hundredths / 10 % 10)?;
    push_number(told, hundredths % 10)
}

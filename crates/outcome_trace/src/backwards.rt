//! Writes text from its end to its beginning, into a buffer that has room for it. So the digits of a number needn't be
//! counted first, and nothing is moved.

ghost use Rattle.std.specs.Prelude.{◌≡◌, ◌+◌, ◌≤◌, ◌<◌, ◌++◌, length, drop};
ghost use Rattle.std.specs.Fmt.{decimal, signed_decimal};
ghost use Rattle.std.specs.Str.{IsAscii};

use effect_term::Value;
use itoa::write_digits;

// Each of these functions writes a text that ends at `end`, and returns where it starts. The bytes from `end` on stay.

// Writes these words.
#[inline(always)]
pub(crate) fn put(room: &mut [u8], end: usize, words: &[u8]) -> usize
    requires start { length words.now ≤ end }
    requires end { end ≤ length room.old }
    ensures text { drop result room.new ≡ words.now ++ drop end room.old }
    ensures start { result + length words.now ≡ end }
{
    let mut start = end;
    let mut left = words.len();
    while left > 0 {
        left -= 1;
        start -= 1;
        room[start] = words[left];
    }
    start
}

// Writes the digit of a number below 10.
#[inline(always)]
fn put_digit(room: &mut [u8], end: usize, number: u64) -> usize
    requires digit { number < 10 }
    requires start { 1 ≤ end }
    requires end { end ≤ length room.old }
    ensures text { drop result room.new ≡ decimal number ++ drop end room.old }
    ensures start { result + 1 ≡ end }
    ensures one { length (decimal number) ≡ 1 }
{
    let digit = end - 1;
    room[digit] = b'0' + number as u8;
    digit
}

// Writes the digits of a number. Most numbers of a report have one digit, and none has more than 20.
#[inline(always)]
fn put_digits(room: &mut [u8], end: usize, number: u64) -> usize
    requires start { 20 ≤ end }
    requires end { end ≤ length room.old }
    ensures text { drop result room.new ≡ decimal number ++ drop end room.old }
    ensures start { result + length (decimal number) ≡ end }
{
    if number < 10 {
        return put_digit(room, end, number);
    }
    write_digits(number, room, end)
}

/// Writes the text `before`, and then these words.
#[inline(always)]
pub(crate) fn put_behind(room: &mut [u8], end: usize, before: &[u8], words: &[u8]) -> usize
    requires start { length before.now + length words.now ≤ end }
    requires end { end ≤ length room.old }
    ensures text { drop result room.new ≡ before.now ++ (words.now ++ drop end room.old) }
    ensures start { result + (length before.now + length words.now) ≡ end }
{
    let start = put(room, end, words);
    put(room, start, before)
}

/// Writes the text `before`, these words, and then a number of one digit, so that all places are known.
#[inline(always)]
pub(crate) fn put_short(
    room: &mut [u8],
    end: usize,
    before: &[u8],
    words: &[u8],
    number: u64,
) -> usize
    requires digit { number < 10 }
    requires start { length before.now + (length words.now + 1) ≤ end }
    requires end { end ≤ length room.old }
    ensures text { drop result room.new ≡ before.now ++ ((words.now ++ decimal number) ++ drop end room.old) }
    ensures start { result + (length before.now + (length words.now + 1)) ≡ end }
    ensures ascii { IsAscii (decimal number) }
{
    let digit = put_digit(room, end, number);
    put_behind(room, digit, before, words)
}

/// Writes the text `before`, these words, and then the number.
#[inline(always)]
pub(crate) fn put_number(
    room: &mut [u8],
    end: usize,
    before: &[u8],
    words: &[u8],
    number: u64,
) -> usize
    requires start { length before.now + (length words.now + 20) ≤ end }
    requires end { end ≤ length room.old }
    ensures text { drop result room.new ≡ before.now ++ ((words.now ++ decimal number) ++ drop end room.old) }
    ensures start { end ≤ result + (length before.now + (length words.now + 20)) }
    ensures within { result ≤ end }
    ensures ascii { IsAscii (decimal number) }
{
    let digits = put_digits(room, end, number);
    put_behind(room, digits, before, words)
}

/// Writes the text `before`, these words, and then the value with its sign.
#[inline(always)]
pub(crate) fn put_signed(
    room: &mut [u8],
    end: usize,
    before: &[u8],
    words: &[u8],
    value: Value,
) -> usize
    requires start { length before.now + (length words.now + 20) ≤ end }
    requires end { end ≤ length room.old }
    ensures text { drop result room.new ≡ before.now ++ ((words.now ++ signed_decimal value) ++ drop end room.old) }
    ensures start { end ≤ result + (length before.now + (length words.now + 20)) }
    ensures within { result ≤ end }
    ensures ascii { IsAscii (signed_decimal value) }
{
    let number = value.get();
    if number < 0 {
        let digits = put_digits(room, end, number.unsigned_abs());
        let sign = put(room, digits, b"-");
        return put_behind(room, sign, before, words);
    }
    put_number(room, end, before, words, number.unsigned_abs())
}

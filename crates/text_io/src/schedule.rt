//! A schedule's text: items `f` or `f*k`, separated by one space each.

ghost use Rattle.std.specs.Prelude.{◌≡◌, ◌≢◌, ◌+◌, ◌-◌, ◌<◌, ◌≤◌, ℕ, List, ◌++◌, ◌∷◌, [], IfOk, OnOk, IfSome, IfNone};
ghost use Rattle.std.specs.Prelude.{IsErrOf, length, replicate, take, MatchOption, vec_len};
ghost use Rattle.std.specs.Fmt.{decimal};
ghost use Rattle.text_io.specs.Schedule.{Item, IsItem, IsItemOf, spelling, SpellsEntries, IsFirstBad};
ghost use Rattle.text_io.specs.Schedule.{GivesEntries, RefusesAt, HasNo};
ghost use Rattle.text_io.specs.Digits.{is_plain};
ghost use Rattle.text_io.specs.Reading.{GoesOn};
ghost use Rattle.text_io.specs.declared.schedule.ScheduleError.TheVariants.{NoMemory};

use std::alloc::{AllocError, Global};
use thiserror::Error;

/// The greatest number of entries of a schedule.
pub const MOST_ENTRIES: usize = 1_000_000;

const MOST_FIBER: u32 = 999;

pub(crate) const MOST_TIMES: u32 = 100_000;

#[derive(Clone, Copy, Debug, PartialEq, Eq, Error)]
pub enum ScheduleError {
    #[error("no memory")]
    NoMemory,
    #[error("a bad item at byte {0}")]
    BadSchedule(usize),
}

impl From<AllocError> for ScheduleError {
    ghost from_gives = { λ _ e. e ≡ NoMemory };

    fn from(_error: AllocError) -> ScheduleError {
        ScheduleError::NoMemory
    }
}

// Whether there is no sign and no leading zero.
fn is_plain(digits: &[u8]) -> bool
    ensures { result ≡ is_plain digits.now }
{
    match digits {
        [] => false,
        [only] => *only != b'+',
        [first, ..] => *first > b'0',
    }
}

// A number in digits, without a leading zero, and at most `most`.
fn number(digits: &str, most: u32) -> Option<u32>
    ensures found { IfSome result (λ n. (n ≤ most) × (digits.now ≡ decimal n)) }
    ensures none { IfNone result ((n : ℕ) → n ≤ most → digits.now ≡ decimal n → ⊥) }
{
    if !is_plain(digits.as_bytes()) {
        return None;
    }
    match digits.parse::<u32>() {
        Ok(value) if value <= most => Some(value),
        _ => None,
    }
}

// The fiber of an item, and its number of times.
fn item(text: &str) -> Option<(u16, u32)>
    ensures found { IfSome result (λ found. IsItemOf text.now found.0 found.1) }
    ensures none { IfNone result ((i : Item) → IsItem i → text.now ≡ spelling i → ⊥) }
{
    match text.split_once('*') {
        None => {
            let Some(fiber) = number(text, MOST_FIBER) else {
                return None;
            };
            Some((fiber as u16, 1))
        }
        Some((front, back)) => {
            let Some(fiber) = number(front, MOST_FIBER) else {
                return None;
            };
            let Some(times) = number(back, MOST_TIMES) else {
                return None;
            };
            if times == 0 {
                return None;
            }
            Some((fiber as u16, times))
        }
    }
}

// The first item of a text, and the text behind its space.
fn first_item(text: &str) -> (&str, Option<&str>)
    ensures alone { HasNo 32 result.0.now }
    ensures parts { MatchOption result.1 (text.now ≡ result.0.now) (λ rest. text.now ≡ result.0.now ++ 32 ∷ rest.now) }
{
    match text.split_once(' ') {
        Some((first, rest)) => (first, Some(rest)),
        None => (text, None),
    }
}

// The number at the beginning of the bytes, at most `most` and without a leading zero, and the number of its digits;
// `None` if nothing follows it.
#[inline(always)]
fn lead(bytes: &[u8], most: u32) -> Option<(u32, usize)>
    requires { (9 ≤ most) × (most < 1000000) }
    ensures { IfSome result (λ found. (found.0 ≤ most) × (found.1 < length bytes.now) ×
        (take found.1 bytes.now ≡ decimal found.0)) }
{
    let first = *bytes.first()?;
    if first < b'0' || b'9' < first {
        return None;
    }
    let mut value = u32::from(first - b'0');
    for at in 1..bytes.len() {
        let byte = bytes[at];
        if byte < b'0' || b'9' < byte {
            return Some((value, at));
        }
        if value == 0 {
            return None;
        }
        value = value * 10 + u32::from(byte - b'0');
        if value > most {
            return None;
        }
    }
    None
}

// The number of times of an item that continues like this behind its fiber's number, and the index of the space behind
// the item.
#[inline(always)]
fn times_behind(bytes: &[u8]) -> Option<(u32, usize)>
    ensures { IfSome result (λ found. GoesOn bytes.now found.0 found.1) }
{
    match bytes {
        [b' ', ..] => Some((1, 0)),
        [b'*', behind @ ..] => {
            let (times, many) = lead(behind, MOST_TIMES)?;
            if times == 0 || behind[many] != b' ' {
                return None;
            }
            Some((times, many + 1))
        }
        _ => None,
    }
}

// The fiber of the first item, its number of times, and the text behind its space, if the item has the usual form.
// `None` decides nothing.
fn quick_item(text: &str) -> Option<(u16, u32, &str)>
    ensures { IfSome result (λ found. (first : List ℕ) × IsItemOf first found.0 found.1 ×
        (text.now ≡ first ++ 32 ∷ found.2.now)) }
{
    let bytes = text.as_bytes();
    let (fiber, digits) = lead(bytes, MOST_FIBER)?;
    let (times, space) = times_behind(&bytes[digits..])?;
    Some((fiber as u16, times, &text[digits + space + 1..]))
}

fn push_times(entries: &mut Vec<u16>, fiber: u16, times: u32) -> Result<(), AllocError>
    requires { vec_len entries.old ≤ MOST_ENTRIES }
    ensures { OnOk result (entries.new.items ≡ entries.old.items ++ replicate times fiber) }
{
    if times == 1 {
        entries.push(fiber)?;
        return Ok(());
    }
    let len = entries.len() + times as usize;
    entries.resize(len, fiber)
}

// The number of entries for which room is made at first. The room is enough if each item is one entry, since an item
// and its space have at least two bytes.
fn first_room(text: &str) -> usize {
    MOST_ENTRIES.min(text.len() / 2 + 1)
}

// The entries of a text that isn't empty.
fn read_items(alloc: Global, text: &str) -> Result<Vec<u16>, ScheduleError>
    requires { 0 < length text.now }
    ensures found { IfOk result (λ schedule. SpellsEntries text.now schedule.items) }
    ensures place { (place : ℕ) → IsErrOf result (ScheduleError.BadSchedule place) → IsFirstBad text.now place }
{
    let mut entries = Vec::with_capacity(alloc, first_room(text))?;
    let mut rest = text;
    'items: loop {
        if let Some((fiber, times, behind)) = quick_item(rest)
            && times as usize <= MOST_ENTRIES - entries.len()
        {
            push_times(&mut entries, fiber, times)?;
            rest = behind;
            continue;
        }
        let (first, behind) = first_item(rest);
        let place = text.len() - rest.len();
        let Some((fiber, times)) = item(first) else {
            return Err(ScheduleError::BadSchedule(place));
        };
        if times as usize > MOST_ENTRIES - entries.len() {
            return Err(ScheduleError::BadSchedule(place));
        }
        push_times(&mut entries, fiber, times)?;
        match behind {
            Some(behind) => rest = behind,
            None => return Ok(entries),
        }
    }
}

/// The entries of a schedule's text. A text has exactly one meaning: one list of entries, or one place of its first bad
/// item.
pub fn read_schedule(alloc: Global, text: &str) -> Result<Vec<u16>, ScheduleError>
    // An accepted text consists of items, and the result is their entries.
    ensures found { IfOk result (λ schedule. SpellsEntries text.now schedule.items) }
    ensures one_list { IfOk result (λ schedule. (entries : List ℕ) → SpellsEntries text.now entries →
        entries ≡ schedule.items) }

    // Each text of items is accepted, unless memory runs out.
    ensures only { (entries : List ℕ) → SpellsEntries text.now entries → GivesEntries entries result }

    // The place is that of the first item that is bad, or that exceeds `MOST_ENTRIES`.
    ensures place { (place : ℕ) → IsErrOf result (ScheduleError.BadSchedule place) → IsFirstBad text.now place }
    ensures one_place { (place : ℕ) → IsErrOf result (ScheduleError.BadSchedule place) → (other : ℕ) →
        IsFirstBad text.now other → other ≡ place }

    // A text with such an item is refused there, unless memory runs out.
    ensures refused { (place : ℕ) → IsFirstBad text.now place → RefusesAt place result }
{
    if text.is_empty() {
        return Ok(Vec::new(alloc));
    }
    read_items(alloc, text)
}

//! Why a schedule's text is bad.

ghost use Rattle.std.specs.Prelude.{◌≡◌, ◌++◌, ℕ, List, IfOk, false, string_bytes};
ghost use Rattle.text_io.specs.FaultLines.{schedule_line};
ghost use Rattle.reasons.specs.Schedules.{ExplainsSchedule};

use crate::excerpt::push_excerpt;
use crate::names::push_quoted;
use crate::place::position_at;
use crate::refusals::place_heading;
use std::alloc::{AllocError, Global};
use text_io::{ScheduleError, Status, TextOut, refuse_schedule, write_text};

/// Reports that a schedule's text is bad, or that there was no memory for its entries, as [`refuse_schedule`] does.
/// After the line about a bad text, writes the line and the column of the first bad item, the schedule with a mark
/// under the item, and what is wrong with the item. If memory runs out for these reasons, they are left out.
pub fn explain_schedule<E: TextOut>(
    alloc: Global,
    schedule: &str,
    error: ScheduleError,
    err: &mut E,
) -> Status
    requires { (E.seen err.old).failed ≡ false }
    ensures { ExplainsSchedule error (E.seen err.old) (E.seen err.new) result }
{
    let ScheduleError::BadSchedule(place) = error else {
        return refuse_schedule(error, err);
    };
    let Ok(told) = schedule_reasons(alloc, schedule.as_bytes(), place) else {
        return refuse_schedule(error, err);
    };
    let _ = write_text(told.as_slice(), err);
    Status::Usage
}

// The line of a bad schedule, and why it is bad.
fn schedule_reasons(alloc: Global, schedule: &[u8], place: usize) -> Result<Vec<u8>, AllocError>
    ensures { IfOk result (λ told. (rest : List ℕ) × (told.items ≡ schedule_line place ++ rest)) }
{
    let mut told = bad_line(alloc, place)?.into_bytes();
    let rest = item_text(alloc, schedule, place)?;
    told.extend_from_slice(rest.as_slice())?;
    Ok(told)
}

// The line that is also written without reasons.
fn bad_line(alloc: Global, place: usize) -> Result<String, AllocError>
    ensures { IfOk result (λ line. string_bytes line ≡ schedule_line place) }
{
    format!(in alloc; "fault 27 BadSchedule {place}\n")
}

// What is wrong with the item at the place.
fn item_text(alloc: Global, schedule: &[u8], place: usize) -> Result<Vec<u8>, AllocError> {
    let mut told = place_heading(alloc, position_at(schedule, place))?;
    let item = item_at(schedule, place);
    push_item(&mut told, item)?;
    push_excerpt(alloc, &mut told, schedule, place)?;
    told.extend_from_slice(item_fault(item))?;
    told.extend_from_slice(b"items are `f` or `f*k`, with one space between two of them\n")?;
    Ok(told)
}

// Appends that this can't be the next item, or that an item is missing: at the end of the text, or before a second
// space.
fn push_item(told: &mut Vec<u8>, item: &[u8]) -> Result<(), AllocError> {
    if item.is_empty() {
        return told.extend_from_slice(b"an item is missing\n");
    }
    push_quoted(told, item)?;
    told.extend_from_slice(b" can't be the next item\n")
}

// The item that begins at a place.
fn item_at(schedule: &[u8], place: usize) -> &[u8] {
    let Some(rest) = schedule.get(place..) else {
        return &[];
    };
    front_of(rest, b' ')
}

// The bytes before the first `end`.
fn front_of(bytes: &[u8], end: u8) -> &[u8] {
    for (at, byte) in bytes.iter().enumerate() {
        if *byte == end {
            return bytes.get(..at).unwrap_or(bytes);
        }
    }
    bytes
}

// What is wrong with an item, if it isn't missing.
fn item_fault(item: &[u8]) -> &'static [u8] {
    let fiber = front_of(item, b'*');
    if item.is_empty() {
        return b"";
    }
    if !is_number(fiber, 0, 999) {
        return b"the number of a fiber is 0 to 999, in digits and without zeros in front\n";
    }
    match item.get(fiber.len().saturating_add(1)..) {
        Some(times) if !is_number(times, 1, 100_000) => {
            b"behind `*` stands how many entries there are, 1 to 100000, in digits and without zeros in front\n"
        }
        _ => b"with this item the schedule has more than 1000000 entries\n",
    }
}

// Whether these are the digits of a number in a range, without leading zeros.
fn is_number(digits: &[u8], least: u32, most: u32) -> bool {
    let Some(first) = digits.first() else {
        return false;
    };
    if *first == b'0' && digits.len() > 1 {
        return false;
    }
    let mut number = 0u32;
    for digit in digits {
        if *digit < b'0' || b'9' < *digit {
            return false;
        }
        number = number
            .saturating_mul(10)
            .saturating_add(u32::from(*digit - b'0'));
    }
    least <= number && number <= most
}

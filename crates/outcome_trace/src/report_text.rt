//! The text of a report.

ghost use Rattle.std.specs.Prelude.{◌≡◌, ℤ, ◌+◌, ◌*◌, ◌≤◌, ◌++◌, false, IfOk, OnOk, IsErrOf};
ghost use Rattle.std.specs.Prelude.{codes, drop, length, string_bytes};
ghost use Rattle.std.specs.Str.{IsAscii};
ghost use Rattle.fiber_frames.specs.declared.mark.Mark.TheVariants as marks;
ghost use Rattle.text_io.specs.Text.{GoesOut, OnlyOutFaults, is_write_fault};
ghost use Rattle.std.specs.Fmt.{decimal};
ghost use Rattle.outcome_trace.specs.ReportText.{mark_text, later_marks_text, marks_text, outcome_text, fiber_line};
ghost use Rattle.outcome_trace.specs.ReportText.{text_of_fibers};

use crate::backwards::{put, put_behind, put_number, put_short, put_signed};
use effect_term::{Outcome, Value};
use fiber_frames::Mark;
use scheduled_core::{FiberReport, Report};
use std::alloc::{AllocError, Global};
use std::str;
use text_io::{TextFault, TextOut, write_text};

// The greatest length of a mark: the longest word, a space, and the 20 digits of the greatest number.
const LONGEST_MARK: usize = 30;

// The number of marks that are written at once.
const MARKS_AT_ONCE: usize = 32;

// Their greatest length, each with the comma before it.
const ROOM: usize = MARKS_AT_ONCE * (LONGEST_MARK + 2);

// The greatest length of an outcome behind its space: the longest word with a space, and the 20 bytes of a value.
const LONGEST_OUTCOME: usize = 32;

// The number of bytes for which a line gets room at first. The line of a fiber with three digits, an outcome with one
// digit and no mark has 22.
const USUAL_LINE: usize = 24;

// Writes a mark behind a comma or a colon with its space, so that it ends at `end`. Returns where they start.
#[inline(always)]
fn put_mark(room: &mut [u8], end: usize, before: &[u8; 2], mark: Mark) -> usize
    requires start { LONGEST_MARK + 2 ≤ end }
    requires end { end ≤ length room.old }
    ensures text { drop result room.new ≡ before.now ++ (mark_text mark ++ drop end room.old) }
    ensures start { end ≤ result + (LONGEST_MARK + 2) }
    ensures within { result ≤ end }
    ensures ascii { IsAscii (mark_text mark) }
{
    let Mark::Say(value) = mark else {
        return put_other_mark(room, end, before, mark);
    };
    // Most marks are a `say` of one digit. The code for others is in another function, to keep the loop over marks
    // short.
    let number = value.get();
    if 0 <= number && number < 10 {
        return put_short(room, end, before, b"say ", number.unsigned_abs());
    }
    put_long_say(room, end, before, value)
}

// A `say` of a number with more digits or a sign, written as [`put_mark`] does.
#[inline(never)]
fn put_long_say(room: &mut [u8], end: usize, before: &[u8; 2], value: Value) -> usize
    requires start { LONGEST_MARK + 2 ≤ end }
    requires end { end ≤ length room.old }
    ensures text { drop result room.new ≡ before.now ++ (mark_text (marks.Say value) ++ drop end room.old) }
    ensures start { end ≤ result + (LONGEST_MARK + 2) }
    ensures within { result ≤ end }
    ensures ascii { IsAscii (mark_text (marks.Say value)) }
{
    put_signed(room, end, before, b"say ", value)
}

// A mark other than `say`, written as [`put_mark`] does.
#[inline(never)]
fn put_other_mark(room: &mut [u8], end: usize, before: &[u8; 2], mark: Mark) -> usize
    requires other { (value : ℤ) → mark ≡ marks.Say value → ⊥ }
    requires start { LONGEST_MARK + 2 ≤ end }
    requires end { end ≤ length room.old }
    ensures text { drop result room.new ≡ before.now ++ (mark_text mark ++ drop end room.old) }
    ensures start { end ≤ result + (LONGEST_MARK + 2) }
    ensures within { result ≤ end }
    ensures ascii { IsAscii (mark_text mark) }
{
    match mark {
        Mark::Say(_) => unreachable!(),
        Mark::Enter(mask) => put_number(room, end, before, b"enter ", mask),
        Mark::Leave(mask) => put_number(room, end, before, b"leave ", mask),
        Mark::PollIn(mask) => put_number(room, end, before, b"in ", mask),
        Mark::PollOut(mask) => put_number(room, end, before, b"out ", mask),
        Mark::Cut => put_behind(room, end, before, b"cut"),
        Mark::Acquired(mask) => put_number(room, end, before, b"acquired ", mask),
        Mark::Releasing(mask) => put_number(room, end, before, b"releasing ", mask),
        Mark::Released(mask) => put_number(room, end, before, b"released ", mask),
        Mark::Dropped(code) => put_signed(room, end, before, b"dropped ", code),
    }
}

// Writes the marks behind the first one, from the last to the first, so that they end at the end of `room`. Returns
// where they start.
fn put_later_marks(room: &mut [u8], marks: &[Mark]) -> usize
    requires { length marks.now * (LONGEST_MARK + 2) ≤ length room.old }
    ensures text { drop result room.new ≡ later_marks_text marks.now }
    ensures within { result ≤ length room.new }
    ensures ascii { IsAscii (later_marks_text marks.now) }
{
    let mut start = room.len();
    let mut left = marks.len();
    while left > 0 {
        left -= 1;
        start = put_mark(room, start, b", ", marks[left]);
    }
    start
}

// Appends bytes that are proved to be text, and so aren't checked.
fn push_ascii(text: &mut String, bytes: &[u8]) -> Result<(), AllocError>
    requires { IsAscii bytes.now }
    ensures { OnOk result (string_bytes text.new ≡ string_bytes text.old ++ bytes.now) }
{
    text.push_str(unsafe { str::from_utf8_unchecked(bytes) })
}

// Appends the marks behind the first one, some at a time.
fn push_later_marks(
    text: &mut String,
    room: &mut [u8; ROOM],
    marks: &[Mark],
) -> Result<(), AllocError>
    ensures { OnOk result (string_bytes text.new ≡ string_bytes text.old ++ later_marks_text marks.now) }
{
    let mut left = marks;
    while !left.is_empty() {
        let (now, later) = left.split_at(left.len().min(MARKS_AT_ONCE));
        let start = put_later_marks(room, now);
        let bytes = &room[start..];
        // Reserves room for all remaining marks, if they are as long as these. A text that grows is moved, which costs
        // more than to write it.
        text.reserve(bytes.len().saturating_mul(left.len() / MARKS_AT_ONCE + 1))?;
        push_ascii(text, bytes)?;
        left = later;
    }
    Ok(())
}

// Appends the first mark, behind a colon.
fn push_first_mark(text: &mut String, room: &mut [u8; ROOM], mark: Mark) -> Result<(), AllocError>
    ensures { OnOk result (string_bytes text.new ≡ string_bytes text.old ++ (codes ": " ++ mark_text mark)) }
{
    let start = put_mark(room, ROOM, b": ", mark);
    push_ascii(text, &room[start..])
}

fn push_marks(text: &mut String, room: &mut [u8; ROOM], marks: &[Mark]) -> Result<(), AllocError>
    ensures { OnOk result (string_bytes text.new ≡ string_bytes text.old ++ marks_text marks.now) }
{
    let Some((first, later)) = marks.split_first() else {
        return Ok(());
    };
    push_first_mark(text, room, *first)?;
    push_later_marks(text, room, later)
}

// Writes the outcome of a fiber behind a space, so that it ends at `end`. Returns the place of the space.
#[inline(always)]
fn put_outcome(room: &mut [u8], end: usize, outcome: Option<Outcome>) -> usize
    requires start { LONGEST_OUTCOME ≤ end }
    requires end { end ≤ length room.old }
    ensures text { drop result room.new ≡ codes " " ++ (outcome_text outcome ++ drop end room.old) }
    ensures start { end ≤ result + LONGEST_OUTCOME }
    ensures within { result ≤ end }
    ensures ascii { IsAscii (outcome_text outcome) }
{
    let Some(ended) = outcome else {
        return put_behind(room, end, b" ", b"unended");
    };
    match ended {
        Outcome::Succeeded(value) => put_signed(room, end, b" ", b"succeeded ", value),
        Outcome::Errored(code) => put_signed(room, end, b" ", b"errored ", code),
        Outcome::Canceled => put_behind(room, end, b" ", b"canceled"),
    }
}

// Appends the number of a fiber, its outcome, and `behind`, which has at most one byte.
#[inline(always)]
fn push_head(
    text: &mut String,
    room: &mut [u8; ROOM],
    number: usize,
    outcome: Option<Outcome>,
    behind: &[u8],
) -> Result<(), AllocError>
    requires behind { length behind.now ≤ 1 }
    requires ascii { IsAscii behind.now }
    ensures { OnOk result (string_bytes text.new ≡ string_bytes text.old ++ (codes "fiber " ++
        (decimal number ++ (codes " " ++ (outcome_text outcome ++ behind.now))))) }
{
    let end = put(room, ROOM, behind);
    let end = put_outcome(room, end, outcome);
    let start = put_number(room, end, b"", b"fiber ", number as u64);
    push_ascii(text, &room[start..])
}

fn push_fiber(
    text: &mut String,
    room: &mut [u8; ROOM],
    number: usize,
    fiber: &FiberReport,
) -> Result<(), AllocError>
    ensures { OnOk result (string_bytes text.new ≡ string_bytes text.old ++ fiber_line number fiber.now) }
{
    let marks = fiber.marks.as_slice();
    if marks.is_empty() {
        return push_head(text, room, number, fiber.outcome, b"\n");
    }
    push_head(text, room, number, fiber.outcome, b"")?;
    push_marks(text, room, marks)?;
    text.push_str("\n")
}

/// The text of a report: a line for each fiber, in the order of their numbers. Returns `AllocError` if memory ran out.
pub fn text_of_report(alloc: Global, report: &Report) -> Result<String, AllocError>
    ensures { IfOk result (λ text. string_bytes text ≡ text_of_fibers report.now.fibers) }
{
    let fibers = report.fibers.as_slice();
    let mut text = String::with_capacity(alloc, fibers.len().saturating_mul(USUAL_LINE))?;
    let mut room = [0; ROOM];
    for (number, fiber) in fibers.iter().enumerate() {
        push_fiber(&mut text, &mut room, number, fiber)?;
    }
    Ok(text)
}

/// Writes the text of a report. If memory runs out, nothing is written.
pub fn print_report<T: TextOut>(
    alloc: Global,
    report: &Report,
    out: &mut T,
) -> Result<(), TextFault>
    requires { (T.seen out.old).failed ≡ false }

    // All of it is written, or as many of its first bytes as the fault says.
    ensures text { GoesOut (T.seen out.old).contents (T.seen out.new).contents (text_of_fibers report.now.fibers)
        result }
    ensures memory { IsErrOf result TextFault.NoMemory → out.new ≡ out.old }
    ensures only { OnlyOutFaults result }
    ensures failed { (T.seen out.new).failed ≡ is_write_fault result }
{
    let text = text_of_report(alloc, report)?;
    write_text(text.as_bytes(), out)
}

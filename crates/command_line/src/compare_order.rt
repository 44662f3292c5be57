//! The comparison of the programs of two files.

ghost use Rattle.std.specs.Prelude.{◌≡◌, ◌++◌, codes, false, IfErr, IfOk};
ghost use Rattle.command_line.specs.Comparings.{ComparesSecond, IsFileFault, IsFileText, IsPairNote, NotesPair};
ghost use Rattle.command_line.specs.Comparings.{ObeysCompare, WritesPair, side_line};
ghost use Rattle.text_io.specs.Telling.{Told};
ghost use Rattle.text_io.specs.declared.fault.TextFault.TheVariants.{ReadFault, TurnBound};

use command_words::Comparing;
use comparison_answers::{CompareOrder, answer_pair};
use file_kinds::is_model_file;
use outcome_trace::{FromRead, Status, TextFault, TextOut, read_text, tell_fault, write_text};
use std::alloc::Global;
use std::fs;
use std::rt::Files;

// The notes on a text that begins as a model file.
const FIRST_NOTE: &str =
    "first: this looks like a model file: `fiber_cli test FILE` tests it, and `fiber_cli terms FILE` \
     prints its terms\n";

const SECOND_NOTE: &str =
    "second: this looks like a model file: `fiber_cli test FILE` tests it, and `fiber_cli terms FILE` \
     prints its terms\n";

/// One of two files.
#[derive(Clone, Copy)]
pub(crate) enum Side {
    /// The first file.
    First,
    /// The second file.
    Second,
}

/// Compares the programs of two files. The first file is read and closed before the second is opened. Returns the
/// status of the answer, or `Status::Fault` if a file can't be opened or read, a device failed, or memory ran out. The
/// line of the fault goes to `err`.
pub fn obey_compare<R: Files, O: TextOut, E: TextOut>(
    rt: &R,
    alloc: Global,
    comparing: Comparing<'_>,
    out: &mut O,
    err: &mut E,
) -> Status
    requires out { (O.seen out.old).failed ≡ false }
    requires err { (E.seen err.old).failed ≡ false }
    ensures { ObeysCompare comparing.entry.order (O.seen out.old) (O.seen out.new) (E.seen err.old) (E.seen err.new)
        result }
{
    match file_text(rt, alloc, comparing.first) {
        Ok(text) => compare_second(rt, alloc, comparing, text.as_slice(), out, err),
        Err(fault) => tell_side(Side::First, fault, err),
    }
}

// The text of a file. The file is closed again.
fn file_text<R: Files>(rt: &R, alloc: Global, path: &str) -> Result<Vec<u8>, TextFault>
    ensures text { IfOk result (λ text. IsFileText text.items) }
    ensures fault { IfErr result IsFileFault }
{
    match fs::open(rt, path) {
        Ok(file) => {
            let mut input = FromRead::new(file);
            read_text(alloc, &mut input)
        }
        Err(_) => Err(TextFault::ReadFault),
    }
}

// The same, once the first text is read.
fn compare_second<R: Files, O: TextOut, E: TextOut>(
    rt: &R,
    alloc: Global,
    comparing: Comparing<'_>,
    one: &[u8],
    out: &mut O,
    err: &mut E,
) -> Status
    requires out { (O.seen out.old).failed ≡ false }
    requires err { (E.seen err.old).failed ≡ false }
    ensures { ComparesSecond comparing.entry.order one.now (O.seen out.old) (O.seen out.new) (E.seen err.old)
        (E.seen err.new) result }
{
    match file_text(rt, alloc, comparing.second) {
        Ok(text) => write_pair(alloc, &comparing.order, one, text.as_slice(), out, err),
        Err(fault) => tell_side(Side::Second, fault, err),
    }
}

// Writes the answer to two texts.
fn write_pair<O: TextOut, E: TextOut>(
    alloc: Global,
    order: &CompareOrder,
    one: &[u8],
    other: &[u8],
    out: &mut O,
    err: &mut E,
) -> Status
    requires out { (O.seen out.old).failed ≡ false }
    requires err { (E.seen err.old).failed ≡ false }
    ensures { WritesPair order.now one.now other.now (O.seen out.old) (O.seen out.new) (E.seen err.old)
        (E.seen err.new) result }
{
    let Ok(answer) = answer_pair(alloc, order, one, other) else {
        return tell_fault(TextFault::NoMemory, err);
    };
    match write_text(answer.text.as_slice(), out) {
        Ok(()) => {
            note_pair(one, other, err);
            answer.status
        }
        Err(fault) => tell_fault(fault, err),
    }
}

// Writes a note on the first of two texts that begins as a model file. Its answer is a refusal.
fn note_pair<E: TextOut>(one: &[u8], other: &[u8], err: &mut E)
    requires { (E.seen err.old).failed ≡ false }
    ensures { NotesPair one.now other.now (E.seen err.old) (E.seen err.new) }
{
    let _ = write_text(pair_note(one, other).as_bytes(), err);
}

// The note, or nothing if neither text begins as a model file.
fn pair_note(one: &[u8], other: &[u8]) -> &'static str
    ensures { IsPairNote one.now other.now result.now }
{
    if is_model_file(one) {
        FIRST_NOTE
    } else if is_model_file(other) {
        SECOND_NOTE
    } else {
        ""
    }
}

// Writes the line of a fault, with the name of the file if it can't be opened or read, or its end isn't found.
fn tell_side<E: TextOut>(side: Side, fault: TextFault, err: &mut E) -> Status
    requires { (E.seen err.old).failed ≡ false }
    ensures told { Told (side_line side fault) (E.seen err.old) (E.seen err.new) }
    ensures status { result ≡ Status.Fault }
{
    match fault {
        TextFault::ReadFault => {
            let _ = write_text(unread(side).as_bytes(), err);
            Status::Fault
        }
        TextFault::TurnBound => {
            let _ = write_text(unended(side).as_bytes(), err);
            Status::Fault
        }
        _ => tell_fault(fault, err),
    }
}

// The line for a file that can't be opened or read.
fn unread(side: Side) -> &'static str
    ensures { result.now ≡ side_line side ReadFault }
{
    match side {
        Side::First => "first: fault 23 ReadFault\n",
        Side::Second => "second: fault 23 ReadFault\n",
    }
}

// The line for a file whose end isn't found.
fn unended(side: Side) -> &'static str
    ensures { result.now ≡ side_line side TurnBound }
{
    match side {
        Side::First => "first: fault 25 TurnBound\n",
        Side::Second => "second: fault 25 TurnBound\n",
    }
}

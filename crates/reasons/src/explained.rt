//! Answers a text, and writes the reasons for the answer.

ghost use Rattle.std.specs.Prelude.{◌≡◌, ◌<◌, ◌^◌, ℕ, List, false, Err as Fails, Ok as GoesWell, IfErr, IfOk};
ghost use Rattle.text_io.specs.declared.status.Status.{Status};
ghost use Rattle.text_io.specs.Devices.{devices};
ghost use Rattle.text_io.specs.Exchange.{IsAnswered};
ghost use Rattle.reasons.specs.Explained.{Explained, IsKept, TellsReasons};

use outcome_trace::TextOrder;
use std::alloc::{AllocError, Global};
use text_io::{Status, TextFault, TextIn, TextOut, read_text, tell_fault, write_text};

/// The reasons of a text, beside its answer.
pub trait Reasons {
    // The possible reasons of a text.
    ghost tells: { Self → List ℕ → List ℕ → Type 0 };

    /// The reasons of a text, empty if there are none. Returns `AllocError` if memory ran out.
    fn reasons(&self, alloc: Global, text: &[u8]) -> Result<Vec<u8>, AllocError>
        ensures { IfOk result (λ told. tells self.now text.now told.items) };
}

// A text that was answered.
#[derive(Drop)]
struct Kept {
    // The text.
    text: Vec<u8>,
    // The status of its answer.
    status: Status,
}

/// Reads a text and writes its answer, as [`obey_text`](outcome_trace::obey_text) does for this order, and then writes
/// the text's reasons to the last device.
///
/// What is read, the answer and the status are those of `obey_text`. If there is a fault, only its line is written, and
/// no reasons. If memory runs out for the reasons, they are left out. If the last device fails, nothing more is
/// written.
pub fn obey_explained<A: TextOrder, X: Reasons, I: TextIn, O: TextOut, E: TextOut>(
    alloc: Global,
    order: &A,
    reasons: &X,
    input: &mut I,
    out: &mut O,
    err: &mut E,
) -> Status
    requires input { (I.seen input.old).failed ≡ false }
    requires countable { (I.seen input.old).reads < 2 ^ 63 }
    requires out { (O.seen out.old).failed ≡ false }
    requires err { (E.seen err.old).failed ≡ false }
    ensures { Explained (A.answers order.now) (X.tells reasons.now)
        (devices (I.seen input.old) (O.seen out.old) (E.seen err.old))
        (devices (I.seen input.new) (O.seen out.new) (E.seen err.new)) result }
{
    match keep_answered(alloc, order, input, out) {
        Ok(kept) => {
            tell_reasons(alloc, reasons, kept.text.as_slice(), err);
            kept.status
        }
        Err(fault) => tell_fault(fault, err),
    }
}

// Reads a text and writes its answer, as `answer_text` does, and keeps the text.
fn keep_answered<A: TextOrder, I: TextIn, O: TextOut>(
    alloc: Global,
    order: &A,
    input: &mut I,
    out: &mut O,
) -> Result<Kept, TextFault>
    requires input { (I.seen input.old).failed ≡ false }
    requires countable { (I.seen input.old).reads < 2 ^ 63 }
    requires out { (O.seen out.old).failed ≡ false }
    ensures kept { IfOk result (λ kept. IsKept (A.answers order.now) (I.seen input.old) (I.seen input.new)
        (O.seen out.old) (O.seen out.new) kept.text.items kept.status) }
    ensures fault { IfErr result (λ e. IsAnswered (A.answers order.now) (I.seen input.old) (I.seen input.new)
        (O.seen out.old) (O.seen out.new) (Fails e)) }
{
    let text = read_text(alloc, input)?;
    let answer = order.answer(alloc, text.as_slice())?;
    write_text(answer.text.as_slice(), out)?;
    Ok(Kept {
        text,
        status: answer.status,
    })
}

/// Writes the reasons of a text to a device. If memory runs out for them, they are left out. If the device fails,
/// nothing more is written.
pub fn tell_reasons<X: Reasons, E: TextOut>(alloc: Global, reasons: &X, text: &[u8], err: &mut E)
    requires { (E.seen err.old).failed ≡ false }
    ensures { TellsReasons (X.tells reasons.now text.now) (E.seen err.old) (E.seen err.new) }
{
    if let Ok(told) = reasons.reasons(alloc, text) {
        let _ = write_text(told.as_slice(), err);
    }
}

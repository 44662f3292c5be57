//! Reads a whole text and writes a whole answer, in the same way for all orders.

ghost use Rattle.std.specs.Prelude.{◌≡◌, ◌<◌, ◌^◌, ℕ, List, false, IfOk};
ghost use Rattle.text_io.specs.declared.status.Status.{Status};
ghost use Rattle.text_io.specs.Devices.{devices};
ghost use Rattle.text_io.specs.Exchange.{IsAnswered};
ghost use Rattle.text_io.specs.Telling.{Answered};

use std::alloc::{AllocError, Global};
use text_io::{Status, TextFault, TextIn, TextOut, read_text, status_of, write_text};

/// The bytes that are written for a text, and their status.
#[derive(Drop)]
pub struct Answer {
    /// The bytes.
    pub text: Vec<u8>,
    /// The exit status of the program.
    pub status: Status,
}

/// The order that a text is answered by.
pub trait TextOrder {
    // The possible answers to a text, with their statuses.
    ghost answers: { Self → List ℕ → List ℕ → Status → Type 0 };

    /// The answer to a text. Returns `AllocError` if memory ran out.
    fn answer(&self, alloc: Global, text: &[u8]) -> Result<Answer, AllocError>
        ensures { IfOk result (λ a. answers self.now text.now a.text.items a.status) };
}

/// Reads a text ([`read_text`]), and writes its answer ([`write_text`]). Returns the answer's status.
///
/// If memory runs out, the reader fails, or the input doesn't end within [`TEXT_BOUND`](text_io::TEXT_BOUND) reads,
/// nothing is written.
pub fn answer_text<A: TextOrder, I: TextIn, O: TextOut>(
    alloc: Global,
    order: &A,
    input: &mut I,
    out: &mut O,
) -> Result<Status, TextFault>
    requires input { (I.seen input.old).failed ≡ false }
    requires countable { (I.seen input.old).reads < 2 ^ 63 }
    requires out { (O.seen out.old).failed ≡ false }
    ensures { IsAnswered (A.answers order.now) (I.seen input.old) (I.seen input.new) (O.seen out.old) (O.seen out.new)
        result }
{
    let text = read_text(alloc, input)?;
    let answer = order.answer(alloc, text.as_slice())?;
    write_text(answer.text.as_slice(), out)?;
    Ok(answer.status)
}

/// Reads a text and writes its answer ([`answer_text`]). Returns the answer's status. If a device failed, the input
/// didn't end within `TEXT_BOUND` reads, or memory ran out, writes the line of the fault to the last device and returns
/// `Status::Fault`.
pub fn obey_text<A: TextOrder, I: TextIn, O: TextOut, E: TextOut>(
    alloc: Global,
    order: &A,
    input: &mut I,
    out: &mut O,
    err: &mut E,
) -> Status
    requires input { (I.seen input.old).failed ≡ false }
    requires countable { (I.seen input.old).reads < 2 ^ 63 }
    requires out { (O.seen out.old).failed ≡ false }
    requires err { (E.seen err.old).failed ≡ false }
    ensures { Answered (A.answers order.now) (devices (I.seen input.old) (O.seen out.old) (E.seen err.old))
        (devices (I.seen input.new) (O.seen out.new) (E.seen err.new)) result }
{
    let outcome = answer_text(alloc, order, input, out);
    status_of(outcome, err)
}

//! An order to answer a program with a note. The note goes to `err`.

ghost use Rattle.std.specs.Prelude.{◌≡◌, ◌<◌, ◌^◌, ℕ, List, false, Err as Fails, IfErr, IfOk};
ghost use Rattle.command_line.specs.Noting.{ObeysNoted};
ghost use Rattle.exploration_text.specs.Noting.{IsNotedAnswer};
ghost use Rattle.reasons.specs.Explained.{IsKept};
ghost use Rattle.text_io.specs.Devices.{devices};
ghost use Rattle.text_io.specs.Exchange.{IsAnswered};

use exploration_text::{NotedAnswer, NotedOrder};
use outcome_trace::{
    RefusalForm, Status, TextFault, TextIn, TextOut, read_program, read_text, tell_fault,
    write_text,
};
use reasons::{Reasons, tell_reasons};
use std::alloc::{AllocError, Global};

// A text whose answer was written, with its note and its status.
#[derive(Drop)]
struct Answered {
    text: Vec<u8>,
    note: Vec<u8>,
    status: Status,
}

/// Reads a text, writes the answer to its program, and then writes the note to `err`. Without a note, the reasons of
/// the text go to `err` if `explain` is set. If there is a fault, only its line goes to `err`. If `err` fails, nothing
/// more is written.
pub fn obey_noted<A: NotedOrder, X: Reasons, I: TextIn, O: TextOut, E: TextOut>(
    alloc: Global,
    order: &A,
    reasons: &X,
    explain: bool,
    input: &mut I,
    out: &mut O,
    err: &mut E,
) -> Status
    requires input { (I.seen input.old).failed ≡ false }
    requires countable { (I.seen input.old).reads < 2 ^ 63 }
    requires out { (O.seen out.old).failed ≡ false }
    requires err { (E.seen err.old).failed ≡ false }
    ensures { ObeysNoted A.Refusals.refuses (A.notes order.now) (X.tells reasons.now) explain
        (devices (I.seen input.old) (O.seen out.old) (E.seen err.old))
        (devices (I.seen input.new) (O.seen out.new) (E.seen err.new)) result }
{
    match answer_noted(alloc, order, input, out) {
        Ok(answered) => {
            if !answered.note.is_empty() {
                let _ = write_text(answered.note.as_slice(), err);
            } else if explain {
                tell_reasons(alloc, reasons, answered.text.as_slice(), err);
            }
            answered.status
        }
        Err(fault) => tell_fault(fault, err),
    }
}

// Reads a text and writes the answer to its program.
fn answer_noted<A: NotedOrder, I: TextIn, O: TextOut>(
    alloc: Global,
    order: &A,
    input: &mut I,
    out: &mut O,
) -> Result<Answered, TextFault>
    requires input { (I.seen input.old).failed ≡ false }
    requires countable { (I.seen input.old).reads < 2 ^ 63 }
    requires out { (O.seen out.old).failed ≡ false }
    ensures answered { IfOk result (λ a. IsKept (IsNotedAnswer A.Refusals.refuses (A.notes order.now) a.note.items)
        (I.seen input.old) (I.seen input.new) (O.seen out.old) (O.seen out.new) a.text.items a.status) }
    ensures fault { IfErr result (λ e. (note : List ℕ) ×
        IsAnswered (IsNotedAnswer A.Refusals.refuses (A.notes order.now) note)
        (I.seen input.old) (I.seen input.new) (O.seen out.old) (O.seen out.new) (Fails e)) }
{
    let text = read_text(alloc, input)?;
    let NotedAnswer { answer, note } = noted_text(alloc, order, text.as_slice())?;
    write_text(answer.text.as_slice(), out)?;
    Ok(Answered {
        text,
        note,
        status: answer.status,
    })
}

// The answer to a text, with its note. A refusal has no note.
fn noted_text<A: NotedOrder>(
    alloc: Global,
    order: &A,
    text: &[u8],
) -> Result<NotedAnswer, AllocError>
    ensures { IfOk result (λ n. IsNotedAnswer A.Refusals.refuses (A.notes order.now) n.note.items text.now
        n.answer.text.items n.answer.status) }
{
    match read_program(alloc, text) {
        Ok(program) => order.noted_answer(alloc, &program),
        Err(refused) => Ok(NotedAnswer {
            answer: A::Refusals::refused_answer(alloc, text, refused)?,
            note: Vec::new(alloc),
        }),
    }
}

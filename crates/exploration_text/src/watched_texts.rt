//! The exploration of a text's program, with lines that report its progress.

ghost use Rattle.std.specs.Prelude.{◌≡◌, ◌<◌, ◌^◌, ℕ, List, false, Err as Fails, IfErr, IfOk, Ok as GoesWell};
ghost use Rattle.std.specs.Prelude.{Result as TheResult, is_some};
ghost use Rattle.text_io.specs.declared.fault.TextFault.{TextFault as TheFault};
ghost use Rattle.text_io.specs.declared.status.Status.{Status as TheStatus};
ghost use Rattle.text_io.specs.Exchange.{IsAnswered};
ghost use Rattle.text_io.specs.Telling.{status_of};
ghost use Rattle.exploration_text.specs.Noting.{IsNotedAnswer};

use crate::noted::NotedAnswer;
use crate::progress::Progress;
use crate::watched_orders::WatchedOrder;
use every_schedule::Watcher;
use outcome_trace::{
    RefusalForm, Status, TextFault, TextIn, TextOut, read_program, read_text, write_text,
};
use std::alloc::{AllocError, Global};
use std::time::{Clock, Duration, Instant};

/// Reads a text, and writes the answer of the order, exactly as `obey_text` does with a
/// [`TimedOrder`](crate::TimedOrder) of these seconds. Meanwhile a line of progress goes to the last device at most
/// once a second, from the first second on, as `explored 120000 worlds, 61000 a second, depth 48`.
///
/// Returns the answer's status, or `Status::Fault` where a device failed, the input didn't end within `TEXT_BOUND`
/// reads, or memory ran out. The line of this fault goes to the last device, unless a write there has failed. A failure
/// of the last device changes nothing else.
pub fn obey_watched<C: Clock, W: WatchedOrder, I: TextIn, O: TextOut, E: TextOut>(
    clock: &C,
    alloc: Global,
    order: &W,
    seconds: Option<u64>,
    input: &mut I,
    out: &mut O,
    err: &mut E,
) -> Status
    requires input { (I.seen input.old).failed ≡ false }
    requires countable { (I.seen input.old).reads < 2 ^ 63 }
    requires out { (O.seen out.old).failed ≡ false }
    requires err { (E.seen err.old).failed ≡ false }
    ensures { (note : List ℕ) × (outcome : TheResult TheStatus TheFault) × IsAnswered (IsNotedAnswer W.Refusals.refuses
        (W.finds order.now (is_some seconds)) note) (I.seen input.old) (I.seen input.new) (O.seen out.old)
        (O.seen out.new) outcome × (result ≡ status_of outcome) }
{
    let mut progress = Progress {
        alloc,
        clock,
        begun: Instant::now(clock).ok(),
        seconds,
        stopped: false,
        told: Duration::ZERO,
        err,
        failed: false,
    };
    match watched_text(alloc, order, input, out, &mut progress) {
        Ok(watched) => {
            progress.tell_note(watched.note.as_slice());
            watched.status
        }
        Err(fault) => progress.tell_fault(fault),
    }
}

// An answer that was written: its note and its status.
#[derive(Drop)]
struct Watched {
    note: Vec<u8>,
    status: Status,
}

// Reads a text, and writes its answer, while its search is watched.
fn watched_text<W: WatchedOrder, I: TextIn, O: TextOut, V: Watcher>(
    alloc: Global,
    order: &W,
    input: &mut I,
    out: &mut O,
    watcher: &mut V,
) -> Result<Watched, TextFault>
    requires input { (I.seen input.old).failed ≡ false }
    requires countable { (I.seen input.old).reads < 2 ^ 63 }
    requires out { (O.seen out.old).failed ≡ false }
    ensures watched { IfOk result (λ w. IsAnswered (IsNotedAnswer W.Refusals.refuses
        (W.finds order.now (V.can_stop watcher.old)) w.note.items)
        (I.seen input.old) (I.seen input.new) (O.seen out.old) (O.seen out.new) (GoesWell w.status)) }
    ensures fault { IfErr result (λ e. (note : List ℕ) × IsAnswered (IsNotedAnswer W.Refusals.refuses
        (W.finds order.now (V.can_stop watcher.old)) note)
        (I.seen input.old) (I.seen input.new) (O.seen out.old) (O.seen out.new) (Fails e)) }
{
    let text = read_text(alloc, input)?;
    let NotedAnswer { answer, note } = read_answer(alloc, text.as_slice(), order, watcher)?;
    write_text(answer.text.as_slice(), out)?;
    Ok(Watched {
        note,
        status: answer.status,
    })
}

// The answer to a text, with its note. A refusal has no note.
fn read_answer<W: WatchedOrder, V: Watcher>(
    alloc: Global,
    text: &[u8],
    order: &W,
    watcher: &mut V,
) -> Result<NotedAnswer, AllocError>
    ensures { IfOk result (λ n. IsNotedAnswer W.Refusals.refuses (W.finds order.now (V.can_stop watcher.old))
        n.note.items text.now n.answer.text.items n.answer.status) }
{
    match read_program(alloc, text) {
        Ok(program) => order.answer_watched(alloc, &program, watcher),
        Err(refused) => Ok(NotedAnswer {
            answer: W::Refusals::refused_answer(alloc, text, refused)?,
            note: Vec::new(alloc),
        }),
    }
}

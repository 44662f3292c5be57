//! The sample of the schedules of a text's program.

ghost use Rattle.std.specs.Prelude.{◌≡◌, ◌≢◌, ◌<◌, ◌^◌, ℕ, List, [], Err as Fails, IfErr, IfOk, Ok as Answered};
ghost use Rattle.std.specs.Prelude.{false, true};
ghost use Rattle.claim_answers.specs.Drawn.{IsSampledClaims};
ghost use Rattle.command_line.specs.Samplings.{ObeysSample, SeesText, samples_alone};
ghost use Rattle.command_words.specs.Requests.{HasNoTexts};
ghost use Rattle.text_io.specs.Devices.{devices};
ghost use Rattle.text_io.specs.Exchange.{IsAnswered};

use crate::judge_order::{Judged, asked_of, refuse_claim};
use crate::noted::obey_noted;
use claim_answers::{Asked, answer_sampled_claims};
use command_words::Sampling;
use exploration_text::{NotedAnswer, SampleOrder};
use json_answers::SampleJson;
use outcome_trace::{Status, TextFault, TextIn, TextOut, read_text, tell_fault, write_text};
use reasons::TextReasons;
use std::alloc::Global;

/// Draws schedules of a text's program at random, and answers with what was seen of the claims, and with the reports
/// and faults of the schedules. Returns the status of the answer, `Status::Usage` if a text spells no claim or a claim
/// names a ref whose number isn't known or that the limits don't allow, or `Status::Fault` if a device failed or memory
/// ran out. All but the answer goes to `err`, also the wanted outcomes to which no schedule led. A text that spells no
/// claim, or one on a ref of a number that the limits don't allow, is refused before the program's text is read.
pub fn obey_sample<I: TextIn, O: TextOut, E: TextOut>(
    alloc: Global,
    sampling: Sampling<'_>,
    input: &mut I,
    out: &mut O,
    err: &mut E,
) -> Status
    requires input { (I.seen input.old).failed ≡ false }
    requires countable { (I.seen input.old).reads < 2 ^ 63 }
    requires out { (O.seen out.old).failed ≡ false }
    requires err { (E.seen err.old).failed ≡ false }
    ensures obeyed { ObeysSample sampling.entry (devices (I.seen input.old) (O.seen out.old) (E.seen err.old))
        (devices (I.seen input.new) (O.seen out.new) (E.seen err.new)) result }
    ensures ends { HasNoTexts sampling.entry → result ≢ Status.Usage }
{
    let Sampling {
        order,
        json,
        always,
        never,
        reach,
    } = sampling;
    let held = always.as_slice();
    let barred = never.as_slice();
    let sought = reach.as_slice();
    if are_none(held, barred, sought) {
        return obey_plain(alloc, order, json, input, out, err);
    }
    match asked_of(alloc, held, barred, sought, order.limits.refs) {
        Ok(asked) => obey_asked(alloc, order, json, asked.as_slice(), input, out, err),
        Err(fault) => refuse_claim(alloc, fault, err),
    }
}

// Whether there are no claims.
fn are_none(always: &[&str], never: &[&str], reach: &[&str]) -> bool
    ensures none { result ≡ true → (always.now ≡ []) × (never.now ≡ []) × (reach.now ≡ []) }
    ensures some { result ≡ false → (always.now ≡ []) × (never.now ≡ []) × (reach.now ≡ []) → ⊥ }
{
    always.is_empty() && never.is_empty() && reach.is_empty()
}

// Answers without claims.
fn obey_plain<I: TextIn, O: TextOut, E: TextOut>(
    alloc: Global,
    order: SampleOrder,
    json: bool,
    input: &mut I,
    out: &mut O,
    err: &mut E,
) -> Status
    requires input { (I.seen input.old).failed ≡ false }
    requires countable { (I.seen input.old).reads < 2 ^ 63 }
    requires out { (O.seen out.old).failed ≡ false }
    requires err { (E.seen err.old).failed ≡ false }
    ensures obeyed { samples_alone json order (devices (I.seen input.old) (O.seen out.old) (E.seen err.old))
        (devices (I.seen input.new) (O.seen out.new) (E.seen err.new)) result }
    ensures ends { result ≢ Status.Usage }
{
    if json {
        let order = SampleJson { order };
        obey_noted(alloc, &order, &TextReasons, false, input, out, err)
    } else {
        obey_noted(alloc, &order, &TextReasons, false, input, out, err)
    }
}

// Answers with the claims of `asked`.
fn obey_asked<I: TextIn, O: TextOut, E: TextOut>(
    alloc: Global,
    order: SampleOrder,
    json: bool,
    asked: &[Asked<'_>],
    input: &mut I,
    out: &mut O,
    err: &mut E,
) -> Status
    requires input { (I.seen input.old).failed ≡ false }
    requires countable { (I.seen input.old).reads < 2 ^ 63 }
    requires out { (O.seen out.old).failed ≡ false }
    requires err { (E.seen err.old).failed ≡ false }
    ensures { SeesText order json asked.now (devices (I.seen input.old) (O.seen out.old) (E.seen err.old))
        (devices (I.seen input.new) (O.seen out.new) (E.seen err.new)) result }
{
    match answer_asked(alloc, order, json, asked, input, out) {
        Ok(judged) => {
            if !judged.note.is_empty() {
                let _ = write_text(judged.note.as_slice(), err);
            }
            judged.status
        }
        Err(fault) => tell_fault(fault, err),
    }
}

// Reads a text and writes the answer to it.
fn answer_asked<I: TextIn, O: TextOut>(
    alloc: Global,
    order: SampleOrder,
    json: bool,
    asked: &[Asked<'_>],
    input: &mut I,
    out: &mut O,
) -> Result<Judged, TextFault>
    requires input { (I.seen input.old).failed ≡ false }
    requires countable { (I.seen input.old).reads < 2 ^ 63 }
    requires out { (O.seen out.old).failed ≡ false }
    ensures answered { IfOk result (λ j. IsAnswered (IsSampledClaims json order asked.now j.note.items)
        (I.seen input.old) (I.seen input.new) (O.seen out.old) (O.seen out.new) (Answered j.status)) }
    ensures fault { IfErr result (λ e. (note : List ℕ) ×
        IsAnswered (IsSampledClaims json order asked.now note)
        (I.seen input.old) (I.seen input.new) (O.seen out.old) (O.seen out.new) (Fails e)) }
{
    let text = read_text(alloc, input)?;
    let NotedAnswer { answer, note } = answer_sampled_claims(
        alloc,
        order,
        json,
        asked,
        text.as_slice(),
    )?;
    write_text(answer.text.as_slice(), out)?;
    Ok(Judged {
        note,
        status: answer.status,
    })
}

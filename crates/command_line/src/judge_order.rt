//! Claims on a text's program.

ghost use Rattle.std.specs.Prelude.{◌≡◌, ◌⊎◌, ◌<◌, ◌^◌, ℕ, List, false, Err as Fails, IfErr, IfOk, Ok as Answered, map};
ghost use Rattle.claim_answers.specs.Claims.{AreMade, question_of, questions};
ghost use Rattle.claim_answers.specs.ClaimsAnswers.{IsClaimsAnswer};
ghost use Rattle.command_line.specs.Judgings.{JudgesText, ObeysJudge, claim_form};
ghost use Rattle.command_words.specs.Telling.{LacksMemory, TellsWrong};
ghost use Rattle.text_io.specs.Devices.{devices};
ghost use Rattle.text_io.specs.Exchange.{IsAnswered};

use claim_answers::{AskFault, Asked, ClaimFault, ClaimForm, Rule, answer_claims, read_asked};
use command_words::{ExploreForm, Judging, refuse_words, value_reason};
use exploration_text::{ExploreOrder, NotedAnswer};
use outcome_trace::{Status, TextFault, TextIn, TextOut, read_text, tell_fault, write_text};
use std::alloc::{AllocError, Global};

/// An answer that was written.
#[derive(Drop)]
pub(crate) struct Judged {
    /// Its note.
    pub(crate) note: Vec<u8>,
    /// Its status.
    pub(crate) status: Status,
}

/// Judges claims on a text's program. Returns the status of the answer, `Status::Usage` if a text spells no claim or a
/// claim names a ref whose number isn't known or that the limits don't allow, or `Status::Fault` if a device failed or
/// memory ran out. All but the answer goes to `err`. A text that spells no claim, or one on a ref of a number that the
/// limits don't allow, is refused before the program's text is read.
pub fn obey_judge<I: TextIn, O: TextOut, E: TextOut>(
    alloc: Global,
    judging: Judging<'_>,
    input: &mut I,
    out: &mut O,
    err: &mut E,
) -> Status
    requires input { (I.seen input.old).failed ≡ false }
    requires countable { (I.seen input.old).reads < 2 ^ 63 }
    requires out { (O.seen out.old).failed ≡ false }
    requires err { (E.seen err.old).failed ≡ false }
    ensures { ObeysJudge judging.entry (devices (I.seen input.old) (O.seen out.old) (E.seen err.old))
        (devices (I.seen input.new) (O.seen out.new) (E.seen err.new)) result }
{
    let Judging {
        order,
        form,
        always,
        never,
        reach,
    } = judging;
    let refs = order.limits.refs;
    match asked_of(
        alloc,
        always.as_slice(),
        never.as_slice(),
        reach.as_slice(),
        refs,
    ) {
        Ok(asked) => {
            let form = claim_form(form);
            obey_asked(alloc, order, form, asked.as_slice(), input, out, err)
        }
        Err(fault) => refuse_claim(alloc, fault, err),
    }
}

/// The claims that the texts of the three options spell, in their order. At most `refs` refs can be made.
pub(crate) fn asked_of<'a>(
    alloc: Global,
    always: &[&'a str],
    never: &[&'a str],
    reach: &[&'a str],
    refs: u16,
) -> Result<Vec<Asked<'a>>, AskFault<'a>>
    ensures read { IfOk result (λ asked. map question_of asked.items ≡ questions (map (λ s. s.now) always.now)
        (map (λ s. s.now) never.now) (map (λ s. s.now) reach.now)) }
    ensures made { IfOk result (λ asked. AreMade refs asked.items) }
{
    let mut asked = Vec::new(alloc);
    read_asked(alloc, Rule::Always, always, refs, &mut asked)?;
    read_asked(alloc, Rule::Never, never, refs, &mut asked)?;
    read_asked(alloc, Rule::Reach, reach, refs, &mut asked)?;
    Ok(asked)
}

// The form of the verdicts.
fn claim_form(form: ExploreForm) -> ClaimForm
    ensures { result ≡ claim_form form }
{
    match form {
        ExploreForm::Report => ClaimForm::Report,
        ExploreForm::Timeline => ClaimForm::Timeline,
        ExploreForm::Json => ClaimForm::Json,
    }
}

// Judges the claims of `asked`.
fn obey_asked<I: TextIn, O: TextOut, E: TextOut>(
    alloc: Global,
    order: ExploreOrder,
    form: ClaimForm,
    asked: &[Asked<'_>],
    input: &mut I,
    out: &mut O,
    err: &mut E,
) -> Status
    requires input { (I.seen input.old).failed ≡ false }
    requires countable { (I.seen input.old).reads < 2 ^ 63 }
    requires out { (O.seen out.old).failed ≡ false }
    requires err { (E.seen err.old).failed ≡ false }
    ensures { JudgesText order form asked.now (devices (I.seen input.old) (O.seen out.old) (E.seen err.old))
        (devices (I.seen input.new) (O.seen out.new) (E.seen err.new)) result }
{
    match answer_asked(alloc, order, form, asked, input, out) {
        Ok(judged) => {
            if !judged.note.is_empty() {
                let _ = write_text(judged.note.as_slice(), err);
            }
            judged.status
        }
        Err(fault) => tell_fault(fault, err),
    }
}

// Reads a text and writes the answer to it.
fn answer_asked<I: TextIn, O: TextOut>(
    alloc: Global,
    order: ExploreOrder,
    form: ClaimForm,
    asked: &[Asked<'_>],
    input: &mut I,
    out: &mut O,
) -> Result<Judged, TextFault>
    requires input { (I.seen input.old).failed ≡ false }
    requires countable { (I.seen input.old).reads < 2 ^ 63 }
    requires out { (O.seen out.old).failed ≡ false }
    ensures answered { IfOk result (λ j. IsAnswered (IsClaimsAnswer form order asked.now j.note.items)
        (I.seen input.old) (I.seen input.new) (O.seen out.old) (O.seen out.new) (Answered j.status)) }
    ensures fault { IfErr result (λ e. (note : List ℕ) ×
        IsAnswered (IsClaimsAnswer form order asked.now note)
        (I.seen input.old) (I.seen input.new) (O.seen out.old) (O.seen out.new) (Fails e)) }
{
    let text = read_text(alloc, input)?;
    let NotedAnswer { answer, note } = answer_claims(alloc, order, form, asked, text.as_slice())?;
    write_text(answer.text.as_slice(), out)?;
    Ok(Judged {
        note,
        status: answer.status,
    })
}

/// Writes that a text spells no claim.
pub(crate) fn refuse_claim<E: TextOut>(alloc: Global, fault: AskFault<'_>, err: &mut E) -> Status
    requires { (E.seen err.old).failed ≡ false }
    ensures { TellsWrong (E.seen err.old) (E.seen err.new) result ⊎
        LacksMemory (E.seen err.old) (E.seen err.new) result }
{
    match claim_reason(alloc, fault) {
        Ok(reason) => refuse_words(alloc, reason.as_str(), err),
        Err(_) => tell_fault(TextFault::NoMemory, err),
    }
}

// The reason that a text spells no claim, or `AllocError` if memory ran out.
fn claim_reason(alloc: Global, fault: AskFault<'_>) -> Result<String, AllocError> {
    let expected = match fault.fault {
        ClaimFault::Expected(what, place) => format!(in alloc; "expected {what} at {place}")?,
        ClaimFault::Unmade(number, refs) => unmade_reason(alloc, number, refs)?,
        ClaimFault::NoMemory => return Err(AllocError),
    };
    value_reason(alloc, fault.text, option_of(fault.rule), expected.as_str())
}

// The reason that no run makes the ref of this number: at most `refs` are made.
fn unmade_reason(alloc: Global, number: u16, refs: u16) -> Result<String, AllocError> {
    let last = refs.saturating_sub(1);
    let more = number.saturating_add(1);
    format!(in alloc;
        "it names ref {number}, but refs are numbered from 0, and with '--refs {refs}' the last is ref {last}; \
         '--refs {more}' allows it"
    )
}

// The option of a claim, as help writes it.
fn option_of(rule: Rule) -> &'static str {
    match rule {
        Rule::Always => "--always <CLAIM>",
        Rule::Never => "--never <CLAIM>",
        Rule::Reach => "--reach <CLAIM>",
    }
}

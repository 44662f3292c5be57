//! The answers to a text about claims.

ghost use Rattle.std.specs.Prelude.{◌≡◌, ◌⊎◌, ◌+◌, ◌++◌, ℕ, List, IfOk, drop, length, take};
ghost use Rattle.std.specs.List.{All};
ghost use Rattle.cell_registry.specs.Cells.{AreLimits};
ghost use Rattle.derived_ops.specs.Expansion.{code_of};
ghost use Rattle.derived_ops.specs.Reading.{source_of};
ghost use Rattle.outcome_trace.specs.Answers.{IsRefused};
ghost use Rattle.claim_words.specs.Spacing.{spaced_text};
ghost use Rattle.claim_answers.specs.Claims.{IsSought, Pairwise};
ghost use Rattle.claim_answers.specs.ClaimsAnswers.{IsClaimsAnswer, IsJudgedAnswer, IsUnnamedAnswer, explored_as};
ghost use Rattle.claim_answers.specs.ClaimsAnswers.{reason_text, refuses_as, unnamed_note};
ghost use Rattle.claim_answers.specs.Private.Met.{AreJudgedBy, IsSpellable};
ghost use Rattle.claim_answers.specs.Unchecked.{AreUnchecked};
ghost use Rattle.claim_answers.specs.Verdicts.{AreLines, IsLine, claims_status, gap, worse};

use crate::asked::Asked;
use crate::judging::{Verdict, judge, soughts_of};
pub use crate::lines::ClaimForm;
use crate::lines::claim_lines;
use crate::moments::{Among, unchecked_lines, with_moments};
use crate::statuses::{claims_status, worse};
use cell_registry::Limits;
use claim_words::{NumberFault, RefFault, spaced_text};
use effect_term::Program;
use every_schedule::{Claim, Unwatched};
use exploration_text::{ExploreOrder, NotedAnswer, WatchedOrder};
use json_answers::{ExploreJson, InJson};
use outcome_trace::{Answer, InWords, RefusalForm, Refused, Status, read_program};
use std::alloc::{AllocError, Global};
use timelines::ExploreTimelineOrder;

// The lines of claims with their verdicts, the status that the verdicts give, and the notes on claims that are checked
// at no moment.
#[derive(Drop)]
pub(crate) struct Judged {
    pub(crate) lines: Vec<u8>,
    pub(crate) status: Status,
    pub(crate) notes: Vec<u8>,
}

/// Answers a text about claims: a line for each claim, in their order, and then the answer of `explore` without claims,
/// with its note. Before that note there is a line for each claim that is checked at no moment, if that is certain: no
/// schedule sets each ref that the claim names. The status is `Status::Errored` if a claim is refuted or something
/// unwanted was found, else `Status::Unended` if a claim is undecided or a bound was reached, else `Status::Succeeded`.
/// A refused text is answered by its refusal alone.
///
/// Each claim is checked in every world to which a schedule leads, within the bounds of the order. If a claim names a
/// ref whose number isn't known ([`RefFault`]), the answer is empty, its status is `Status::Usage`, and the note gives
/// the reason.
pub fn answer_claims<'a>(
    alloc: Global,
    order: ExploreOrder,
    form: ClaimForm,
    asked: &[Asked<'a>],
    text: &[u8],
) -> Result<NotedAnswer, AllocError>
    ensures { IfOk result (λ n. IsClaimsAnswer form order asked.now n.note.items text.now n.answer.text.items
        n.answer.status) }
{
    match read_program(alloc, text) {
        Ok(program) => judged_answer(alloc, order, form, asked, text, &program),
        Err(refused) => Ok(NotedAnswer {
            answer: refused_answer(alloc, form, text, refused)?,
            note: Vec::new(alloc),
        }),
    }
}

/// The answer to a refused text.
pub(crate) fn refused_answer(
    alloc: Global,
    form: ClaimForm,
    text: &[u8],
    refused: Refused,
) -> Result<Answer, AllocError>
    requires { IsRefused text.now refused }
    ensures { IfOk result (λ a. refuses_as form text.now a.text.items a.status) }
{
    match form {
        ClaimForm::Report | ClaimForm::Timeline => InWords::refused_answer(alloc, text, refused),
        ClaimForm::Json => InJson::refused_answer(alloc, text, refused),
    }
}

// The answer to a text that spells a program.
fn judged_answer<'a>(
    alloc: Global,
    order: ExploreOrder,
    form: ClaimForm,
    asked: &[Asked<'a>],
    text: &[u8],
    program: &Program,
) -> Result<NotedAnswer, AllocError>
    ensures { IfOk result (λ n. IsJudgedAnswer form order asked.now text.now n.note.items program.now
        n.answer.text.items n.answer.status ⊎
        IsUnnamedAnswer n.note.items n.answer.text.items n.answer.status) }
{
    let spaced = spaced_text(alloc, text)?;
    match soughts_of(alloc, spaced.as_slice(), asked) {
        Ok(soughts) => sought_answer(alloc, order, form, asked, program, soughts),
        Err(NumberFault::Unknown(name, fault)) => unnamed_answer(alloc, name, fault),
        Err(NumberFault::NoMemory) => Err(AllocError),
    }
}

// The same, once the words that decide each claim are known.
fn sought_answer(
    alloc: Global,
    order: ExploreOrder,
    form: ClaimForm,
    asked: &[Asked<'_>],
    program: &Program,
    soughts: Vec<Claim>,
) -> Result<NotedAnswer, AllocError>
    requires { length asked.now ≡ length soughts.items }
    ensures { IfOk result (λ n. (text : List ℕ) → Pairwise (IsSought (spaced_text text)) asked.now soughts.items →
        IsJudgedAnswer form order asked.now text n.note.items program.now n.answer.text.items n.answer.status) }
{
    let judged = judged_of(alloc, &order, form, asked, program, soughts)?;
    let rest = explored_answer(alloc, order, form, program)?;
    let answer = with_lines(form, judged, rest)?;
    Ok(answer)
}

/// The answer if a claim names a ref whose number isn't known.
pub(crate) fn unnamed_answer(
    alloc: Global,
    name: &[u8],
    fault: RefFault,
) -> Result<NotedAnswer, AllocError>
    ensures { IfOk result (λ n. IsUnnamedAnswer n.note.items n.answer.text.items n.answer.status) }
{
    let note = unnamed_note(alloc, name, fault)?;
    Ok(NotedAnswer {
        answer: Answer {
            text: Vec::new(alloc),
            status: Status::Usage,
        },
        note,
    })
}

// The note on why the number of a ref isn't known.
fn unnamed_note(alloc: Global, name: &[u8], fault: RefFault) -> Result<Vec<u8>, AllocError>
    ensures { IfOk result (λ note. note.items ≡ unnamed_note name.now fault) }
{
    let mut note = Vec::from_slice(alloc, b"error: a claim names the ref '")?;
    note.extend_from_slice(name)?;
    note.extend_from_slice(reason_text(fault))?;
    note.extend_from_slice(b"\n\nFor more information, try '--help'.\n")?;
    Ok(note)
}

// The end of the note's sentence.
fn reason_text(fault: RefFault) -> &'static [u8]
    ensures { result.now ≡ reason_text fault }
{
    match fault {
        RefFault::NoRef => b"', and the program has no ref of this name",
        RefFault::NotAtHead => {
            b"', which isn't at the head of the program: name the ref by its number"
        }
        RefFault::Several => {
            b"', and the program has several binders of this name: name the ref by its number"
        }
    }
}

// The verdicts of one search on the claims, and on when they are checked, and what is written of them.
fn judged_of(
    alloc: Global,
    order: &ExploreOrder,
    form: ClaimForm,
    asked: &[Asked<'_>],
    program: &Program,
    soughts: Vec<Claim>,
) -> Result<Judged, AllocError>
    requires { length asked.now ≡ length soughts.items }
    ensures { IfOk result (λ it. AreJudgedBy (code_of (source_of program.now)) form order.now.limits asked.now
        soughts.items it.lines.items it.status it.notes.items) }
{
    let all = with_moments(alloc, soughts)?;
    let verdicts = judge(alloc, program, order.limits, order.bounds, all.as_slice())?;
    let judged = written(
        alloc,
        order.limits,
        form,
        asked,
        program,
        verdicts.as_slice(),
    )?;
    Ok(judged)
}

// What is written of these verdicts: those on the claims, and then those on when they are checked.
fn written(
    alloc: Global,
    limits: Limits,
    form: ClaimForm,
    asked: &[Asked<'_>],
    program: &Program,
    verdicts: &[Verdict],
) -> Result<Judged, AllocError>
    requires limits { AreLimits limits }
    requires spelled { All IsSpellable verdicts.now }
    requires length { length verdicts.now ≡ length asked.now + length asked.now }
    ensures lines { IfOk result (λ it.
        AreLines (IsLine form) asked.now (take (length asked.now) verdicts.now) it.lines.items) }
    ensures status { IfOk result (λ it. it.status ≡ claims_status asked.now (take (length asked.now) verdicts.now)) }
    ensures notes { IfOk result (λ it.
        AreUnchecked Among.All asked.now (drop (length asked.now) verdicts.now) it.notes.items) }
{
    let many = asked.len();
    let decided = &verdicts[..many];
    let lines = claim_lines(alloc, program, limits, form, asked, decided)?;
    let status = claims_status(asked, decided);
    let notes = unchecked_lines(alloc, Among::All, asked, &verdicts[many..])?;
    Ok(Judged {
        lines,
        status,
        notes,
    })
}

// The answer of `explore` without claims.
fn explored_answer(
    alloc: Global,
    order: ExploreOrder,
    form: ClaimForm,
    program: &Program,
) -> Result<NotedAnswer, AllocError>
    ensures { IfOk result (λ n. explored_as form order n.note.items program.now n.answer.text.items n.answer.status) }
{
    match form {
        ClaimForm::Report => order.answer_watched(alloc, program, &mut Unwatched),
        ClaimForm::Timeline => {
            ExploreTimelineOrder { order }.answer_watched(alloc, program, &mut Unwatched)
        }
        ClaimForm::Json => ExploreJson { order }.answer_watched(alloc, program, &mut Unwatched),
    }
}

/// The lines of claims with their status, and after them the answer `rest`. Its note comes after those on the claims.
pub(crate) fn with_lines(
    form: ClaimForm,
    judged: Judged,
    rest: NotedAnswer,
) -> Result<NotedAnswer, AllocError>
    ensures text { IfOk result (λ n. n.answer.text.items ≡
        judged.lines.items ++ (gap form ++ rest.answer.text.items)) }
    ensures status { IfOk result (λ n. n.answer.status ≡ worse judged.status rest.answer.status) }
    ensures note { IfOk result (λ n. n.note.items ≡ judged.notes.items ++ rest.note.items) }
{
    let mut text = judged.lines;
    text.extend_from_slice(gap(form))?;
    text.extend_from_slice(rest.answer.text.as_slice())?;
    let mut note = judged.notes;
    note.extend_from_slice(rest.note.as_slice())?;
    Ok(NotedAnswer {
        answer: Answer {
            text,
            status: worse(judged.status, rest.answer.status),
        },
        note,
    })
}

// The bytes between the claims and the rest.
fn gap(form: ClaimForm) -> &'static [u8]
    ensures { result.now ≡ gap form }
{
    match form {
        ClaimForm::Report => b"\n",
        ClaimForm::Timeline | ClaimForm::Json => b"",
    }
}

//! The answers to a text about claims that are looked at in schedules which are drawn at random.

ghost use Rattle.std.specs.Prelude.{◌≡◌, ◌⊎◌, ◌+◌, ℕ, List, IfOk, drop, length, take};
ghost use Rattle.derived_ops.specs.Expansion.{code_of};
ghost use Rattle.derived_ops.specs.Reading.{source_of};
ghost use Rattle.cell_registry.specs.Cells.{AreLimits};
ghost use Rattle.sampled_schedules.specs.Claims.{LooksThrough};
ghost use Rattle.world_search.specs.Claims.{IsBrief, IsFew};
ghost use Rattle.every_schedule.specs.Claims.{IsMetIn};
ghost use Rattle.std.specs.List.{All};
ghost use Rattle.claim_words.specs.Spacing.{spaced_text};
ghost use Rattle.claim_answers.specs.Claims.{IsSought, Pairwise};
ghost use Rattle.claim_answers.specs.ClaimsAnswers.{IsUnnamedAnswer};
ghost use Rattle.claim_answers.specs.Drawn.{IsSampledClaims, IsSeenAnswer, IsSeenLine, form_of, sampled_as};
ghost use Rattle.claim_answers.specs.Drawn.{seen_status};
ghost use Rattle.claim_answers.specs.Private.Met.{AreSeenBy, AreSeenIn, IsFoundAs, IsSpellable};
ghost use Rattle.claim_answers.specs.Unchecked.{AreUnchecked};
ghost use Rattle.claim_answers.specs.Verdicts.{AreLines};

use crate::answering::{Judged, refused_answer, unnamed_answer, with_lines};
use crate::asked::Asked;
use crate::judging::{Verdict, met_number, soughts_of};
use crate::lines::ClaimForm;
use crate::moments::{Among, unchecked_lines, with_moments};
use crate::seen_lines::seen_lines;
use crate::statuses::one_refuted;
use claim_words::{NumberFault, spaced_text};
use effect_term::Program;
use every_schedule::{Claim, Met};
use exploration_text::{NotedAnswer, NotedOrder, SampleOrder};
use json_answers::SampleJson;
use outcome_trace::{Status, read_program};
use sampled_schedules::sample_claims;
use std::alloc::{AllocError, Global};

/// Answers a text about claims by schedules that are drawn at random: a line for each claim, in their order, and then
/// the answer of `sample` without claims, with its note. Before that note there is a line for each claim that names refs
/// which no drawn schedule sets: it is checked at no moment. The status is `Status::Errored` if a claim is refuted or
/// something unwanted was found, else `Status::Succeeded`. A refused text is answered by its refusal alone.
///
/// Each claim is checked in each world on the way of each schedule, from the world before the first entry on. A claim
/// that no such world decides has no verdict: its line says in how many schedules it was looked for. If a claim names a
/// ref whose number isn't known ([`RefFault`](claim_words::RefFault)), the answer is empty, its status is
/// `Status::Usage`, and the note gives the reason.
pub fn answer_sampled_claims<'a>(
    alloc: Global,
    order: SampleOrder,
    json: bool,
    asked: &[Asked<'a>],
    text: &[u8],
) -> Result<NotedAnswer, AllocError>
    ensures { IfOk result (λ n. IsSampledClaims json order asked.now n.note.items text.now n.answer.text.items
        n.answer.status) }
{
    match read_program(alloc, text) {
        Ok(program) => named_answer(alloc, order, json, asked, text, &program),
        Err(refused) => Ok(NotedAnswer {
            answer: refused_answer(alloc, form_of(json), text, refused)?,
            note: Vec::new(alloc),
        }),
    }
}

// The form of a refusal, and of what is between the claims and the rest.
fn form_of(json: bool) -> ClaimForm
    ensures { result ≡ form_of json }
{
    if json {
        ClaimForm::Json
    } else {
        ClaimForm::Report
    }
}

// The answer to a text that spells a program.
fn named_answer<'a>(
    alloc: Global,
    order: SampleOrder,
    json: bool,
    asked: &[Asked<'a>],
    text: &[u8],
    program: &Program,
) -> Result<NotedAnswer, AllocError>
    ensures { IfOk result (λ n. IsSeenAnswer json order asked.now text.now n.note.items program.now
        n.answer.text.items n.answer.status ⊎
        IsUnnamedAnswer n.note.items n.answer.text.items n.answer.status) }
{
    let spaced = spaced_text(alloc, text)?;
    match soughts_of(alloc, spaced.as_slice(), asked) {
        Ok(soughts) => seen_answer(alloc, order, json, asked, program, soughts),
        Err(NumberFault::Unknown(name, fault)) => unnamed_answer(alloc, name, fault),
        Err(NumberFault::NoMemory) => Err(AllocError),
    }
}

// The same, once the words that decide each claim are known.
fn seen_answer(
    alloc: Global,
    order: SampleOrder,
    json: bool,
    asked: &[Asked<'_>],
    program: &Program,
    soughts: Vec<Claim>,
) -> Result<NotedAnswer, AllocError>
    requires { length asked.now ≡ length soughts.items }
    ensures { IfOk result (λ n. (text : List ℕ) → Pairwise (IsSought (spaced_text text)) asked.now soughts.items →
        IsSeenAnswer json order asked.now text n.note.items program.now n.answer.text.items n.answer.status) }
{
    let seen = seen_of(alloc, &order, json, asked, program, soughts)?;
    let rest = sampled_answer(alloc, order, json, program)?;
    let answer = with_lines(form_of(json), seen, rest)?;
    Ok(answer)
}

// What the drawn schedules show of the claims, and of when they are checked, and what is written of it.
fn seen_of(
    alloc: Global,
    order: &SampleOrder,
    json: bool,
    asked: &[Asked<'_>],
    program: &Program,
    soughts: Vec<Claim>,
) -> Result<Judged, AllocError>
    requires { length asked.now ≡ length soughts.items }
    ensures { IfOk result (λ it. AreSeenIn (code_of (source_of program.now)) json order.now asked.now soughts.items
        it.lines.items it.status it.notes.items) }
{
    let all = with_moments(alloc, soughts)?;
    let verdicts = see(alloc, program, order, all.as_slice())?;
    let seen = written(alloc, json, order.times, asked, verdicts.as_slice())?;
    Ok(seen)
}

// What is written of these verdicts: those on the claims, and then those on when they are checked.
fn written(
    alloc: Global,
    json: bool,
    times: u32,
    asked: &[Asked<'_>],
    verdicts: &[Verdict],
) -> Result<Judged, AllocError>
    requires spelled { All IsSpellable verdicts.now }
    requires length { length verdicts.now ≡ length asked.now + length asked.now }
    ensures lines { IfOk result (λ it.
        AreLines (IsSeenLine json times) asked.now (take (length asked.now) verdicts.now) it.lines.items) }
    ensures status { IfOk result (λ it. it.status ≡ seen_status asked.now (take (length asked.now) verdicts.now)) }
    ensures notes { IfOk result (λ it.
        AreUnchecked Among.Drawn asked.now (drop (length asked.now) verdicts.now) it.notes.items) }
{
    let many = asked.len();
    let seen = &verdicts[..many];
    let lines = seen_lines(alloc, json, times, asked, seen)?;
    let status = seen_status(asked, seen);
    let notes = unchecked_lines(alloc, Among::Drawn, asked, &verdicts[many..])?;
    Ok(Judged {
        lines,
        status,
        notes,
    })
}

// The verdicts of the schedules that are drawn on claims, each given by the words that decide it.
fn see(
    alloc: Global,
    program: &Program,
    order: &SampleOrder,
    soughts: &[Claim],
) -> Result<Vec<Verdict>, AllocError>
    ensures { IfOk result (λ it. AreSeenBy (code_of (source_of program.now)) order.now soughts.now it.items) }
{
    let met = look(alloc, program, order, soughts)?;
    let mut verdicts = Vec::new(alloc);
    for number in 0..soughts.len() {
        verdicts.push(verdict_of(alloc, met.as_slice(), number)?)?;
    }
    Ok(verdicts)
}

// The claims that a world on the way of a drawn schedule decides.
fn look(
    alloc: Global,
    program: &Program,
    order: &SampleOrder,
    soughts: &[Claim],
) -> Result<Vec<Met>, AllocError>
    ensures met { IfOk result (λ it.
        All (IsMetIn (code_of (source_of program.now)) order.now.limits soughts.now) it.items) }
    ensures unmet { IfOk result (λ it. LooksThrough (code_of (source_of program.now)) order.now.limits
        order.now.entries order.now.times soughts.now it.items) }
    ensures numbers { IfOk result (λ it. All (IsFew 1000) it.items) }
    ensures short { IfOk result (λ it. All (IsBrief order.now.entries) it.items) }
{
    let limits = order.limits;
    let seed = order.seed;
    match sample_claims(
        alloc,
        program,
        limits,
        seed,
        order.times,
        order.entries,
        soughts,
    ) {
        Ok(met) => Ok(met),
        Err(_) => Err(AllocError),
    }
}

// The verdict on the claim of this number.
fn verdict_of(alloc: Global, met: &[Met], number: usize) -> Result<Verdict, AllocError>
    ensures { IfOk result (IsFoundAs met.now number) }
{
    match met_number(met, number) {
        Some(at) => {
            let schedule = Vec::from_slice(alloc, met[at].schedule.as_slice())?;
            Ok(Verdict::Moment(schedule))
        }
        None => Ok(Verdict::Undecided),
    }
}

// `Status::Errored` if a claim is refuted, else `Status::Succeeded`.
fn seen_status(asked: &[Asked<'_>], verdicts: &[Verdict]) -> Status
    requires { length asked.now ≡ length verdicts.now }
    ensures { result ≡ seen_status asked.now verdicts.now }
{
    if one_refuted(asked, verdicts) {
        Status::Errored
    } else {
        Status::Succeeded
    }
}

// The answer of `sample` without claims.
fn sampled_answer(
    alloc: Global,
    order: SampleOrder,
    json: bool,
    program: &Program,
) -> Result<NotedAnswer, AllocError>
    ensures { IfOk result (λ n. sampled_as json order n.note.items program.now n.answer.text.items n.answer.status) }
{
    if json {
        SampleJson { order }.noted_answer(alloc, program)
    } else {
        order.noted_answer(alloc, program)
    }
}

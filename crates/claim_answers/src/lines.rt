//! The lines of claims.

ghost use Rattle.std.specs.Prelude.{◌≡◌, ◌++◌, IfOk, OnOk, length};
ghost use Rattle.std.specs.List.{All};
ghost use Rattle.cell_registry.specs.Cells.{AreLimits};
ghost use Rattle.claim_answers.specs.Private.Met.{IsLineOf, IsSpellable};
ghost use Rattle.claim_answers.specs.Verdicts.{AreLines, IsLine, IsShown, IsTimed, json_line, json_schedule};
ghost use Rattle.claim_answers.specs.Verdicts.{json_back, json_front, rule_text, under, verdict_text, word_line};

use crate::asked::{Asked, Rule};
use crate::judging::Verdict;
use cell_registry::Limits;
use effect_term::Program;
use fiber_events::replay_events;
use outcome_trace::schedule_text;
use std::alloc::{AllocError, Global};
use timelines::timeline;

/// The form of the verdicts.
#[derive(Clone, Copy, PartialEq, Eq, Debug)]
pub enum ClaimForm {
    /// Lines in words.
    Report,
    /// Lines in words, with a timeline after each that has a schedule.
    Timeline,
    /// Lines of JSON.
    Json,
}

/// The texts of all claims with their verdicts, one after the other.
pub(crate) fn claim_lines(
    alloc: Global,
    program: &Program,
    limits: Limits,
    form: ClaimForm,
    asked: &[Asked<'_>],
    verdicts: &[Verdict],
) -> Result<Vec<u8>, AllocError>
    requires limits { AreLimits limits }
    requires spelled { All IsSpellable verdicts.now }
    requires length { length asked.now ≡ length verdicts.now }
    ensures { IfOk result (λ text. AreLines (IsLine form) asked.now verdicts.now text.items) }
{
    let mut text = Vec::new(alloc);
    for at in 0..asked.len() {
        let line = claim_line(alloc, program, limits, form, &asked[at], &verdicts[at])?;
        text.extend_from_slice(line.as_slice())?;
    }
    Ok(text)
}

// The text of one claim with its verdict.
fn claim_line(
    alloc: Global,
    program: &Program,
    limits: Limits,
    form: ClaimForm,
    asked: &Asked<'_>,
    verdict: &Verdict,
) -> Result<Vec<u8>, AllocError>
    requires limits { AreLimits limits }
    requires spelled { IsSpellable verdict.now }
    ensures { IfOk result (IsLineOf form asked.now verdict.now) }
{
    let shown = shown(alloc, verdict)?;
    match form {
        ClaimForm::Report => word_line(alloc, asked, verdict, shown.as_slice()),
        ClaimForm::Json => json_line(alloc, asked, verdict, shown.as_slice()),
        ClaimForm::Timeline => {
            let rows = rows_of(alloc, program, limits, verdict)?;
            let mut line = word_line(alloc, asked, verdict, shown.as_slice())?;
            line.extend_from_slice(rows.as_slice())?;
            line.push(b'\n')?;
            Ok(line)
        }
    }
}

/// The text of the schedule, or no bytes if there is none.
pub(crate) fn shown(alloc: Global, verdict: &Verdict) -> Result<Vec<u8>, AllocError>
    requires { IsSpellable verdict.now }
    ensures { IfOk result (λ text. IsShown verdict.now text.items) }
{
    match verdict {
        Verdict::Moment(schedule) => Ok(schedule_text(alloc, schedule.as_slice())?.into_bytes()),
        Verdict::NoMoment | Verdict::Undecided => Ok(Vec::new(alloc)),
    }
}

// A blank line and a timeline, or no bytes if there is no schedule.
fn rows_of(
    alloc: Global,
    program: &Program,
    limits: Limits,
    verdict: &Verdict,
) -> Result<Vec<u8>, AllocError>
    requires limits { AreLimits limits }
    ensures { IfOk result (λ text. IsTimed verdict.now text.items) }
{
    match verdict {
        Verdict::Moment(schedule) => {
            let told = replay_events(alloc, program, schedule.as_slice(), limits)?;
            let rows = timeline(alloc, &told)?;
            let mut text = Vec::from_slice(alloc, b"\n")?;
            text.extend_from_slice(rows.as_bytes())?;
            Ok(text)
        }
        Verdict::NoMoment | Verdict::Undecided => Ok(Vec::new(alloc)),
    }
}

// A claim, its verdict and the text of the schedule, in words.
fn word_line(
    alloc: Global,
    asked: &Asked<'_>,
    verdict: &Verdict,
    schedule: &[u8],
) -> Result<Vec<u8>, AllocError>
    ensures { IfOk result (λ line. line.items ≡ word_line asked.now.rule asked.now.claim.text.items verdict.now
        schedule.now) }
{
    let mut line = Vec::from_slice(alloc, rule_text(asked.rule))?;
    line.extend_from_slice(b" ")?;
    line.extend_from_slice(asked.claim.text.as_slice())?;
    line.extend_from_slice(b": ")?;
    line.extend_from_slice(verdict_text(asked.rule, verdict))?;
    push_under(&mut line, verdict, schedule)?;
    line.extend_from_slice(b"\n")?;
    Ok(line)
}

/// Adds the schedule in quotes, if there is one.
pub(crate) fn push_under(
    line: &mut Vec<u8>,
    verdict: &Verdict,
    schedule: &[u8],
) -> Result<(), AllocError>
    ensures { OnOk result (line.new.items ≡ line.old.items ++ under verdict.now schedule.now) }
{
    match verdict {
        Verdict::Moment(_) => {
            line.extend_from_slice(b", under \"")?;
            line.extend_from_slice(schedule)?;
            line.extend_from_slice(b"\"")
        }
        Verdict::NoMoment | Verdict::Undecided => Ok(()),
    }
}

/// A claim, its verdict and the text of the schedule, as an object of JSON.
pub(crate) fn json_line(
    alloc: Global,
    asked: &Asked<'_>,
    verdict: &Verdict,
    schedule: &[u8],
) -> Result<Vec<u8>, AllocError>
    ensures { IfOk result (λ line. line.items ≡ json_line asked.now.rule asked.now.claim.text.items verdict.now
        schedule.now) }
{
    let mut line = json_front(alloc, asked)?;
    push_json_back(&mut line, asked.rule, verdict, schedule)?;
    Ok(line)
}

// The front of the object, with the claim and what is asked of it.
fn json_front(alloc: Global, asked: &Asked<'_>) -> Result<Vec<u8>, AllocError>
    ensures { IfOk result (λ line. line.items ≡ json_front asked.now.rule asked.now.claim.text.items) }
{
    let mut line = Vec::from_slice(alloc, b"{\"answer\":\"claim\",\"claim\":\"")?;
    line.extend_from_slice(asked.claim.text.as_slice())?;
    line.extend_from_slice(b"\",\"rule\":\"")?;
    line.extend_from_slice(rule_text(asked.rule))?;
    Ok(line)
}

// Adds the end of the object, with the schedule and the verdict.
fn push_json_back(
    line: &mut Vec<u8>,
    rule: Rule,
    verdict: &Verdict,
    schedule: &[u8],
) -> Result<(), AllocError>
    ensures { OnOk result (line.new.items ≡ line.old.items ++ json_back rule verdict.now schedule.now) }
{
    line.extend_from_slice(b"\",\"schedule\":")?;
    push_json_schedule(&mut *line, verdict, schedule)?;
    line.extend_from_slice(b",\"verdict\":\"")?;
    line.extend_from_slice(verdict_text(rule, verdict))?;
    line.extend_from_slice(b"\"}\n")
}

// Adds the schedule as a string of JSON, or `null` if there is none.
fn push_json_schedule(
    line: &mut Vec<u8>,
    verdict: &Verdict,
    schedule: &[u8],
) -> Result<(), AllocError>
    ensures { OnOk result (line.new.items ≡ line.old.items ++ json_schedule verdict.now schedule.now) }
{
    match verdict {
        Verdict::Moment(_) => {
            line.extend_from_slice(b"\"")?;
            line.extend_from_slice(schedule)?;
            line.extend_from_slice(b"\"")
        }
        Verdict::NoMoment | Verdict::Undecided => line.extend_from_slice(b"null"),
    }
}

/// The word for what is asked.
pub(crate) fn rule_text(rule: Rule) -> &'static [u8]
    ensures { result.now ≡ rule_text rule }
{
    match rule {
        Rule::Always => b"always",
        Rule::Never => b"never",
        Rule::Reach => b"reach",
    }
}

// The word for a verdict.
fn verdict_text(rule: Rule, verdict: &Verdict) -> &'static [u8]
    ensures { result.now ≡ verdict_text rule verdict.now }
{
    match verdict {
        Verdict::Undecided => b"undecided",
        Verdict::Moment(_) => match rule {
            Rule::Always | Rule::Never => b"refuted",
            Rule::Reach => b"met",
        },
        Verdict::NoMoment => match rule {
            Rule::Always | Rule::Never => b"holds",
            Rule::Reach => b"refuted",
        },
    }
}

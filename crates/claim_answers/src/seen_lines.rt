//! The lines of claims that were looked at in drawn schedules.

ghost use Rattle.std.specs.Prelude.{◌≡◌, ◌++◌, IfOk, OnOk, codes, length};
ghost use Rattle.std.specs.List.{All};
ghost use Rattle.exploration_text.specs.ExplorationText.{counted};
ghost use Rattle.claim_answers.specs.Drawn.{IsSeenLine, seen_line, seen_text, unseen_text};
ghost use Rattle.claim_answers.specs.Private.Met.{IsSeenLineOf, IsSpellable};
ghost use Rattle.claim_answers.specs.Verdicts.{AreLines};

use crate::asked::{Asked, Rule};
use crate::judging::Verdict;
use crate::lines::{json_line, push_under, rule_text, shown};
use itoa::Buffer;
use std::alloc::{AllocError, Global};

/// The texts of all claims that were looked at in `times` schedules, one after the other.
pub(crate) fn seen_lines(
    alloc: Global,
    json: bool,
    times: u32,
    asked: &[Asked<'_>],
    verdicts: &[Verdict],
) -> Result<Vec<u8>, AllocError>
    requires spelled { All IsSpellable verdicts.now }
    requires length { length asked.now ≡ length verdicts.now }
    ensures { IfOk result (λ text. AreLines (IsSeenLine json times) asked.now verdicts.now text.items) }
{
    let mut text = Vec::new(alloc);
    for at in 0..asked.len() {
        let line = one_line(alloc, json, times, &asked[at], &verdicts[at])?;
        text.extend_from_slice(line.as_slice())?;
    }
    Ok(text)
}

// The text of one claim.
fn one_line(
    alloc: Global,
    json: bool,
    times: u32,
    asked: &Asked<'_>,
    verdict: &Verdict,
) -> Result<Vec<u8>, AllocError>
    requires { IsSpellable verdict.now }
    ensures { IfOk result (IsSeenLineOf json times asked.now verdict.now) }
{
    let shown = shown(alloc, verdict)?;
    if json {
        json_line(alloc, asked, verdict, shown.as_slice())
    } else {
        seen_line(alloc, times, asked, verdict, shown.as_slice())
    }
}

// A claim, what was seen of it and the text of the schedule, in words.
fn seen_line(
    alloc: Global,
    times: u32,
    asked: &Asked<'_>,
    verdict: &Verdict,
    schedule: &[u8],
) -> Result<Vec<u8>, AllocError>
    ensures { IfOk result (λ line. line.items ≡ seen_line asked.now.rule asked.now.claim.text.items verdict.now
        schedule.now times) }
{
    let mut line = Vec::from_slice(alloc, rule_text(asked.rule))?;
    line.extend_from_slice(b" ")?;
    line.extend_from_slice(asked.claim.text.as_slice())?;
    line.extend_from_slice(b": ")?;
    push_seen(&mut line, asked.rule, verdict, times)?;
    push_under(&mut line, verdict, schedule)?;
    line.extend_from_slice(b"\n")?;
    Ok(line)
}

// Adds what was seen of a claim.
fn push_seen(
    line: &mut Vec<u8>,
    rule: Rule,
    verdict: &Verdict,
    times: u32,
) -> Result<(), AllocError>
    ensures { OnOk result (line.new.items ≡ line.old.items ++ seen_text rule verdict.now times) }
{
    match verdict {
        Verdict::Moment(_) => match rule {
            Rule::Always | Rule::Never => line.extend_from_slice(b"refuted"),
            Rule::Reach => line.extend_from_slice(b"met"),
        },
        Verdict::NoMoment | Verdict::Undecided => push_unseen(line, rule, times),
    }
}

// Adds that no world on the way of this number of schedules decides a claim.
fn push_unseen(line: &mut Vec<u8>, rule: Rule, times: u32) -> Result<(), AllocError>
    ensures { OnOk result (line.new.items ≡ line.old.items ++
        (unseen_text rule ++ counted times (codes "schedule"))) }
{
    let mut digits = Buffer::new();
    line.extend_from_slice(unseen_text(rule))?;
    line.extend_from_slice(digits.format(times).as_bytes())?;
    line.extend_from_slice(b" schedule")?;
    line.extend_from_slice(if times == 1 { b"" } else { b"s" })
}

// The text before the number of schedules.
fn unseen_text(rule: Rule) -> &'static [u8]
    ensures { result.now ≡ unseen_text rule }
{
    match rule {
        Rule::Always | Rule::Never => b"not refuted in ",
        Rule::Reach => b"not met in ",
    }
}

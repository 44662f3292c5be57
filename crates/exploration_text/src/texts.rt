//! The text and the status of an exploration.

ghost use Rattle.std.specs.Prelude.{◌≡◌, ◌++◌, IfOk, OnOk, codes, count_by, string_bytes};
ghost use Rattle.std.specs.List.{All, list_any};
ghost use Rattle.std.specs.Result.{is_err, is_ok};
ghost use Rattle.exploration_text.specs.ExplorationText.{IsAnswerText, IsExplorationText, IsPartText, counted};
ghost use Rattle.exploration_text.specs.ExplorationText.{end_text, exploration_status, first_line, has_failure};
ghost use Rattle.exploration_text.specs.ExplorationText.{IsSpellable, heading, is_listed_so, line_end, line_front};
ghost use Rattle.exploration_text.specs.Wants.{first_outcome, is_failure, is_met, is_unwanted};

use crate::wants::Want;
use cell_registry::RunError;
use effect_term::Outcome;
use every_schedule::{Answer, Exploration};
use itoa::Buffer;
use outcome_trace::{Refused, Report, Status, line, schedule_text, text_of_report};
use std::alloc::{AllocError, Global};

/// The text of an exploration: its first line ([`first_line`]), then each answer after a blank line and its schedule,
/// as a replay under the schedule writes it. If outcomes of fiber 0 are wanted, the reports with another outcome and
/// the faults come first, headed as not wanted.
///
/// Each schedule has at most 1,000,000 entries, each at most 999. `AllocError` where memory is refused.
pub fn text_of_exploration(
    alloc: Global,
    exploration: &Exploration,
    wants: &[Want],
) -> Result<Vec<u8>, AllocError>
    requires { All IsSpellable exploration.now.answers }
    ensures { IfOk result (λ text. IsExplorationText wants.now exploration.now text.items) }
{
    let answers = exploration.answers.as_slice();
    let unwanted = part_text(alloc, answers, wants, true)?;
    let others = part_text(alloc, answers, wants, false)?;
    let mut text = first_line(alloc, exploration)?.into_bytes();
    text.extend_from_slice(unwanted.as_slice())?;
    text.extend_from_slice(others.as_slice())?;
    Ok(text)
}

/// The status of an exploration: `Status::Errored` if a fault is listed, or if outcomes are wanted and a report with
/// another outcome of fiber 0 is listed; else `Status::Succeeded` if every schedule was explored, and `Status::Unended`
/// if not.
pub fn exploration_status(exploration: &Exploration, wants: &[Want]) -> Status
    ensures { result ≡ exploration_status wants.now exploration.now }
{
    if has_failure(exploration.answers.as_slice(), wants) {
        Status::Errored
    } else if exploration.complete {
        Status::Succeeded
    } else {
        Status::Unended
    }
}

// Whether an answer is a fault, or has an outcome that isn't wanted.
fn has_failure(answers: &[Answer], wants: &[Want]) -> bool
    ensures { result ≡ has_failure wants.now answers.now }
{
    for answer in answers {
        if is_failure(&answer.end, wants) {
            return true;
        }
    }
    false
}

/// Whether the end of an answer is a fault, or has an outcome that isn't wanted.
pub(crate) fn is_failure(end: &Result<Report, RunError>, wants: &[Want]) -> bool
    ensures { result ≡ is_failure wants.now end.now }
{
    match end {
        Ok(report) => !wants.is_empty() && !is_wanted(report, wants),
        Err(_) => true,
    }
}

/// The outcome of fiber 0, if it has ended.
pub(crate) fn first_outcome(report: &Report) -> Option<Outcome>
    ensures { result ≡ first_outcome report.now.fibers }
{
    report.fibers.as_slice().first()?.outcome
}

// Whether fiber 0 has one of the wanted outcomes.
fn is_wanted(report: &Report, wants: &[Want]) -> bool
    ensures { result ≡ list_any (λ want. is_met want (first_outcome report.now.fibers)) wants.now }
{
    for want in wants {
        if want.is_met(first_outcome(report)) {
            return true;
        }
    }
    false
}

// Whether an answer is listed as not wanted.
fn is_unwanted(answer: &Answer, wants: &[Want]) -> bool
    ensures { result ≡ is_unwanted wants.now answer.now }
{
    !wants.is_empty() && is_failure(&answer.end, wants)
}

/// Whether an answer is listed as not wanted, if `unwanted`; else whether it isn't. If outcomes of fiber 0 are wanted,
/// a fault and a report with another outcome aren't wanted.
pub fn is_listed_so(answer: &Answer, wants: &[Want], unwanted: bool) -> bool
    ensures { result ≡ is_listed_so unwanted wants.now answer.now }
{
    if unwanted {
        is_unwanted(answer, wants)
    } else {
        !is_unwanted(answer, wants)
    }
}

// The text of the answers that are listed as not wanted, or of the others.
fn part_text(
    alloc: Global,
    answers: &[Answer],
    wants: &[Want],
    unwanted: bool,
) -> Result<Vec<u8>, AllocError>
    requires { All IsSpellable answers.now }
    ensures { IfOk result (λ text. IsPartText unwanted wants.now answers.now text.items) }
{
    let mut text = Vec::new(alloc);
    for answer in answers {
        if is_listed_so(answer, wants, unwanted) {
            let part = text_of_answer(alloc, answer, unwanted)?;
            text.extend_from_slice(part.as_slice())?;
        }
    }
    Ok(text)
}

/// The text of one answer of an exploration: a blank line, its schedule, headed as not wanted if `unwanted`, and then
/// the report or the fault, as a replay under the schedule writes it.
///
/// The schedule has at most 1,000,000 entries, each at most 999. `AllocError` where memory is refused.
pub fn text_of_answer(alloc: Global, answer: &Answer, unwanted: bool) -> Result<Vec<u8>, AllocError>
    requires { IsSpellable answer.now }
    ensures { IfOk result (λ text. IsAnswerText unwanted answer.now text.items) }
{
    let schedule = schedule_text(alloc, answer.schedule.as_slice())?;
    let end = end_text(alloc, &answer.end)?;
    let mut text = Vec::from_slice(alloc, heading(unwanted))?;
    text.push(b'"')?;
    text.extend_from_slice(schedule.as_bytes())?;
    text.extend_from_slice(b"\"\n")?;
    text.extend_from_slice(end.as_slice())?;
    Ok(text)
}

// The text before a schedule.
fn heading(unwanted: bool) -> &'static [u8]
    ensures { result.now ≡ heading unwanted }
{
    if unwanted {
        b"\nnot wanted, under "
    } else {
        b"\nunder "
    }
}

/// The text of a report, or the line of a fault.
pub(crate) fn end_text(alloc: Global, end: &Result<Report, RunError>) -> Result<Vec<u8>, AllocError>
    ensures { IfOk result (λ text. text.items ≡ end_text end.now) }
{
    match end {
        Ok(report) => Ok(text_of_report(alloc, report)?.into_bytes()),
        Err(error) => line(alloc, &Refused::Run(*error)),
    }
}

/// The first line of the text of an exploration: whether every schedule was explored or the time was over, the numbers
/// of worlds, of reports and of faults, and, if not every schedule was explored, the number of bytes that were counted.
/// `AllocError` where memory is refused.
pub fn first_line(alloc: Global, exploration: &Exploration) -> Result<String, AllocError>
    ensures { IfOk result (λ line. string_bytes line ≡ first_line exploration.now) }
{
    let answers = exploration.answers.as_slice();
    let mut line = String::new(alloc);
    line.push_str(line_front(exploration.complete, exploration.halted))?;
    push_counted(&mut line, exploration.worlds, "world")?;
    line.push_str(": ")?;
    push_counted(&mut line, reports(answers), "report")?;
    line.push_str(", ")?;
    push_counted(&mut line, faults(answers), "fault")?;
    push_line_end(&mut line, exploration.complete, exploration.bytes)?;
    Ok(line)
}

// The front of the first line: whether every schedule was explored, and if not, whether the time was over.
fn line_front(complete: bool, halted: bool) -> &'static str
    ensures { result.now ≡ line_front complete halted }
{
    if complete {
        "explored "
    } else if halted {
        "stopped by time at "
    } else {
        "stopped at "
    }
}

// Writes the end of the first line, with the number of bytes if not every schedule was explored.
fn push_line_end(line: &mut String, complete: bool, bytes: usize) -> Result<(), AllocError>
    ensures { OnOk result (string_bytes line.new ≡ string_bytes line.old ++ line_end complete bytes) }
{
    if !complete {
        line.push_str(", ")?;
        push_counted(line, bytes, "byte")?;
    }
    line.push_str("\n")
}

// The number of answers that are reports.
fn reports(answers: &[Answer]) -> usize
    ensures { result ≡ count_by (λ a. is_ok a.end) answers.now }
{
    answers.iter().filter(|a| a.end.is_ok()).count()
}

// The number of answers that are faults.
fn faults(answers: &[Answer]) -> usize
    ensures { result ≡ count_by (λ a. is_err a.end) answers.now }
{
    answers.iter().filter(|a| a.end.is_err()).count()
}

// Writes a number with its noun, as `1 world` and `2 worlds`.
fn push_counted(text: &mut String, number: usize, noun: &str) -> Result<(), AllocError>
    ensures { OnOk result (string_bytes text.new ≡ string_bytes text.old ++ counted number noun.now) }
{
    let mut digits = Buffer::new();
    text.push_str(digits.format(number))?;
    text.push_str(" ")?;
    text.push_str(noun)?;
    text.push_str(if number == 1 { "" } else { "s" })
}

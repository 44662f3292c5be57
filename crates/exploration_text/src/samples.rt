//! The text and the status of a sample.

ghost use Rattle.std.specs.Prelude.{◌≡◌, ◌++◌, IfOk, OnOk, codes, count_by, string_bytes};
ghost use Rattle.std.specs.List.{All};
ghost use Rattle.std.specs.Result.{is_err, is_ok};
ghost use Rattle.exploration_text.specs.ExplorationText.{IsSpellable, counted, end_text};
ghost use Rattle.exploration_text.specs.SampleText.{AreComingsText, IsComingText, IsSampleText, between};
ghost use Rattle.exploration_text.specs.SampleText.{first_line, front, has_finding, heading, is_finding};
ghost use Rattle.exploration_text.specs.SampleText.{is_unwanted, may_end, sample_status};

use crate::texts::{first_outcome, is_failure};
use crate::wants::Want;
use cell_registry::RunError;
use effect_term::Outcome;
use itoa::Buffer;
use outcome_trace::{Refused, Report, Status, line, schedule_text, text_of_report};
use sampled_schedules::{Coming, Sample};
use std::alloc::{AllocError, Global};

/// The text of a sample: the numbers of schedules, of different reports and of different faults. Each of these ends
/// follows after a blank line, in the order in which they came first: whether it is not wanted, how often it came,
/// whether all its schedules were cut short, its first schedule, and the report or fault as a replay writes it.
///
/// Each schedule has at most 1,000,000 entries, each at most 999. `AllocError` where memory is refused.
pub fn text_of_sample(alloc: Global, sample: &Sample, wants: &[Want]) -> Result<Vec<u8>, AllocError>
    requires { All (λ c. IsSpellable c.answer) sample.now.comings }
    ensures { IfOk result (λ text. IsSampleText wants.now sample.now text.items) }
{
    let comings = comings_text(alloc, sample.comings.as_slice(), wants)?;
    let mut text = first_line(alloc, sample)?.into_bytes();
    text.extend_from_slice(comings.as_slice())?;
    Ok(text)
}

/// The status of a sample: `Status::Errored` if a schedule came to a fault, or if outcomes are wanted and a schedule
/// came to a report with another outcome of fiber 0; else `Status::Succeeded`. A report in which fiber 0 hasn't ended
/// counts only if one of its schedules wasn't cut short.
pub fn sample_status(sample: &Sample, wants: &[Want]) -> Status
    ensures { result ≡ sample_status wants.now sample.now }
{
    if has_finding(sample.comings.as_slice(), wants) {
        Status::Errored
    } else {
        Status::Succeeded
    }
}

// Whether one of the ends is a finding.
fn has_finding(comings: &[Coming], wants: &[Want]) -> bool
    ensures { result ≡ has_finding wants.now comings.now }
{
    for coming in comings {
        if is_finding(coming.cut, &coming.answer.end, wants) {
            return true;
        }
    }
    false
}

// Whether an end is a finding; `cut` is whether each of its schedules was cut short.
fn is_finding(cut: bool, end: &Result<Report, RunError>, wants: &[Want]) -> bool
    ensures { result ≡ is_finding wants.now cut end.now }
{
    match end {
        Ok(report) => !may_end(cut, first_outcome(report)) && is_failure(end, wants),
        Err(_) => true,
    }
}

// Whether fiber 0 can still end; `cut` is whether each schedule was cut short.
fn may_end(cut: bool, outcome: Option<Outcome>) -> bool
    ensures { result ≡ may_end cut outcome }
{
    match outcome {
        Some(_) => false,
        None => cut,
    }
}

/// Whether an end is listed as not wanted: if outcomes of fiber 0 are wanted, a fault is, and so is a report with
/// another outcome in which fiber 0 can't still end.
pub fn is_unwanted(coming: &Coming, wants: &[Want]) -> bool
    ensures { result ≡ is_unwanted wants.now coming.now }
{
    !wants.is_empty() && is_finding(coming.cut, &coming.answer.end, wants)
}

// The text of the ends of a sample.
fn comings_text(alloc: Global, comings: &[Coming], wants: &[Want]) -> Result<Vec<u8>, AllocError>
    requires { All (λ c. IsSpellable c.answer) comings.now }
    ensures { IfOk result (λ text. AreComingsText wants.now comings.now text.items) }
{
    let mut text = Vec::new(alloc);
    for coming in comings {
        let part = coming_text(alloc, coming, wants)?;
        text.extend_from_slice(part.as_slice())?;
    }
    Ok(text)
}

// The text of an end, after its first schedule.
fn coming_text(alloc: Global, coming: &Coming, wants: &[Want]) -> Result<Vec<u8>, AllocError>
    requires { IsSpellable coming.now.answer }
    ensures { IfOk result (λ text. IsComingText wants.now coming.now text.items) }
{
    let schedule = schedule_text(alloc, coming.answer.schedule.as_slice())?;
    let end = end_text(alloc, &coming.answer.end)?;
    let unwanted = is_unwanted(coming, wants);
    let mut text = heading(alloc, unwanted, coming.times, coming.cut)?.into_bytes();
    text.push(b'"')?;
    text.extend_from_slice(schedule.as_bytes())?;
    text.extend_from_slice(b"\"\n")?;
    text.extend_from_slice(end.as_slice())?;
    Ok(text)
}

// The text before a schedule: whether its end is not wanted, how often the end came, and whether each of its schedules
// was cut short.
fn heading(alloc: Global, unwanted: bool, times: u32, cut: bool) -> Result<String, AllocError>
    ensures { IfOk result (λ text. string_bytes text ≡ heading unwanted times cut) }
{
    let mut text = String::from_str(alloc, front(unwanted))?;
    push_counted(&mut text, times as usize, "time")?;
    text.push_str(between(cut))?;
    Ok(text)
}

// The front of an end's text, with a blank line.
fn front(unwanted: bool) -> &'static str
    ensures { result.now ≡ front unwanted }
{
    if unwanted {
        "\nnot wanted, came "
    } else {
        "\ncame "
    }
}

// The text between how often an end came and its first schedule.
fn between(cut: bool) -> &'static str
    ensures { result.now ≡ between cut }
{
    if cut {
        ", cut short, first under "
    } else {
        ", first under "
    }
}

// The text of a report, or the line of a fault.
fn end_text(alloc: Global, end: &Result<Report, RunError>) -> Result<Vec<u8>, AllocError>
    ensures { IfOk result (λ text. text.items ≡ end_text end.now) }
{
    match end {
        Ok(report) => Ok(text_of_report(alloc, report)?.into_bytes()),
        Err(error) => line(alloc, &Refused::Run(*error)),
    }
}

// The first line: the numbers of schedules, of reports and of faults.
fn first_line(alloc: Global, sample: &Sample) -> Result<String, AllocError>
    ensures { IfOk result (λ line. string_bytes line ≡ first_line sample.now) }
{
    let comings = sample.comings.as_slice();
    let mut line = String::from_str(alloc, "sampled ")?;
    push_counted(&mut line, sample.schedules as usize, "schedule")?;
    line.push_str(": ")?;
    push_counted(&mut line, reports(comings), "report")?;
    line.push_str(", ")?;
    push_counted(&mut line, faults(comings), "fault")?;
    line.push_str("\n")?;
    Ok(line)
}

// The number of ends that are reports.
fn reports(comings: &[Coming]) -> usize
    ensures { result ≡ count_by (λ c. is_ok c.answer.end) comings.now }
{
    comings.iter().filter(|c| c.answer.end.is_ok()).count()
}

// The number of ends that are faults.
fn faults(comings: &[Coming]) -> usize
    ensures { result ≡ count_by (λ c. is_err c.answer.end) comings.now }
{
    comings.iter().filter(|c| c.answer.end.is_err()).count()
}

// Writes a number with its noun, as `1 time` and `2 times`.
fn push_counted(text: &mut String, number: usize, noun: &str) -> Result<(), AllocError>
    ensures { OnOk result (string_bytes text.new ≡ string_bytes text.old ++ counted number noun.now) }
{
    let mut digits = Buffer::new();
    text.push_str(digits.format(number))?;
    text.push_str(" ")?;
    text.push_str(noun)?;
    text.push_str(if number == 1 { "" } else { "s" })
}

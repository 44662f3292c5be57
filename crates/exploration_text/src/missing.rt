//! The wanted outcomes of fiber 0 that no answer has.

ghost use Rattle.std.specs.Prelude.{◌≡◌, ◌++◌, IfOk, OnOk, Some};
ghost use Rattle.std.specs.Fmt.{signed_decimal};
ghost use Rattle.std.specs.List.{list_any};
ghost use Rattle.outcome_trace.specs.ReportText.{outcome_text};
ghost use Rattle.exploration_text.specs.Missing.{has_outcome, missing_front, missing_line, missing_of_exploration};
ghost use Rattle.exploration_text.specs.Missing.{missing_of_sample};
ghost use Rattle.exploration_text.specs.Wants.{want_text};

use crate::texts::first_outcome;
use crate::wants::Want;
use cell_registry::RunError;
use effect_term::Outcome;
use every_schedule::{Answer, Exploration};
use itoa::Buffer;
use outcome_trace::Report;
use sampled_schedules::{Coming, Sample};
use std::alloc::{AllocError, Global};

/// A line for each wanted outcome that no answer of an exploration has: no schedule comes to the outcome, or, if not
/// every schedule was explored, none was found that does. `AllocError` where memory is refused.
pub fn missing_of_exploration(
    alloc: Global,
    exploration: &Exploration,
    wants: &[Want],
) -> Result<Vec<u8>, AllocError>
    ensures { IfOk result (λ text. text.items ≡ missing_of_exploration wants.now exploration.now) }
{
    let mut text = Vec::new(alloc);
    for want in wants {
        if !answer_has(exploration.answers.as_slice(), want) {
            push_line(&mut text, exploration.complete, *want)?;
        }
    }
    Ok(text)
}

/// A line for each wanted outcome that none of the drawn schedules comes to. `AllocError` where memory is refused.
pub fn missing_of_sample(
    alloc: Global,
    sample: &Sample,
    wants: &[Want],
) -> Result<Vec<u8>, AllocError>
    ensures { IfOk result (λ text. text.items ≡ missing_of_sample wants.now sample.now) }
{
    let mut text = Vec::new(alloc);
    for want in wants {
        if !coming_has(sample.comings.as_slice(), want) {
            push_line(&mut text, false, *want)?;
        }
    }
    Ok(text)
}

// Whether an answer has a wanted outcome.
fn answer_has(answers: &[Answer], want: &Want) -> bool
    ensures { result ≡ list_any (λ a. has_outcome want.now a.end) answers.now }
{
    for answer in answers {
        if has_outcome(&answer.end, want) {
            return true;
        }
    }
    false
}

// Whether an end of a sample has a wanted outcome.
fn coming_has(comings: &[Coming], want: &Want) -> bool
    ensures { result ≡ list_any (λ c. has_outcome want.now c.answer.end) comings.now }
{
    for coming in comings {
        if has_outcome(&coming.answer.end, want) {
            return true;
        }
    }
    false
}

// Whether an end is a report in which fiber 0 has the wanted outcome.
fn has_outcome(end: &Result<Report, RunError>, want: &Want) -> bool
    ensures { result ≡ has_outcome want.now end.now }
{
    match end {
        Ok(report) => want.is_met(first_outcome(report)),
        Err(_) => false,
    }
}

// Writes the line of a wanted outcome that no answer has; `all` is whether every schedule was explored.
fn push_line(text: &mut Vec<u8>, all: bool, want: Want) -> Result<(), AllocError>
    ensures { OnOk result (text.new.items ≡ text.old.items ++ missing_line all want) }
{
    text.extend_from_slice(missing_front(all))?;
    push_want(text, want)?;
    text.extend_from_slice(b"`\n")
}

// The text before the outcome.
fn missing_front(all: bool) -> &'static [u8]
    ensures { result.now ≡ missing_front all }
{
    if all {
        b"no schedule comes to `"
    } else {
        b"no schedule was found that comes to `"
    }
}

// Writes a wanted outcome as a report spells it.
fn push_want(text: &mut Vec<u8>, want: Want) -> Result<(), AllocError>
    ensures { OnOk result (text.new.items ≡ text.old.items ++ want_text want) }
{
    match want {
        Want::Ended(outcome) => push_outcome(text, outcome),
        Want::Unended => text.extend_from_slice(b"unended"),
    }
}

// Writes an outcome as a report spells it.
fn push_outcome(text: &mut Vec<u8>, outcome: Outcome) -> Result<(), AllocError>
    ensures { OnOk result (text.new.items ≡ text.old.items ++ outcome_text (Some outcome)) }
{
    match outcome {
        Outcome::Succeeded(value) => push_number(text, b"succeeded ", value.get()),
        Outcome::Errored(code) => push_number(text, b"errored ", code.get()),
        Outcome::Canceled => text.extend_from_slice(b"canceled"),
    }
}

// Writes a word and a number.
fn push_number(text: &mut Vec<u8>, word: &[u8], number: i64) -> Result<(), AllocError>
    ensures { OnOk result (text.new.items ≡ text.old.items ++ (word.now ++ signed_decimal number)) }
{
    let mut digits = Buffer::new();
    text.extend_from_slice(word)?;
    text.extend_from_slice(digits.format(number).as_bytes())
}

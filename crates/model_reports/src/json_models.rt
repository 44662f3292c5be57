//! Reports as JSON.

use crate::found::{push_fault, schedule_of, watched_ref};
use crate::judged::{JudgedModel, name_of};
use crate::named_file::{bytes_of, position_in_file, start_of};
use crate::names::{push_fiber_name, push_ref};
use crate::one_line::joined;
use crate::unexplored::undecided_words;
use crate::verdicts::counts_of;
use effect_term::Outcome;
use model_claims::{FiberName, SeenFiber, Verdict};
use model_runs::{ClaimResult, HeldRef, Named, NamedAnswer, Warning};
use reasons::Position;
use serde_json::{Value, json};
use std::alloc::{AllocError, Global};

/// Returns a report on models as one object and a line feed: the models, each made by [`model_json`], and the number of
/// each of these verdicts. `AllocError` if memory runs out.
pub fn json_report(
    alloc: Global,
    verdicts: &[Verdict],
    models: Vec<Value>,
) -> Result<Vec<u8>, AllocError> {
    let counts = counts_of(verdicts);
    let passed = counts.passed;
    let failed = counts.failed;
    let undecided = counts.undecided;
    let models = Value::Array(models);
    let value = json!(in alloc; {"failed": failed, "models": models, "passed": passed,
        "undecided": undecided})?;
    let mut text = value.to_string(alloc)?.into_bytes();
    text.push(b'\n')?;
    Ok(text)
}

/// Returns a model: its name and its place, its verdict, the numbers of its worlds and its milliseconds, its claims, its
/// warnings, and why it is undecided if it is. `AllocError` if memory runs out.
pub fn model_json(alloc: Global, judged: JudgedModel) -> Result<Value, AllocError> {
    let name = text_value(alloc, name_of(judged.source, judged.model))?;
    let file = text_value(alloc, judged.file.name)?;
    let position = position_of(judged, judged.model.name.start);
    let line = position.line;
    let column = position.column;
    let verdict = json_word(judged.result.verdict);
    let worlds = judged.result.worlds;
    let milliseconds = judged.milliseconds;
    let claims = claim_values(alloc, judged)?;
    let warnings = warning_values(alloc, judged)?;
    match undecided_words(judged) {
        None => json!(in alloc; {"claims": claims, "column": column, "file": file, "line": line,
            "milliseconds": milliseconds, "name": name, "verdict": verdict, "warnings": warnings,
            "worlds": worlds}),
        Some(why) => {
            json!(in alloc; {"claims": claims, "column": column, "file": file, "line": line,
            "milliseconds": milliseconds, "name": name, "undecided": why, "verdict": verdict,
            "warnings": warnings, "worlds": worlds})
        }
    }
}

// The line and the column of a place of a source; both are 1 if the place isn't in the file.
fn position_of(judged: JudgedModel, place: usize) -> Position {
    match position_in_file(judged.file, place) {
        Some(position) => position,
        None => Position { line: 1, column: 1 },
    }
}

// Bytes as a string. Bytes that are no UTF-8 become U+FFFD.
fn text_value(alloc: Global, bytes: &[u8]) -> Result<Value, AllocError> {
    let text = String::from_utf8_lossy(alloc, bytes)?;
    Ok(Value::String(text))
}

// The word of a verdict.
fn json_word(verdict: Verdict) -> &'static str {
    match verdict {
        Verdict::Passed => "passed",
        Verdict::Failed => "failed",
        Verdict::Undecided => "undecided",
    }
}

// The warnings of a model.
fn warning_values(alloc: Global, judged: JudgedModel) -> Result<Value, AllocError> {
    let mut values = Vec::new(alloc);
    for warning in judged.result.warnings.iter() {
        let value = warning_value(alloc, judged, *warning)?;
        values.push(value)?;
    }
    Ok(Value::Array(values))
}

// A warning: its short name, its place and the form that the warning is about.
fn warning_value(
    alloc: Global,
    judged: JudgedModel,
    warning: Warning,
) -> Result<Value, AllocError> {
    let position = position_of(judged, start_of(judged.source, warning.form()));
    let line = position.line;
    let column = position.column;
    let code = warning.code();
    let form = joined(alloc, bytes_of(judged.source, warning.form()))?;
    let form = text_value(alloc, form.as_slice())?;
    json!(in alloc; {"code": code, "column": column, "form": form, "line": line})
}

// The claims of a model.
fn claim_values(alloc: Global, judged: JudgedModel) -> Result<Value, AllocError> {
    let mut values = Vec::new(alloc);
    for claim in judged.result.claims.iter() {
        let value = claim_value(alloc, judged, claim)?;
        values.push(value)?;
    }
    Ok(Value::Array(values))
}

// A claim: its text and its place, its verdict, and, of the answer that decides the claim, the schedule, the fault and
// what was found.
fn claim_value(
    alloc: Global,
    judged: JudgedModel,
    claim: &ClaimResult,
) -> Result<Value, AllocError> {
    let form = joined(alloc, bytes_of(judged.source, claim.form))?;
    let text = text_value(alloc, form.as_slice())?;
    let position = position_of(judged, start_of(judged.source, claim.form));
    let line = position.line;
    let column = position.column;
    let verdict = json_word(claim.verdict);
    let answer = shown_answer(judged, claim);
    let schedule = schedule_value(alloc, answer)?;
    let fault = fault_value(alloc, answer)?;
    let found = found_value(alloc, judged, claim, answer)?;
    json!(in alloc; {"claim": text, "column": column, "fault": fault, "found": found, "line": line,
        "schedule": schedule, "verdict": verdict})
}

// The answer that decides a claim, if any.
fn shown_answer<'a>(judged: JudgedModel<'a>, claim: &ClaimResult) -> Option<&'a NamedAnswer> {
    let search = judged.result.search_of(claim)?;
    search.answers.get(claim.shown?)
}

// The schedule of an answer, or null if there is no answer.
fn schedule_value(alloc: Global, answer: Option<&NamedAnswer>) -> Result<Value, AllocError> {
    let Some(answer) = answer else {
        return Ok(Value::Null);
    };
    let schedule = schedule_of(alloc, answer)?;
    Ok(Value::String(schedule))
}

// The fault that ends an answer's schedule, or null if there is none.
fn fault_value(alloc: Global, answer: Option<&NamedAnswer>) -> Result<Value, AllocError> {
    let Some(answer) = answer else {
        return Ok(Value::Null);
    };
    let Some(fault) = answer.fault else {
        return Ok(Value::Null);
    };
    let mut words = Vec::new(alloc);
    push_fault(&mut words, fault)?;
    text_value(alloc, words.as_slice())
}

// What was found in an answer, or null if there is no answer.
fn found_value(
    alloc: Global,
    judged: JudgedModel,
    claim: &ClaimResult,
    answer: Option<&NamedAnswer>,
) -> Result<Value, AllocError> {
    let Some(answer) = answer else {
        return Ok(Value::Null);
    };
    let mut values = Vec::new(alloc);
    for held in answer.held.iter() {
        let value = held_value(alloc, judged, claim.replay.as_ref(), held)?;
        values.push(value)?;
    }
    for (number, fiber) in answer.seen.fibers.iter().enumerate() {
        let value = fiber_value(alloc, judged, claim.replay.as_ref(), fiber, number)?;
        values.push(value)?;
    }
    Ok(Value::Array(values))
}

// A fiber and its outcome, or, for a watcher, its ref and the ref's value.
fn fiber_value(
    alloc: Global,
    judged: JudgedModel,
    replay: Option<&Named>,
    fiber: &SeenFiber,
    number: usize,
) -> Result<Value, AllocError> {
    match (fiber.name, replay) {
        (FiberName::Watcher, Some(replay)) => watched_value(alloc, judged, replay, fiber, number),
        _ => named_fiber_value(alloc, judged, fiber, number),
    }
}

// The name and the outcome of a fiber.
fn named_fiber_value(
    alloc: Global,
    judged: JudgedModel,
    fiber: &SeenFiber,
    number: usize,
) -> Result<Value, AllocError> {
    let mut name = Vec::new(alloc);
    push_fiber_name(&mut name, judged.source, fiber.name, number)?;
    let name = text_value(alloc, name.as_slice())?;
    let outcome = outcome_value(alloc, fiber.outcome)?;
    json!(in alloc; {"fiber": name, "outcome": outcome})
}

// The name of a watched ref, and the value that the watcher read.
fn watched_value(
    alloc: Global,
    judged: JudgedModel,
    replay: &Named,
    fiber: &SeenFiber,
    number: usize,
) -> Result<Value, AllocError> {
    let mut name = Vec::new(alloc);
    if let Some(number) = watched_ref(replay, number) {
        push_ref(&mut name, judged.source, replay, number)?;
    }
    let name = text_value(alloc, name.as_slice())?;
    match fiber.outcome {
        Some(Outcome::Succeeded(value)) => json!(in alloc; {"ref": name, "value": value.get()}),
        _ => json!(in alloc; {"ref": name, "value": null}),
    }
}

// The name of a ref, and its value at a moment.
fn held_value(
    alloc: Global,
    judged: JudgedModel,
    replay: Option<&Named>,
    held: &HeldRef,
) -> Result<Value, AllocError> {
    let mut name = Vec::new(alloc);
    if let Some(replay) = replay {
        push_ref(&mut name, judged.source, replay, held.number)?;
    }
    let name = text_value(alloc, name.as_slice())?;
    json!(in alloc; {"ref": name, "value": held.value.get()})
}

// The outcome of a fiber, or `unended`.
fn outcome_value(alloc: Global, outcome: Option<Outcome>) -> Result<Value, AllocError> {
    let Some(ended) = outcome else {
        return json!(in alloc; "unended");
    };
    match ended {
        Outcome::Succeeded(value) => json!(in alloc; {"succeeded": value.get()}),
        Outcome::Errored(code) => json!(in alloc; {"errored": code.get()}),
        Outcome::Canceled => json!(in alloc; "canceled"),
    }
}

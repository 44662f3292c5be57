//! Compiles forms to conditions.

use crate::claim_faults::{condition_fault, outcome_fault};
use crate::condition::{Comparison, Condition, Spoken, SpokenName, Wanted, Who, Word};
use crate::names::{needs_names, who_at};
use crate::parts::{
    Place, behind, both_at, first_at, head_at, number_at, only_at, outcome_at, parts_at, word_at,
};
use crate::refs::{Subjects, add_ref};
use crate::words::{Test, test_of};
use model_forms::Block;
use model_terms::Refused;
use std::alloc::{AllocError, Global};

// How the truths of several conditions are joined.
#[derive(Clone, Copy)]
enum Join {
    All,
    Any,
}

// What is left to do.
#[derive(Clone, Copy)]
enum Task {
    // Compile the condition with this number. The flag says whether it holds only of answers that have its fibers.
    Condition(usize, bool),
    // Compile the conditions of this block, each joined to those before it, with the same flag.
    Each(Block, Join, bool),
    // Add this word.
    Put(Word),
}

/// Adds the words of the condition with this number, and what the condition is about to `subjects`. If `strict` is set,
/// `ends` and `says` hold only of an answer in which such a fiber was started; under a `not`, if `strict` isn't set. So
/// an answer that decides a claim by them has such a fiber.
pub(crate) fn compile(
    alloc: Global,
    place: &Place,
    at: usize,
    strict: bool,
    condition: &mut Condition,
    subjects: &mut Subjects,
) -> Result<(), Refused> {
    let mut tasks = Vec::new(alloc);
    tasks.push(Task::Condition(at, strict))?;
    let steps = place
        .source
        .file
        .forms
        .len()
        .saturating_mul(4)
        .saturating_add(4);
    for _ in 0..steps {
        match tasks.pop() {
            None => return Ok(()),
            Some(task) => make(alloc, place, task, condition, subjects, &mut tasks)?,
        }
    }
    Err(condition_fault(alloc, place, at))
}

// Does one task.
fn make(
    alloc: Global,
    place: &Place,
    task: Task,
    condition: &mut Condition,
    subjects: &mut Subjects,
    tasks: &mut Vec<Task>,
) -> Result<(), Refused> {
    match task {
        Task::Condition(at, strict) => one(alloc, place, at, strict, condition, subjects, tasks),
        Task::Each(block, join, strict) => {
            each(place, block, join, strict, tasks)?;
            Ok(())
        }
        Task::Put(word) => {
            condition.words.push(word)?;
            Ok(())
        }
    }
}

// The word that joins two truths.
fn joining(join: Join) -> Word {
    match join {
        Join::All => Word::And,
        Join::Any => Word::Or,
    }
}

// Adds the tasks for a block: its first condition, then the word that joins it, then the rest of the block.
fn each(
    place: &Place,
    block: Block,
    join: Join,
    strict: bool,
    tasks: &mut Vec<Task>,
) -> Result<(), AllocError> {
    let Some(first) = first_at(place.source, block) else {
        return Ok(());
    };
    tasks.push(Task::Each(behind(place.source, block), join, strict))?;
    tasks.push(Task::Put(joining(join)))?;
    tasks.push(Task::Condition(first, strict))?;
    Ok(())
}

// Compiles the condition with this number, or adds the tasks for it.
fn one(
    alloc: Global,
    place: &Place,
    at: usize,
    strict: bool,
    condition: &mut Condition,
    subjects: &mut Subjects,
    tasks: &mut Vec<Task>,
) -> Result<(), Refused> {
    let Some(test) = test_of(head_at(place.source, at)) else {
        return Err(condition_fault(alloc, place, at));
    };
    match test {
        Test::And => {
            joined(place, at, Word::Yes, Join::All, strict, condition, tasks)?;
            Ok(())
        }
        Test::Or => {
            joined(place, at, Word::No, Join::Any, strict, condition, tasks)?;
            Ok(())
        }
        Test::Not => negated(alloc, place, at, strict, tasks),
        Test::Ends => ends(alloc, place, at, strict, condition, subjects),
        Test::Said => said(alloc, place, at, condition, subjects),
        Test::Says => says(alloc, place, at, strict, condition, subjects),
        Test::Compares(comparison) => {
            compares(alloc, place, at, comparison, condition, subjects)
        }
        Test::AllEnd => ended(alloc, place, at, Who::Everyone, condition, subjects),
        Test::NoDeadlock => ended(alloc, place, at, Who::Main, condition, subjects),
    }
}

// `and` and `or`: adds the truth of no conditions, and a task that joins each condition of the form to it.
fn joined(
    place: &Place,
    at: usize,
    none: Word,
    join: Join,
    strict: bool,
    condition: &mut Condition,
    tasks: &mut Vec<Task>,
) -> Result<(), AllocError> {
    condition.words.push(none)?;
    tasks.push(Task::Each(parts_at(place.source, at), join, strict))?;
    Ok(())
}

// `(not c)`.
fn negated(
    alloc: Global,
    place: &Place,
    at: usize,
    strict: bool,
    tasks: &mut Vec<Task>,
) -> Result<(), Refused> {
    let Some(part) = only_at(place.source, parts_at(place.source, at)) else {
        return Err(condition_fault(alloc, place, at));
    };
    tasks.push(Task::Put(Word::Not))?;
    tasks.push(Task::Condition(part, !strict))?;
    Ok(())
}

// `(all-end)` and `(no-deadlock)`.
fn ended(
    alloc: Global,
    place: &Place,
    at: usize,
    who: Who,
    condition: &mut Condition,
    subjects: &mut Subjects,
) -> Result<(), Refused> {
    if first_at(place.source, parts_at(place.source, at)).is_some() {
        return Err(condition_fault(alloc, place, at));
    }
    speak_of(who, subjects);
    condition.words.push(Word::Ended(who))?;
    Ok(())
}

// The fibers that a leaf is about: those that its first part names. Adds this name to those of the condition.
fn who_of(
    alloc: Global,
    place: &Place,
    at: usize,
    condition: &mut Condition,
    subjects: &mut Subjects,
) -> Result<Who, Refused> {
    let Some(first) = first_at(place.source, parts_at(place.source, at)) else {
        return Err(condition_fault(alloc, place, at));
    };
    if word_at(place.source, first).is_empty() {
        return Err(condition_fault(alloc, place, at));
    }
    let who = who_at(alloc, place, first)?;
    speak_of(who, subjects);
    spell(condition, first, Spoken::Fibers(who))?;
    Ok(who)
}

/// Adds the name that the form with this number spells.
pub(crate) fn spell(
    condition: &mut Condition,
    form: usize,
    what: Spoken,
) -> Result<(), AllocError> {
    condition.names.push(SpokenName { form, what })?;
    Ok(())
}

// Records that a condition is about these fibers.
fn speak_of(who: Who, subjects: &mut Subjects) {
    subjects.fibers = true;
    if needs_names(who) {
        subjects.names = true;
    }
}

// `(ends f o ..)`.
fn ends(
    alloc: Global,
    place: &Place,
    at: usize,
    strict: bool,
    condition: &mut Condition,
    subjects: &mut Subjects,
) -> Result<(), Refused> {
    let who = who_of(alloc, place, at, condition, subjects)?;
    let rest = behind(place.source, parts_at(place.source, at));
    if first_at(place.source, rest).is_none() {
        return Err(condition_fault(alloc, place, at));
    }
    let from = condition.outcomes.len();
    push_outcomes(alloc, place, rest, &mut condition.outcomes)?;
    let to = condition.outcomes.len();
    condition.words.push(Word::Ends(who, from, to))?;
    if strict {
        push_started(who, condition)?;
    }
    Ok(())
}

// Adds to a truth that one of these fibers was started. None was if each of them ended in one of no ways.
fn push_started(who: Who, condition: &mut Condition) -> Result<(), AllocError> {
    condition.words.push(Word::Ends(who, 0, 0))?;
    condition.words.push(Word::Not)?;
    condition.words.push(Word::And)?;
    Ok(())
}

/// Adds the ways to end that a block names.
pub(crate) fn push_outcomes(
    alloc: Global,
    place: &Place,
    block: Block,
    outcomes: &mut Vec<Wanted>,
) -> Result<(), Refused> {
    let mut rest = block;
    for _ in 0..place.source.file.forms.len() {
        let Some(first) = first_at(place.source, rest) else {
            return Ok(());
        };
        push_outcome(alloc, place, first, outcomes)?;
        rest = behind(place.source, rest);
    }
    Ok(())
}

// Adds the way to end that a form names.
fn push_outcome(
    alloc: Global,
    place: &Place,
    at: usize,
    outcomes: &mut Vec<Wanted>,
) -> Result<(), Refused> {
    match outcome_at(place.source, place.model, at) {
        Some(outcome) => {
            outcomes.push(outcome)?;
            Ok(())
        }
        None => Err(outcome_fault(alloc, place, at)),
    }
}

// `(said f v ..)`.
fn said(
    alloc: Global,
    place: &Place,
    at: usize,
    condition: &mut Condition,
    subjects: &mut Subjects,
) -> Result<(), Refused> {
    let who = who_of(alloc, place, at, condition, subjects)?;
    let rest = behind(place.source, parts_at(place.source, at));
    if first_at(place.source, rest).is_none() {
        return Err(condition_fault(alloc, place, at));
    }
    let from = condition.values.len();
    push_values(alloc, place, at, rest, condition)?;
    let to = condition.values.len();
    condition.words.push(Word::Said(who, from, to))?;
    Ok(())
}

// `(says f v ..)`.
fn says(
    alloc: Global,
    place: &Place,
    at: usize,
    strict: bool,
    condition: &mut Condition,
    subjects: &mut Subjects,
) -> Result<(), Refused> {
    let who = who_of(alloc, place, at, condition, subjects)?;
    let rest = behind(place.source, parts_at(place.source, at));
    let from = condition.values.len();
    push_values(alloc, place, at, rest, condition)?;
    let to = condition.values.len();
    condition.words.push(Word::Says(who, from, to))?;
    if strict {
        push_started(who, condition)?;
    }
    Ok(())
}

// Adds the numbers of a block. `at` is the number of the condition that has the block.
fn push_values(
    alloc: Global,
    place: &Place,
    at: usize,
    block: Block,
    condition: &mut Condition,
) -> Result<(), Refused> {
    let mut rest = block;
    for _ in 0..place.source.file.forms.len() {
        let Some(first) = first_at(place.source, rest) else {
            return Ok(());
        };
        let Some(value) = number_at(place.source, place.model, first) else {
            return Err(condition_fault(alloc, place, at));
        };
        condition.values.push(value)?;
        rest = behind(place.source, rest);
    }
    Ok(())
}

// `(= r v)` and the other comparisons.
fn compares(
    alloc: Global,
    place: &Place,
    at: usize,
    comparison: Comparison,
    condition: &mut Condition,
    subjects: &mut Subjects,
) -> Result<(), Refused> {
    let Some((name, number)) = both_at(place.source, parts_at(place.source, at)) else {
        return Err(condition_fault(alloc, place, at));
    };
    let Some(value) = number_at(place.source, place.model, number) else {
        return Err(condition_fault(alloc, place, at));
    };
    if word_at(place.source, name).is_empty() {
        return Err(condition_fault(alloc, place, at));
    }
    let cell = add_ref(alloc, place, subjects, name)?;
    spell(condition, name, Spoken::Ref(cell))?;
    condition
        .words
        .push(Word::Compares(cell, comparison, value))?;
    Ok(())
}

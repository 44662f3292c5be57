//! Whether a condition holds of an answer.

ghost use Rattle.std.specs.Prelude.{◌≡◌, IfOk, OnOk, slice_range};
ghost use Rattle.std.specs.List.{fold};
ghost use Rattle.model_claims.specs.Leaves.{compare_held};
ghost use Rattle.model_claims.specs.Conditions.{as_truth, below, holds, is_watcher, joint, probed_truth, step, top};
ghost use Rattle.model_claims.specs.Conditions.{truth_in, truth_of, value_of, watched, watched_truth, with_moment};
ghost use Rattle.model_claims.specs.Conditions.{word_rest, word_truth};

use crate::answer::{FiberName, Seen, SeenFiber};
use crate::claim::Claim;
use crate::condition::{Comparison, Condition, Wanted, Word};
use crate::leaf::{all_say, compare, end_so, have_ended, one_said, values_between};
use claim_verdicts::{Rule, Truth};
use effect_term::{Outcome, Value};
use model_terms::{Probe, Source};
use std::alloc::{AllocError, Global};

// The wanted ways to end from index `from` up to `to`.
fn outcomes_of(condition: &Condition, from: usize, to: usize) -> &[Wanted]
    ensures { result.now ≡ slice_range condition.now.outcomes.items from to }
{
    let outcomes = condition.outcomes.as_slice();
    let to = to.min(outcomes.len());
    let from = from.min(to);
    &outcomes[from..to]
}

// The values from index `from` up to `to`.
fn values_of(condition: &Condition, from: usize, to: usize) -> &[Value]
    ensures { result.now ≡ slice_range condition.now.values.items from to }
{
    values_between(condition.values.as_slice(), from, to)
}

// Pops the truth on top of a stack; false if the stack is empty.
fn take_top(stack: &mut Vec<bool>) -> bool
    ensures top { result ≡ top stack.old.items }
    ensures below { stack.new.items ≡ below stack.old.items }
{
    match stack.pop() {
        Some(truth) => truth,
        None => false,
    }
}

// Whether a comparison of the value that a ref held with a number holds; false if the value isn't known.
fn compare_held(comparison: Comparison, held: &Option<Value>, number: Value) -> bool
    ensures { result ≡ compare_held comparison held.now number }
{
    match held {
        Some(value) => compare(comparison, *value, number),
        None => false,
    }
}

// Pops the operands of a word off the stack, and returns the truth that the word pushes.
fn word_truth(
    source: &Source,
    condition: &Condition,
    seen: &Seen,
    held: &Option<Value>,
    word: &Word,
    stack: &mut Vec<bool>,
) -> bool
    ensures truth { result ≡ word_truth source.now condition.now seen.now held.now word.now stack.old.items }
    ensures rest { stack.new.items ≡ word_rest word.now stack.old.items }
{
    match word {
        Word::Yes => true,
        Word::No => false,
        Word::And => {
            let one = take_top(stack);
            let other = take_top(stack);
            one && other
        }
        Word::Or => {
            let one = take_top(stack);
            let other = take_top(stack);
            one || other
        }
        Word::Not => !take_top(stack),
        Word::Ended(who) => have_ended(source, seen, *who),
        Word::Ends(who, from, to) => {
            end_so(source, seen, *who, outcomes_of(condition, *from, *to))
        }
        Word::Said(who, from, to) => {
            one_said(source, seen, *who, values_of(condition, *from, *to))
        }
        Word::Says(who, from, to) => {
            all_say(source, seen, *who, values_of(condition, *from, *to))
        }
        Word::Late => seen.late,
        Word::Compares(_, comparison, number) => compare_held(*comparison, held, *number),
    }
}

// Runs the words of a condition on a stack.
fn run(
    source: &Source,
    condition: &Condition,
    seen: &Seen,
    held: &Option<Value>,
    words: &[Word],
    stack: &mut Vec<bool>,
) -> Result<(), AllocError>
    ensures { OnOk result (stack.new.items ≡
        fold (λ s w. step source.now condition.now seen.now held.now s w) stack.old.items words.now) }
{
    for word in words {
        let truth = word_truth(source, condition, seen, held, word, stack);
        stack.push(truth)?;
    }
    Ok(())
}

// Whether a condition holds of an answer, if its ref held `held`.
fn holds(
    alloc: Global,
    source: &Source,
    condition: &Condition,
    seen: &Seen,
    held: &Option<Value>,
) -> Result<bool, AllocError>
    ensures { IfOk result (λ b. b ≡ holds source.now condition.now seen.now held.now) }
{
    let mut stack = Vec::new(alloc);
    run(
        source,
        condition,
        seen,
        held,
        condition.words.as_slice(),
        &mut stack,
    )?;
    Ok(take_top(&mut stack))
}

// Whether this is the name of a watcher.
fn is_watcher(name: FiberName) -> bool
    ensures { result ≡ is_watcher name }
{
    match name {
        FiberName::Watcher => true,
        FiberName::Main => false,
        FiberName::Word(_) => false,
        FiberName::Row(_, _) => false,
        FiberName::Left => false,
        FiberName::Right => false,
        FiberName::Hidden => false,
    }
}

// The value with which a fiber succeeded, if it did.
fn value_of(outcome: &Option<Outcome>) -> Option<Value>
    ensures { result ≡ value_of outcome.now }
{
    match outcome {
        Some(Outcome::Succeeded(value)) => Some(*value),
        Some(Outcome::Errored(_)) => None,
        Some(Outcome::Canceled) => None,
        None => None,
    }
}

// The value that a watcher read; none if the fiber is no watcher, or hasn't read.
fn watched(fiber: &SeenFiber) -> Option<Value>
    ensures { result ≡ watched fiber.now }
{
    if is_watcher(fiber.name) {
        value_of(&fiber.outcome)
    } else {
        None
    }
}

// Joins the truth at one more moment to that at the moments before.
fn joint(rule: Rule, known: Option<bool>, truth: bool) -> bool
    ensures { result ≡ joint rule known truth }
{
    match known {
        None => truth,
        Some(before) => match rule {
            Rule::Every => before && truth,
            Rule::Some => before || truth,
        },
    }
}

// Joins the truth at a moment at which the ref held `held`. Returns `known` if `held` is none.
fn with_moment(
    alloc: Global,
    source: &Source,
    claim: &Claim,
    seen: &Seen,
    known: Option<bool>,
    held: &Option<Value>,
) -> Result<Option<bool>, AllocError>
    ensures { IfOk result (λ k. k ≡ with_moment source.now claim.now seen.now known held.now) }
{
    if held.is_none() {
        return Ok(known);
    }
    match holds(alloc, source, &claim.condition, seen, held) {
        Ok(truth) => Ok(Some(joint(claim.rule, known, truth))),
        Err(error) => Err(error),
    }
}

// Whether a condition on a ref holds at the moments at which the watchers read the ref; none if none has read.
fn watched_truth(
    alloc: Global,
    source: &Source,
    claim: &Claim,
    seen: &Seen,
) -> Result<Option<bool>, AllocError>
    ensures { IfOk result (λ k. k ≡ watched_truth source.now claim.now seen.now) }
{
    let mut known = None;
    for fiber in seen.fibers.as_slice() {
        match with_moment(alloc, source, claim, seen, known, &watched(fiber)) {
            Ok(more) => known = more,
            Err(error) => return Err(error),
        }
    }
    Ok(known)
}

/// Whether the condition of a claim holds of an answer. None if the answer is a fault, or if the condition needs a
/// watcher and none has read the ref. What each watcher read has to meet a claim about every answer; what one watcher
/// read has to meet a claim about some answer.
pub fn truth_of(
    alloc: Global,
    source: &Source,
    claim: &Claim,
    seen: &Seen,
) -> Result<Option<bool>, AllocError>
    ensures { IfOk result (λ k. k ≡ truth_of source.now claim.now seen.now) }
{
    if seen.faulty {
        return Ok(None);
    }
    probed_truth(alloc, source, claim, seen)
}

// Whether the condition of a claim holds of an answer that is no fault; none if the needed watchers haven't read.
fn probed_truth(
    alloc: Global,
    source: &Source,
    claim: &Claim,
    seen: &Seen,
) -> Result<Option<bool>, AllocError>
    ensures { IfOk result (λ k. k ≡ probed_truth claim.now.probe source.now claim.now seen.now) }
{
    match claim.probe {
        Probe::Watch(_, _) => watched_truth(alloc, source, claim, seen),
        Probe::Nothing => plain_truth(alloc, source, claim, seen),
        Probe::Order(_, _, _) => plain_truth(alloc, source, claim, seen),
        Probe::Names => plain_truth(alloc, source, claim, seen),
    }
}

fn plain_truth(
    alloc: Global,
    source: &Source,
    claim: &Claim,
    seen: &Seen,
) -> Result<Option<bool>, AllocError>
    ensures { IfOk result (λ k. k ≡ Some (holds source.now claim.now.condition seen.now None)) }
{
    match holds(alloc, source, &claim.condition, seen, &None) {
        Ok(truth) => Ok(Some(truth)),
        Err(error) => Err(error),
    }
}

/// Returns the truth of a claim's condition at an answer, for [`judge`](crate::judge).
pub fn truth_in(
    alloc: Global,
    source: &Source,
    claim: &Claim,
    seen: &Seen,
) -> Result<Truth, AllocError>
    ensures { IfOk result (λ t. t ≡ truth_in source.now claim.now seen.now) }
{
    if seen.faulty {
        return Ok(Truth::Faulty);
    }
    match probed_truth(alloc, source, claim, seen) {
        Ok(known) => Ok(as_truth(known)),
        Err(error) => Err(error),
    }
}

fn as_truth(known: Option<bool>) -> Truth
    ensures { result ≡ as_truth known }
{
    match known {
        Some(true) => Truth::Holds,
        Some(false) => Truth::Fails,
        None => Truth::SaysNothing,
    }
}

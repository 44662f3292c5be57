//! The answer to two texts whose programs are compared.
ghost use Rattle.std.specs.Prelude.{◌≡◌, ◌++◌, IfOk, codes};
ghost use Rattle.outcome_trace.specs.Answers.{IsRefused};
ghost use Rattle.comparison_answers.specs.PairAnswers.{IsComparedAnswer, IsPairAnswer, IsSecondAnswer, Refuses};

use crate::texts::{comparison_status, text_of_comparison};
use crate::values::{comparison_json, first_refused, second_refused};
use compared_ends::{CompareOrder, compare_ends};
use effect_term::Program;
use json_answers::{refusal_json, value_answer};
use outcome_trace::{Answer, Refused, Status, read_program, refusal};
use std::alloc::{AllocError, Global};

/// The answer to two texts, in words or as JSON: the text of the comparison of their programs ([`text_of_comparison`]),
/// with the status of [`comparison_status`], or the refusal of the first refused text, with `Status::Refused`. Returns
/// `AllocError` if memory ran out.
pub fn answer_pair(
    alloc: Global,
    order: &CompareOrder,
    first: &[u8],
    second: &[u8],
) -> Result<Answer, AllocError>
    ensures { IfOk result (λ a. IsPairAnswer order.now.json order.now.limits order.now.bounds order.now.basis first.now
        second.now a.text.items a.status) }
{
    match read_program(alloc, first) {
        Ok(program) => second_answer(alloc, order, &program, second),
        Err(refused) => first_refusal(alloc, order.json, first, refused),
    }
}

// The answer if the first text spells a program.
fn second_answer(
    alloc: Global,
    order: &CompareOrder,
    first: &Program,
    second: &[u8],
) -> Result<Answer, AllocError>
    ensures { IfOk result (λ a. IsSecondAnswer order.now.json order.now.limits order.now.bounds order.now.basis first.now
        second.now a.text.items a.status) }
{
    match read_program(alloc, second) {
        Ok(program) => compared_answer(alloc, order, first, &program),
        Err(refused) => second_refusal(alloc, order.json, second, refused),
    }
}

// The answer if the first text is refused.
fn first_refusal(
    alloc: Global,
    json: bool,
    text: &[u8],
    refused: Refused,
) -> Result<Answer, AllocError>
    requires { IsRefused text.now refused }
    ensures { IfOk result (λ a. Refuses json (codes "first") text.now a.text.items a.status) }
{
    if json {
        let refusal = refusal_json(alloc, text, refused)?;
        let value = first_refused(alloc, refusal)?;
        value_answer(alloc, &value, Status::Refused)
    } else {
        sided(alloc, b"first", refusal(alloc, refused)?)
    }
}

// The answer if the second text is refused.
fn second_refusal(
    alloc: Global,
    json: bool,
    text: &[u8],
    refused: Refused,
) -> Result<Answer, AllocError>
    requires { IsRefused text.now refused }
    ensures { IfOk result (λ a. Refuses json (codes "second") text.now a.text.items a.status) }
{
    if json {
        let refusal = refusal_json(alloc, text, refused)?;
        let value = second_refused(alloc, refusal)?;
        value_answer(alloc, &value, Status::Refused)
    } else {
        sided(alloc, b"second", refusal(alloc, refused)?)
    }
}

// The answer after the name of its side.
fn sided(alloc: Global, side: &[u8], answer: Answer) -> Result<Answer, AllocError>
    ensures text { IfOk result (λ a. a.text.items ≡ side.now ++ (codes ": " ++ answer.text.items)) }
    ensures status { IfOk result (λ a. a.status ≡ answer.status) }
{
    let mut text = Vec::from_slice(alloc, side)?;
    text.extend_from_slice(b": ")?;
    text.extend_from_slice(answer.text.as_slice())?;
    Ok(Answer {
        text,
        status: answer.status,
    })
}

// The answer if both texts spell programs.
fn compared_answer(
    alloc: Global,
    order: &CompareOrder,
    first: &Program,
    second: &Program,
) -> Result<Answer, AllocError>
    ensures { IfOk result (λ a. IsComparedAnswer order.now.json first.now second.now order.now.limits order.now.bounds
        order.now.basis a.text.items a.status) }
{
    let Ok(comparison) = compare_ends(
        alloc,
        first,
        second,
        order.limits,
        order.bounds,
        order.basis,
    ) else {
        return Err(AllocError);
    };
    let status = comparison_status(&comparison);
    if order.json {
        let value = comparison_json(alloc, &comparison)?;
        value_answer(alloc, &value, status)
    } else {
        Ok(Answer {
            text: text_of_comparison(alloc, &comparison)?,
            status,
        })
    }
}

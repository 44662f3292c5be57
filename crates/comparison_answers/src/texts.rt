//! The text of a comparison, and its exit status.
ghost use Rattle.std.specs.Prelude.{◌≡◌, ◌∷◌, ◌++◌, ◌<◌, ℕ, IfOk, codes, length, string_bytes};
ghost use Rattle.std.specs.List.{All};
ghost use Rattle.exploration_text.specs.ExplorationText.{IsSpellable};
ghost use Rattle.compared_ends.specs.declared.comparison.Extra.TheVariants.{Answer as TheAnswer};
ghost use Rattle.comparison_answers.specs.ComparisonText.{IsComparisonText, IsExtraText, comparison_status};
ghost use Rattle.comparison_answers.specs.ComparisonText.{heads, verdict};

use compared_ends::{Comparison, Extra};
use every_schedule::Answer;
use exploration_text::{first_line, text_of_answer};
use outcome_trace::Status;
use std::alloc::{AllocError, Global};

/// The text of a comparison: the verdict, how far both explorations came, and for each program with an end of its own
/// an answer that shows this end, as in the text of an exploration.
///
/// An extra end is that of one of the answers. Each schedule has at most 1,000,000 entries, each at most 999. Returns
/// `AllocError` if memory ran out.
pub fn text_of_comparison(alloc: Global, it: &Comparison) -> Result<Vec<u8>, AllocError>
    requires first { All IsSpellable it.now.first.answers }
    requires second { All IsSpellable it.now.second.answers }
    requires first_within { (i : ℕ) → it.now.first_extra ≡ TheAnswer i → i < length it.now.first.answers }
    requires second_within { (i : ℕ) → it.now.second_extra ≡ TheAnswer i → i < length it.now.second.answers }
    ensures { IfOk result (λ text. IsComparisonText it.now text.items) }
{
    let one = extra_text(
        alloc,
        b"\nonly the first:",
        it.first.answers.as_slice(),
        it.first_extra,
    )?;
    let other = extra_text(
        alloc,
        b"\nonly the second:",
        it.second.answers.as_slice(),
        it.second_extra,
    )?;
    let mut text = heads(alloc, it)?.into_bytes();
    text.extend_from_slice(one.as_slice())?;
    text.extend_from_slice(other.as_slice())?;
    Ok(text)
}

// The verdict, and how far both explorations came.
fn heads(alloc: Global, it: &Comparison) -> Result<String, AllocError>
    ensures { IfOk result (λ text. string_bytes text ≡ heads it.now) }
{
    let first = first_line(alloc, &it.first)?;
    let second = first_line(alloc, &it.second)?;
    let mut text = String::from_str(alloc, verdict(it.first_extra, it.second_extra))?;
    text.push_str("\nfirst: ")?;
    text.push_str(first.as_str())?;
    text.push_str("second: ")?;
    text.push_str(second.as_str())?;
    Ok(text)
}

// The heading and the answer that shows an end of only one program, or nothing.
fn extra_text(
    alloc: Global,
    heading: &[u8],
    answers: &[Answer],
    extra: Extra,
) -> Result<Vec<u8>, AllocError>
    requires spellable { All IsSpellable answers.now }
    requires within { (i : ℕ) → extra ≡ TheAnswer i → i < length answers.now }
    ensures { IfOk result (λ text. IsExtraText heading.now answers.now extra text.items) }
{
    match extra {
        Extra::Answer(index) => {
            let part = text_of_answer(alloc, &answers[index], false)?;
            let mut text = Vec::from_slice(alloc, heading)?;
            text.extend_from_slice(part.as_slice())?;
            Ok(text)
        }
        Extra::Nothing => Ok(Vec::new(alloc)),
        Extra::Undecided => Ok(Vec::new(alloc)),
    }
}

/// The verdict of a comparison in words, by the ends that only one of the programs has.
pub(crate) fn verdict(first: Extra, second: Extra) -> &'static str
    ensures { result.now ≡ verdict first second }
{
    match (first, second) {
        (Extra::Nothing, Extra::Nothing) => "the same ends",
        (Extra::Answer(_), Extra::Nothing) => "the first can do more",
        (Extra::Nothing, Extra::Answer(_)) => "the second can do more",
        (Extra::Answer(_), Extra::Answer(_)) => "each can do what the other can't",
        (Extra::Answer(_), Extra::Undecided) => "the first can do what the second can't",
        (Extra::Undecided, Extra::Answer(_)) => "the second can do what the first can't",
        (Extra::Nothing, Extra::Undecided) => "undecided whether the second can do more",
        (Extra::Undecided, Extra::Nothing) => "undecided whether the first can do more",
        (Extra::Undecided, Extra::Undecided) => "undecided",
    }
}

/// The exit status of a comparison: `Status::Succeeded` if the programs have the same ends, `Status::Errored` if one of
/// them has an end that the other lacks, and `Status::Unended` if that is undecided.
pub fn comparison_status(it: &Comparison) -> Status
    ensures { result ≡ comparison_status it.now }
{
    match (it.first_extra, it.second_extra) {
        (Extra::Answer(_), _) | (_, Extra::Answer(_)) => Status::Errored,
        (Extra::Nothing, Extra::Nothing) => Status::Succeeded,
        _ => Status::Unended,
    }
}

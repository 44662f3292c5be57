//! An exploration without the answers whose schedules are long.
ghost use Rattle.std.specs.Prelude.{◌≡◌, ◌==◌, ◌&&◌, ◌++◌, [], ◌∷◌, length, IfOk, OnOk};
ghost use Rattle.outcome_answers.specs.SaysFound.{is_short, short_in};

use crate::copies::copied;
use every_schedule::{Answer, Answers, Exploration};
use std::alloc::{AllocError, Global};

/// The same exploration, without the answers whose schedules have more than `entries` entries; it isn't complete if
/// there were any. `AllocError` if memory ran out.
pub(crate) fn short_says(
    alloc: Global,
    found: &Exploration,
    entries: usize,
) -> Result<Exploration, AllocError>
    ensures answers { IfOk result (λ it. it.answers ≡ short_in entries found.now.answers) }
    ensures complete { IfOk result (λ it. it.complete ≡
        (found.now.complete && (length it.answers == length found.now.answers))) }
    ensures halted { IfOk result (λ it. it.halted ≡ found.now.halted) }
    ensures worlds { IfOk result (λ it. it.worlds ≡ found.now.worlds) }
    ensures bytes { IfOk result (λ it. it.bytes ≡ found.now.bytes) }
{
    let all = found.answers.as_slice();
    let short = short_answers(alloc, all, entries)?;
    let whole = short.len() == all.len();
    Ok(Exploration {
        answers: Answers::new(short),
        worlds: found.worlds,
        bytes: found.bytes,
        complete: found.complete && whole,
        halted: found.halted,
    })
}

// The answers whose schedules have at most `entries` entries.
fn short_answers(
    alloc: Global,
    answers: &[Answer],
    entries: usize,
) -> Result<Vec<Answer>, AllocError>
    ensures { IfOk result (λ it. it.items ≡ short_in entries answers.now) }
{
    let mut short = Vec::new(alloc);
    for answer in answers {
        add_short(alloc, &mut short, answer, entries)?;
    }
    Ok(short)
}

// Adds an answer if its schedule has at most `entries` entries.
fn add_short(
    alloc: Global,
    short: &mut Vec<Answer>,
    answer: &Answer,
    entries: usize,
) -> Result<(), AllocError>
    ensures { OnOk result (short.new.items ≡ short.old.items ++ short_in entries (answer.now ∷ [])) }
{
    if !is_short(answer, entries) {
        return Ok(());
    }
    let one = copied(alloc, answer)?;
    add(short, one)?;
    Ok(())
}

// Adds an answer.
fn add(answers: &mut Vec<Answer>, one: Answer) -> Result<(), AllocError>
    ensures { OnOk result (answers.new.items ≡ answers.old.items ++ one ∷ []) }
{
    answers.push(one)?;
    Ok(())
}

// Whether the schedule of an answer has at most `entries` entries.
fn is_short(answer: &Answer, entries: usize) -> bool
    ensures { result ≡ is_short entries answer.now }
{
    answer.schedule.as_slice().len() <= entries
}

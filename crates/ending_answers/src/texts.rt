//! The text of a decision on fair schedules, and its exit status.
ghost use Rattle.std.specs.Prelude.{◌≡◌, ◌≤◌, IfOk, string_bytes};
ghost use Rattle.std.specs.List.{All};
ghost use Rattle.exploration_text.specs.ExplorationText.{IsSpellable};
ghost use Rattle.ending_answers.specs.Decisions.{IsShort, IsShortCycle};
ghost use Rattle.ending_answers.specs.DecidedText.{IsDecidedText, IsEndingText, decided_status, repeats_line};

use crate::decided::Decided;
use every_schedule::{Cycle, Ending};
use exploration_text::{Want, exploration_status, text_of_exploration};
use outcome_trace::{Status, schedule_text};
use std::alloc::{AllocError, Global};

/// The text of an exploration, then a blank line and the decision on the fair schedules.
///
/// Each schedule has at most 1,000,000 entries, each at most 999. `AllocError` if memory ran out.
pub fn text_of_decided(alloc: Global, it: &Decided, wants: &[Want]) -> Result<Vec<u8>, AllocError>
    requires answers { All IsSpellable it.now.exploration.answers }
    requires short { IsShort 1000000 it.now.ending }
    ensures { IfOk result (λ text. IsDecidedText wants.now it.now text.items) }
{
    let ending = ending_text(alloc, &it.ending)?;
    let mut text = text_of_exploration(alloc, &it.exploration, wants)?;
    text.extend_from_slice(ending.as_bytes())?;
    Ok(text)
}

// A blank line and the decision.
fn ending_text(alloc: Global, ending: &Ending) -> Result<String, AllocError>
    requires { IsShort 1000000 ending.now }
    ensures { IfOk result (λ text. IsEndingText ending.now (string_bytes text)) }
{
    match ending {
        Ending::Ends => String::from_str(alloc, "\nends under every fair schedule\n"),
        Ending::Repeats(cycle) => cycle_text(alloc, cycle),
        Ending::Undecided => {
            String::from_str(alloc, "\nundecided whether every fair schedule ends\n")
        }
    }
}

// A blank line and a cycle that goes on for ever.
fn cycle_text(alloc: Global, cycle: &Cycle) -> Result<String, AllocError>
    requires { IsShortCycle 1000000 cycle.now }
    ensures { IfOk result (λ text. IsEndingText (Ending.Repeats cycle.now) (string_bytes text)) }
{
    let stem = schedule_text(alloc, cycle.stem.as_slice())?;
    let again = schedule_text(alloc, cycle.cycle.as_slice())?;
    repeats_text(alloc, stem.as_str(), again.as_str())
}

// The same, from the texts of its schedules.
fn repeats_text(alloc: Global, stem: &str, again: &str) -> Result<String, AllocError>
    ensures { IfOk result (λ text. string_bytes text ≡ repeats_line stem.now again.now) }
{
    let mut text = String::from_str(alloc, "\na fair schedule goes on for ever: first \"")?;
    text.push_str(stem)?;
    text.push_str("\", then again and again \"")?;
    text.push_str(again)?;
    text.push_str("\"\n")?;
    Ok(text)
}

/// The exit status: that of the exploration ([`exploration_status`]) if every fair schedule ends, `Status::Errored` if
/// one doesn't end, and `Status::Unended` if this is undecided and the exploration shows nothing wrong.
pub fn decided_status(it: &Decided, wants: &[Want]) -> Status
    ensures { result ≡ decided_status wants.now it.now }
{
    let explored = exploration_status(&it.exploration, wants);
    match it.ending {
        Ending::Ends => explored,
        Ending::Repeats(_) => Status::Errored,
        Ending::Undecided => match explored {
            Status::Succeeded => Status::Unended,
            _ => explored,
        },
    }
}

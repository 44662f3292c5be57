//! The words of each form in a code: its own words and those of its parts, in the order in which `expand` of
//! `derived_ops` writes them.

use crate::sources::StartRole;
use crate::task::{Task, put_first};
use crate::term_parts::TermParts;
use std::alloc::AllocError;

/// The words of a form with one word of its own: this word, and then its parts.
pub(crate) fn plain(
    tasks: &mut Vec<Task>,
    place: usize,
    parts: &[usize],
) -> Result<(), AllocError> {
    for part in parts.iter().rev() {
        tasks.push(Task::Form(*part))?;
    }
    tasks.push(Task::Words(1, place))?;
    Ok(())
}

/// The words of a `start`.
pub(crate) fn start(
    tasks: &mut Vec<Task>,
    place: usize,
    parts: TermParts,
) -> Result<(), AllocError> {
    put_first(
        tasks,
        &[
            Task::Start(StartRole::Own, place),
            Task::Form(parts.first),
            Task::Form(parts.second),
        ],
    )
}

/// The words of a `guarantee`: its body, and its finalizer once for each outcome.
pub(crate) fn guarantee(
    tasks: &mut Vec<Task>,
    place: usize,
    body: usize,
    finalizer: usize,
) -> Result<(), AllocError> {
    put_first(
        tasks,
        &[
            Task::Words(5, place),
            Task::Form(body),
            Task::Form(finalizer),
            Task::Words(2, place),
            Task::Form(finalizer),
            Task::Words(3, place),
            Task::Form(finalizer),
            Task::Words(1, place),
        ],
    )
}

/// The forms that a bracket runs after each outcome of its body.
#[derive(Clone, Copy)]
pub(crate) struct Releases {
    /// The form for a body that was canceled.
    pub on_cancel: usize,
    /// The form for an error.
    pub on_error: usize,
    /// The form for a value.
    pub on_value: usize,
}

/// The words of a bracket.
pub(crate) fn bracket(
    tasks: &mut Vec<Task>,
    place: usize,
    acquire: usize,
    body: usize,
    releases: Releases,
) -> Result<(), AllocError> {
    put_first(
        tasks,
        &[
            Task::Words(2, place),
            Task::Form(acquire),
            Task::Words(8, place),
            Task::Form(body),
            Task::Words(4, place),
            Task::Form(releases.on_cancel),
            Task::Words(8, place),
            Task::Form(releases.on_error),
            Task::Words(8, place),
            Task::Form(releases.on_value),
            Task::Words(6, place),
        ],
    )
}

// The number of words of a race behind those that cancel both sides: two waits, and the outcome of the winner.
const RACE_REST: usize = 9 + 45;

// The number of these words for `both`, with the ref's value and its binder.
const BOTH_REST: usize = 9 + 55 + 2;

// The words that run both sides of a race, and cancel them if the wait is cut. `rest` words follow them.
fn sides(
    tasks: &mut Vec<Task>,
    place: usize,
    left: usize,
    right: usize,
    rest: usize,
) -> Result<(), AllocError> {
    put_first(
        tasks,
        &[
            Task::Start(StartRole::Left, place),
            Task::Words(5, place),
            Task::Form(left),
            Task::Words(9, place),
            Task::Start(StartRole::Right, place),
            Task::Words(5, place),
            Task::Form(right),
            Task::Words(13, place),
            Task::Start(StartRole::Helper, place),
            Task::Words(1, place),
            Task::Start(StartRole::Helper, place),
            Task::Words(1, place),
            Task::Words(rest, place),
        ],
    )
}

/// The words of a `race`.
pub(crate) fn race(
    tasks: &mut Vec<Task>,
    place: usize,
    parts: TermParts,
) -> Result<(), AllocError> {
    sides(tasks, place, parts.first, parts.second, RACE_REST)?;
    tasks.push(Task::Words(2, place))?;
    Ok(())
}

/// The words of a `both`.
pub(crate) fn both(
    tasks: &mut Vec<Task>,
    place: usize,
    parts: TermParts,
) -> Result<(), AllocError> {
    tasks.push(Task::Form(parts.third))?;
    sides(tasks, place, parts.first, parts.second, BOTH_REST)?;
    tasks.push(Task::Words(4, place))?;
    Ok(())
}

//! Why a model is undecided.

use crate::judged::JudgedModel;
use model_claims::Verdict;
use model_runs::Search;

/// Why a model has no result of a search.
#[derive(Clone, Copy, PartialEq, Eq, Debug)]
pub enum Unexplored {
    /// Memory ran out in its search.
    NoMemory,
    /// The time of all models was over before its search began.
    NoTime,
}

/// The words for why a model has no result of a search.
pub(crate) fn unexplored_words(why: Unexplored) -> &'static str {
    match why {
        Unexplored::NoMemory => "memory ran out",
        Unexplored::NoTime => "its time was over at 0 worlds",
    }
}

/// The words for why a model is undecided: why its first claim without a verdict is. None if the model has a verdict.
pub(crate) fn undecided_words(judged: JudgedModel) -> Option<&'static str> {
    match (judged.result.verdict, judged.unexplored) {
        (Verdict::Passed | Verdict::Failed, _) => None,
        (Verdict::Undecided, Some(Unexplored::NoMemory)) => Some("memory ran out"),
        (Verdict::Undecided, Some(Unexplored::NoTime)) => Some(TIME),
        (Verdict::Undecided, None) => Some(search_words(first_undecided(judged))),
    }
}

// The words for a search that was ended by its time.
const TIME: &str = "its time was over";

// The search of the first claim without a verdict.
fn first_undecided<'a>(judged: JudgedModel<'a>) -> Option<&'a Search> {
    for claim in judged.result.claims.iter() {
        if claim.verdict == Verdict::Undecided {
            return judged.result.search_of(claim);
        }
    }
    None
}

// The words for why a search decides nothing.
fn search_words(search: Option<&Search>) -> &'static str {
    match search {
        Some(search) if search.complete => "an exploration doesn't decide it",
        Some(search) if search.halted => TIME,
        _ => "a bound was met",
    }
}

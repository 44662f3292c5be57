//! Faults of the parts of claims (E20). Each is at the part that is refused, and says what was wanted there.

use crate::faults::quoting_fault;
use crate::parts::{
    Place, behind, both_at, first_at, head_at, inside_at, number_at, only_at, parts_at, word_at,
};
use crate::words::{Head, Test, head_of, test_of};
use model_forms::Block;
use model_terms::Refused;
use std::alloc::Global;

const NO_CONDITION: &str =
    " is no condition: (ends f o ..), (said f v ..), (= r v) and its like, (and c ..), (or c ..) or (not c)";

const NO_OUTCOME: &str =
    " is no outcome: V, succeeded, (succeeded V), errored, (errored C), canceled or unended";

const NO_CLAIM: &str =
    " is no claim: all-end, always, before, can, ever, must, never, no-deadlock, want";

const NUMBER: &str = " must be a number, or a constant above this model";

// A part that is refused: the number of its form, and the message, which has the word of another form between `before`
// and `after`.
#[derive(Clone, Copy)]
struct Blame {
    at: usize,
    before: &'static str,
    of: usize,
    after: &'static str,
}

// The fault of a part that is refused.
fn fault_of(alloc: Global, place: &Place, blame: Blame) -> Refused {
    quoting_fault(
        alloc,
        place.source,
        "E20",
        blame.at,
        blame.before,
        name_at(place, blame.of),
        blame.after,
    )
}

// The word with this number, or the word at the head of the list with this number.
fn name_at<'a>(place: &Place<'a>, at: usize) -> &'a [u8] {
    let word = word_at(place.source, at);
    if word.is_empty() {
        head_at(place.source, at)
    } else {
        word
    }
}

// The number of the head of the list with this number; the form's own number if it is no list.
fn head_place(place: &Place, at: usize) -> usize {
    first_at(place.source, inside_at(place.source, at)).unwrap_or(at)
}

// A word, or the head of a list, that is unknown here.
fn unknown(place: &Place, at: usize, after: &'static str) -> Blame {
    let head = head_place(place, at);
    Blame {
        at: head,
        before: "",
        of: head,
        after,
    }
}

// The form with this number is refused, for what its own head wants.
fn whole(at: usize, after: &'static str) -> Blame {
    part(at, "", at, after)
}

// The form with the number `at` is refused, for what the form with the number `of` wants.
fn part(at: usize, before: &'static str, of: usize, after: &'static str) -> Blame {
    Blame {
        at,
        before,
        of,
        after,
    }
}

/// The fault of a form that is no condition, at the part that is refused.
pub(crate) fn condition_fault(alloc: Global, place: &Place, at: usize) -> Refused {
    fault_of(alloc, place, condition_blame(place, at))
}

// What is wrong with a condition.
fn condition_blame(place: &Place, at: usize) -> Blame {
    match test_of(name_at(place, at)) {
        None => unknown(place, at, NO_CONDITION),
        Some(_) if !word_at(place.source, at).is_empty() => whole(
            at,
            " is a condition in brackets",
        ),
        Some(Test::Not) => whole(at, " has one condition"),
        Some(Test::AllEnd | Test::NoDeadlock) => no_parts(place, at),
        Some(Test::Ends) => fiber_blame(place, at, " needs an outcome behind the fiber"),
        Some(Test::Said | Test::Says) => {
            fiber_blame(place, at, " needs a number behind the fiber")
        }
        Some(Test::Compares(_)) => comparison_blame(place, at),
        Some(Test::And | Test::Or) => unknown(place, at, NO_CONDITION),
    }
}

// The first part of a form without parts.
fn no_parts(place: &Place, at: usize) -> Blame {
    let first = first_at(place.source, parts_at(place.source, at)).unwrap_or(at);
    part(first, "", at, " has no parts")
}

// What is wrong with `ends`, `said` or `says`. `missing` is the message if nothing is behind the fiber.
fn fiber_blame(place: &Place, at: usize, missing: &'static str) -> Blame {
    let parts = parts_at(place.source, at);
    let Some(first) = first_at(place.source, parts) else {
        return whole(at, " needs the name of a fiber");
    };
    if word_at(place.source, first).is_empty() {
        return part(
            first,
            "the first part of ",
            at,
            " must be the name of a fiber",
        );
    }
    match no_number(place, behind(place.source, parts)) {
        Some(value) => part(value, "what follows the fiber of ", at, NUMBER),
        None => whole(at, missing),
    }
}

// The first form of a block that is no number, if any.
fn no_number(place: &Place, block: Block) -> Option<usize> {
    let mut rest = block;
    for _ in 0..place.source.file.forms.len() {
        let first = first_at(place.source, rest)?;
        if number_at(place.source, place.model, first).is_none() {
            return Some(first);
        }
        rest = behind(place.source, rest);
    }
    None
}

// What is wrong with a comparison.
fn comparison_blame(place: &Place, at: usize) -> Blame {
    let Some((left, right)) = both_at(place.source, parts_at(place.source, at)) else {
        return whole(at, " compares one ref with one number");
    };
    if number_at(place.source, place.model, right).is_some() {
        return part(left, "the left side of ", at, " must be the name of a ref");
    }
    if number_at(place.source, place.model, left).is_some() {
        return whole(at, " has the ref on the left, and the number on the right");
    }
    part(right, "the right side of ", at, NUMBER)
}

/// The fault of a form that is no outcome, at the part that is refused.
pub(crate) fn outcome_fault(alloc: Global, place: &Place, at: usize) -> Refused {
    fault_of(alloc, place, outcome_blame(place, at))
}

// What is wrong with an outcome.
fn outcome_blame(place: &Place, at: usize) -> Blame {
    match head_at(place.source, at) {
        b"succeeded" => valued_blame(
            place,
            at,
            " needs a value here, or is without brackets",
            "the value of ",
        ),
        b"errored" => valued_blame(
            place,
            at,
            " needs a code here, or is without brackets",
            "the code of ",
        ),
        b"canceled" | b"unended" => whole(at, " is without brackets"),
        _ => unknown(place, at, NO_OUTCOME),
    }
}

// What is wrong with `(succeeded V)` or `(errored C)`.
fn valued_blame(place: &Place, at: usize, missing: &'static str, before: &'static str) -> Blame {
    let parts = parts_at(place.source, at);
    match (first_at(place.source, parts), only_at(place.source, parts)) {
        (None, _) => whole(at, missing),
        (Some(_), Some(value)) => part(value, before, at, NUMBER),
        (Some(_), None) => whole(at, " has one number"),
    }
}

/// The fault of a claim without parts, or with too many: it has one condition, some outcomes, or none.
pub(crate) fn parts_fault(alloc: Global, place: &Place, at: usize) -> Refused {
    let blame = match head_of(head_at(place.source, at)) {
        Some(Head::Want) => whole(at, " needs an outcome"),
        Some(Head::AllEnd | Head::NoDeadlock) => no_parts(place, at),
        _ => one_condition(place, at),
    };
    fault_of(alloc, place, blame)
}

// What is wrong with a claim that has no condition, or several.
fn one_condition(place: &Place, at: usize) -> Blame {
    let rest = behind(place.source, parts_at(place.source, at));
    match first_at(place.source, rest) {
        Some(second) => part(
            second,
            "",
            at,
            " has one condition: `and` and `or` join several",
        ),
        None => whole(at, " needs a condition"),
    }
}

/// The fault of a `fails` around something other than one claim, at the innermost such form.
pub(crate) fn fails_fault(alloc: Global, place: &Place, at: usize) -> Refused {
    fault_of(alloc, place, fails_blame(place, at))
}

// What is wrong with a `fails`.
fn fails_blame(place: &Place, at: usize) -> Blame {
    let mut inner = at;
    for _ in 0..place.source.file.forms.len() {
        match head_of(head_at(place.source, inner)) {
            Some(Head::Fails) => {}
            _ => return unknown(place, inner, NO_CLAIM),
        }
        let Some(claim) = only_at(place.source, parts_at(place.source, inner)) else {
            return whole(inner, " has one claim");
        };
        inner = claim;
    }
    unknown(place, inner, NO_CLAIM)
}

/// The fault of a `before` that is malformed, at the part that is refused.
pub(crate) fn order_fault(alloc: Global, place: &Place, at: usize) -> Refused {
    fault_of(alloc, place, order_blame(place, at))
}

// What is wrong with a `before`.
fn order_blame(place: &Place, at: usize) -> Blame {
    let Some((one, other)) = both_at(place.source, parts_at(place.source, at)) else {
        return whole(
            at,
            " has two parts: `(before (f v) (g w))`, f says v before g says w",
        );
    };
    match saying_blame(place, at, one) {
        Some(blame) => blame,
        None => match saying_blame(place, at, other) {
            Some(blame) => blame,
            None => whole(at, " has two parts, each with the name of a fiber"),
        },
    }
}

// What is wrong with `(f v)`, a part of the `before` with the number `at`, if anything is.
fn saying_blame(place: &Place, at: usize, saying: usize) -> Option<Blame> {
    let Some((_, number)) = both_at(place.source, inside_at(place.source, saying)) else {
        return Some(part(
            saying,
            "each part of ",
            at,
            " is a fiber and a number: `(f v)`",
        ));
    };
    if number_at(place.source, place.model, number).is_none() {
        return Some(part(number, "what a fiber says in ", at, NUMBER));
    }
    None
}

//! The truth of single words of a condition at one answer.

ghost use Rattle.std.specs.Prelude.{◌≡◌, slice_range};
ghost use Rattle.std.specs.Cmp.Lexicographic.{pointwise};
ghost use Rattle.std.specs.Ordering.{int_eq};
ghost use Rattle.model_claims.specs.Leaves.{all_say, compare, end_so, ends_so, has_main, has_name, has_said};
ghost use Rattle.model_claims.specs.Leaves.{has_value, have_ended, is_ended, is_number, is_one_of};
ghost use Rattle.model_claims.specs.Leaves.{is_wanted, one_said, said_all, says_of, says_so, speaks_of, wants_cut};
ghost use Rattle.model_claims.specs.Leaves.{wants_error, wants_none, wants_outcome, wants_value};

use crate::answer::{FiberName, Seen, SeenFiber};
use crate::condition::{Comparison, Wanted, Who};
use crate::names::bytes_between;
use crate::parts::bytes_at;
use effect_term::{Outcome, Value};
use model_terms::Source;

/// Whether a fiber with this outcome ended in this wanted way. The outcome is none if the fiber hasn't ended.
pub fn is_wanted(wanted: Wanted, outcome: Option<Outcome>) -> bool
    ensures { result ≡ is_wanted wanted outcome }
{
    match outcome {
        None => wants_none(wanted),
        Some(outcome) => wants_outcome(wanted, outcome),
    }
}

fn wants_outcome(wanted: Wanted, outcome: Outcome) -> bool
    ensures { result ≡ wants_outcome wanted outcome }
{
    match outcome {
        Outcome::Succeeded(value) => wants_value(wanted, value),
        Outcome::Errored(code) => wants_error(wanted, code),
        Outcome::Canceled => wants_cut(wanted),
    }
}

fn wants_none(wanted: Wanted) -> bool
    ensures { result ≡ wants_none wanted }
{
    match wanted {
        Wanted::Unended => true,
        _ => false,
    }
}

fn wants_value(wanted: Wanted, value: Value) -> bool
    ensures { result ≡ wants_value wanted value }
{
    match wanted {
        Wanted::Succeeded => true,
        Wanted::SucceededWith(number) => number.get() == value.get(),
        _ => false,
    }
}

fn wants_error(wanted: Wanted, code: Value) -> bool
    ensures { result ≡ wants_error wanted code }
{
    match wanted {
        Wanted::Errored => true,
        Wanted::ErroredWith(number) => number.get() == code.get(),
        _ => false,
    }
}

fn wants_cut(wanted: Wanted) -> bool
    ensures { result ≡ wants_cut wanted }
{
    match wanted {
        Wanted::Canceled => true,
        _ => false,
    }
}

/// Whether a condition about these fibers is about the fibers of this name.
pub fn speaks_of(source: &Source, who: Who, name: FiberName) -> bool
    ensures { result ≡ speaks_of source.now who name }
{
    match name {
        FiberName::Main => has_main(who),
        FiberName::Word(form) => has_name(source, who, bytes_at(source, form), None),
        FiberName::Row(form, number) => has_name(source, who, bytes_at(source, form), Some(number)),
        FiberName::Left => has_name(source, who, b"left", None),
        FiberName::Right => has_name(source, who, b"right", None),
        FiberName::Watcher => false,
        FiberName::Hidden => false,
    }
}

// Whether a condition about these fibers is about fiber 0.
fn has_main(who: Who) -> bool
    ensures { result ≡ has_main who }
{
    match who {
        Who::Main => true,
        Who::Everyone => true,
        Who::Named(_, _) => false,
        Who::OneOf(_, _, _) => false,
    }
}

// Whether a condition about these fibers is about a fiber of this name and, if it is in a row, of this number.
fn has_name(source: &Source, who: Who, name: &[u8], number: Option<usize>) -> bool
    ensures { result ≡ has_name source.now who name.now number }
{
    match who {
        Who::Everyone => true,
        Who::Main => false,
        Who::Named(start, end) => bytes_between(source, start, end) == name,
        Who::OneOf(start, end, wanted) => {
            is_number(number, wanted) && bytes_between(source, start, end) == name
        }
    }
}

fn is_number(number: Option<usize>, wanted: usize) -> bool
    ensures { result ≡ is_number number wanted }
{
    match number {
        Some(number) => number == wanted,
        None => false,
    }
}

// Whether a fiber has ended, or isn't one of these fibers.
fn is_ended(source: &Source, who: Who, fiber: &SeenFiber) -> bool
    ensures { result ≡ is_ended source.now who fiber.now }
{
    !speaks_of(source, who, fiber.name) || fiber.outcome.is_some()
}

/// Whether each of these fibers has ended.
pub(crate) fn have_ended(source: &Source, seen: &Seen, who: Who) -> bool
    ensures { result ≡ have_ended source.now seen.now who }
{
    for fiber in seen.fibers.as_slice() {
        if !is_ended(source, who, fiber) {
            return false;
        }
    }
    true
}

// Whether a fiber ended in one of these ways, or isn't one of these fibers.
fn ends_so(source: &Source, who: Who, wanted: &[Wanted], fiber: &SeenFiber) -> bool
    ensures { result ≡ ends_so source.now who wanted.now fiber.now }
{
    !speaks_of(source, who, fiber.name) || is_one_of(wanted, &fiber.outcome)
}

/// Whether each of these fibers ended in one of these ways.
pub(crate) fn end_so(source: &Source, seen: &Seen, who: Who, wanted: &[Wanted]) -> bool
    ensures { result ≡ end_so source.now seen.now who wanted.now }
{
    for fiber in seen.fibers.as_slice() {
        if !ends_so(source, who, wanted, fiber) {
            return false;
        }
    }
    true
}

// Whether a fiber ended in one of these ways.
fn is_one_of(wanted: &[Wanted], outcome: &Option<Outcome>) -> bool
    ensures { result ≡ is_one_of wanted.now outcome.now }
{
    for way in wanted {
        if is_wanted(*way, *outcome) {
            return true;
        }
    }
    false
}

// The values from index `from` up to `to`.
pub(crate) fn values_between(values: &[Value], from: usize, to: usize) -> &[Value]
    ensures { result.now ≡ slice_range values.now from to }
{
    let to = to.min(values.len());
    let from = from.min(to);
    &values[from..to]
}

/// The values that a fiber said.
pub(crate) fn says_of<'a>(seen: &'a Seen, fiber: &SeenFiber) -> &'a [Value]
    ensures { result.now ≡ says_of seen.now fiber.now }
{
    values_between(seen.says.as_slice(), fiber.says_from, fiber.says_to)
}

// Whether this value was said.
fn has_value(said: &[Value], value: &Value) -> bool
    ensures { result ≡ has_value said.now value.now }
{
    for one in said {
        if one.get() == value.get() {
            return true;
        }
    }
    false
}

// Whether each of these values was said.
fn has_said(said: &[Value], values: &[Value]) -> bool
    ensures { result ≡ has_said said.now values.now }
{
    for value in values {
        if !has_value(said, value) {
            return false;
        }
    }
    true
}

// Whether a fiber is one of these fibers and said each of these values.
fn said_all(source: &Source, seen: &Seen, who: Who, values: &[Value], fiber: &SeenFiber) -> bool
    ensures { result ≡ said_all source.now seen.now who values.now fiber.now }
{
    speaks_of(source, who, fiber.name) && has_said(says_of(seen, fiber), values)
}

/// Whether one of these fibers said each of these values.
pub(crate) fn one_said(source: &Source, seen: &Seen, who: Who, values: &[Value]) -> bool
    ensures { result ≡ one_said source.now seen.now who values.now }
{
    for fiber in seen.fibers.as_slice() {
        if said_all(source, seen, who, values, fiber) {
            return true;
        }
    }
    false
}

// Whether the two lists are equal.
fn are_same(one: &[Value], other: &[Value]) -> bool
    ensures { result ≡ pointwise int_eq one.now other.now }
{
    one == other
}

// Whether a fiber said exactly these values, or isn't one of these fibers.
fn says_so(source: &Source, seen: &Seen, who: Who, values: &[Value], fiber: &SeenFiber) -> bool
    ensures { result ≡ says_so source.now seen.now who values.now fiber.now }
{
    !speaks_of(source, who, fiber.name) || are_same(says_of(seen, fiber), values)
}

/// Whether each of these fibers said exactly these values, in this order.
pub(crate) fn all_say(source: &Source, seen: &Seen, who: Who, values: &[Value]) -> bool
    ensures { result ≡ all_say source.now seen.now who values.now }
{
    for fiber in seen.fibers.as_slice() {
        if !says_so(source, seen, who, values, fiber) {
            return false;
        }
    }
    true
}

/// Whether a comparison of a ref's value with a number holds.
pub(crate) fn compare(comparison: Comparison, held: Value, number: Value) -> bool
    ensures { result ≡ compare comparison held number }
{
    let one = held.get();
    let other = number.get();
    match comparison {
        Comparison::Equal => one == other,
        Comparison::Unequal => one != other,
        Comparison::Below => one < other,
        Comparison::AtMost => one <= other,
        Comparison::Above => one > other,
        Comparison::AtLeast => one >= other,
    }
}

//! Values that fibers say for their names, and for an order that was broken.
//!
//! A program can say such a number itself: a `say` that the translation added is known by its place
//! ([`WordPlace`](crate::WordPlace)).

use crate::scope::FiberName;

/// The value that a fiber says before the second of two `say`s if the first didn't come before it.
pub const LATE: i64 = 4611686018427387901;

// The least value that a fiber says for its name.
const FIRST: i64 = 4611686000000000000;

/// The value that a fiber that watches a ref says.
pub(crate) const WATCHER: i64 = FIRST + 2;

/// Whether this is a value that the translation can say: that of a name, or that of a broken order.
pub(crate) fn is_added_value(value: i64) -> bool {
    FIRST <= value && value <= LATE
}

/// The value that a fiber says for its name: fibers of different names say different values.
pub(crate) fn name_value(fiber: FiberName) -> i64 {
    match fiber {
        FiberName::Left => FIRST,
        FiberName::Right => FIRST.saturating_add(1),
        FiberName::Main => FIRST.saturating_add(3),
        FiberName::Word(form) => spelled_value(form, 0),
        FiberName::Row(form, number) => spelled_value(form, number),
    }
}

// The value for the name that a form spells, or for one of the at most 16 names of a row.
fn spelled_value(form: usize, number: usize) -> i64 {
    let place = form
        .saturating_add(1)
        .saturating_mul(16)
        .saturating_add(number);
    let behind = i64::try_from(place).unwrap_or(i64::MAX);
    FIRST.saturating_add(behind).min(LATE - 1)
}

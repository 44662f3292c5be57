//! The outcomes of fiber 0 that are wanted.

ghost use Rattle.std.specs.Prelude.{◌≡◌, ℤ, IfNone, IfSome};
ghost use Rattle.std.specs.Fmt.{signed_decimal};
ghost use Rattle.effect_term.specs.Values.{IsValue};
ghost use Rattle.exploration_text.specs.Wants.{IsInRange, is_met, is_outcome, want_text};

use effect_term::{Outcome, Value};
use itoa::Buffer;

/// An outcome of fiber 0 that is wanted.
#[derive(Clone, Copy, PartialEq, Eq, Debug)]
pub enum Want {
    /// Fiber 0 ended with this outcome.
    Ended(Outcome),
    /// Fiber 0 hasn't ended.
    Unended,
}

impl Want {
    /// Whether a fiber with this outcome, `None` if it hasn't ended, is as wanted.
    pub fn is_met(self, outcome: Option<Outcome>) -> bool
        ensures { result ≡ is_met self outcome }
    {
        match self {
            Want::Ended(wanted) => match outcome {
                Some(outcome) => is_outcome(wanted, outcome),
                None => false,
            },
            Want::Unended => outcome.is_none(),
        }
    }
}

// Whether two outcomes are equal.
fn is_outcome(one: Outcome, other: Outcome) -> bool
    ensures { result ≡ is_outcome one other }
{
    match one {
        Outcome::Succeeded(value) => match other {
            Outcome::Succeeded(other) => value.get() == other.get(),
            _ => false,
        },
        Outcome::Errored(code) => match other {
            Outcome::Errored(other) => code.get() == other.get(),
            _ => false,
        },
        Outcome::Canceled => match other {
            Outcome::Canceled => true,
            _ => false,
        },
    }
}

/// Reads an outcome as a report spells it: `succeeded V`, `errored C`, `canceled` or `unended`, with V and C from
/// -4,611,686,018,427,387,904 to 4,611,686,018,427,387,903, without a sign or zeros in front that a report doesn't
/// write. `None` exactly where the text spells none.
pub fn read_want(text: &str) -> Option<Want>
    ensures some { IfSome result (λ want. text.now ≡ want_text want) }
    ensures range { IfSome result IsInRange }
    ensures none { IfNone result ((want : Want) → IsInRange want → text.now ≡ want_text want → ⊥) }
{
    match text {
        "canceled" => Some(Want::Ended(Outcome::Canceled)),
        "unended" => Some(Want::Unended),
        _ => {
            if let Some(number) = text.strip_prefix("succeeded ") {
                Some(Want::Ended(Outcome::Succeeded(read_value(number)?)))
            } else if let Some(number) = text.strip_prefix("errored ") {
                Some(Want::Ended(Outcome::Errored(read_value(number)?)))
            } else {
                None
            }
        }
    }
}

// The value that a text spells.
fn read_value(text: &str) -> Option<Value>
    ensures some { IfSome result (λ value. text.now ≡ signed_decimal value) }
    ensures none { IfNone result ((value : ℤ) → IsValue value → text.now ≡ signed_decimal value → ⊥) }
{
    match text.parse::<i64>() {
        Ok(number) => value_as_printed(number, text),
        Err(_) => None,
    }
}

// The number as a value, if the text spells the number as it is printed.
fn value_as_printed(number: i64, text: &str) -> Option<Value>
    ensures some { IfSome result (λ value. text.now ≡ signed_decimal value) }
    ensures same { IfSome result (λ value. value ≡ number) }
    ensures none { IfNone result (IsValue number → text.now ≡ signed_decimal number → ⊥) }
{
    let mut digits = Buffer::new();
    if digits.format(number) == text {
        Value::of(number)
    } else {
        None
    }
}

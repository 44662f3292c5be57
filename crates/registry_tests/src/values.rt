//! Values by their numbers.

ghost use Rattle.std.specs.Prelude.{◌≡◌};
ghost use Rattle.effect_term.specs.Values.{IsValue};

use effect_term::Value;

/// The value of this number.
pub(crate) fn numbered(number: i64) -> Value
    requires fits { IsValue number }
    ensures value { result ≡ number }
    ensures range { IsValue result }
{
    match Value::of(number) {
        Some(value) => value,
        None => unreachable!(),
    }
}

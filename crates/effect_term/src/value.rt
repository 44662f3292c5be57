//! Values: the whole numbers that programs compute with.
ghost use Rattle.std.specs.Prelude.{◌≡◌, IfNone, IfSome};
ghost use Rattle.effect_term.specs.Values.{IsValue};

use std::marker::Model;

/// A value or an error code: a whole number of 63 bits with sign, from -4611686018427387904 to 4611686018427387903. The
/// bit that is left in a word of 64 distinguishes an empty deferred from a completed one.
#[derive(Clone, Copy, PartialEq, Eq, Debug)]
pub struct Value {
    number: i64,
}

impl Model for Value {
    ghost use Rattle.std.specs.Prelude.{ℤ};
    ghost use Rattle.effect_term.specs.Values.{IsValue};

    ghost Value = { ℤ };

    ghost view = { λ v. v.number };

    ghost inverse = { λ z. record { number = z } };

    ghost invariant = { λ v. IsValue v.number };
}

impl Value {
    /// The least value, -4611686018427387904.
    pub const MIN: Value = Value {
        number: -4_611_686_018_427_387_904,
    };

    /// The greatest value, 4611686018427387903.
    pub const MAX: Value = Value {
        number: 4_611_686_018_427_387_903,
    };

    /// The value 0, which is also the unit value.
    pub const ZERO: Value = Value { number: 0 };

    /// Returns the value of a number, or `None` exactly if the number is out of range.
    pub fn of(number: i64) -> Option<Value>
        ensures some { IfSome result (λ v. v ≡ number) }
        ensures none { IfNone result (IsValue number → ⊥) }
    {
        if Value::MIN.number <= number && number <= Value::MAX.number {
            Some(Value { number })
        } else {
            None
        }
    }

    /// Returns the value of a number. Each number of 32 bits is in range.
    pub const fn from_i32(number: i32) -> Value
        ensures value { result ≡ number }
    {
        Value {
            number: number as i64,
        }
    }

    /// Returns its number.
    pub const fn get(self) -> i64
        ensures number { result ≡ self }
        ensures range { IsValue self }
    {
        self.number
    }
}

//! Closed operands.

ghost use Rattle.std.specs.Prelude.{◌≡◌};
ghost use Rattle.fiber_frames.specs.Rows.{number_of, handle_number, is_zero, mask_number};
ghost use Rattle.derived_ops.specs.Cores.{value_in_core};
ghost use Rattle.fiber_frames.specs.Frames.{handle_of, mask_of};

use derived_ops::Operand;
use effect_term::Value;

/// A fiber, a ref or a deferred: its number, or the slot of its binder if nothing is bound there.
#[derive(Clone, Copy)]
pub(crate) enum Handle {
    Known(u16),
    Slot(u32),
}

/// A mask: the numbers of its fiber and of itself, or the slot of its poll's binder if nothing is bound there.
#[derive(Clone, Copy)]
pub(crate) enum Mask {
    Named(u32),
    Pair(u16, u64),
}

impl Handle {
    /// The number, for a closed term.
    #[inline(always)]
    pub(crate) fn number(self) -> u16
        ensures { result ≡ handle_number (handle_of self) }
    {
        match self {
            Handle::Known(number) => number,
            Handle::Slot(_) => 0,
        }
    }
}

impl Mask {
    /// The mask's number, for a closed term.
    #[inline(always)]
    pub(crate) fn number(self) -> u64
        ensures { result ≡ mask_number (mask_of self) }
    {
        match self {
            Mask::Named(_) => 0,
            Mask::Pair(_, number) => number,
        }
    }
}

/// The number of a value, for a closed term.
#[inline(always)]
pub(crate) fn number(value: Operand) -> Value
    ensures { result ≡ number_of (value_in_core value) }
{
    match value {
        Operand::Number(number) => number,
        Operand::Slot(_) => Value::ZERO,
    }
}

/// Whether the value is the number 0.
#[inline(always)]
pub(crate) fn is_zero(value: Operand) -> bool
    ensures { result ≡ is_zero (value_in_core value) }
{
    match value {
        Operand::Number(number) => number.get() == 0,
        Operand::Slot(_) => false,
    }
}

//! Pushes that check for room first, so that the usual case is short.

ghost use Rattle.std.specs.Prelude.{◌≡◌, ◌<◌, ◌++◌, ◌∷◌, [], vec_len, vec_capacity, OnOk, OnErr};

use std::alloc::AllocError;

/// Puts a value on a stack; `AllocError` if memory is refused.
#[inline(always)]
pub(crate) fn push<T: Drop>(stack: &mut Vec<T>, value: T) -> Result<(), AllocError>
    ensures items { OnOk result (stack.new.items ≡ stack.old.items ++ value ∷ []) }
    ensures err { OnErr result (stack.new.items ≡ stack.old.items) }
{
    make_room(&mut *stack)?;
    stack.push_reserved(value);
    Ok(())
}

/// Makes sure of room for one more value; `AllocError` if memory is refused.
#[inline(always)]
pub(crate) fn make_room<T: Drop>(stack: &mut Vec<T>) -> Result<(), AllocError>
    ensures items { stack.new.items ≡ stack.old.items }
    ensures room { OnOk result (vec_len stack.new < vec_capacity stack.new) }
{
    if stack.len() >= stack.capacity() {
        grow(&mut *stack)?;
    }
    Ok(())
}

// Makes room for one more value.
#[cold]
#[inline(never)]
fn grow<T: Drop>(stack: &mut Vec<T>) -> Result<(), AllocError>
    ensures items { stack.new.items ≡ stack.old.items }
    ensures room { OnOk result (vec_len stack.new < vec_capacity stack.new) }
{
    stack.reserve(1)
}

//! The environment of a fiber: the entry of each level.

ghost use Rattle.std.specs.Prelude.{◌≡◌, ◌<◌, ◌≤◌, take, length, vec_len, IfOk, OnOk, OnErr};
ghost use Rattle.fiber_frames.specs.Env.{env_of, bound};

use crate::stack::push;
use effect_term::Value;
use std::alloc::{AllocError, Global};

/// The entry of a level of the environment.
#[derive(Clone, Copy)]
pub(crate) enum EnvEntry {
    /// A value or a code.
    Value(Value),
    /// The number of a fiber, a ref or a deferred.
    Handle(u16),
    /// The number of a fiber, and of a mask in it.
    Mask(u16, u64),
}

/// Binds at a level, over the entry there.
#[tactic(auto, using(crate::proofs::Closing::set_bound))]
#[inline(always)]
pub(crate) fn rebind(env: &mut Vec<EnvEntry>, level: usize, entry: EnvEntry)
    requires { level < vec_len env.old }
    ensures { env.new.items ≡ bound env.old.items level entry }
{
    env[level] = entry;
}

/// Binds at a level, over the entry there if there is one; `AllocError` if memory is refused.
#[tactic(auto, using(crate::proofs::Closing::push_bound))]
#[inline(always)]
pub(crate) fn bind(env: &mut Vec<EnvEntry>, level: usize, entry: EnvEntry) -> Result<(), AllocError>
    requires { level ≤ vec_len env.old }
    ensures entries { OnOk result (env.new.items ≡ bound env.old.items level entry) }
    ensures err { OnErr result (env.new.items ≡ env.old.items) }
{
    if level < env.len() {
        rebind(env, level, entry);
    } else {
        push(&mut *env, entry)?;
    }
    Ok(())
}

/// The entry of a slot below the level.
#[inline(always)]
pub(crate) fn entry(env: &[EnvEntry], level: usize, slot: u32) -> Option<EnvEntry>
    ensures { result ≡ env_of env.now level slot }
{
    if (slot as usize) < level {
        env.get(slot as usize).copied()
    } else {
        None
    }
}

/// A copy of the entries below a level, or `AllocError` if memory is refused.
pub(crate) fn front(
    alloc: Global,
    env: &[EnvEntry],
    level: usize,
) -> Result<Vec<EnvEntry>, AllocError>
    requires { level ≤ length env.now }
    ensures { IfOk result (λ copy. copy.items ≡ take level env.now) }
{
    Vec::from_slice(alloc, &env[..level])
}

//! How the truth of a claim leans on the words about the whole world.
ghost use Rattle.std.specs.Prelude.{◌≡◌, ◌++◌, ◌∷◌, [], IfOk, OnOk, Some, false, true, ℕ, List};
ghost use Rattle.std.specs.List.{slice_get};
ghost use Rattle.every_schedule.specs.declared.claims.ClaimWord.{ClaimWord as TheClaimWord};
ghost use Rattle.every_schedule.specs.Leanings.{both, last_leaning, leaned, leaning_of, rest_of, steady, turned};

use crate::claims::{Claim, ClaimWord};
use std::alloc::{AllocError, Global};

/// How a truth value depends on the words about the whole world.
#[derive(Clone, Copy)]
pub(crate) struct Leaning {
    /// It may be true only because no fiber can go on.
    pub rises: bool,
    /// It may be false only because no fiber can go on.
    pub falls: bool,
}

// How the truth of a claim depends on the words about the whole world.
fn leaning_of(alloc: Global, claim: &Claim) -> Result<Leaning, AllocError>
    ensures { IfOk result (λ it. it ≡ leaning_of claim.now) }
{
    lean_all(alloc, claim.words())
}

// How the truth of these words depends on those about the whole world.
fn lean_all(alloc: Global, words: &[ClaimWord]) -> Result<Leaning, AllocError>
    ensures { IfOk result (λ it. it ≡ leaning_of words.now) }
{
    let mut stack = Vec::new(alloc);
    for word in words {
        lean(&mut stack, *word)?;
    }
    Ok(pop(&mut stack))
}

// Applies one word to the stack.
fn lean(stack: &mut Vec<Leaning>, word: ClaimWord) -> Result<(), AllocError>
    ensures { OnOk result (stack.new.items ≡ leaned stack.old.items word) }
{
    let leaning = leaning_at(&mut *stack, word);
    stack.push(leaning)?;
    Ok(())
}

// Pops the leanings that a word takes, and returns that of the truth value that it pushes.
fn leaning_at(stack: &mut Vec<Leaning>, word: ClaimWord) -> Leaning
    ensures { leaned stack.old.items word ≡ stack.new.items ++ result ∷ [] }
{
    match word {
        ClaimWord::Compare(_, _, _) => Leaning {
            rises: false,
            falls: false,
        },
        ClaimWord::Not => turned(pop(stack)),
        ClaimWord::And | ClaimWord::Or => {
            let second = pop(&mut *stack);
            let first = pop(stack);
            both(first, second)
        }
        ClaimWord::Deadlock | ClaimWord::Left | ClaimWord::Final => Leaning {
            rises: true,
            falls: false,
        },
    }
}

// The leaning of a negation.
fn turned(leaning: Leaning) -> Leaning
    ensures { result ≡ turned leaning }
{
    Leaning {
        rises: leaning.falls,
        falls: leaning.rises,
    }
}

// The leaning of a joint.
fn both(first: Leaning, second: Leaning) -> Leaning
    ensures { result ≡ both first second }
{
    Leaning {
        rises: first.rises || second.rises,
        falls: first.falls || second.falls,
    }
}

// Pops the last leaning; that of `false` if the stack is empty.
fn pop(stack: &mut Vec<Leaning>) -> Leaning
    ensures value { result ≡ last_leaning stack.old.items }
    ensures rest { stack.new.items ≡ rest_of stack.old.items }
{
    match stack.pop() {
        Some(leaning) => leaning,
        None => Leaning {
            rises: false,
            falls: false,
        },
    }
}

/// Whether none of the claims can be false only because no fiber can go on.
pub(crate) fn none_fall(alloc: Global, claims: &[Claim]) -> Result<bool, AllocError>
    ensures { IfOk result (λ it. it ≡ true → (i : ℕ) (words : List TheClaimWord) → slice_get claims.now i ≡ Some words →
        (leaning_of words).falls ≡ false) }
{
    for claim in claims {
        let leaning = leaning_of(alloc, claim)?;
        if leaning.falls {
            return Ok(false);
        }
    }
    Ok(true)
}

/// Whether none of the claims can be true only because no fiber can go on.
pub fn none_rise(alloc: Global, claims: &[Claim]) -> Result<bool, AllocError>
    ensures { IfOk result (λ it. it ≡ true → (i : ℕ) (words : List TheClaimWord) → slice_get claims.now i ≡ Some words →
        (leaning_of words).rises ≡ false) }
{
    for claim in claims {
        let leaning = leaning_of(alloc, claim)?;
        if leaning.rises {
            return Ok(false);
        }
    }
    Ok(true)
}

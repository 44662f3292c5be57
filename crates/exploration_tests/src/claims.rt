//! Claims that no command can ask for. `golden/claims_met.fiber` has those that a command can ask for.

ghost use Rattle.cell_registry.specs.Cells.{AreLimits};

use effect_term::Value;
use every_schedule::{Bounds, Claim, ClaimWord, Claimed, Comparison, search_claims};
use outcome_trace::{Limits, read_program};
use std::alloc::Global;
use std::test::Fail;
use world_search::Unwatched;

/// Limits for small programs, with 4 refs.
pub fn limits() -> Limits
    ensures { AreLimits result }
{
    Limits {
        fibers: 8,
        refs: 4,
        deferreds: 4,
        count: 1000,
    }
}

/// What a search of at most `worlds` worlds finds of these claims.
pub fn searched(
    alloc: Global,
    text: &str,
    claims: &[Claim],
    worlds: usize,
) -> Result<Claimed, Fail> {
    let Ok(program) = read_program(alloc, text.as_bytes()) else {
        return Err(Fail::new("the text is refused"));
    };
    let bounds = Bounds {
        worlds,
        entries: 1000,
        memory: usize::MAX,
    };
    let Ok(claimed) = search_claims(alloc, &program, limits(), bounds, claims, &mut Unwatched)
    else {
        return Err(Fail::new("memory ran out"));
    };
    Ok(claimed)
}

/// Whether the claim of this number is met.
pub fn is_met(claimed: &Claimed, number: usize) -> bool {
    for met in claimed.met.iter() {
        if met.claim == number {
            return true;
        }
    }
    false
}

// Whether some world of a program of two refs meets the claim of these words.
fn is_met_by_a_world(alloc: Global, words: Vec<ClaimWord>) -> Result<bool, Fail> {
    let claims = vec![in alloc; Claim::new(words)]?;
    let text = "(ref a 1 (ref b 1 (pure 0)))";
    let claimed = searched(alloc, text, claims.as_slice(), 10_000)?;
    if !claimed.complete {
        return Err(Fail::new("the search isn't complete"));
    }
    Ok(is_met(&claimed, 0))
}

#[test]
fn a_claim_without_a_word_is_not_met(rt: HostRuntime) -> Result<(), Fail> {
    let alloc = rt.alloc();
    assert!(rt; !is_met_by_a_world(alloc, Vec::new(alloc))?);
    assert!(rt; is_met_by_a_world(alloc, vec![in alloc; ClaimWord::Not]?)?);
    Ok(())
}

#[test]
fn a_claim_on_a_ref_beyond_all_limits_is_not_met(rt: HostRuntime) -> Result<(), Fail> {
    let alloc = rt.alloc();
    let seven = ClaimWord::Compare(60_000, Comparison::Equal, Value::from_i32(7));
    let mut words = vec![in alloc; seven]?;
    words.push(ClaimWord::Not)?;
    assert!(rt; !is_met_by_a_world(alloc, words)?);
    Ok(())
}

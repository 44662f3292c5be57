//! Claims on a ref of random programs, compared with a fiber that reads the ref at any moment.

use crate::claims::{is_met, limits, searched};
use effect_term::{Outcome, Value};
use every_schedule::{Bounds, Claim, ClaimWord, Claimed, Comparison, Exploration, explore};
use outcome_trace::read_program;
use rand_core::{Rng, SeedableRng};
use rand_xoshiro::Xoshiro256PlusPlus;
use std::alloc::Global;
use std::test::Fail;

// The values that the claims compare the ref with.
const VALUES: [i32; 16] = [-3, -2, -1, 0, 1, 2, 3, 4, 5, 6, 7, 8, 9, 10, 11, 12];

// The most worlds of a search.
const WORLDS: usize = 20_000;

// What a fiber can do, chosen by a random number below 8.
const ACTS: [&str; 8] = [
    "(set r 0)",
    "(set r 3)",
    "(modify r 1)",
    "(modify r 2)",
    "(let x (get r) (set r x))",
    "(let x (modify r 1) (if0 x (modify r -2) (cede)))",
    "(uncancelable p (seq (modify r 1) (modify r -1)))",
    "(canceled)",
];

// Appends three random acts, one after another.
fn push_acts(text: &mut String, random: &mut Xoshiro256PlusPlus) -> Result<(), Fail> {
    text.push_str("(seq")?;
    for _act in 0..3u32 {
        text.push_str(" ")?;
        text.push_str(ACTS[(random.next_u64() % 8) as usize])?;
    }
    text.push_str(")")?;
    Ok(())
}

// A program of three fibers that use a ref, where fiber `f` is canceled or not. The text `watcher` is put behind the
// ref, and `end` at the end.
fn random_program(alloc: Global, seed: u64, watcher: &str, end: &str) -> Result<String, Fail> {
    let mut random = Xoshiro256PlusPlus::seed_from_u64(seed);
    let mut text = String::new(alloc);
    text.push_str("(ref r 1 ")?;
    text.push_str(watcher)?;
    text.push_str("(start f ")?;
    push_acts(&mut text, &mut random)?;
    text.push_str(" (start g ")?;
    push_acts(&mut text, &mut random)?;
    text.push_str(if random.next_u64() % 2 == 0 {
        " (seq (cancel f) "
    } else {
        " (seq (cede) "
    })?;
    push_acts(&mut text, &mut random)?;
    text.push_str(")))")?;
    text.push_str(end)?;
    Ok(text)
}

// Whether fiber 1 reads this value in one of the answers.
fn is_read(exploration: &Exploration, value: Value) -> bool {
    for answer in exploration.answers.as_slice() {
        if let Ok(report) = &answer.end {
            if let Some(fiber) = report.fibers.as_slice().get(1) {
                if fiber.outcome == Some(Outcome::Succeeded(value)) {
                    return true;
                }
            }
        }
    }
    false
}

// For each of `VALUES`, the claim that the ref has this value.
fn claims(alloc: Global) -> Result<Vec<Claim>, Fail> {
    let mut claims = Vec::new(alloc);
    for value in VALUES {
        let word = ClaimWord::Compare(0, Comparison::Equal, Value::from_i32(value));
        claims.push(Claim::new(vec![in alloc; word]?))?;
    }
    Ok(claims)
}

// What an exploration of a program finds within `WORLDS` worlds.
fn explored(alloc: Global, text: &str) -> Result<Exploration, Fail> {
    let Ok(program) = read_program(alloc, text.as_bytes()) else {
        return Err(Fail::new(text));
    };
    let bounds = Bounds {
        worlds: WORLDS,
        entries: 1000,
        memory: usize::MAX,
    };
    let Ok(exploration) = explore(alloc, &program, limits(), bounds) else {
        return Err(Fail::new("memory ran out"));
    };
    Ok(exploration)
}

// The number of values whose claims are met. `None` if these aren't exactly the values that are read.
fn agreeing(claimed: &Claimed, exploration: &Exploration) -> Option<u32> {
    let mut met = 0u32;
    for (number, value) in VALUES.iter().enumerate() {
        let is_so = is_met(claimed, number);
        if is_so != is_read(exploration, Value::from_i32(*value)) {
            return None;
        }
        if is_so {
            met = met.saturating_add(1);
        }
    }
    Some(met)
}

// Compares one program. Returns the number of values whose claims are met, or 0 if a bound was met.
fn compared(alloc: Global, seed: u64) -> Result<u32, Fail> {
    let plain = random_program(alloc, seed, "", ")")?;
    let watched = random_program(alloc, seed, "(start w (get r) ", "))")?;
    let exploration = explored(alloc, watched.as_str())?;
    let claims = claims(alloc)?;
    let claimed = searched(alloc, plain.as_str(), claims.as_slice(), WORLDS)?;
    if !exploration.complete || !claimed.complete {
        return Ok(0);
    }
    match agreeing(&claimed, &exploration) {
        Some(met) => Ok(met),
        None => Err(Fail::new(plain.as_str())),
    }
}

// A ref has a value in some world exactly where a fiber that does nothing but read it can read that value.
#[test]
fn claims_are_met_where_a_reader_reads(rt: HostRuntime) -> Result<(), Fail> {
    let mut rich = 0u32;
    for seed in 0..24u64 {
        if compared(rt.alloc(), seed)? > 2 {
            rich = rich.saturating_add(1);
        }
    }
    assert!(rt; rich >= 10, "{rich} programs have three values or more");
    Ok(())
}

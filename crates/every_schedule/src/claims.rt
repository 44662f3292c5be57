//! Claims of worlds, and whether a world meets one.
ghost use Rattle.std.specs.Prelude.{◌≡◌, ◌&&◌, IfOk, OnOk, ◌++◌, [], ◌∷◌};
ghost use Rattle.cell_registry.specs.Cells.{ref_of};
ghost use Rattle.every_schedule.specs.Claims.{are_seen, compares, holds as the_truth, is_seen};
ghost use Rattle.every_schedule.specs.Claims.{is_deadlock, is_final, is_left};
ghost use Rattle.every_schedule.specs.Claims.{last_of, without_last, worded};
ghost use Rattle.every_schedule.specs.Private.Stopping.{meets_here};

use crate::core_world::CoreWorld;
use crate::progress::{Progress, standing_of};
use cell_registry::PlainRegistry;
use effect_term::Value;
use std::alloc::{AllocError, Global};
use std::marker::Model;

/// How two values are compared.
#[derive(Clone, Copy)]
pub enum Comparison {
    /// The first is the second.
    Equal,
    /// The first isn't the second.
    Differs,
    /// The first is less than the second.
    Less,
    /// The first is at most the second.
    AtMost,
    /// The first is greater than the second.
    Greater,
    /// The first is at least the second.
    AtLeast,
}

/// A word of a claim. The words are in postfix order, over a stack of truth values: a comparison and a word about the
/// whole world push their truth, and each other word pops one or two values and pushes its own. `false` is popped from
/// an empty stack.
#[derive(Clone, Copy)]
pub enum ClaimWord {
    /// Compares the value of the ref of this number with a value. Refs are numbered from 0, in the order in which they
    /// are made.
    Compare(u16, Comparison, Value),
    /// Negates the last truth value.
    Not,
    /// Whether the last two truth values are both true.
    And,
    /// Whether at least one of the last two truth values is true.
    Or,
    /// Whether no fiber can go on, and fiber 0 hasn't ended.
    Deadlock,
    /// Whether no fiber can go on, fiber 0 has ended, and some other fiber hasn't.
    Left,
    /// Whether no fiber can go on.
    Final,
}

/// A claim about a world.
///
/// A world meets the claim if each ref that the words compare was set before, and the last truth value on the stack is
/// true. The first set of a ref follows when the ref is made.
#[derive(Drop)]
pub struct Claim {
    words: Vec<ClaimWord>,
}

impl Model for Claim {
    ghost use Rattle.std.specs.Prelude.{List};
    ghost use Rattle.every_schedule.specs.declared.claims.ClaimWord.{ClaimWord};

    ghost Value = { List ClaimWord };

    ghost view = { λ c. c.words.items };
}

impl Claim {
    /// Returns the claim of these words.
    pub fn new(words: Vec<ClaimWord>) -> Claim
        ensures { result ≡ words.items }
    {
        Claim { words }
    }

    /// The words, in postfix order.
    pub fn words(&self) -> &[ClaimWord]
        ensures { result.now ≡ self.now }
    {
        self.words.as_slice()
    }

    /// Whether a world that stands so, with this registry, meets the claim, if these refs were set before. `AllocError`
    /// where memory is refused.
    pub fn is_met(
        &self,
        alloc: Global,
        registry: PlainRegistry,
        standing: Progress,
        seen: &[u16],
    ) -> Result<bool, AllocError>
        ensures { IfOk result (λ it. it ≡ (are_seen seen.now self.now && the_truth standing registry.state self.now)) }
    {
        if !have_seen(self.words(), seen) {
            return Ok(false);
        }
        holds(alloc, registry, standing, self.words())
    }
}

/// A world, and the refs that were set before, in the order of their first sets.
#[derive(Drop)]
pub(crate) struct SeenWorld {
    world: CoreWorld,
    seen: Vec<u16>,
}

impl Model for SeenWorld {
    ghost use Rattle.std.specs.Coded.{codes};
    ghost use Rattle.derived_ops.specs.Stored.{tree_code};
    ghost use Rattle.fiber_frames.specs.contracts.ask.Look as the_look;
    ghost use Rattle.fiber_frames.specs.contracts.mark.Mark as the_mark;
    ghost use Rattle.every_schedule.specs.Claims.{View};

    ghost Value = { View };

    ghost coded = { Prim.hlevel (codes, tree_code, the_look.the_row.coded, the_mark.the_row.coded) };

    ghost view = { λ w. record { place = w.world; seen = w.seen.items } };
}

impl SeenWorld {
    /// Returns this world with these refs.
    pub(crate) fn new(world: CoreWorld, seen: Vec<u16>) -> SeenWorld
        ensures { result ≡ record { place = world; seen = seen.items } }
    {
        SeenWorld { world, seen }
    }

    /// Whether the world meets a claim.
    pub(crate) fn meets(self, alloc: Global, claim: &Claim) -> Result<bool, AllocError>
        ensures { IfOk result (λ it. it ≡ meets_here self claim.now) }
    {
        let SeenWorld { world, seen } = self;
        let standing = standing_of(alloc, world.fibers(), world.registry())?;
        let (_fibers, registry) = world.into_parts();
        claim.is_met(alloc, registry, standing, seen.as_slice())
    }
}

// Whether each ref that these words compare is in `seen`.
fn have_seen(words: &[ClaimWord], seen: &[u16]) -> bool
    ensures { result ≡ are_seen seen.now words.now }
{
    for word in words {
        if !has_seen(*word, seen) {
            return false;
        }
    }
    true
}

// Whether the ref that this word compares, if it compares one, is in `seen`.
fn has_seen(word: ClaimWord, seen: &[u16]) -> bool
    ensures { result ≡ is_seen seen.now word }
{
    match word {
        ClaimWord::Compare(number, _, _) => seen.contains(&number),
        ClaimWord::Not
        | ClaimWord::And
        | ClaimWord::Or
        | ClaimWord::Deadlock
        | ClaimWord::Left
        | ClaimWord::Final => true,
    }
}

// The truth of these words in a world that stands so, under the values of a registry.
fn holds(
    alloc: Global,
    mut registry: PlainRegistry,
    standing: Progress,
    words: &[ClaimWord],
) -> Result<bool, AllocError>
    ensures { IfOk result (λ it. it ≡ the_truth standing registry.state words.now) }
{
    let mut stack = Vec::new(alloc);
    for word in words {
        step(&mut registry, standing, &mut stack, *word)?;
    }
    Ok(pop(&mut stack))
}

// Applies one word to the stack.
fn step(
    registry: &mut PlainRegistry,
    standing: Progress,
    stack: &mut Vec<bool>,
    word: ClaimWord,
) -> Result<(), AllocError>
    ensures same { registry.new ≡ registry.old }
    ensures stack { OnOk result (stack.new.items ≡ worded standing registry.old.state stack.old.items word) }
{
    let truth = truth_of(registry, standing, &mut *stack, word);
    stack.push(truth)?;
    Ok(())
}

// Pops the truth values that a word takes, and returns the one that it pushes.
fn truth_of(
    registry: &mut PlainRegistry,
    standing: Progress,
    stack: &mut Vec<bool>,
    word: ClaimWord,
) -> bool
    ensures same { registry.new ≡ registry.old }
    ensures stack { worded standing registry.old.state stack.old.items word ≡ stack.new.items ++ result ∷ [] }
{
    match word {
        ClaimWord::Compare(number, how, value) => is_so(how, value_of(registry, number), value),
        ClaimWord::Not => !pop(stack),
        ClaimWord::And => {
            let second = pop(&mut *stack);
            let first = pop(stack);
            first && second
        }
        ClaimWord::Or => {
            let second = pop(&mut *stack);
            let first = pop(stack);
            first || second
        }
        ClaimWord::Deadlock => is_deadlock(standing),
        ClaimWord::Left => is_left(standing),
        ClaimWord::Final => is_final(standing),
    }
}

// Whether no fiber can go on, and fiber 0 hasn't ended.
fn is_deadlock(standing: Progress) -> bool
    ensures { result ≡ is_deadlock standing }
{
    match standing {
        Progress::Deadlocked => true,
        Progress::GoesOn | Progress::LeftBehind | Progress::AllOver => false,
    }
}

// Whether no fiber can go on, fiber 0 has ended, and some other fiber hasn't.
fn is_left(standing: Progress) -> bool
    ensures { result ≡ is_left standing }
{
    match standing {
        Progress::LeftBehind => true,
        Progress::GoesOn | Progress::Deadlocked | Progress::AllOver => false,
    }
}

// Whether no fiber can go on.
fn is_final(standing: Progress) -> bool
    ensures { result ≡ is_final standing }
{
    match standing {
        Progress::Deadlocked | Progress::LeftBehind | Progress::AllOver => true,
        Progress::GoesOn => false,
    }
}

// Pops the last truth value; `false` if the stack is empty.
fn pop(stack: &mut Vec<bool>) -> bool
    ensures value { result ≡ last_of stack.old.items }
    ensures rest { stack.new.items ≡ without_last stack.old.items }
{
    match stack.pop() {
        Some(truth) => truth,
        None => false,
    }
}

// Whether a comparison is true.
fn is_so(how: Comparison, one: Value, other: Value) -> bool
    ensures { result ≡ compares how one other }
{
    let first = one.get();
    let second = other.get();
    match how {
        Comparison::Equal => first <= second && second <= first,
        Comparison::Differs => first < second || second < first,
        Comparison::Less => first < second,
        Comparison::AtMost => first <= second,
        Comparison::Greater => second < first,
        Comparison::AtLeast => second <= first,
    }
}

// The value of the ref of this number, or 0 if there is none.
#[tactic(auto, using(crate::proofs::RefValues::may_get, crate::proofs::RefValues::got_value, crate::proofs::RefValues::got_same, crate::proofs::RefValues::past_ref))]
fn value_of(registry: &mut PlainRegistry, number: u16) -> Value
    ensures value { result ≡ ref_of registry.old.state number }
    ensures same { registry.new ≡ registry.old }
{
    if number >= registry.limits().refs {
        return Value::ZERO;
    }
    registry.get(0, number)
}

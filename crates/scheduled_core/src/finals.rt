//! Runs fibers on until none can move.
ghost use Rattle.std.specs.Prelude.{IfErr, IfNone, IfOk, IfSome, OnOk, ◌≡◌, ◌⊎◌, ◌<◌, ◌≤◌, ◌++◌, ◌∷◌, ℕ, length};
ghost use Rattle.std.specs.Prelude.{Err as Fails, None as Nobody, Ok as GoesWell, Some as Somebody};
ghost use Rattle.std.specs.Prelude.{[], true, false, get_or};
ghost use Rattle.fiber_frames.specs.Fiber.{outcome_of};
ghost use Rattle.scheduled_core.specs.Core.{entered};
ghost use Rattle.scheduled_core.specs.Finals.{HasEnded, IsAtRest, IsFinal, IsStopped, StopsAt};
ghost use Rattle.scheduled_core.specs.Fitting.{AllFit, Fits, cell_registered, world_of};
ghost use Rattle.scheduled_core.specs.Private.Settling.{HaveNoMore, IsSpentBy, IsUnended, moves_left};
ghost use Rattle.scheduled_core.specs.Spending.{AreSpent, SpendsMany};

use crate::scheduled::enter;
use crate::why::{Why, why_of};
use cell_registry::{PlainRegistry, RunError};
use effect_term::facts_of;
use fiber_frames::Config;
use std::alloc::AllocError;

/// The result of running fibers on until none can move.
#[derive(Clone, Copy, Debug)]
pub struct Settled {
    /// The number of moves that they made. If it is 0, nothing has changed.
    pub finished: u64,
    /// A fiber that hasn't ended and has used up its moves; if there is none, the world is final.
    pub stopped: Option<u16>,
}

/// Runs the fibers on with their registry, until each of them has ended, rests at a wait that nothing ends, or has used
/// up its moves.
///
/// `rests` has the number of moves left to each fiber; a fiber that is started begins with as many as its parent has
/// then. Of the fibers that can move, the one with the most moves left goes first, so no fiber has any left when one is
/// reported in `stopped`. Returns [`RunError::Full`] or [`RunError::Spent`] if the registry refuses a call, and
/// [`RunError::NoMemory`] if memory is refused. After an error nothing is known of the fibers and the registry.
pub fn settle(
    fibers: &mut Vec<Config>,
    registry: &mut PlainRegistry,
    rests: &mut Vec<u32>,
) -> Result<Settled, RunError>
    requires fits { AllFit (world_of fibers.old.items registry.old.state) }
    requires each { length rests.old.items ≡ length fibers.old.items }
    ensures goes { IfOk result (λ it. SpendsMany registry.old.limits
        (world_of fibers.old.items registry.old.state) rests.old.items it.finished
        (world_of fibers.new.items registry.new.state) rests.new.items) }
    ensures spent { OnOk result (AreSpent (world_of fibers.new.items registry.new.state) rests.new.items) }
    ensures complete { IfOk result (λ it. it.stopped ≡ Nobody →
        IsFinal (world_of fibers.new.items registry.new.state)) }
    ensures stopped { IfOk result (λ it. (f : ℕ) → it.stopped ≡ Somebody f →
        IsStopped fibers.new.items rests.new.items f) }
    ensures still { IfOk result (λ it. it.finished ≡ 0 →
        (fibers.new.items ≡ fibers.old.items) × (registry.new ≡ registry.old)) }
    ensures stops { IfErr result (λ e. (e ≡ RunError.NoMemory) ⊎
        StopsAt registry.old.limits (world_of fibers.old.items registry.old.state) e) }
{
    settle_noted(fibers, registry, rests, &mut NoEntries)
}

/// Receives the entries that [`settle_noted`] makes.
pub trait EntryLog {
    /// The fiber of this number makes the next entry, which can still be refused.
    fn enters(&mut self, number: u16);
}

/// Notes nothing.
#[derive(Clone, Copy)]
pub struct NoEntries;

impl EntryLog for NoEntries {
    fn enters(&mut self, _number: u16) {}
}

/// Runs the fibers on as [`settle`] does, and reports each entry to this log, in order. The log has no influence on the
/// result.
pub fn settle_noted<L: EntryLog>(
    fibers: &mut Vec<Config>,
    registry: &mut PlainRegistry,
    rests: &mut Vec<u32>,
    log: &mut L,
) -> Result<Settled, RunError>
    requires fits { AllFit (world_of fibers.old.items registry.old.state) }
    requires each { length rests.old.items ≡ length fibers.old.items }
    ensures goes { IfOk result (λ it. SpendsMany registry.old.limits
        (world_of fibers.old.items registry.old.state) rests.old.items it.finished
        (world_of fibers.new.items registry.new.state) rests.new.items) }
    ensures spent { OnOk result (AreSpent (world_of fibers.new.items registry.new.state) rests.new.items) }
    ensures complete { IfOk result (λ it. it.stopped ≡ Nobody →
        IsFinal (world_of fibers.new.items registry.new.state)) }
    ensures stopped { IfOk result (λ it. (f : ℕ) → it.stopped ≡ Somebody f →
        IsStopped fibers.new.items rests.new.items f) }
    ensures still { IfOk result (λ it. it.finished ≡ 0 →
        (fibers.new.items ≡ fibers.old.items) × (registry.new ≡ registry.old)) }
    ensures stops { IfErr result (λ e. (e ≡ RunError.NoMemory) ⊎
        StopsAt registry.old.limits (world_of fibers.old.items registry.old.state) e) }
{
    let mut finished = 0u64;
    loop {
        let Some(number) = next(fibers.as_slice(), registry, rests.as_slice()) else {
            return Ok(Settled {
                finished,
                stopped: None,
            });
        };
        if rest_of(rests.as_slice(), number) == 0 {
            return Ok(Settled {
                finished,
                stopped: Some(number),
            });
        }
        log.enters(number);
        go_on(fibers, registry, rests, number)?;
        finished = finished.saturating_add(1);
    }
}

// The first of the fibers that can move and have the most moves left; `None` if the world is final. Makes no call of
// the registry.
fn next(fibers: &[Config], registry: &PlainRegistry, rests: &[u32]) -> Option<u16>
    requires { AllFit (world_of fibers.now registry.now.state) }
    ensures none { IfNone result (IsFinal (world_of fibers.now registry.now.state)) }
    ensures some { IfSome result (IsUnended fibers.now) }
    ensures most { IfSome result (λ number. HaveNoMore (world_of fibers.now registry.now.state) rests.now
        (get_or rests.now number 0)) }
{
    let mut best = None;
    for config in fibers {
        if !is_done(config, registry) {
            best = Some(better(best, config.number(), rests));
        }
    }
    best
}

// The fiber with more moves left, or the first if they have the same number.
fn better(best: Option<u16>, number: u16, rests: &[u32]) -> u16
    ensures one { (result ≡ number) ⊎ (best ≡ Somebody result) }
    ensures number { get_or rests.now number 0 ≤ get_or rests.now result 0 }
    ensures best { IfSome best (λ other. get_or rests.now other 0 ≤ get_or rests.now result 0) }
{
    match best {
        Some(other) => {
            if rest_of(rests, other) < rest_of(rests, number) {
                number
            } else {
                other
            }
        }
        None => number,
    }
}

// The number of moves left to a fiber.
fn rest_of(rests: &[u32], number: u16) -> u32
    ensures { result ≡ get_or rests.now number 0 }
{
    match rests.get(usize::from(number)) {
        Some(rest) => *rest,
        None => 0,
    }
}

// The next move of a fiber that has some left.
fn go_on(
    fibers: &mut Vec<Config>,
    registry: &mut PlainRegistry,
    rests: &mut Vec<u32>,
    number: u16,
) -> Result<(), RunError>
    requires fits { AllFit (world_of fibers.old.items registry.old.state) }
    requires rest { 0 < get_or rests.old.items number 0 }
    requires each { length rests.old.items ≡ length fibers.old.items }
    requires unended { IsUnended fibers.old.items number }
    ensures limits { OnOk result (registry.new.limits ≡ registry.old.limits) }
    ensures fits { OnOk result (AllFit (world_of fibers.new.items registry.new.state)) }
    ensures each { OnOk result (length rests.new.items ≡ length fibers.new.items) }
    ensures goes { OnOk result (IsSpentBy registry.old.limits (world_of fibers.old.items registry.old.state)
        rests.old.items number (world_of fibers.new.items registry.new.state) rests.new.items) }
    ensures stops { IfErr result (λ e. (e ≡ RunError.NoMemory) ⊎
        (entered registry.old.limits (GoesWell (world_of fibers.old.items registry.old.state)) number ≡ Fails e)) }
    ensures less { OnOk result (moves_left registry.old.limits.fibers rests.new.items <
        moves_left registry.old.limits.fibers rests.old.items) }
{
    enter(fibers, registry, number)?;
    let rest = rests[usize::from(number)] - 1;
    rests[usize::from(number)] = rest;
    // The registry is within its limits.
    facts_of(registry.limits());
    if rests.len() < fibers.len() {
        add(rests, rest)?;
    }
    Ok(())
}

// Adds a fiber with this number of moves left.
fn add(rests: &mut Vec<u32>, rest: u32) -> Result<(), AllocError>
    ensures { OnOk result (rests.new.items ≡ rests.old.items ++ rest ∷ []) }
{
    rests.push(rest)?;
    Ok(())
}

/// Whether the fiber has ended, or rests at a wait that nothing in this registry ends, where no request for its
/// cancellation reaches it. An entry of such a fiber changes nothing. Makes no call of the registry.
pub fn is_done(config: &Config, registry: &PlainRegistry) -> bool
    requires { Fits (cell_registered registry.now.state config.now.number) config.now }
    ensures done { result ≡ true → HasEnded config.now ⊎ IsAtRest registry.now.state config.now.number config.now }
    ensures unended { result ≡ false → outcome_of config.now ≡ Nobody }
{
    match why_of(config, registry) {
        Why::Ended | Why::WaitsForEnd(_) | Why::WaitsForDeferred(_) | Why::WaitsWithoutEnd => true,
        Why::CouldGoOn => false,
    }
}

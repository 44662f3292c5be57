//! The queue through which the first number enters, before any worker runs.
ghost use Rattle.std.specs.Prelude.{◌≡◌, ◌∷◌, [], IfErr, IfOk, OnOk};
ghost use Rattle.ready_queues.specs.Ledger.{traffic};
ghost use Rattle.ready_queues.specs.Moments.{PutLast};
ghost use Rattle.ready_queues.specs.Steals.{TellsOf};

use crate::traffic::{Ledgered, Puts, Takes, Traffic};
use crossbeam_deque::{Injector, InjectorPass, Steal};
use std::alloc::{AllocError, Global};
use std::marker::Model;
use std::sync::Wait;

/// A queue that every worker pushes to and takes from.
pub type ReadyInjector = Injector<u16, Global, Traffic, Ledgered>;

/// One worker's end of an injector.
#[derive(Drop)]
pub struct InjectorEnd<'q> {
    injector: &'q ReadyInjector,
    pass: InjectorPass<u16, Traffic>,
}

impl<'q> Model for InjectorEnd<'q> {
    ghost use Rattle.crossbeam_deque.specs.Injected.{IsInjectorPassOf, injector_view};
    ghost use Rattle.ready_queues.specs.declared.traffic.Traffic.{Traffic};

    ghost Value = { Traffic };

    ghost view = { λ e. injector_view e.pass };

    // the pass is one at this injector
    ghost invariant = { λ e. IsInjectorPassOf e.injector.now e.pass };
}

/// An empty injector. Returns `AllocError` if there is no memory for it.
pub fn empty_injector(alloc: Global) -> Result<ReadyInjector, AllocError> {
    let (injector, _pass) = Injector::new_as(alloc)?;
    Ok(injector)
}

impl<'q> InjectorEnd<'q> {
    /// A new end of this injector.
    pub fn of(injector: &'q ReadyInjector) -> InjectorEnd<'q>
        ensures { result ≡ traffic [] [] }
    {
        let pass = injector.pass();
        InjectorEnd { injector, pass }
    }

    /// Puts a number last. If there is no memory for it, returns the number and changes nothing.
    pub fn push<R: Wait>(&mut self, rt: &R, number: u16) -> Result<(), u16>
        ensures ok { OnOk result (PutLast self.old (number ∷ []) self.new) }
        ensures back { IfErr result (λ n. n ≡ number) }
        ensures unchanged { IfErr result (λ _. self.new ≡ self.old) }
    {
        self.injector.push_as::<Puts, R>(rt, &mut self.pass, number)
    }

    /// Takes the first number. Returns `Empty` only if the injector was empty at a moment of the call, and `Retry` if
    /// it should be tried again.
    pub fn take<R: Wait>(&mut self, rt: &R) -> Steal<u16>
        ensures { TellsOf result self.old self.new }
    {
        self.injector.steal_as::<Takes, R>(rt, &mut self.pass)
    }
}

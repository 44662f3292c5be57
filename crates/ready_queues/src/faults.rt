//! The first fault of a run, and how the workers' knowledge of it is collected.
ghost use Rattle.std.specs.Prelude.{◌≡◌, ◌≢◌, ℕ, All, List, None, Some};
ghost use Rattle.std.specs.Iterator.{Drains, IsFinite};
ghost use Rattle.once_cell.specs.Once.{cell_name};
ghost use Rattle.ready_queues.specs.Faults.{IsFaultWithin, fault_within};

use cell_registry::{Band, Limits, RunError};
use once_cell::race::{Note, OnceBox};
use std::marker::{Brand, PhantomData};

/// Names the cell of a run's first fault, so that a type can say which cell a note belongs to.
pub trait FaultCell {
    ghost name: { ℕ };
}

impl FaultCell for Brand {
    ghost name = { 0 };
}

/// The cell of a run's first fault.
#[derive(Drop)]
pub struct FirstFault<'r, C: FaultCell> {
    /// The cell, which is set once.
    pub cell: &'r OnceBox<RunError>,
    of: PhantomData<C>,
    ghost named: { cell_name cell.now ≡ C.name },
}

impl<'r, C: FaultCell> FirstFault<'r, C> {
    /// The first fault that this cell keeps.
    pub fn of(cell: &'r OnceBox<RunError>) -> FirstFault<'r, C>
        requires { cell_name cell.now ≡ C.name }
        ensures { result.cell ≡ cell.entry }
    {
        FirstFault {
            cell,
            of: PhantomData,
        }
    }

    /// Whether a worker has met a fault.
    pub fn is_known(&self) -> bool {
        self.cell.get().is_some()
    }

    /// What a worker knows after it met this fault, or none if `met` is `None`.
    pub fn learned(&self, met: Option<Box<RunError>>) -> Learned<C>
        ensures { met ≢ None → result.note.known ≢ None }
    {
        let mut note = self.cell.note();
        if let Some(fault) = met {
            let _ = self.cell.set_as(fault, &mut note);
        }
        let _ = self.cell.get_as(&mut note);
        Learned {
            note,
            of: PhantomData,
        }
    }

    /// The first fault that one of these workers knows, or that the cell has by then.
    pub fn known_to_one<I: Iterator<Item = Learned<C>> + Drop>(
        &self,
        workers: I,
    ) -> Option<RunError>
        requires can { I.can_next workers }
        requires ends { IsFinite (I.remaining workers) }
        ensures told { (all : List (Learned C _)) × Drains I.next_gives workers all ×
            All (λ one. (e : _) → one.note.known ≡ Some e → result ≡ Some e) all }
    {
        let mut mine = self.cell.note();
        for worker in workers {
            learn(self.cell, &mut mine, worker.note);
        }
        first_fault(self.cell, &mut mine)
    }
}

/// What a worker that has ended knows of the first fault.
#[derive(Drop)]
pub struct Learned<C: FaultCell> {
    /// What it knows of the cell.
    pub note: Note<RunError>,
    of: PhantomData<C>,
    ghost of_cell: { note.cell ≡ C.name },
}

/// Adds what a joined worker knows of the first fault.
pub fn learn(cell: &OnceBox<RunError>, mine: &mut Note<RunError>, theirs: Note<RunError>)
    requires mine { mine.old.cell ≡ cell_name cell.now }
    requires theirs { theirs.cell ≡ cell_name cell.now }
    ensures cell { mine.new.cell ≡ mine.old.cell }
    ensures kept { (e : _) → mine.old.known ≡ Some e → mine.new.known ≡ Some e }
    ensures told { (e : _) → theirs.known ≡ Some e → mine.new.known ≡ Some e }
{
    let mut theirs = theirs;
    match cell.get_as(mine) {
        Some(_) => mine.compare(theirs),
        None => {
            let _ = cell.get_as(&mut theirs);
            *mine = theirs;
        }
    }
}

/// The first fault, if there was one: the one that the note knows.
pub fn first_fault(cell: &OnceBox<RunError>, mine: &mut Note<RunError>) -> Option<RunError>
    requires { mine.old.cell ≡ cell_name cell.now }
    ensures known { (e : _) → mine.old.known ≡ Some e → result ≡ Some e }
    ensures only { result ≡ mine.new.known }
{
    cell.get_as(mine).copied()
}

/// A worker's fault as the fault of a run within these limits: `Full` has the limit of its band.
pub fn within(limits: Limits, fault: RunError) -> RunError
    ensures limit { IsFaultWithin limits result }
    ensures same { result ≡ fault_within limits fault }
{
    match fault {
        RunError::Full(Band::Fibers, _) => RunError::Full(Band::Fibers, limits.fibers),
        RunError::Full(Band::Refs, _) => RunError::Full(Band::Refs, limits.refs),
        RunError::Full(Band::Deferreds, _) => RunError::Full(Band::Deferreds, limits.deferreds),
        other => other,
    }
}

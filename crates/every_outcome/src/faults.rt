//! The faults that a search has met.
ghost use Rattle.std.specs.Prelude.{◌≡◌, ◌≢◌, ◌<◌, ℕ, [], length, IfNone, IfOk, IfSome, Some};
ghost use Rattle.cell_registry.specs.declared.limits.RunError.{RunError as TheRunError};
ghost use Rattle.std.specs.List.{slice_get};
ghost use Rattle.world_search.specs.Lists.{IsMore};
ghost use Rattle.every_outcome.specs.Private.Keeping.{AreSingle};

use cell_registry::RunError;
use std::alloc::{AllocError, Global};
use std::marker::Model;

/// Faults, each with a number, and none twice.
#[derive(Drop)]
pub(crate) struct Faults {
    faults: Vec<RunError>,
}

impl Model for Faults {
    ghost use Rattle.std.specs.Prelude.{List};
    ghost use Rattle.cell_registry.specs.declared.limits.RunError.{RunError};
    ghost use Rattle.every_outcome.specs.Private.Keeping.{AreSingle};

    ghost Value = { List RunError };

    ghost view = { λ f. f.faults.items };

    ghost invariant = { λ f. AreSingle f.faults.items };
}

impl Faults {
    /// No faults.
    pub(crate) fn new(alloc: Global) -> Faults
        ensures { result ≡ [] }
    {
        Faults {
            faults: Vec::new(alloc),
        }
    }

    /// The fault of this number.
    pub(crate) fn get(&self, number: usize) -> RunError
        requires { number < length self.now }
        ensures { slice_get self.now number ≡ Some result }
    {
        self.faults[number]
    }

    /// The number of faults. No fault occurs twice.
    pub(crate) fn len(&self) -> usize
        ensures many { result ≡ length self.now }
        ensures single { AreSingle self.now }
    {
        self.faults.len()
    }

    /// Returns the number of the fault. Adds the fault if it is new.
    pub(crate) fn note(&mut self, fault: RunError) -> Result<usize, AllocError>
        ensures more { IsMore self.old self.new }
        ensures noted { IfOk result (λ i. slice_get self.new i ≡ Some fault) }
    {
        if let Some(place) = place_of(self.faults.as_slice(), fault) {
            return Ok(place);
        }
        let place = self.faults.len();
        self.faults.push(fault)?;
        Ok(place)
    }
}

// The number of the fault, if it is one of these.
fn place_of(faults: &[RunError], fault: RunError) -> Option<usize>
    ensures found { IfSome result (λ i. slice_get faults.now i ≡ Some fault) }
    ensures none { IfNone result ((j : ℕ) (e : TheRunError) → slice_get faults.now j ≡ Some e → e ≢ fault) }
{
    for (i, known) in faults.iter().enumerate() {
        if *known == fault {
            return Some(i);
        }
    }
    None
}

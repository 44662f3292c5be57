//! The different probes that a model's claims need.

use model_claims::Claim;
use model_terms::{Probe, Said};
use std::alloc::{AllocError, Global};

/// Returns the different probes that these claims need, in the order of the claims.
pub(crate) fn probes_of(alloc: Global, claims: &[Claim]) -> Result<Vec<Probe>, AllocError> {
    let mut probes = Vec::new(alloc);
    for claim in claims {
        if probe_number(probes.as_slice(), &claim.probe).is_none() {
            probes.push(claim.probe)?;
        }
    }
    Ok(probes)
}

/// Returns the number of the wanted probe among `probes`, if any.
pub(crate) fn probe_number(probes: &[Probe], wanted: &Probe) -> Option<usize> {
    for (number, probe) in probes.iter().enumerate() {
        if is_same(probe, wanted) {
            return Some(number);
        }
    }
    None
}

/// Whether two probes are the same.
pub(crate) fn is_same(one: &Probe, other: &Probe) -> bool {
    match one {
        Probe::Nothing => matches!(other, Probe::Nothing),
        Probe::Watch(name, names) => match other {
            Probe::Watch(second, others) => *name == *second && *names == *others,
            Probe::Nothing | Probe::Order(_, _, _) | Probe::Names => false,
        },
        Probe::Order(first, second, names) => match other {
            Probe::Order(before, after, others) => {
                is_said(*first, *before) && is_said(*second, *after) && *names == *others
            }
            Probe::Nothing | Probe::Watch(_, _) | Probe::Names => false,
        },
        Probe::Names => matches!(other, Probe::Names),
    }
}

// Whether two `say`s have the same fiber and the same value.
fn is_said(one: Said, other: Said) -> bool {
    one.fiber == other.fiber && one.value == other.value
}

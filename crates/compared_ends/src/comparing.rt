//! The comparison of two programs.
ghost use Rattle.std.specs.Prelude.{◌≡◌, IfErr, IfOk};
ghost use Rattle.derived_ops.specs.Expansion.{code_of};
ghost use Rattle.derived_ops.specs.Reading.{source_of};
ghost use Rattle.cell_registry.specs.Cells.{AreLimits};
ghost use Rattle.compared_ends.specs.declared.comparison.Extra.TheVariants.{Nothing};
ghost use Rattle.compared_ends.specs.Comparisons.{IsExplored, IsExtra, SameEnds};

use crate::basis::Basis;
use crate::comparison::Comparison;
use crate::extras::extra;
use cell_registry::{Limits, RunError};
use effect_term::Program;
use every_schedule::{Bounds, Exploration, explore};
use std::alloc::Global;

/// Compares two programs by the ends that they can have under every schedule: the reports that no further entry
/// changes, as far as the basis looks at them, and the faults.
///
/// Both are explored under the same limits, each within the bounds. An end that the result names for one of them is the
/// end of one of its answers, whose schedule leads there; no schedule leads the other program to an end that is equal
/// by the basis. If both results are [`Extra::Nothing`](crate::Extra::Nothing), the programs have the same ends. An
/// exploration that met a bound can leave either question undecided. Whether the first program has more ends than the
/// second is known in two cases: the exploration of the second is complete and an end of the first is missing in it, or
/// the exploration of the first is complete and none is missing.
///
/// The limits are in their ranges ([`Limits`]). [`RunError::NoMemory`] is the only error.
pub fn compare_ends(
    alloc: Global,
    first: &Program,
    second: &Program,
    limits: Limits,
    bounds: Bounds,
    basis: Basis,
) -> Result<Comparison, RunError>
    requires limits { AreLimits limits }
    ensures first { IfOk result (λ it. IsExtra basis (code_of (source_of first.now)) (code_of (source_of second.now))
        limits it.first it.second it.first_extra) }
    ensures second { IfOk result (λ it. IsExtra basis (code_of (source_of second.now)) (code_of (source_of first.now))
        limits it.second it.first it.second_extra) }
    ensures same { IfOk result (λ it. it.first_extra ≡ Nothing → it.second_extra ≡ Nothing →
        SameEnds basis (code_of (source_of first.now)) (code_of (source_of second.now)) limits) }
    ensures first_explored { IfOk result (λ it. IsExplored (code_of (source_of first.now)) limits bounds it.first) }
    ensures second_explored { IfOk result (λ it. IsExplored (code_of (source_of second.now)) limits bounds it.second) }
    ensures memory { IfErr result (λ e. e ≡ RunError.NoMemory) }
{
    let one = explored(alloc, first, limits, bounds)?;
    let other = explored(alloc, second, limits, bounds)?;
    let first_extra = extra(basis, &one, &other);
    let second_extra = extra(basis, &other, &one);
    Ok(Comparison {
        first: one,
        second: other,
        first_extra,
        second_extra,
    })
}

// The exploration of a program.
fn explored(
    alloc: Global,
    program: &Program,
    limits: Limits,
    bounds: Bounds,
) -> Result<Exploration, RunError>
    requires limits { AreLimits limits }
    ensures explored { IfOk result (IsExplored (code_of (source_of program.now)) limits bounds) }
    ensures memory { IfErr result (λ e. e ≡ RunError.NoMemory) }
{
    explore(alloc, program, limits, bounds)
}

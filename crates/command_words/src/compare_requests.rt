//! The comparison that the words of a command line ask for.

ghost use Rattle.std.specs.Prelude.{◌≡◌, codes, IfNone, IfSome};
ghost use Rattle.clap.specs.Words.{found_of, rows_of};
ghost use Rattle.compared_ends.specs.declared.basis.Basis.{Basis as TheBasis};
ghost use Rattle.compared_ends.specs.declared.order.CompareOrder.{CompareOrder};
ghost use Rattle.command_words.specs.declared.comparing.Comparing.{Comparing};
ghost use Rattle.command_words.specs.Requests.{SaysBasis, SaysCompare, SaysComparing};

use crate::comparing::Comparing;
use crate::flags::{given, text_of};
use crate::ranges::FEW;
use crate::requests::{bounds_of, limits_of};
use clap::ArgMatches;
use compared_ends::{Basis, CompareOrder};

// The basis of the comparison, by the options of `compare`.
fn basis_of(compare: &ArgMatches<'_>) -> Basis
    ensures { SaysBasis (rows_of (found_of compare.now)) result }
{
    if given(compare, "all") {
        Basis::AllFibers
    } else {
        Basis::FirstFiber
    }
}

// The limits, bounds, basis and form of the comparison, by the options of `compare`.
fn compare_order(compare: &ArgMatches<'_>) -> Option<CompareOrder>
    ensures said { IfSome result (SaysCompare (rows_of (found_of compare.now))) }
    ensures none { IfNone result ((order : CompareOrder) → SaysCompare (rows_of (found_of compare.now)) order → ⊥) }
{
    let limits = limits_of(compare, FEW)?;
    let bounds = bounds_of(compare)?;
    Some(CompareOrder {
        limits,
        bounds,
        basis: basis_of(compare),
        json: given(compare, "json"),
    })
}

/// The comparison that the options of `compare` ask for, or `None` if a value is wrong.
pub(crate) fn comparing_of<'a>(compare: &ArgMatches<'a>) -> Option<Comparing<'a>>
    ensures said { IfSome result (SaysComparing (rows_of (found_of compare.now))) }
    ensures none { IfNone result ((said : Comparing) → SaysComparing (rows_of (found_of compare.now)) said → ⊥) }
{
    let first = text_of(compare, "first")?;
    let second = text_of(compare, "second")?;
    let order = compare_order(compare)?;
    Some(Comparing {
        first,
        second,
        order,
    })
}

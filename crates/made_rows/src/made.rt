//! What the first rows of a timeline make.

ghost use Rattle.std.specs.Prelude.{◌≡◌, count_by, take};
ghost use Rattle.made_rows.specs.Making.{is_deferred, is_ref, leading, made_by};

use crate::product::{Product, product_of};
use cell_registry::Call;
use fiber_events::Deed;

// The greatest number of such rows that are still shown one by one.
const MOST_SHOWN: usize = 4;

/// The number of rows at the head of a timeline that are shown as one row, and what they make.
#[derive(Clone, Copy)]
pub struct Made {
    /// The number of rows.
    pub rows: usize,
    /// The number of refs that they make.
    pub refs: usize,
    /// The number of deferreds that they make.
    pub deferreds: usize,
}

/// Counts the rows at the head of a timeline that make a ref, give the ref of the row before its first value, or make a
/// deferred. Returns the number of these rows, of refs and of deferreds. All three are 0 if there are at most four rows.
pub fn made_by(deeds: &[Deed]) -> Made
    ensures { result ≡ made_by deeds.now }
{
    let rows = leading(deeds);
    if rows <= MOST_SHOWN {
        return Made {
            rows: 0,
            refs: 0,
            deferreds: 0,
        };
    }
    let first = deeds.get(..rows).unwrap_or(deeds);
    Made {
        rows,
        refs: refs_in(first),
        deferreds: deferreds_in(first),
    }
}

// The number of rows before the first that makes nothing.
fn leading(deeds: &[Deed]) -> usize
    ensures { result ≡ leading Product.Nothing deeds.now }
{
    let mut before = Product::Nothing;
    for (rows, deed) in deeds.iter().enumerate() {
        before = product_of(before, *deed);
        if let Product::Nothing = before {
            return rows;
        }
    }
    deeds.len()
}

// The number of these rows that make a ref.
fn refs_in(deeds: &[Deed]) -> usize
    ensures { result ≡ count_by is_ref deeds.now }
{
    deeds.iter().filter(|deed| is_ref(**deed)).count()
}

// The number of these rows that make a deferred.
fn deferreds_in(deeds: &[Deed]) -> usize
    ensures { result ≡ count_by is_deferred deeds.now }
{
    deeds.iter().filter(|deed| is_deferred(**deed)).count()
}

fn is_ref(deed: Deed) -> bool
    ensures { result ≡ is_ref deed }
{
    matches!(deed, Deed::Called(Call::NewRef, _))
}

fn is_deferred(deed: Deed) -> bool
    ensures { result ≡ is_deferred deed }
{
    matches!(deed, Deed::Called(Call::NewDeferred, _))
}

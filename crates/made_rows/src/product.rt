//! What one row of a timeline makes.

ghost use Rattle.std.specs.Prelude.{◌≡◌};
ghost use Rattle.made_rows.specs.Making.{product_of, product_of_set};

use cell_registry::Call;
use effect_term::Reply;
use fiber_events::Deed;

/// What a row of a timeline makes.
#[derive(Clone, Copy)]
pub enum Product {
    /// The ref with this number.
    Ref(u16),
    /// A deferred.
    Deferred,
    /// The first value of the ref that the row before makes.
    Value,
    /// Nothing.
    Nothing,
}

/// Returns what a row makes. `before` is what the row before it makes, or `Product::Nothing` for the first row.
pub fn product_of(before: Product, deed: Deed) -> Product
    ensures { result ≡ product_of before deed }
{
    match deed {
        Deed::Called(Call::NewRef, Reply::Number(number)) => Product::Ref(number),
        Deed::Called(Call::NewDeferred, _) => Product::Deferred,
        Deed::Called(Call::Set(number, _), _) => product_of_set(before, number),
        _ => Product::Nothing,
    }
}

// Returns what a row makes that sets the ref with this number. `before` is what the row before it makes.
fn product_of_set(before: Product, number: u16) -> Product
    ensures { result ≡ product_of_set before number }
{
    match before {
        Product::Ref(made) if made == number => Product::Value,
        _ => Product::Nothing,
    }
}

//! Numbers of bytes, as `4G`.

ghost use Rattle.std.specs.Prelude.{◌≡◌, ◌≢◌, ◌<◌, ◌≤◌, ◌++◌, ℕ, List, [], ◌∷◌, IfSome, IfNone, Some};
ghost use Rattle.std.specs.Option.{MatchOption};
ghost use Rattle.command_words.specs.Memory.{SaysMemory, number_in, unit_of};

use crate::ranges::MEMORY;
use crate::requests::number;

/// The number of bytes that a text spells: its number times its unit.
#[tactic(auto, using(crate::proofs::UnitLemmas::small_product))]
pub(crate) fn bytes_of(text: &str) -> Option<u64>
    ensures spelled { IfSome result (SaysMemory (Some text.now)) }
    ensures none { IfNone result ((n : ℕ) → SaysMemory (Some text.now) n → ⊥) }
{
    let (digits, unit) = parted(text);
    let number = number(digits, MEMORY)?;
    Some(number * unit)
}

// The number in a text, and the bytes of the unit after it, 1 without a unit.
fn parted(text: &str) -> (&str, u64)
    ensures number { result.0.now ≡ number_in text.now }
    ensures unit { result.1 ≡ unit_of text.now }
    ensures small { result.1 ≤ 1073741824 }
{
    if let Some(digits) = before(text, 'k') {
        return (digits, 1024);
    }
    if let Some(digits) = before(text, 'M') {
        return (digits, 1_048_576);
    }
    if let Some(digits) = before(text, 'G') {
        return (digits, 1_073_741_824);
    }
    (text, 1)
}

// The text without its last letter, if that is `letter`, which is ASCII.
fn before(text: &str, letter: char) -> Option<&str>
    requires { letter < 128 }
    ensures { MatchOption result ((front : List ℕ) → text.now ≢ front ++ (letter ∷ []))
        (λ x. text.now ≡ x.now ++ (letter ∷ [])) }
{
    text.strip_suffix(letter)
}

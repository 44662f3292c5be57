//! Numbers, spelled as in terms.

ghost use Rattle.std.specs.Prelude.{◌≡◌, ◌≤◌, ◌^◌, neg_ℤ, pos};
ghost use Rattle.term_parse.specs.Lexemes.{is_digit, number_of};
ghost use Rattle.term_parse.specs.Seen.{plain_value};

use effect_term::Value;

// The greatest number behind a minus sign.
const LARGEST: u64 = 4_611_686_018_427_387_904;

/// Whether this byte is a digit.
pub(crate) fn is_digit(byte: u8) -> bool
    ensures { result ≡ is_digit byte }
{
    b'0' <= byte && byte <= b'9'
}

// The value of digits that don't begin with 0, if it is at most [`LARGEST`].
#[tactic(auto, unfolding(term_parse::specs::Seen::plain_value))]
fn plain_value(digits: &[u8]) -> Option<u64>
    ensures { result ≡ plain_value digits.now }
{
    let [first, ..] = digits else {
        return None;
    };
    if *first <= b'0' {
        return None;
    }
    let mut value: u64 = 0;
    for &digit in digits {
        if !is_digit(digit) {
            return None;
        }
        if value > LARGEST / 10 {
            return None;
        }
        value = value * 10 + u64::from(digit - b'0');
    }
    if value > LARGEST {
        return None;
    }
    Some(value)
}

#[tactic(auto, using(term_parse::proofs::Lexing::below_zero))]
fn negated(value: u64) -> Value
    requires { value ≤ 2 ^ 62 }
    ensures { result ≡ neg_ℤ (pos value) }
{
    let Some(value) = Value::of(0 - value as i64) else {
        unreachable!();
    };
    value
}

/// Returns the number that these bytes spell, if they spell one.
#[tactic(auto, unfolding(term_parse::specs::Seen::plain_value, term_parse::specs::Lexemes::number_of))]
pub fn read_number(run: &[u8]) -> Option<Value>
    ensures { result ≡ number_of run.now }
{
    let [first, digits @ ..] = run else {
        return None;
    };
    if *first == b'0' && digits.is_empty() {
        return Some(Value::ZERO);
    }
    if *first == b'-' {
        let value = plain_value(digits)?;
        return Some(negated(value));
    }
    let value = plain_value(run)?;
    Value::of(value as i64)
}

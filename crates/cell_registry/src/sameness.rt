//! Whether two values are equal, and hashes by which values are looked up.

ghost use Rattle.std.specs.Prelude.{◌≡◌, ◌≢◌, false, true};

use control_word::value_word;
use effect_term::Value;

/// Values that can be compared.
pub(crate) trait Same {
    /// Whether the two are equal.
    fn same(&self, other: &Self) -> bool
        ensures same { result ≡ true → self.now ≡ other.now }
        ensures other { result ≡ false → self.now ≢ other.now };

    /// A digest, extended by this value.
    fn mixed_into(&self, digest: u64) -> u64;
}

impl Same for Value {
    fn same(&self, other: &Value) -> bool {
        self.get() == other.get()
    }

    fn mixed_into(&self, digest: u64) -> u64 {
        mixed(digest, value_word(*self))
    }
}

impl Same for Option<Value> {
    fn same(&self, other: &Option<Value>) -> bool {
        match (self, other) {
            (None, None) => true,
            (Some(one), Some(other)) => one.same(other),
            (None, Some(_)) | (Some(_), None) => false,
        }
    }

    fn mixed_into(&self, digest: u64) -> u64 {
        match self {
            None => mixed(digest, u64::MAX),
            Some(value) => value.mixed_into(digest),
        }
    }
}

/// Whether two lists have equal items.
pub(crate) fn same_items<T: Same>(one: &[T], other: &[T]) -> bool
    ensures same { result ≡ true → one.now ≡ other.now }
    ensures other { result ≡ false → one.now ≢ other.now }
{
    if one.len() != other.len() {
        return false;
    }
    for (index, item) in one.iter().enumerate() {
        if !item.same(&other[index]) {
            return false;
        }
    }
    true
}

/// A digest, extended by the first `most` of these items, or by all if there are fewer.
pub(crate) fn mixed_items<T: Same>(digest: u64, items: &[T], most: usize) -> u64 {
    let mut digest = digest;
    for item in items.iter().take(most) {
        digest = item.mixed_into(digest);
    }
    digest
}

/// A digest, extended by this word: a step of FNV-1a over a word, after which the high bits are mixed into the low
/// ones.
pub(crate) fn mixed(digest: u64, word: u64) -> u64 {
    let product = (digest ^ word).wrapping_mul(0x9e37_79b9_7f4a_7c15);
    product ^ (product >> 32)
}

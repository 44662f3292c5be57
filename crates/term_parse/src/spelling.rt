//! Spellings, byte by byte.

ghost use Rattle.std.specs.Prelude.{◌≡◌};
ghost use Rattle.std.specs.Str.{bytes_eq};

/// Whether these are the same bytes. Most texts that it compares are short and differ early.
#[tactic(auto, using(crate::proofs::Spellings::other_length, crate::proofs::Spellings::other_byte, crate::proofs::Spellings::same_bytes))]
pub(crate) fn is_same(a: &[u8], b: &[u8]) -> bool
    ensures { result ≡ bytes_eq a.now b.now }
{
    if a.len() != b.len() {
        return false;
    }
    for i in 0..a.len() {
        if a[i] != b[i] {
            return false;
        }
    }
    true
}

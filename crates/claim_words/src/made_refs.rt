//! The refs that a claim names by their numbers, and those that a run can make.

ghost use Rattle.std.specs.Prelude.{IfNone, IfSome, ◌≤◌};
ghost use Rattle.std.specs.List.{All, Any};
ghost use Rattle.claim_words.specs.MadeRefs.{IsMade, NamesRef};

use crate::words::SpelledWord;

/// The first ref that these words name by a number, if a run that makes at most `refs` refs doesn't make it. Refs are
/// numbered from 0. `None` if it makes each ref of a number.
pub(crate) fn ref_beyond(words: &[SpelledWord], refs: u16) -> Option<u16>
    ensures some { IfSome result (λ n. refs ≤ n) }
    ensures named { IfSome result (λ n. Any (NamesRef n) words.now) }
    ensures none { IfNone result (All (IsMade refs) words.now) }
{
    for word in words {
        match word {
            SpelledWord::Numbered(number, _, _) => {
                if *number >= refs {
                    return Some(*number);
                }
            }
            SpelledWord::Named(_, _)
            | SpelledWord::Not
            | SpelledWord::Join(_)
            | SpelledWord::World(_) => {}
        }
    }
    None
}

//! Terms with loops without end.

use crate::straight::word_behind;
use model_terms::ModelTerm;

/// Whether a term has a `forever`.
pub fn has_forever(term: &ModelTerm) -> bool {
    let text = term.text.as_slice();
    for at in 0..text.len() {
        if let Some(rest) = text.get(at..) {
            if rest.starts_with(b"(forever") {
                return true;
            }
        }
    }
    false
}

/// Whether a term has a `forever` whose body has a form that adds marks to its fiber: each turn of such a loop leads to
/// a world with other marks.
pub fn marks_in_loops(term: &ModelTerm) -> bool {
    let text = term.text.as_slice();
    let mut depth = 0usize;
    // The number of forms that are open around the outermost `forever`, if one is open.
    let mut around = None;
    for (at, byte) in text.iter().enumerate() {
        match *byte {
            b'(' => {
                let word = word_behind(text, at.saturating_add(1));
                if around.is_some() && adds_marks(word) {
                    return true;
                }
                if around.is_none() && word == b"forever".as_slice() {
                    around = Some(depth);
                }
                depth = depth.saturating_add(1);
            }
            b')' => {
                depth = depth.saturating_sub(1);
                if around == Some(depth) {
                    around = None;
                }
            }
            _ => {}
        }
    }
    false
}

// Whether a form with this word adds a mark to its fiber: it says a value, or enters or leaves a mask or a poll.
fn adds_marks(word: &[u8]) -> bool {
    match word {
        b"say" => true,
        b"uncancelable" => true,
        b"poll" => true,
        b"cancel" => true,
        b"guarantee" => true,
        b"bracket" => true,
        b"bracketcase" => true,
        b"bracketfull" => true,
        b"race" => true,
        b"both" => true,
        _ => false,
    }
}

//! Whether the numbers of a model's fibers determine their names.

use crate::straight::word_behind;
use std::alloc::{AllocError, Global};

// What a form does with its parts that are terms.
#[derive(Clone, Copy)]
enum Way {
    // Its fiber runs them one after another, whatever values they give.
    InOrder,
    // Another fiber runs the first; its own fiber runs the second.
    Starts,
    // Other fibers run them.
    Pairs,
    // Its fiber can skip one or repeat one.
    Otherwise,
}

// A form whose bracket is open.
#[derive(Clone, Copy)]
struct Open {
    way: Way,
    // The number of its parts that are terms and have begun.
    parts: usize,
    // Whether main reaches the form once, in the order of the text, unless main stops earlier.
    is_on_the_way: bool,
}

/// Whether a fiber's number determines its name under every schedule: main starts all fibers in the order of the text,
/// or the term has at most one `start` and neither `race` nor `both`.
pub(crate) fn numbers_tell_names(alloc: Global, text: &[u8]) -> Result<bool, AllocError> {
    let mut open: Vec<Open> = Vec::new(alloc);
    let mut starters = 0usize;
    let mut is_sure = true;
    for (at, byte) in text.iter().enumerate() {
        match *byte {
            b'(' => {
                let way = way_of(word_behind(text, at.saturating_add(1)));
                let is_on_the_way = comes_to(&mut open);
                let starts = starters_of(way);
                starters = starters.saturating_add(starts);
                is_sure = is_sure && (is_on_the_way || starts == 0);
                open.push(Open {
                    way,
                    parts: 0,
                    is_on_the_way,
                })?;
            }
            b')' => {
                let _ = open.pop();
            }
            _ => {}
        }
    }
    Ok(is_sure || starters <= 1)
}

// The number of fibers that a form starts.
fn starters_of(way: Way) -> usize {
    match way {
        Way::Starts => 1,
        Way::Pairs => 2,
        Way::InOrder | Way::Otherwise => 0,
    }
}

// Counts the next part of the innermost open form. Returns whether main reaches the part once, in the order of the
// text.
fn comes_to(open: &mut Vec<Open>) -> bool {
    let depth = open.len();
    if depth == 0 {
        return true;
    }
    let place = depth - 1;
    let form = open[place];
    open[place] = Open {
        way: form.way,
        parts: form.parts.saturating_add(1),
        is_on_the_way: form.is_on_the_way,
    };
    form.is_on_the_way
        && match form.way {
            Way::InOrder => true,
            Way::Starts => form.parts > 0,
            Way::Pairs | Way::Otherwise => false,
        }
}

// What a form with this word does with its parts.
fn way_of(word: &[u8]) -> Way {
    match word {
        b"ref" => Way::InOrder,
        b"deferred" => Way::InOrder,
        b"let" => Way::InOrder,
        b"seq" => Way::InOrder,
        b"uncancelable" => Way::InOrder,
        b"poll" => Way::InOrder,
        b"start" => Way::Starts,
        b"race" => Way::Pairs,
        b"both" => Way::Pairs,
        _ => Way::Otherwise,
    }
}

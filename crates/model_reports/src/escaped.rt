//! Bytes as text of a document of XML or HTML.

use std::alloc::{AllocError, Global};

/// Adds bytes as text of a document of XML or HTML. Bytes that are no UTF-8, characters below U+0020 but the line feed,
/// U+FFFE and U+FFFF become U+FFFD. `AllocError` if memory runs out.
pub(crate) fn push_escaped(
    told: &mut Vec<u8>,
    alloc: Global,
    bytes: &[u8],
) -> Result<(), AllocError> {
    let text = String::from_utf8_lossy(alloc, bytes)?;
    let mut escaped = String::new(alloc);
    for character in text.chars() {
        push_character(&mut escaped, character)?;
    }
    told.extend_from_slice(escaped.as_bytes())
}

// Adds a character as text of a document.
fn push_character(escaped: &mut String, character: char) -> Result<(), AllocError> {
    match character {
        '&' => escaped.push_str("&amp;"),
        '<' => escaped.push_str("&lt;"),
        '>' => escaped.push_str("&gt;"),
        '"' => escaped.push_str("&quot;"),
        '\n' => escaped.push('\n'),
        '\0'..='\u{1f}' | '\u{fffe}' | '\u{ffff}' => escaped.push('\u{fffd}'),
        other => escaped.push(other),
    }
}

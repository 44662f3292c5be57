//! The shapes of a picture, each as one line of its text.

use itoa::Buffer;
use std::alloc::AllocError;

// Appends `before` and a number.
fn push_number(text: &mut String, before: &str, number: usize) -> Result<(), AllocError> {
    let mut digits = Buffer::new();
    text.push_str(before)?;
    text.push_str(digits.format(number))
}

/// The place of a shape.
#[derive(Clone, Copy, Debug)]
pub(crate) struct Place {
    /// The distance from the left.
    pub(crate) x: usize,
    /// The distance from the top.
    pub(crate) y: usize,
}

/// Appends a bar of a class, from its upper left corner.
pub(crate) fn push_bar(
    text: &mut String,
    class: &str,
    at: Place,
    width: usize,
    height: usize,
) -> Result<(), AllocError> {
    text.push_str("<rect class=\"")?;
    text.push_str(class)?;
    push_number(text, "\" x=\"", at.x)?;
    push_number(text, "\" y=\"", at.y)?;
    push_number(text, "\" width=\"", width)?;
    push_number(text, "\" height=\"", height)?;
    text.push_str("\"/>\n")
}

/// Appends a line of a class.
pub(crate) fn push_line(
    text: &mut String,
    class: &str,
    from: Place,
    to: Place,
) -> Result<(), AllocError> {
    text.push_str("<path class=\"")?;
    text.push_str(class)?;
    push_number(text, "\" d=\"M", from.x)?;
    push_number(text, " ", from.y)?;
    push_number(text, "L", to.x)?;
    push_number(text, " ", to.y)?;
    text.push_str("\"/>\n")
}

/// Appends words of a class, which begin or are centred at a place. The words contain no markup.
pub(crate) fn push_words(
    text: &mut String,
    class: &str,
    at: Place,
    words: &str,
) -> Result<(), AllocError> {
    text.push_str("<text class=\"")?;
    text.push_str(class)?;
    push_number(text, "\" x=\"", at.x)?;
    push_number(text, "\" y=\"", at.y)?;
    text.push_str("\">")?;
    text.push_str(words)?;
    text.push_str("</text>\n")
}

/// Appends a word and a number, as words.
pub(crate) fn push_counted(
    text: &mut String,
    class: &str,
    at: Place,
    word: &str,
    number: usize,
) -> Result<(), AllocError> {
    text.push_str("<text class=\"")?;
    text.push_str(class)?;
    push_number(text, "\" x=\"", at.x)?;
    push_number(text, "\" y=\"", at.y)?;
    text.push_str("\">")?;
    push_number(text, word, number)?;
    text.push_str("</text>\n")
}

/// Appends a sign of a class: a drawing that begins at a place.
pub(crate) fn push_sign(
    text: &mut String,
    class: &str,
    at: Place,
    drawing: &str,
) -> Result<(), AllocError> {
    begin_sign(text, class, at, drawing)?;
    text.push_str("/>\n")
}

/// Appends the end of the sign of an entry's event, with the words that it shows if the pointer is on it.
pub(crate) fn push_title(text: &mut String, entry: usize, words: &str) -> Result<(), AllocError> {
    push_number(text, "><title>", entry)?;
    text.push_str(": ")?;
    text.push_str(words)?;
    text.push_str("</title></path>\n")
}

/// Appends a sign, up to the end of its opening tag.
pub(crate) fn begin_sign(
    text: &mut String,
    class: &str,
    at: Place,
    drawing: &str,
) -> Result<(), AllocError> {
    text.push_str("<path class=\"")?;
    text.push_str(class)?;
    push_number(text, "\" d=\"M", at.x)?;
    push_number(text, " ", at.y)?;
    text.push_str(drawing)?;
    text.push_str("\"")
}

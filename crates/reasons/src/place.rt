//! The position of a byte in a text.

ghost use Rattle.std.specs.Prelude.{◌≡◌, take};
ghost use Rattle.reasons.specs.Place.{position_of};

/// The position of a byte in a text.
#[derive(Clone, Copy)]
pub struct Position {
    /// The number of its line, from 1.
    pub line: usize,
    /// The number of bytes before it in its line, plus 1.
    pub column: usize,
}

/// The position of the byte behind the first `place` bytes, or of the text's end if it has no more bytes.
pub fn position_at(text: &[u8], place: usize) -> Position
    ensures { result ≡ position_of (take place text.now) }
{
    let mut line = 1;
    let mut column = 1;
    for byte in &text[..place.min(text.len())] {
        if *byte == b'\n' {
            line += 1;
            column = 1;
        } else {
            column += 1;
        }
    }
    Position { line, column }
}

//! Whether a file has a report in it.

ghost use Rattle.std.specs.Prelude.{◌≡◌};
ghost use Rattle.report_files.specs.Contents.{content_of};

/// What a file has in it, by its first bytes.
#[derive(Clone, Copy, PartialEq, Eq, Debug)]
pub enum Content {
    /// Nothing.
    Nothing,
    /// A report.
    Report,
    /// A part of the bytes with which a report begins.
    Part,
    /// Anything else.
    Other,
}

/// What a file that begins with `bytes` has in it, if each report begins with `head`. `bytes` are all bytes of the
/// file, or as many as `head` has.
pub fn content_of(bytes: &[u8], head: &[u8]) -> Content
    ensures { result ≡ content_of bytes.now head.now }
{
    if bytes.is_empty() {
        Content::Nothing
    } else if bytes.starts_with(head) {
        Content::Report
    } else if head.starts_with(bytes) {
        Content::Part
    } else {
        Content::Other
    }
}

//! Whether a report can be written to a path, and how.

ghost use Rattle.std.specs.Prelude.{◌≡◌, ◌↔◌, IsTrue};
ghost use Rattle.report_files.specs.Ways.{IsLeftover, file_way, new_way, way_of};

use crate::content::Content;

/// What is at a path.
#[derive(Clone, Copy, PartialEq, Eq, Debug)]
pub enum Kind {
    /// Nothing.
    Nothing,
    /// A regular file with this content.
    File(Content),
    /// A folder.
    Folder,
    /// A device, a pipe or a socket.
    Device,
}

/// What was found at the path of a report.
#[derive(Clone, Copy, PartialEq, Eq, Debug)]
pub struct Found {
    /// What is there.
    pub kind: Kind,
    /// Whether it is a file that the test reads.
    pub is_input: bool,
    /// Whether the other report is written there, too.
    pub is_shared: bool,
    /// Whether it is the file of the program's standard output.
    pub is_output: bool,
    /// Whether it is the file of the program's standard error.
    pub is_errors: bool,
}

/// How a report is written.
#[derive(Clone, Copy, PartialEq, Eq, Debug)]
pub enum Way {
    /// As a new file, which replaces an earlier report, if there is one.
    Replace,
    /// Behind what is there.
    Append,
    /// To the program's standard output.
    Print,
}

/// Why a report isn't written to a path.
#[derive(Clone, Copy, PartialEq, Eq, Debug)]
pub enum Refusal {
    /// The test reads this file.
    Input,
    /// The other report is written to this file.
    Shared,
    /// The file has something else in it than a report.
    Other,
    /// It is a folder.
    Folder,
    /// The program's standard error is written to this file.
    Errors,
    /// At the path of the file that is renamed to the report is something else.
    Beside,
}

/// How a report is written to a path where this was found, or why it isn't.
///
/// A file is replaced only if it is empty or has a report in it, and if neither the test, nor the other report, nor the
/// program's output needs it. A report is written behind what is there if that is no file.
pub fn way_of(found: Found) -> Result<Way, Refusal>
    ensures { result ≡ way_of found }
{
    if found.is_input {
        return Err(Refusal::Input);
    }
    match found.kind {
        Kind::Folder => Err(Refusal::Folder),
        Kind::Device => Ok(Way::Append),
        Kind::Nothing => new_way(found.is_shared),
        Kind::File(_) if found.is_output => Ok(Way::Print),
        Kind::File(_) if found.is_errors => Err(Refusal::Errors),
        Kind::File(content) => file_way(content, found.is_shared),
    }
}

// How a report is written where nothing is.
fn new_way(is_shared: bool) -> Result<Way, Refusal>
    ensures { result ≡ new_way is_shared }
{
    if is_shared {
        Err(Refusal::Shared)
    } else {
        Ok(Way::Replace)
    }
}

// How a report is written where a file with this content is.
fn file_way(content: Content, is_shared: bool) -> Result<Way, Refusal>
    ensures { result ≡ file_way content is_shared }
{
    match content {
        Content::Nothing | Content::Report => new_way(is_shared),
        Content::Part | Content::Other => Err(Refusal::Other),
    }
}

/// Whether what was found at the path of the file that is renamed to a report can be removed: it is what a test left
/// that was ended while it wrote its report.
pub fn may_be_removed(found: Found) -> bool
    ensures { IsTrue result ↔ IsLeftover found }
{
    if found.is_input || found.is_shared || found.is_output || found.is_errors {
        return false;
    }
    match found.kind {
        Kind::File(Content::Nothing | Content::Report | Content::Part) => true,
        Kind::File(Content::Other) | Kind::Nothing | Kind::Folder | Kind::Device => false,
    }
}

//! The requests to check a text and to show its program.

/// To check whether the text is a program.
#[derive(Clone, Copy)]
pub struct Checking {
    /// Whether the answer is JSON.
    pub json: bool,
    /// Whether reasons are written to standard error.
    pub explain: bool,
}

/// To print the expansion of the text's program.
#[derive(Clone, Copy)]
pub struct Showing {
    /// Whether reasons are written to standard error.
    pub explain: bool,
}

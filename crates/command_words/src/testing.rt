//! The requests to test model files and to print their terms.

/// The form of the answer to a test of model files.
#[derive(Clone, Copy)]
pub enum TestForm {
    /// A line for each model, then what failed.
    Report,
    /// A line for each model; no model is explored.
    List,
    /// One line of JSON.
    Json,
    /// The Test Anything Protocol.
    Tap,
}

/// When the words of verdicts have colours.
#[derive(Clone, Copy)]
pub enum Coloring {
    /// If the output is a terminal that takes colours.
    Auto,
    /// Always.
    Always,
    /// Never.
    Never,
}

/// To test the models of files.
#[derive(Drop)]
pub struct Testing<'a> {
    /// The paths of the files, at least one.
    pub files: Vec<&'a str>,
    /// The text that the name of each tested model contains, if it is given.
    pub filter: Option<&'a str>,
    /// The path of the file to which a report for CI is written.
    pub junit: Option<&'a str>,
    /// The path of the file to which a page of HTML is written.
    pub html: Option<&'a str>,
    /// The greatest number of worlds that are kept of a model without a bound of its own.
    pub worlds: u64,
    /// The bytes of memory at which the searches of the models that are explored side by side stop.
    pub memory: u64,
    /// The seconds after which the searches of each model stop; `None` means no bound.
    pub seconds: Option<u64>,
    /// The seconds after which all searches stop, and no further model is explored; `None` means no bound.
    pub total_seconds: Option<u64>,
    /// The number of models that are explored side by side; 0 means one for each processor.
    pub jobs: u64,
    /// The form of the answer.
    pub form: TestForm,
    /// When the words of verdicts have colours.
    pub color: Coloring,
    /// Whether progress is asked for.
    pub progress: bool,
}

/// To print the terms of the models of a file.
#[derive(Clone, Copy)]
pub struct Translating<'a> {
    /// The path of the file.
    pub file: &'a str,
}

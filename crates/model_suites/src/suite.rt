//! The models of files that are tested.

ghost use Rattle.std.specs.Prelude.{◌≡◌, ◌++◌, [], IfOk, OnOk, false};
ghost use Rattle.model_suites.specs.Statuses.{verdict_in};

use crate::board::Board;
use crate::exploring::{help_all, show, tested_at};
use crate::progress::Progress;
use crate::reading::{ReadProblem, read_path};
use crate::terms::push_terms;
use crate::tested::Tested;
use crate::told::Told;
use itoa::Buffer;
use model_claims::check_defaults;
use model_forms::form_bytes;
use model_reports::{NamedFile, fault_text, line_starts, tap_head, unread_text};
use model_runs::check_model;
use model_terms::{Refused, Source, SourceFault, read_source};
use model_text::{Item, Model};
use report_files::share_of;
use std::alloc::{AllocError, Global};
use std::rt::Files;
use std::sync::Wait;
use std::thread::Threads;
use std::time::{Clock, Instant};
use text_io::{TextOut, push_shown};

/// The form of what is printed.
#[derive(Clone, Copy, PartialEq, Eq, Debug)]
pub enum SuiteForm {
    /// A line for each model, and then the details of the models.
    Report,
    /// A line for each model; none is explored.
    List,
    /// One line of JSON.
    Json,
    /// The Test Anything Protocol.
    Tap,
}

/// Which models are tested, the bounds of their searches, and what is printed.
#[derive(Clone, Copy)]
pub struct SuiteOrder<'a> {
    /// If given, the models whose names contain this text are tested; else all are.
    pub filter: Option<&'a str>,
    /// The greatest number of worlds that are kept of a model that sets no bound of its own.
    pub worlds: u64,
    /// The number of bytes at which the searches of the models that are explored side by side stop.
    pub memory: u64,
    /// The number of seconds after which the searches of a model stop, if given.
    pub seconds: Option<u64>,
    /// The number of seconds after which all searches stop, and no further model is explored, if given.
    pub total_seconds: Option<u64>,
    /// What is printed.
    pub form: SuiteForm,
    /// Whether a report for CI is wanted.
    pub junit: bool,
    /// Whether a page of HTML is wanted.
    pub html: bool,
    /// Whether the words of verdicts have colours.
    pub color: bool,
}

/// A file that was read.
#[derive(Drop)]
pub(crate) struct SuiteFile<'a> {
    /// The path under which the file was opened.
    pub(crate) name: &'a str,
    /// The file with its forms and items.
    pub(crate) source: Source,
    /// Where its lines begin.
    pub(crate) lines: Vec<usize>,
}

/// A model that is tested.
#[derive(Clone, Copy)]
pub(crate) struct Entry {
    /// The number of its file.
    pub(crate) file: usize,
    /// The model.
    pub(crate) model: Model,
}

/// The files that were read, and their models.
#[derive(Drop)]
pub(crate) struct Models<'a> {
    /// The order by which they are tested.
    pub(crate) order: SuiteOrder<'a>,
    /// When the test began; `None` if the clock failed.
    pub(crate) begun: Option<Instant>,
    /// The files.
    pub(crate) files: Vec<SuiteFile<'a>>,
    /// The models that are tested.
    pub(crate) entries: Vec<Entry>,
    // The number of models that the files have in all.
    all: usize,
    // The texts of the faults of files.
    faults: Vec<u8>,
}

/// The models of files that are tested.
#[derive(Drop)]
pub struct Suite<'a> {
    alloc: Global,
    models: Models<'a>,
}

impl<'a> Suite<'a> {
    /// Reads files, and finds all their faults. The time of the whole test begins now. `AllocError` if memory runs out.
    pub fn open<R: Clock + Files>(
        rt: &R,
        alloc: Global,
        order: SuiteOrder<'a>,
        files: &[&'a str],
    ) -> Result<Suite<'a>, AllocError> {
        let mut models = Models {
            order,
            begun: Instant::now(rt).ok(),
            files: Vec::new(alloc),
            entries: Vec::new(alloc),
            all: 0,
            faults: Vec::new(alloc),
        };
        for name in files {
            add_file(rt, alloc, &mut models, *name)?;
        }
        Ok(Suite { alloc, models })
    }

    /// The texts of the faults of files; empty if there are none. If there are faults, no model is tested.
    pub fn faults(&self) -> &[u8] {
        self.models.faults.as_slice()
    }

    /// The number of models that are tested.
    pub fn len(&self) -> usize {
        self.models.entries.len()
    }

    /// Returns a line for standard error that no model's name contains the filter; empty if one does. `AllocError` if
    /// memory runs out.
    pub fn missing(&self) -> Result<Vec<u8>, AllocError> {
        let mut line = Vec::new(self.alloc);
        let Some(part) = self.models.order.filter else {
            return Ok(line);
        };
        if !self.models.entries.is_empty() {
            return Ok(line);
        }
        line.extend_from_slice(b"no model is tested: no name contains `")?;
        push_shown(&mut line, part.as_bytes())?;
        line.extend_from_slice(b"`\n")?;
        Ok(line)
    }

    /// Returns what is printed before all models. `AllocError` if memory runs out.
    pub fn opening(&self) -> Result<Vec<u8>, AllocError> {
        match self.models.order.form {
            SuiteForm::Report => heading(self.alloc, self.models.entries.len(), self.models.all),
            SuiteForm::Tap => tap_head(self.alloc, self.models.entries.len()),
            SuiteForm::List | SuiteForm::Json => Ok(Vec::new(self.alloc)),
        }
    }

    /// Returns the reports of the models before any was tested.
    pub fn told(&self) -> Told
        ensures { result.verdicts.items ≡ [] }
    {
        Told::new(self.alloc, self.models.entries.len())
    }

    /// Returns a board for the results of the models, of which `jobs` are explored side by side: the search of each stops
    /// at its share of the memory. `AllocError` if memory runs out.
    pub fn board(&self, jobs: usize) -> Result<Board, AllocError> {
        let memory = share_of(self.models.order.memory as usize, jobs.max(1));
        Board::new(self.alloc, self.models.entries.len(), memory)
    }

    /// Explores models that no thread has claimed, in `threads` threads, and puts their results on the board, until
    /// there are none left or memory runs out.
    pub fn help<R: Clock + Threads + Wait + Sync>(&self, rt: &R, board: &Board, threads: usize) {
        help_all(rt, self.alloc, &self.models, board, threads);
    }

    /// Returns the result of the model of this number, from the board or by exploring the model. While another thread
    /// explores the model, the calling thread explores others, and then waits. Each model is asked for once.
    /// `AllocError` if memory runs out.
    pub fn tested<R: Clock + Wait>(
        &self,
        rt: &R,
        board: &Board,
        index: usize,
    ) -> Result<Tested, AllocError>
        ensures { IfOk result (λ it. it.index ≡ index) }
    {
        tested_at(rt, self.alloc, &self.models, board, index)
    }

    /// Waits until the result of the model of this number is on the board, and meanwhile shows progress each second.
    /// Returns at once if no progress is shown, and after a second if no thread has claimed the model.
    pub fn show<R: Clock + Wait, E: TextOut>(
        &self,
        rt: &R,
        board: &Board,
        index: usize,
        progress: &mut Progress,
        err: &mut E,
    )
        requires { progress.old.failed ≡ false → (E.seen err.old).failed ≡ false }
        ensures { progress.new.failed ≡ false → (E.seen err.new).failed ≡ false }
    {
        show(rt, &self.models, board, index, progress, err)
    }

    /// Adds the result of a model, and returns what is printed of the model at once. Models are added in the order of
    /// their numbers. `AllocError` if memory runs out.
    pub fn tell(&self, told: &mut Told, tested: Tested) -> Result<Vec<u8>, AllocError>
        ensures { OnOk result (told.new.verdicts.items ≡ told.old.verdicts.items ++ verdict_in tested.became) }
    {
        told.add(self.alloc, &self.models, tested)
    }

    /// Returns what is printed after all models. `AllocError` if memory runs out.
    pub fn ending(&self, told: &mut Told) -> Result<Vec<u8>, AllocError>
        ensures { told.new.verdicts.items ≡ told.old.verdicts.items }
    {
        told.ending(self.alloc, self.models.order.form)
    }

    /// Returns the terms of the models. `AllocError` if memory runs out.
    pub fn terms(&self) -> Result<Vec<u8>, AllocError> {
        let mut text = Vec::new(self.alloc);
        for entry in self.models.entries.iter() {
            if let Some(file) = self.models.files.get(entry.file) {
                push_terms(self.alloc, &file.source, &entry.model, &mut text)?;
            }
        }
        Ok(text)
    }
}

/// The name and the bytes of a file.
pub(crate) fn named<'b>(file: &'b SuiteFile<'_>) -> NamedFile<'b> {
    let bytes = file.source.text.get(file.source.prelude..).unwrap_or(&[]);
    NamedFile {
        name: file.name.as_bytes(),
        bytes,
        lines: file.lines.as_slice(),
    }
}

// Reads a file, and adds its models or the texts of its faults.
fn add_file<'a, R: Files>(
    rt: &R,
    alloc: Global,
    models: &mut Models<'a>,
    name: &'a str,
) -> Result<(), AllocError> {
    match read_path(rt, alloc, name) {
        Ok(bytes) => add_bytes(alloc, models, name, bytes.as_slice()),
        Err(ReadProblem::NoMemory) => Err(AllocError),
        Err(ReadProblem::Failed) => add_unread(alloc, &mut models.faults, name, "can't be read"),
        Err(ReadProblem::TooLong) => {
            add_unread(
                alloc,
                &mut models.faults,
                name,
                "has more than 1048576 bytes",
            )
        }
    }
}

// Adds the text of the fault that a file isn't read, and why.
fn add_unread(
    alloc: Global,
    faults: &mut Vec<u8>,
    name: &str,
    why: &str,
) -> Result<(), AllocError> {
    let told = unread_text(alloc, name.as_bytes(), why)?;
    faults.extend_from_slice(told.as_slice())
}

// Adds the models of a file with these bytes, or the texts of its faults.
fn add_bytes<'a>(
    alloc: Global,
    models: &mut Models<'a>,
    name: &'a str,
    bytes: &[u8],
) -> Result<(), AllocError> {
    let lines = line_starts(alloc, bytes)?;
    match read_source(alloc, bytes) {
        Ok(source) => add_source(
            alloc,
            models,
            SuiteFile {
                name,
                source,
                lines,
            },
        ),
        Err(Refused::NoMemory) => Err(AllocError),
        Err(Refused::Fault(fault)) => {
            let file = NamedFile {
                name: name.as_bytes(),
                bytes,
                lines: lines.as_slice(),
            };
            add_fault(alloc, &mut models.faults, file, &fault)
        }
    }
}

// Adds the text of a fault.
fn add_fault(
    alloc: Global,
    faults: &mut Vec<u8>,
    file: NamedFile<'_>,
    fault: &SourceFault,
) -> Result<(), AllocError> {
    let told = fault_text(alloc, file, fault)?;
    faults.extend_from_slice(told.as_slice())
}

// Adds the models of a file that was read, or the texts of their faults.
fn add_source<'a>(
    alloc: Global,
    models: &mut Models<'a>,
    file: SuiteFile<'a>,
) -> Result<(), AllocError> {
    match check_defaults(alloc, &file.source) {
        Ok(()) => {}
        Err(Refused::NoMemory) => return Err(AllocError),
        Err(Refused::Fault(fault)) => {
            return add_fault(alloc, &mut models.faults, named(&file), &fault);
        }
    }
    let number = models.files.len();
    for item in file.source.file.items.iter() {
        match item {
            Item::Model(model) => add_model(alloc, models, &file, number, *model)?,
            Item::Constant(_) | Item::Definition(_) | Item::Defaults(_) => {}
        }
    }
    models.files.push(file)?;
    Ok(())
}

// Adds a model, or the text of its first fault.
fn add_model(
    alloc: Global,
    models: &mut Models<'_>,
    file: &SuiteFile<'_>,
    number: usize,
    model: Model,
) -> Result<(), AllocError> {
    models.all = models.all.saturating_add(1);
    match check_model(alloc, &file.source, &model) {
        Ok(()) => {
            if is_wanted(&models.order, file, &model) {
                models.entries.push(Entry {
                    file: number,
                    model,
                })?;
            }
            Ok(())
        }
        Err(Refused::NoMemory) => Err(AllocError),
        Err(Refused::Fault(fault)) => add_fault(alloc, &mut models.faults, named(file), &fault),
    }
}

// Whether a model is to be tested.
fn is_wanted(order: &SuiteOrder<'_>, file: &SuiteFile<'_>, model: &Model) -> bool {
    match order.filter {
        Some(part) => contains(
            form_bytes(file.source.text.as_slice(), model.name),
            part.as_bytes(),
        ),
        None => true,
    }
}

// Whether a text contains another one.
fn contains(text: &[u8], part: &[u8]) -> bool {
    let last = text.len().saturating_sub(part.len());
    for start in 0..last.saturating_add(1) {
        if begins(text, start, part) {
            return true;
        }
    }
    false
}

// Whether a text contains another one at a place.
fn begins(text: &[u8], start: usize, part: &[u8]) -> bool {
    match text.get(start..) {
        Some(rest) => rest.starts_with(part),
        None => false,
    }
}

// The line with the number of models that are tested.
fn heading(alloc: Global, tested: usize, all: usize) -> Result<Vec<u8>, AllocError> {
    let mut digits = Buffer::new();
    let mut text = Vec::from_slice(alloc, digits.format(tested).as_bytes())?;
    if tested != all {
        text.extend_from_slice(b" of ")?;
        text.extend_from_slice(digits.format(all).as_bytes())?;
    }
    text.extend_from_slice(if all == 1 { b" model\n" } else { b" models\n" })?;
    Ok(text)
}

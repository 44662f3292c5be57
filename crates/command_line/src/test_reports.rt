//! The reports of a test, each in a file of its own.

ghost use Rattle.std.specs.Prelude.{◌≡◌, ◌⊎◌, IsOk, false};

use crate::test_order::write_part;
use command_words::{TestForm, Testing, refuse_words, value_reason};
use model_suites::{HTML_HEAD, JUNIT_HEAD, Told};
use outcome_trace::{Status, TextFault, TextOut, tell_fault, write_text};
use report_files::{Problem, Refusal, ReportFile};
use std::alloc::{AllocError, Global};
use std::rt::Files;
use text_io::push_shown;

/// The reports that a test writes.
#[derive(Drop)]
pub(crate) struct Reports<'a> {
    /// The report for CI.
    pub(crate) junit: Option<NamedReport<'a>>,
    /// The page of HTML.
    pub(crate) html: Option<NamedReport<'a>>,
    // The memory in which reports are made.
    alloc: Global,
}

/// A report, and the path under which the words name its file.
#[derive(Drop)]
pub(crate) struct NamedReport<'a> {
    // The path.
    path: &'a str,
    // The file.
    file: ReportFile,
}

/// Why a test has no reports.
#[derive(Clone, Copy)]
pub(crate) enum ReportProblem<'a> {
    /// Something could be lost at the path of this option.
    Refused(&'a str, &'static str, Refusal),
    /// The file can't be written, or memory ran out.
    Failed(ReportFault<'a>),
}

/// A report that couldn't be written.
#[derive(Clone, Copy)]
pub(crate) struct ReportFault<'a> {
    // The memory in which the path is written.
    alloc: Global,
    // The path of its file.
    path: &'a str,
    // The fault of its file, or that memory ran out.
    fault: TextFault,
}

/// Finds the files of the reports that the words ask for, and changes nothing. Models that are only listed have none.
pub(crate) fn open_reports<'a, R: Files>(
    rt: &R,
    alloc: Global,
    testing: &Testing<'a>,
) -> Result<Reports<'a>, ReportProblem<'a>> {
    let mut reports = Reports {
        junit: None,
        html: None,
        alloc,
    };
    if matches!(testing.form, TestForm::List) {
        return Ok(reports);
    }
    let files = testing.files.as_slice();
    if let Some(path) = testing.junit {
        reports.junit = Some(open_report(rt, alloc, path, Form::Junit, files, None)?);
    }
    if let Some(path) = testing.html {
        let other = reports.junit.as_ref();
        reports.html = Some(open_report(rt, alloc, path, Form::Html, files, other)?);
    }
    Ok(reports)
}

// A form of reports.
#[derive(Clone, Copy)]
enum Form {
    // That of JUnit.
    Junit,
    // A page of HTML.
    Html,
}

// The option that asks for a report of this form.
fn option_of(form: Form) -> &'static str {
    match form {
        Form::Junit => "--junit <FILE>",
        Form::Html => "--html <FILE>",
    }
}

// What each report of this form begins with.
fn head_of(form: Form) -> &'static str {
    match form {
        Form::Junit => JUNIT_HEAD,
        Form::Html => HTML_HEAD,
    }
}

// The text of a report.
fn text_of(told: &Told, form: Form) -> Result<Vec<u8>, AllocError> {
    match form {
        Form::Junit => told.junit(),
        Form::Html => told.html(),
    }
}

// Finds the file of a report.
fn open_report<'a, R: Files>(
    rt: &R,
    alloc: Global,
    path: &'a str,
    form: Form,
    files: &[&str],
    other: Option<&NamedReport<'_>>,
) -> Result<NamedReport<'a>, ReportProblem<'a>> {
    let other = match other {
        Some(report) => Some(&report.file),
        None => None,
    };
    let head = head_of(form).as_bytes();
    let fault = match ReportFile::open(rt, alloc, path, head, files, other) {
        Ok(file) => return Ok(NamedReport { path, file }),
        Err(Problem::Refused(refusal)) => {
            return Err(ReportProblem::Refused(path, option_of(form), refusal));
        }
        Err(Problem::NoMemory) => TextFault::NoMemory,
        Err(Problem::Unwritable) => TextFault::WriteFault(0),
    };
    Err(ReportProblem::Failed(ReportFault { alloc, path, fault }))
}

impl<'a> Reports<'a> {
    /// Removes the reports of an earlier test.
    pub(crate) fn clear<R: Files>(&self, rt: &R) -> Result<(), ReportFault<'a>> {
        self.clear_form(rt, Form::Junit)?;
        self.clear_form(rt, Form::Html)
    }

    // Removes the report of this form of an earlier test.
    fn clear_form<R: Files>(&self, rt: &R, form: Form) -> Result<(), ReportFault<'a>> {
        let Some(report) = self.report(form) else {
            return Ok(());
        };
        match report.file.clear(rt) {
            Ok(()) => Ok(()),
            Err(fault) => Err(self.fault_of(report, fault)),
        }
    }

    /// Writes the reports behind what was printed, those in files first. A report in a file that can't be written keeps
    /// no other one from being written. Returns the first fault.
    pub(crate) fn write<R: Files, O: TextOut>(
        &self,
        rt: &R,
        told: &mut Told,
        out: &mut O,
    ) -> Result<(), ReportFault<'a>>
        requires { (O.seen out.old).failed ≡ false }
        ensures { IsOk result → (O.seen out.new).failed ≡ false }
    {
        let junit = self.file_fault(rt, told, Form::Junit);
        let html = self.file_fault(rt, told, Form::Html);
        self.print(told, Form::Junit, out)?;
        self.print(told, Form::Html, out)?;
        match junit.or(html) {
            Some(fault) => Err(fault),
            None => Ok(()),
        }
    }

    // The report of this form, if the words ask for it.
    fn report(&self, form: Form) -> Option<&NamedReport<'a>> {
        match form {
            Form::Junit => self.junit.as_ref(),
            Form::Html => self.html.as_ref(),
        }
    }

    // Writes a report to its file, if it has one. Returns its fault, if there is one.
    fn file_fault<R: Files>(&self, rt: &R, told: &Told, form: Form) -> Option<ReportFault<'a>> {
        let report = self.report(form)?;
        if report.file.is_printed() {
            return None;
        }
        let Ok(text) = text_of(told, form) else {
            return Some(self.fault_of(report, TextFault::NoMemory));
        };
        match report.file.write(rt, text.as_slice()) {
            Ok(()) => None,
            Err(fault) => Some(self.fault_of(report, fault)),
        }
    }

    // Prints a report, if it is to be printed.
    fn print<O: TextOut>(
        &self,
        told: &mut Told,
        form: Form,
        out: &mut O,
    ) -> Result<(), ReportFault<'a>>
        requires { (O.seen out.old).failed ≡ false }
        ensures { IsOk result → (O.seen out.new).failed ≡ false }
    {
        let Some(report) = self.report(form) else {
            return Ok(());
        };
        if !report.file.is_printed() {
            return Ok(());
        }
        let Ok(text) = text_of(told, form) else {
            return Err(self.fault_of(report, TextFault::NoMemory));
        };
        match write_part(text.as_slice(), told, out) {
            Ok(()) => Ok(()),
            Err(fault) => Err(self.fault_of(report, fault)),
        }
    }

    // The fault of a report.
    fn fault_of(&self, report: &NamedReport<'a>, fault: TextFault) -> ReportFault<'a> {
        ReportFault {
            alloc: self.alloc,
            path: report.path,
            fault,
        }
    }
}

/// Writes why a test has no reports.
pub(crate) fn tell_problem<E: TextOut>(
    alloc: Global,
    problem: ReportProblem<'_>,
    err: &mut E,
) -> Status
    requires { (E.seen err.old).failed ≡ false }
    ensures { (result ≡ Status.Usage) ⊎ (result ≡ Status.Fault) }
{
    match problem {
        ReportProblem::Failed(fault) => tell_report(fault, err),
        ReportProblem::Refused(path, option, refusal) => {
            match value_reason(alloc, path, option, refusal_words(refusal)) {
                Ok(reason) => refuse_words(alloc, reason.as_str(), err),
                Err(_) => tell_fault(TextFault::NoMemory, err),
            }
        }
    }
}

// Why a report isn't written to a path.
fn refusal_words(refusal: Refusal) -> &'static str {
    match refusal {
        Refusal::Input => "the test reads this file",
        Refusal::Shared => "the other report is written to this file",
        Refusal::Other => "this file has something other than such a report in it",
        Refusal::Folder => "this is a folder",
        Refusal::Errors => "standard error is written to this file",
        Refusal::Beside =>
            "something other than a part of such a report is at this path with '.part' behind it",
    }
}

/// Writes the line of a report's fault, after the path if the file failed.
pub(crate) fn tell_report<E: TextOut>(report: ReportFault<'_>, err: &mut E) -> Status
    requires { (E.seen err.old).failed ≡ false }
    ensures { result ≡ Status.Fault }
{
    let TextFault::WriteFault(_) = report.fault else {
        return tell_fault(report.fault, err);
    };
    let Ok(path) = path_text(report.alloc, report.path) else {
        return tell_fault(TextFault::NoMemory, err);
    };
    match write_text(path.as_slice(), err) {
        Ok(()) => tell_fault(report.fault, err),
        Err(_) => Status::Fault,
    }
}

// A path as it is shown, and a colon.
fn path_text(alloc: Global, path: &str) -> Result<Vec<u8>, AllocError> {
    let mut text = Vec::new(alloc);
    push_shown(&mut text, path.as_bytes())?;
    text.extend_from_slice(b": ")?;
    Ok(text)
}

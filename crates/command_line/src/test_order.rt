//! The test of model files, over devices.

ghost use Rattle.std.specs.Prelude.{◌≡◌, ◌≢◌, ◌<◌, false};
ghost use Rattle.command_line.specs.Tests.{IsCounted, IsTestStatus, IsTestedStatus, are_colored};
ghost use Rattle.text_io.specs.Text.{OnlyOutFaults, is_write_fault};

use crate::test_reports::{Reports, open_reports, tell_problem, tell_report};
use command_words::{Coloring, TestForm, Testing, Translating};
use model_suites::{Board, Progress, Suite, SuiteForm, SuiteOrder, Told};
use outcome_trace::{Status, TextFault, TextOut, tell_fault, write_text};
use std::alloc::{AllocError, Global};
use std::rt::Files;
use std::sync::Wait;
use std::thread;
use std::thread::{Threads, join_mut};
use std::time::Clock;

/// Tests the models of files. Returns `Status::Succeeded` if all passed, `Status::Errored` if one failed or there is
/// none, `Status::Unended` if none failed and one is undecided, `Status::Refused` if a file has a fault, which is
/// written to `err`, `Status::Usage` if something could be lost at the path of a report, and `Status::Fault` if a
/// device failed or memory ran out. While models are explored, progress goes to `err` if the words ask for it. `colors`
/// is whether verdicts have colours if the words leave that open.
///
/// The reports of an earlier test are removed before any file is read. Models that are only listed have no reports.
pub fn obey_test<R: Files + Clock + Threads + Wait + Sync, O: TextOut, E: TextOut>(
    rt: &R,
    alloc: Global,
    testing: Testing<'_>,
    colors: bool,
    out: &mut O,
    err: &mut E,
) -> Status
    requires out { (O.seen out.old).failed ≡ false }
    requires err { (E.seen err.old).failed ≡ false }
    ensures whole { result ≢ Status.Fault → (O.seen out.new).failed ≡ false }
    ensures usage { result ≡ Status.Usage → out.new ≡ out.old }
    ensures status { IsTestStatus result }
{
    let reports = match open_reports(rt, alloc, &testing) {
        Ok(reports) => reports,
        Err(problem) => return tell_problem(alloc, problem, err),
    };
    match reports.clear(rt) {
        Ok(()) => test_files(rt, alloc, testing, colors, reports, out, err),
        Err(fault) => tell_report(fault, err),
    }
}

// Reads the files, and tests their models.
fn test_files<R: Files + Clock + Threads + Wait + Sync, O: TextOut, E: TextOut>(
    rt: &R,
    alloc: Global,
    testing: Testing<'_>,
    colors: bool,
    reports: Reports<'_>,
    out: &mut O,
    err: &mut E,
) -> Status
    requires out { (O.seen out.old).failed ≡ false }
    requires err { (E.seen err.old).failed ≡ false }
    ensures whole { result ≢ Status.Fault → (O.seen out.new).failed ≡ false }
    ensures status { IsTestedStatus result }
{
    let order = order_of(&testing, &reports, colors);
    let Ok(suite) = Suite::open(rt, alloc, order, testing.files.as_slice()) else {
        return tell_fault(TextFault::NoMemory, err);
    };
    if suite.faults().is_empty() {
        let jobs = job_count(rt, testing.jobs);
        let progress = Progress::new(alloc, rt, testing.progress);
        test_suite(rt, &suite, jobs, reports, out, progress, err)
    } else {
        refuse_suite(&suite, err)
    }
}

// The order of a suite, by the words.
fn order_of<'a>(testing: &Testing<'a>, reports: &Reports<'_>, colors: bool) -> SuiteOrder<'a> {
    SuiteOrder {
        filter: testing.filter,
        worlds: testing.worlds,
        memory: testing.memory,
        seconds: testing.seconds,
        total_seconds: testing.total_seconds,
        form: suite_form(testing.form),
        junit: reports.junit.is_some(),
        html: reports.html.is_some(),
        color: has_colors(testing.color, colors),
    }
}

// The form of a suite.
fn suite_form(form: TestForm) -> SuiteForm {
    match form {
        TestForm::Report => SuiteForm::Report,
        TestForm::List => SuiteForm::List,
        TestForm::Json => SuiteForm::Json,
        TestForm::Tap => SuiteForm::Tap,
    }
}

// Whether verdicts have colours.
fn has_colors(color: Coloring, colors: bool) -> bool
    ensures { result ≡ are_colored color colors }
{
    match color {
        Coloring::Auto => colors,
        Coloring::Always => true,
        Coloring::Never => false,
    }
}

// The number of models that are explored side by side: `asked`, or one for each processor if that is 0.
fn job_count<R: Threads>(rt: &R, asked: u64) -> usize
    ensures { 0 < asked → result ≡ asked }
{
    if asked > 0 {
        return asked as usize;
    }
    match thread::available_parallelism(rt) {
        Ok(processors) => processors.get().min(MOST_JOBS),
        Err(_) => 1,
    }
}

// The greatest number of models that are explored side by side if the words give no number.
const MOST_JOBS: usize = 64;

// Writes the faults of files.
fn refuse_suite<E: TextOut>(suite: &Suite<'_>, err: &mut E) -> Status
    requires { (E.seen err.old).failed ≡ false }
    ensures { result ≡ Status.Refused }
{
    let _ = write_text(suite.faults(), err);
    Status::Refused
}

// Tests the models of a suite without faults, `jobs` of them side by side.
fn test_suite<R: Files + Clock + Threads + Wait + Sync, O: TextOut, E: TextOut>(
    rt: &R,
    suite: &Suite<'_>,
    jobs: usize,
    reports: Reports<'_>,
    out: &mut O,
    progress: Progress,
    err: &mut E,
) -> Status
    requires out { (O.seen out.old).failed ≡ false }
    requires err { progress.failed ≡ false → (E.seen err.old).failed ≡ false }
    ensures whole { result ≢ Status.Fault → (O.seen out.new).failed ≡ false }
    ensures status { IsTestedStatus result }
{
    let mut told = suite.told();
    let mut progress = progress;
    match write_models(rt, suite, jobs, &mut told, out, &mut progress, err) {
        Ok(()) => end_suite(rt, suite, told, reports, out, progress, err),
        Err(fault) => progress.tell_fault(fault, err),
    }
}

// Tests the models, and writes the report of each as soon as those before it are written.
fn write_models<R: Clock + Threads + Wait + Sync, O: TextOut, E: TextOut>(
    rt: &R,
    suite: &Suite<'_>,
    jobs: usize,
    told: &mut Told,
    out: &mut O,
    progress: &mut Progress,
    err: &mut E,
) -> Result<(), TextFault>
    requires out { (O.seen out.old).failed ≡ false }
    requires err { progress.old.failed ≡ false → (E.seen err.old).failed ≡ false }
    ensures failed { (O.seen out.new).failed ≡ is_write_fault result }
    ensures only { OnlyOutFaults result }
    ensures err { progress.new.failed ≡ false → (E.seen err.new).failed ≡ false }
{
    let Ok(opening) = suite.opening() else {
        return Err(TextFault::NoMemory);
    };
    let jobs = jobs.min(suite.len());
    let Ok(board) = suite.board(jobs) else {
        return Err(TextFault::NoMemory);
    };
    match write_part(opening.as_slice(), told, out) {
        Ok(()) => write_jobs(rt, suite, &board, jobs, told, out, progress, err),
        Err(fault) => Err(fault),
    }
}

// The same, after the opening is written. This thread tests models, too, unless it shows progress.
fn write_jobs<R: Clock + Threads + Wait + Sync, O: TextOut, E: TextOut>(
    rt: &R,
    suite: &Suite<'_>,
    board: &Board,
    jobs: usize,
    told: &mut Told,
    out: &mut O,
    progress: &mut Progress,
    err: &mut E,
) -> Result<(), TextFault>
    requires out { (O.seen out.old).failed ≡ false }
    requires err { progress.old.failed ≡ false → (E.seen err.old).failed ≡ false }
    ensures failed { (O.seen out.new).failed ≡ is_write_fault result }
    ensures only { OnlyOutFaults result }
    ensures err { progress.new.failed ≡ false → (E.seen err.new).failed ≡ false }
{
    let threads = progress.threads(jobs);
    if threads == 0 {
        return write_tested(rt, suite, board, told, out, progress, err);
    }
    let mut others = || suite.help(rt, board, threads);
    let mut own = || -> Result<(), TextFault>
        requires { ((O.seen out.now).failed ≡ false) × (progress.now.failed ≡ false → (E.seen err.now).failed ≡ false) }
        ensures { ((O.seen out.exit.now).failed ≡ is_write_fault result) × (OnlyOutFaults result
            × (progress.exit.now.failed ≡ false → (E.seen err.exit.now).failed ≡ false)) }
    { write_tested(rt, suite, board, told, out, progress, err) };
    let (_, written) = join_mut(rt, &mut others, &mut own);
    written
}

// Writes the report of each model in its turn. If a write fails, no more models are taken.
fn write_tested<R: Clock + Wait, O: TextOut, E: TextOut>(
    rt: &R,
    suite: &Suite<'_>,
    board: &Board,
    told: &mut Told,
    out: &mut O,
    progress: &mut Progress,
    err: &mut E,
) -> Result<(), TextFault>
    requires out { (O.seen out.old).failed ≡ false }
    requires err { progress.old.failed ≡ false → (E.seen err.old).failed ≡ false }
    ensures failed { (O.seen out.new).failed ≡ is_write_fault result }
    ensures only { OnlyOutFaults result }
    ensures err { progress.new.failed ≡ false → (E.seen err.new).failed ≡ false }
{
    let written = write_each(rt, suite, board, told, out, progress, err);
    board.close();
    written
}

// Writes the report of each model in its turn.
fn write_each<R: Clock + Wait, O: TextOut, E: TextOut>(
    rt: &R,
    suite: &Suite<'_>,
    board: &Board,
    told: &mut Told,
    out: &mut O,
    progress: &mut Progress,
    err: &mut E,
) -> Result<(), TextFault>
    requires out { (O.seen out.old).failed ≡ false }
    requires err { progress.old.failed ≡ false → (E.seen err.old).failed ≡ false }
    ensures failed { (O.seen out.new).failed ≡ is_write_fault result }
    ensures only { OnlyOutFaults result }
    ensures err { progress.new.failed ≡ false → (E.seen err.new).failed ≡ false }
{
    for index in 0..suite.len() {
        suite.show(rt, board, index, progress, err);
        let Ok(text) = tell_next(rt, suite, board, told, index) else {
            return Err(TextFault::NoMemory);
        };
        match write_part(text.as_slice(), told, out) {
            Ok(()) => {}
            Err(fault) => return Err(fault),
        }
    }
    Ok(())
}

/// Writes a part of what is printed. A fault counts the bytes of the parts before it, too.
pub(crate) fn write_part<O: TextOut>(
    text: &[u8],
    told: &mut Told,
    out: &mut O,
) -> Result<(), TextFault>
    requires { (O.seen out.old).failed ≡ false }
    ensures failed { (O.seen out.new).failed ≡ is_write_fault result }
    ensures only { OnlyOutFaults result }
    ensures counted { IsCounted told.old.printed told.new.printed (O.seen out.old).contents (O.seen out.new).contents
        text.now result }
{
    match write_text(text, out) {
        Ok(()) => {
            told.printed = told.printed.saturating_add(text.len());
            Ok(())
        }
        Err(TextFault::WriteFault(written)) => {
            Err(TextFault::WriteFault(told.printed.saturating_add(written)))
        }
        Err(fault) => Err(fault),
    }
}

// The text that is printed as soon as a model is tested.
fn tell_next<R: Clock + Wait>(
    rt: &R,
    suite: &Suite<'_>,
    board: &Board,
    told: &mut Told,
    index: usize,
) -> Result<Vec<u8>, AllocError> {
    let tested = suite.tested(rt, board, index)?;
    suite.tell(told, tested)
}

// Writes what is printed after all models, and the reports that are asked for.
#[tactic(auto, using(crate::proofs::TestLemmas::suite_status))]
fn end_suite<R: Files, O: TextOut, E: TextOut>(
    rt: &R,
    suite: &Suite<'_>,
    told: Told,
    reports: Reports<'_>,
    out: &mut O,
    progress: Progress,
    err: &mut E,
) -> Status
    requires out { (O.seen out.old).failed ≡ false }
    requires err { progress.failed ≡ false → (E.seen err.old).failed ≡ false }
    ensures whole { result ≢ Status.Fault → (O.seen out.new).failed ≡ false }
    ensures status { IsTestedStatus result }
{
    let mut told = told;
    let mut progress = progress;
    let Ok(text) = suite.ending(&mut told) else {
        return progress.tell_fault(TextFault::NoMemory, err);
    };
    let Ok(missing) = suite.missing() else {
        return progress.tell_fault(TextFault::NoMemory, err);
    };
    progress.write(missing.as_slice(), err);
    match write_part(text.as_slice(), &mut told, out) {
        Ok(()) => match reports.write(rt, &mut told, out) {
            Ok(()) => told.status(),
            Err(_) if progress.failed => Status::Fault,
            Err(fault) => tell_report(fault, err),
        },
        Err(fault) => progress.tell_fault(fault, err),
    }
}

/// Prints the terms of the models of a file. Returns `Status::Succeeded`, `Status::Refused` if the file has a fault,
/// which is written to `err`, or `Status::Fault` if a device failed or memory ran out.
pub fn obey_terms<R: Clock + Files, O: TextOut, E: TextOut>(
    rt: &R,
    alloc: Global,
    translating: Translating<'_>,
    out: &mut O,
    err: &mut E,
) -> Status
    requires out { (O.seen out.old).failed ≡ false }
    requires err { (E.seen err.old).failed ≡ false }
    ensures whole { result ≢ Status.Fault → (O.seen out.new).failed ≡ false }
    ensures status { IsTestedStatus result }
{
    let files = [translating.file];
    let order = SuiteOrder {
        filter: None,
        worlds: 1,
        memory: 1,
        seconds: None,
        total_seconds: None,
        form: SuiteForm::Report,
        junit: false,
        html: false,
        color: false,
    };
    let Ok(suite) = Suite::open(rt, alloc, order, &files) else {
        return tell_fault(TextFault::NoMemory, err);
    };
    if suite.faults().is_empty() {
        write_terms(&suite, out, err)
    } else {
        refuse_suite(&suite, err)
    }
}

// Writes the terms of the models of a suite without faults.
fn write_terms<O: TextOut, E: TextOut>(suite: &Suite<'_>, out: &mut O, err: &mut E) -> Status
    requires out { (O.seen out.old).failed ≡ false }
    requires err { (E.seen err.old).failed ≡ false }
    ensures whole { result ≢ Status.Fault → (O.seen out.new).failed ≡ false }
    ensures status { IsTestedStatus result }
{
    let Ok(text) = suite.terms() else {
        return tell_fault(TextFault::NoMemory, err);
    };
    match write_text(text.as_slice(), out) {
        Ok(()) => Status::Succeeded,
        Err(fault) => tell_fault(fault, err),
    }
}

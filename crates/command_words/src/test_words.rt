//! The words that `test` and `terms` accept.

ghost use Rattle.std.specs.Prelude.{◌≡◌, codes, false, IfOk};
ghost use Rattle.clap.specs.Words.{app_of, rule_of, with_rule};
ghost use Rattle.clap.specs.declared.builder.command.Command.TheViews.{out-Command};
ghost use Rattle.command_words.specs.Words.{files_argument, terms_command, test_bounds, test_command, test_files};
ghost use Rattle.command_words.specs.Words.{file_argument, text_option, with_test_forms};

use crate::compare_words::file_argument;
use crate::help;
use crate::ranges::{JOBS, MODEL_WORLDS, SECONDS};
use crate::words::{memory_option, new_command, number_option, with_flag};
use clap::{Arg, ArgAction, Command};
use std::alloc::{AllocError, Global};

// The paths of files. At least one is required.
fn files_argument<'a>(alloc: Global) -> Arg<'a>
    ensures rule { rule_of result ≡ files_argument }
    ensures local { result.global ≡ false }
{
    Arg::new(alloc, "files")
        .value_name("FILE")
        .help(help::FILES)
        .required(true)
        .action(ArgAction::Append)
}

// An option that takes a text.
fn text_option<'a>(alloc: Global, name: &'a str, value: &'a str, help: &'a str) -> Arg<'a>
    ensures rule { rule_of result ≡ text_option name.entry.now }
    ensures local { result.global ≡ false }
{
    Arg::new(alloc, name)
        .long(name)
        .value_name(value)
        .help(help)
        .action(ArgAction::Set)
}

/// Adds an option that takes a text.
pub(crate) fn with_text<'a>(
    alloc: Global,
    command: Command<'a>,
    name: &'a str,
    value: &'a str,
    help: &'a str,
) -> Result<Command<'a>, AllocError>
    ensures shape { IfOk result (λ c. app_of c ≡ with_rule (app_of command.entry) (text_option name.entry.now)) }
    ensures local { IfOk result (λ c. (out-Command c).has_globals ≡ (out-Command command.entry).has_globals) }
{
    let option = text_option(alloc, name, value, help);
    command.arg(option)
}

// `test` with its files, the filter of their models, and the files to which reports are written.
fn test_files<'a>(alloc: Global) -> Result<Command<'a>, AllocError>
    ensures shape { IfOk result (λ c. app_of c ≡ test_files) }
    ensures local { IfOk result (λ c. (out-Command c).has_globals ≡ false) }
{
    let command = new_command(alloc, "test", help::TEST).arg(files_argument(alloc))?;
    let command = with_text(alloc, command, "filter", "TEXT", help::FILTER)?;
    let command = with_text(alloc, command, "junit", "FILE", help::JUNIT)?;
    with_text(alloc, command, "html", "FILE", help::HTML)
}

// `test` without its flags and `--color`.
fn test_bounds<'a>(alloc: Global) -> Result<Command<'a>, AllocError>
    ensures shape { IfOk result (λ c. app_of c ≡ test_bounds) }
    ensures local { IfOk result (λ c. (out-Command c).has_globals ≡ false) }
{
    let command = test_files(alloc)?;
    let command = command.arg(number_option(alloc, "worlds", help::MODEL_WORLDS, MODEL_WORLDS))?;
    let command = command.arg(memory_option(alloc))?;
    let seconds = number_option(alloc, "seconds", help::MODEL_SECONDS, SECONDS);
    let command = command.arg(seconds)?;
    let total = number_option(alloc, "total-seconds", help::TOTAL_SECONDS, SECONDS);
    let command = command.arg(total)?;
    command.arg(number_option(alloc, "jobs", help::JOBS, JOBS))
}

// Adds the flags of `test` for a form other than a report.
fn with_test_forms<'a>(alloc: Global, command: Command<'a>) -> Result<Command<'a>, AllocError>
    ensures shape { IfOk result (λ c. app_of c ≡ with_test_forms (app_of command.entry)) }
    ensures local { IfOk result (λ c. (out-Command c).has_globals ≡ (out-Command command.entry).has_globals) }
{
    let listed = with_flag(alloc, command, "list", help::LIST)?;
    let spelled = with_flag(alloc, listed, "json", help::JSON)?;
    with_flag(alloc, spelled, "tap", help::TAP)
}

/// `test` with all its arguments and options.
pub(crate) fn test_command<'a>(alloc: Global) -> Result<Command<'a>, AllocError>
    ensures shape { IfOk result (λ c. app_of c ≡ test_command) }
    ensures local { IfOk result (λ c. (out-Command c).has_globals ≡ false) }
{
    let command = with_test_forms(alloc, test_bounds(alloc)?)?;
    let command = with_flag(alloc, command, "progress", help::MODEL_PROGRESS)?;
    with_text(alloc, command, "color", "WHEN", help::COLOR)
}

/// `terms` with its argument.
pub(crate) fn terms_command<'a>(alloc: Global) -> Result<Command<'a>, AllocError>
    ensures shape { IfOk result (λ c. app_of c ≡ terms_command) }
    ensures local { IfOk result (λ c. (out-Command c).has_globals ≡ false) }
{
    let file = file_argument(alloc, "file", help::MODEL_FILE);
    new_command(alloc, "terms", help::TERMS).arg(file)
}

//! The words that `compare` accepts.

ghost use Rattle.std.specs.Prelude.{◌≡◌, false, IfOk};
ghost use Rattle.clap.specs.Words.{app_of, rule_of};
ghost use Rattle.clap.specs.declared.builder.command.Command.TheViews.{out-Command};
ghost use Rattle.command_words.specs.Words.{compare_command, compare_files, compare_options, file_argument};

use crate::help;
use crate::ranges::{ENTRIES, WORLDS};
use crate::words::{memory_option, new_command, number_option, with_flag, with_limits};
use clap::{Arg, ArgAction, Command};
use std::alloc::{AllocError, Global};

/// The path of a file. It must be given.
pub(crate) fn file_argument<'a>(alloc: Global, name: &'a str, help: &'a str) -> Arg<'a>
    ensures rule { rule_of result ≡ file_argument name.entry.now }
    ensures local { result.global ≡ false }
{
    Arg::new(alloc, name)
        .value_name("FILE")
        .help(help)
        .required(true)
        .action(ArgAction::Set)
}

// `compare` with its files and limits.
fn compare_files<'a>(alloc: Global) -> Result<Command<'a>, AllocError>
    ensures shape { IfOk result (λ c. app_of c ≡ compare_files) }
    ensures local { IfOk result (λ c. (out-Command c).has_globals ≡ false) }
{
    let first = file_argument(alloc, "first", help::FIRST);
    let command = new_command(alloc, "compare", help::COMPARE).arg(first)?;
    let command = command.arg(file_argument(alloc, "second", help::SECOND))?;
    with_limits(alloc, command, help::FEW)
}

// `compare` without its flags.
fn compare_options<'a>(alloc: Global) -> Result<Command<'a>, AllocError>
    ensures shape { IfOk result (λ c. app_of c ≡ compare_options) }
    ensures local { IfOk result (λ c. (out-Command c).has_globals ≡ false) }
{
    let command = compare_files(alloc)?;
    let command = command.arg(number_option(alloc, "worlds", help::WORLDS, WORLDS))?;
    let command = command.arg(number_option(alloc, "entries", help::ENTRIES, ENTRIES))?;
    command.arg(memory_option(alloc))
}

/// `compare` with all its arguments and options.
pub(crate) fn compare_command<'a>(alloc: Global) -> Result<Command<'a>, AllocError>
    ensures shape { IfOk result (λ c. app_of c ≡ compare_command) }
    ensures local { IfOk result (λ c. (out-Command c).has_globals ≡ false) }
{
    let command = compare_options(alloc)?;
    let command = with_flag(alloc, command, "all", help::ALL)?;
    with_flag(alloc, command, "json", help::JSON)
}

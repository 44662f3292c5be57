//! The words that the command line accepts.

ghost use Rattle.std.specs.Prelude.{◌≡◌, ◌<◌, ◌^◌, codes, false, IfOk};
ghost use Rattle.clap.specs.Words.{app_of, new_app, rule_of, with_rule};
ghost use Rattle.clap.specs.declared.builder.command.Command.TheViews.{out-Command};
ghost use Rattle.command_words.specs.Words.{claim_option, text_option, with_claims, with_marks};
ghost use Rattle.command_words.specs.Words.{check_command, explore_command, explore_options, flag, number_option};
ghost use Rattle.command_words.specs.Words.{bare_program, program, sample_options};
ghost use Rattle.command_words.specs.Words.{replay_command, run_command, run_options, sample_bounds, sample_command};
ghost use Rattle.command_words.specs.Words.{schedule_option, show_command, want_option, with_explore_forms, with_forms};
ghost use Rattle.command_words.specs.Words.{explore_bounds, memory_option, with_limits, with_run_forms};

use crate::compare_words::compare_command;
use crate::help;
use crate::help::{CommandHelp, LimitsHelp};
use crate::ranges::{
    BAND, BUDGET, COUNT, ENTRIES, MOVES, NumberRange, SECONDS, SEED, TIMES, WORKERS, WORLDS,
};
use crate::test_words::{terms_command, test_command, with_text};
use clap::{Arg, ArgAction, Command, value_parser};
use std::alloc::{AllocError, Global};

// The version that `--version` prints after the name.
const VERSION: &str = "0.1.0";

/// A command with its help, without arguments and options.
pub(crate) fn new_command<'a>(alloc: Global, name: &'a str, help: CommandHelp<'a>) -> Command<'a>
    ensures shape { app_of result ≡ new_app name.entry.now }
    ensures local { (out-Command result).has_globals ≡ false }
{
    let command = Command::new(alloc, name)
        .about(help.about)
        .after_help(help.after);
    match help.usage {
        Some(usage) => command.override_usage(usage),
        None => command,
    }
}

/// An option that takes a whole number of `range`.
pub(crate) fn number_option<'a>(
    alloc: Global,
    name: &'a str,
    help: &'a str,
    range: NumberRange,
) -> Arg<'a>
    requires least { range.least < 2 ^ 63 }
    requires most { range.most < 2 ^ 63 }
    ensures rule { rule_of result ≡ number_option name.entry.now range }
    ensures local { result.global ≡ false }
{
    Arg::new(alloc, name)
        .long(name)
        .value_name("N")
        .help(help)
        .action(ArgAction::Set)
        .value_parser(value_parser!(u64).range(range.least as i64..=range.most as i64))
}

// A flag, which takes no value.
fn flag<'a>(alloc: Global, name: &'a str, help: &'a str) -> Arg<'a>
    ensures rule { rule_of result ≡ flag name.entry.now }
    ensures local { result.global ≡ false }
{
    Arg::new(alloc, name)
        .long(name)
        .help(help)
        .action(ArgAction::SetTrue)
}

/// Adds a flag.
pub(crate) fn with_flag<'a>(
    alloc: Global,
    command: Command<'a>,
    name: &'a str,
    help: &'a str,
) -> Result<Command<'a>, AllocError>
    ensures shape { IfOk result (λ c. app_of c ≡ with_rule (app_of command.entry) (flag name.entry.now)) }
    ensures local { IfOk result (λ c. (out-Command c).has_globals ≡ (out-Command command.entry).has_globals) }
{
    let flag = flag(alloc, name, help);
    command.arg(flag)
}

// Adds the flag that asks for reasons.
fn with_reasons<'a>(alloc: Global, command: Command<'a>) -> Result<Command<'a>, AllocError>
    ensures shape { IfOk result (λ c. app_of c ≡ with_rule (app_of command.entry) (flag (codes "explain"))) }
    ensures local { IfOk result (λ c. (out-Command c).has_globals ≡ (out-Command command.entry).has_globals) }
{
    with_flag(alloc, command, "explain", help::EXPLAIN)
}

// Adds the flags of `replay` for a form other than a report.
fn with_forms<'a>(alloc: Global, command: Command<'a>) -> Result<Command<'a>, AllocError>
    ensures shape { IfOk result (λ c. app_of c ≡ with_forms (app_of command.entry)) }
    ensures local { IfOk result (λ c. (out-Command c).has_globals ≡ (out-Command command.entry).has_globals) }
{
    let command = with_flag(alloc, command, "timeline", help::TIMELINE)?;
    let command = with_flag(alloc, command, "svg", help::SVG)?;
    with_flag(alloc, command, "json", help::JSON)
}

// Adds the flags of `explore` other than `--explain`.
fn with_explore_forms<'a>(alloc: Global, command: Command<'a>) -> Result<Command<'a>, AllocError>
    ensures shape { IfOk result (λ c. app_of c ≡ with_explore_forms (app_of command.entry)) }
    ensures local { IfOk result (λ c. (out-Command c).has_globals ≡ (out-Command command.entry).has_globals) }
{
    let watched = with_flag(alloc, command, "progress", help::PROGRESS)?;
    let timed = with_flag(alloc, watched, "timeline", help::EXPLORE_TIMELINE)?;
    let valued = with_flag(alloc, timed, "json", help::JSON)?;
    let found = with_flag(alloc, valued, "first", help::FIRST_FINDING)?;
    with_flag(alloc, found, "ends", help::ENDS)
}

// Adds the flags of `run` for a form other than a report.
fn with_run_forms<'a>(alloc: Global, command: Command<'a>) -> Result<Command<'a>, AllocError>
    ensures shape { IfOk result (λ c. app_of c ≡ with_run_forms (app_of command.entry)) }
    ensures local { IfOk result (λ c. (out-Command c).has_globals ≡ (out-Command command.entry).has_globals) }
{
    let recorded = with_flag(alloc, command, "record", help::RECORD)?;
    let timed = with_flag(alloc, recorded, "timeline", help::RUN_TIMELINE)?;
    with_flag(alloc, timed, "json", help::JSON)
}

// The option that takes a schedule's text. It must be given.
fn schedule_option<'a>(alloc: Global) -> Arg<'a>
    ensures rule { rule_of result ≡ schedule_option }
    ensures local { result.global ≡ false }
{
    Arg::new(alloc, "schedule")
        .long("schedule")
        .value_name("TEXT")
        .help(help::SCHEDULE)
        .required(true)
        .action(ArgAction::Set)
}

/// The option that takes a number of bytes, with or without a unit.
pub(crate) fn memory_option<'a>(alloc: Global) -> Arg<'a>
    ensures rule { rule_of result ≡ memory_option }
    ensures local { result.global ≡ false }
{
    Arg::new(alloc, "memory")
        .long("memory")
        .value_name("BYTES")
        .help(help::MEMORY)
        .action(ArgAction::Set)
}

// The option that takes a wanted outcome of fiber 0. It can be given several times.
fn want_option<'a>(alloc: Global, help: &'a str) -> Arg<'a>
    ensures rule { rule_of result ≡ want_option }
    ensures local { result.global ≡ false }
{
    Arg::new(alloc, "want")
        .long("want")
        .value_name("OUTCOME")
        .help(help)
        .action(ArgAction::Append)
}

// An option that takes a claim. It can be given several times.
fn claim_option<'a>(alloc: Global, name: &'a str, help: &'a str) -> Arg<'a>
    ensures rule { rule_of result ≡ claim_option name.entry.now }
    ensures local { result.global ≡ false }
{
    Arg::new(alloc, name)
        .long(name)
        .value_name("CLAIM")
        .help(help)
        .action(ArgAction::Append)
}

// Adds the options that take claims.
fn with_claims<'a>(alloc: Global, command: Command<'a>) -> Result<Command<'a>, AllocError>
    ensures shape { IfOk result (λ c. app_of c ≡ with_claims (app_of command.entry)) }
    ensures local { IfOk result (λ c. (out-Command c).has_globals ≡ (out-Command command.entry).has_globals) }
{
    let always = claim_option(alloc, "always", help::ALWAYS);
    let command = command.arg(always)?;
    let never = claim_option(alloc, "never", help::NEVER);
    let command = command.arg(never)?;
    command.arg(claim_option(alloc, "reach", help::REACH))
}

// Adds the option for the marks that reports have, and the option for the only fiber that is reported.
fn with_marks<'a>(alloc: Global, command: Command<'a>) -> Result<Command<'a>, AllocError>
    ensures shape { IfOk result (λ c. app_of c ≡ with_marks (app_of command.entry)) }
    ensures local { IfOk result (λ c. (out-Command c).has_globals ≡ (out-Command command.entry).has_globals) }
{
    let marked = with_text(alloc, command, "marks", "MARKS", help::MARKS)?;
    with_text(alloc, marked, "only", "FIBER", help::ONLY)
}

/// Adds the options for the limits on fibers, refs and deferreds, and on the changes that a fiber makes to its own
/// cell.
pub(crate) fn with_limits<'a>(
    alloc: Global,
    command: Command<'a>,
    help: LimitsHelp<'a>,
) -> Result<Command<'a>, AllocError>
    ensures shape { IfOk result (λ c. app_of c ≡ with_limits (app_of command.entry)) }
    ensures local { IfOk result (λ c. (out-Command c).has_globals ≡ (out-Command command.entry).has_globals) }
{
    let fibers = number_option(alloc, "fibers", help.fibers, BAND);
    let command = command.arg(fibers)?;
    let refs = number_option(alloc, "refs", help.refs, BAND);
    let command = command.arg(refs)?;
    let deferreds = number_option(alloc, "deferreds", help.deferreds, BAND);
    let command = command.arg(deferreds)?;
    command.arg(number_option(alloc, "count", help::COUNT, COUNT))
}

fn check_command<'a>(alloc: Global) -> Result<Command<'a>, AllocError>
    ensures shape { IfOk result (λ c. app_of c ≡ check_command) }
    ensures local { IfOk result (λ c. (out-Command c).has_globals ≡ false) }
{
    let command = new_command(alloc, "check", help::CHECK);
    with_reasons(alloc, with_flag(alloc, command, "json", help::JSON)?)
}

fn show_command<'a>(alloc: Global) -> Result<Command<'a>, AllocError>
    ensures shape { IfOk result (λ c. app_of c ≡ show_command) }
    ensures local { IfOk result (λ c. (out-Command c).has_globals ≡ false) }
{
    with_reasons(alloc, new_command(alloc, "show", help::SHOW))
}

fn replay_command<'a>(alloc: Global) -> Result<Command<'a>, AllocError>
    ensures shape { IfOk result (λ c. app_of c ≡ replay_command) }
    ensures local { IfOk result (λ c. (out-Command c).has_globals ≡ false) }
{
    let command = new_command(alloc, "replay", help::REPLAY).arg(schedule_option(alloc))?;
    let command = with_limits(alloc, command, help::MANY)?;
    with_reasons(alloc, with_forms(alloc, command)?)
}

// `explore` with the options for its limits and bounds.
fn explore_bounds<'a>(alloc: Global) -> Result<Command<'a>, AllocError>
    ensures shape { IfOk result (λ c. app_of c ≡ explore_bounds) }
    ensures local { IfOk result (λ c. (out-Command c).has_globals ≡ false) }
{
    let command = with_limits(
        alloc,
        new_command(alloc, "explore", help::EXPLORE),
        help::FEW,
    )?;
    let command = command.arg(number_option(alloc, "worlds", help::WORLDS, WORLDS))?;
    let command = command.arg(number_option(alloc, "entries", help::ENTRIES, ENTRIES))?;
    command.arg(memory_option(alloc))
}

// `explore` without its flags and its options for claims and marks.
fn explore_options<'a>(alloc: Global) -> Result<Command<'a>, AllocError>
    ensures shape { IfOk result (λ c. app_of c ≡ explore_options) }
    ensures local { IfOk result (λ c. (out-Command c).has_globals ≡ false) }
{
    let command = explore_bounds(alloc)?;
    let command = command.arg(number_option(alloc, "seconds", help::SECONDS, SECONDS))?;
    command.arg(want_option(alloc, help::EXPLORE_WANT))
}

fn explore_command<'a>(alloc: Global) -> Result<Command<'a>, AllocError>
    ensures shape { IfOk result (λ c. app_of c ≡ explore_command) }
    ensures local { IfOk result (λ c. (out-Command c).has_globals ≡ false) }
{
    let claimed = with_claims(alloc, explore_options(alloc)?)?;
    let command = with_marks(alloc, claimed)?;
    with_reasons(alloc, with_explore_forms(alloc, command)?)
}

// `run` without its flags.
fn run_options<'a>(alloc: Global) -> Result<Command<'a>, AllocError>
    ensures shape { IfOk result (λ c. app_of c ≡ run_options) }
    ensures local { IfOk result (λ c. (out-Command c).has_globals ≡ false) }
{
    let workers = number_option(alloc, "workers", help::WORKERS, WORKERS);
    let command = new_command(alloc, "run", help::RUN).arg(workers)?;
    let command = with_limits(alloc, command, help::MANY)?;
    let command = command.arg(number_option(alloc, "budget", help::BUDGET, BUDGET))?;
    command.arg(number_option(alloc, "moves", help::MOVES, MOVES))
}

fn run_command<'a>(alloc: Global) -> Result<Command<'a>, AllocError>
    ensures shape { IfOk result (λ c. app_of c ≡ run_command) }
    ensures local { IfOk result (λ c. (out-Command c).has_globals ≡ false) }
{
    let command = run_options(alloc)?;
    with_reasons(alloc, with_run_forms(alloc, command)?)
}

// `sample` with its seed, its number of schedules, their entries, and the limits.
fn sample_bounds<'a>(alloc: Global) -> Result<Command<'a>, AllocError>
    ensures shape { IfOk result (λ c. app_of c ≡ sample_bounds) }
    ensures local { IfOk result (λ c. (out-Command c).has_globals ≡ false) }
{
    let seed = number_option(alloc, "seed", help::SEED, SEED);
    let command = new_command(alloc, "sample", help::SAMPLE).arg(seed)?;
    let command = command.arg(number_option(alloc, "times", help::TIMES, TIMES))?;
    let command = command.arg(number_option(alloc, "entries", help::ENTRIES, ENTRIES))?;
    with_limits(alloc, command, help::FEW)
}

// `sample` without its flag.
fn sample_options<'a>(alloc: Global) -> Result<Command<'a>, AllocError>
    ensures shape { IfOk result (λ c. app_of c ≡ sample_options) }
    ensures local { IfOk result (λ c. (out-Command c).has_globals ≡ false) }
{
    let command = sample_bounds(alloc)?;
    let command = command.arg(want_option(alloc, help::WANT))?;
    with_claims(alloc, command)
}

fn sample_command<'a>(alloc: Global) -> Result<Command<'a>, AllocError>
    ensures shape { IfOk result (λ c. app_of c ≡ sample_command) }
    ensures local { IfOk result (λ c. (out-Command c).has_globals ≡ false) }
{
    let command = sample_options(alloc)?;
    with_flag(alloc, command, "json", help::JSON)
}

// The command without its subcommands.
fn bare_program<'a>(alloc: Global) -> Command<'a>
    ensures { app_of result ≡ bare_program }
{
    new_command(alloc, "fiber_cli", help::PROGRAM)
        .version(VERSION)
        .subcommand_required(true)
}

/// The whole command: its subcommands with all their arguments and options.
pub fn all_words<'a>(alloc: Global) -> Result<Command<'a>, AllocError>
    ensures { IfOk result (λ c. app_of c ≡ program) }
{
    let program = bare_program(alloc);
    let check = check_command(alloc)?;
    let program = program.subcommand(check)?;
    let show = show_command(alloc)?;
    let program = program.subcommand(show)?;
    let replay = replay_command(alloc)?;
    let program = program.subcommand(replay)?;
    let explore = explore_command(alloc)?;
    let program = program.subcommand(explore)?;
    let run = run_command(alloc)?;
    let program = program.subcommand(run)?;
    let sample = sample_command(alloc)?;
    let program = program.subcommand(sample)?;
    let compare = compare_command(alloc)?;
    let program = program.subcommand(compare)?;
    let test = test_command(alloc)?;
    let program = program.subcommand(test)?;
    program.subcommand(terms_command(alloc)?)
}

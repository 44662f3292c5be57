//! The program: one command line over the standard streams.
//!
//! `command_line` obeys the words.
#![tactic(auto)]

use command_line::{HeardOutput, KeptInput, command, refuse_words};
use outcome_trace::{FromRead, TextFault, ToWrite, tell_fault};
use std::alloc::AllocError;
use std::env;
use std::env::VarError;
use std::io::{ErrorKind, IsTerminal};
use std::process::ExitCode;
use std::rt::Env;

// The message for words that aren't text, in `clap`'s terms. `clap` never gets such words.
const NOT_TEXT: &str = "invalid UTF-8 was detected in one or more arguments";

// Whether the environment variable `name` is set, and not to the empty text.
fn is_set<R: Env + Alloc>(rt: &R, name: &str) -> bool {
    match env::var(rt, name) {
        Ok(text) => !text.is_empty(),
        Err(VarError::NotPresent) => false,
        Err(_) => true,
    }
}

fn main(rt: HostRuntime) -> ExitCode {
    let mut input = KeptInput::new(rt.alloc(), FromRead::new(rt.stdin()));
    let mut out = ToWrite::new(rt.stdout());
    let mut err = HeardOutput::new(ToWrite::new(rt.stderr()));
    let words: Result<Vec<String>, AllocError> = match env::args(&rt) {
        Ok(words) => words.collect(rt.alloc()),
        Err(error) if error.kind() == ErrorKind::OutOfMemory => Err(AllocError),
        Err(_) => {
            let status = refuse_words(rt.alloc(), NOT_TEXT, &mut err);
            return ExitCode::from(status.code());
        }
    };
    let colors = rt.stdout().is_terminal() && !is_set(&rt, "NO_COLOR");
    let status = match words {
        Ok(words) => command(
            &rt,
            words.as_slice(),
            colors,
            &mut input,
            &mut out,
            &mut err,
        ),
        Err(_) => tell_fault(TextFault::NoMemory, &mut err),
    };
    ExitCode::from(status.code())
}

//! What a command line writes, and its status.

use command_line::{HeardOutput, KeptInput, command};
use outcome_trace::{FromRead, ToWrite};
use std::io::{Read, Write};
use std::rt::Files;
use std::sync::Wait;
use std::thread::Threads;
use std::time::Clock;

/// A replay that is long enough for short programs to end.
pub const LONG: &[&str] = &["fiber_cli", "replay", "--schedule", "0*99"];

/// The output of a command line, and its status.
#[derive(Drop)]
pub struct Answer {
    pub out: Vec<u8>,
    pub err: Vec<u8>,
    pub status: u8,
}

/// Runs a command line with this output. Returns what it writes to standard error, and its status.
pub fn told<
    R: AllocGlobal + Clock + Files + Threads + Wait + Sync,
    S: Read + Drop,
    T: Write + Drop,
>(rt: &R, words: &[&str], input: S, out: T) -> (Vec<u8>, u8) {
    let mut err = Vec::new(rt.alloc());
    let status = command(
        rt,
        words,
        false,
        &mut KeptInput::new(rt.alloc(), FromRead::new(input)),
        &mut ToWrite::new(out),
        &mut HeardOutput::new(ToWrite::new(&mut err)),
    );
    (err, status.code())
}

/// Runs a command line.
pub fn answered<R: AllocGlobal + Clock + Files + Threads + Wait + Sync, S: Read + Drop>(
    rt: &R,
    words: &[&str],
    input: S,
) -> Answer {
    let mut out = Vec::new(rt.alloc());
    let (err, status) = told(rt, words, input, &mut out);
    Answer { out, err, status }
}

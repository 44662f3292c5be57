//! Command lines with devices that give or take little at a time, and that fail.

use crate::answers::{LONG, answered, told};
use command_line::{HeardOutput, KeptInput, command};
use outcome_trace::{FromRead, ToWrite};
use std::alloc::{AllocError, Global};
use std::io;
use std::io::{ErrorKind, Read, Write};
use std::process::Abort;
use std::rt::Files;
use std::sync::Wait;
use std::test::Fail;
use std::thread::Threads;
use std::time::Clock;

const CHECK: &[&str] = &["fiber_cli", "check"];

const SHOW: &[&str] = &["fiber_cli", "show"];

const RUN: &[&str] = &["fiber_cli", "run"];

const RUN_WHY: &[&str] = &["fiber_cli", "run", "--explain"];

// Tests of a file without models, on one thread and on several.
const TEST_NOTHING: &[&str] = &["fiber_cli", "test", "--jobs", "1", "/dev/null"];

const TEST_BESIDE: &[&str] = &["fiber_cli", "test", "--jobs", "3", "/dev/null"];

const NOTHING_TESTED: &str = "0 models\n\n0 passed, 0 failed, 0 undecided\n";

// A replay whose schedule is the first line of the input.
const FROM_INPUT: &[&str] = &["fiber_cli", "replay", "--schedule", "-"];

// A reader that gives one byte for each read. After its last byte it fails if `fails` is set, and ends otherwise.
#[derive(Drop)]
struct Drops<'a> {
    left: &'a [u8],
    fails: bool,
}

impl Read for Drops<'_> {
    fn read(&mut self, buffer: &mut [u8]) -> io::Result<usize> {
        if buffer.is_empty() {
            return Ok(0);
        }
        let Some((first, rest)) = self.left.split_first() else {
            if self.fails {
                return Err(io::Error::from(ErrorKind::BrokenPipe));
            }
            return Ok(0);
        };
        buffer[0] = *first;
        self.left = rest;
        Ok(1)
    }
}

// A reader that is interrupted at each read.
#[derive(Drop)]
struct Restless;

impl Read for Restless {
    fn read(&mut self, _buffer: &mut [u8]) -> io::Result<usize> {
        Err(io::Error::from(ErrorKind::Interrupted))
    }
}

// A writer that takes one byte for each write until it is full, and then fails, or takes nothing.
#[derive(Drop)]
struct Narrow {
    room: usize,
    fails: bool,
}

impl Write for Narrow {
    fn write(&mut self, bytes: &[u8]) -> io::Result<usize> {
        if bytes.is_empty() {
            return Ok(0);
        }
        if self.room > 0 {
            self.room -= 1;
            return Ok(1);
        }
        if self.fails {
            return Err(io::Error::from(ErrorKind::BrokenPipe));
        }
        Ok(0)
    }

    fn flush(&mut self) -> io::Result<()> {
        Ok(())
    }
}

const PROGRAM: &str = "(uncancelable p (let a (canceled) (let b (say 1) (poll p (say 2)))))";

// The beginnings and ends of the words of `PROGRAM`.
const WORDS: [(usize, usize); 7] = [
    (1, 13),
    (17, 20),
    (24, 32),
    (35, 38),
    (42, 45),
    (50, 54),
    (58, 61),
];

// The refusal of the first `bytes` bytes of `PROGRAM`. A cut word is an unknown word, except `cancel`; another front
// ends too early.
fn cut_at(alloc: Global, bytes: usize) -> Result<String, AllocError> {
    for (begin, end) in WORDS {
        if begin < bytes && bytes < end && (begin, bytes) != (24, 30) {
            return format!(in alloc; "refused 6 UnknownWord at {begin}\n");
        }
    }
    format!(in alloc; "refused 5 End at {bytes}\n")
}

// Runs a command line with a reader, and compares all that it writes and its status.
fn expect_of<R: Abort + AllocGlobal + Clock + Files + Threads + Wait + Sync, S: Read + Drop>(
    rt: &R,
    words: &[&str],
    input: S,
    status: u8,
    out: &str,
    err: &str,
) {
    let answer = answered(rt, words, input);
    assert_eq!(rt;
        (answer.status, answer.out.as_slice(), answer.err.as_slice()),
        (status, out.as_bytes(), err.as_bytes())
    );
}

#[test]
fn refuses_each_front_of_a_program(rt: HostRuntime) -> Result<(), Fail> {
    for bytes in 0..PROGRAM.len() {
        let want = cut_at(rt.alloc(), bytes)?;
        let drops = Drops {
            left: &PROGRAM.as_bytes()[..bytes],
            fails: false,
        };
        expect_of(&rt, CHECK, drops, 65, want.as_str(), "");
    }
    Ok(())
}

#[test]
fn reads_an_input_byte_by_byte(rt: HostRuntime) {
    let drops = Drops {
        left: b"0*2\n(pure 7)",
        fails: false,
    };
    expect_of(&rt, FROM_INPUT, drops, 0, "fiber 0 succeeded 7\n", "");
}

#[test]
fn tells_failed_readers(rt: HostRuntime) {
    for words in [CHECK, SHOW, LONG, RUN, RUN_WHY, FROM_INPUT] {
        let drops = Drops {
            left: b"(pure 7)",
            fails: true,
        };
        expect_of(&rt, words, drops, 70, "", "fault 23 ReadFault\n");
    }
    expect_of(&rt, CHECK, Restless, 70, "", "fault 25 TurnBound\n");
    expect_of(&rt, FROM_INPUT, Restless, 70, "", "fault 25 TurnBound\n");
}

// Runs a command line whose output is full after `room` bytes, and checks the fault that it reports.
fn expect_write_fault<R: Abort + AllocGlobal + Clock + Files + Threads + Wait + Sync>(
    rt: &R,
    words: &[&str],
    room: usize,
    fails: bool,
) -> Result<(), AllocError> {
    let line = format!(in rt.alloc(); "fault 24 WriteFault {room}\n")?;
    let (err, status) = told(rt, words, b"(pure 7)".as_slice(), Narrow { room, fails });
    assert_eq!(rt; (status, err.as_slice()), (70, line.as_bytes()));
    Ok(())
}

// Words, and the number of bytes that they write.
const WRITING: &[(&[&str], usize)] = &[
    (CHECK, "ok size 1 nest 1 masks 0\n".len()),
    (SHOW, "(pure 7)\n".len()),
    (LONG, "fiber 0 succeeded 7\n".len()),
    (RUN, "fiber 0 succeeded 7\n".len()),
    (RUN_WHY, "fiber 0 succeeded 7\n".len()),
];

#[test]
fn tells_failed_writers_of_tests(rt: HostRuntime) -> Result<(), Fail> {
    for words in [TEST_NOTHING, TEST_BESIDE] {
        for room in 0..NOTHING_TESTED.len() {
            let line = format!(in rt.alloc(); "fault 24 WriteFault {room}\n")?;
            let narrow = Narrow { room, fails: true };
            let (err, status) = told(&rt, words, b"".as_slice(), narrow);
            assert_eq!(&rt; (status, err.as_slice()), (70, line.as_bytes()));
        }
    }
    Ok(())
}

// Tests whose reports are written to a full device, which is done last, or to a file that can't be created, which ends
// the test before it prints anything.
const UNREPORTED: &[(&[&str], &str, &str)] = &[
    (
        &["fiber_cli", "test", "--junit", "/dev/full", "/dev/null"],
        NOTHING_TESTED,
        "/dev/full: fault 24 WriteFault 0\n",
    ),
    (
        &["fiber_cli", "test", "--html", "/dev/full", "/dev/null"],
        NOTHING_TESTED,
        "/dev/full: fault 24 WriteFault 0\n",
    ),
    (
        &["fiber_cli", "test", "--html", "/dev/null/page", "/dev/null"],
        "",
        "/dev/null/page: fault 24 WriteFault 0\n",
    ),
];

#[test]
fn tells_reports_that_cannot_be_written(rt: HostRuntime) {
    for (words, out, err) in UNREPORTED {
        expect_of(&rt, words, b"".as_slice(), 70, out, err);
    }
}

#[test]
fn tells_failed_writers(rt: HostRuntime) -> Result<(), Fail> {
    for (words, bytes) in WRITING {
        for room in 0..*bytes {
            expect_write_fault(&rt, words, room, true)?;
            expect_write_fault(&rt, words, room, false)?;
        }
    }
    for room in [0, 10] {
        expect_write_fault(&rt, &["fiber_cli", "check", "--help"], room, true)?;
        expect_write_fault(&rt, &["fiber_cli", "check", "--help"], room, false)?;
    }
    Ok(())
}

#[test]
fn keeps_the_status_where_a_usage_fault_cannot_be_told(rt: HostRuntime) {
    let mut out = Vec::new(rt.alloc());
    let status = command(
        &rt,
        &["fiber_cli", "walk"],
        false,
        &mut KeptInput::new(rt.alloc(), FromRead::new(b"(pure 7)".as_slice())),
        &mut ToWrite::new(&mut out),
        &mut HeardOutput::new(ToWrite::new(Narrow {
            room: 3,
            fails: true,
        })),
    );
    assert_eq!(rt; (status.code(), out.len()), (64, 0));
}

//! Texts that are answered with reasons, on devices that fail.

use crate::limits::limits;
use outcome_trace::{CheckOrder, FromRead, ReplayOrder, Status, ToWrite};
use reasons::{ReplayReasons, TextReasons, obey_explained};
use std::alloc::Global;
use std::io;
use std::io::{ErrorKind, Read, Write};

// A writer that takes a number of bytes, and then fails.
#[derive(Drop)]
struct Narrow {
    room: usize,
}

impl Write for Narrow {
    fn write(&mut self, bytes: &[u8]) -> io::Result<usize> {
        if bytes.is_empty() {
            return Ok(0);
        }
        if self.room == 0 {
            return Err(io::Error::from(ErrorKind::BrokenPipe));
        }
        self.room -= 1;
        Ok(1)
    }

    fn flush(&mut self) -> io::Result<()> {
        Ok(())
    }
}

// A reader that fails at each read.
#[derive(Drop)]
struct Broken;

impl Read for Broken {
    fn read(&mut self, _buffer: &mut [u8]) -> io::Result<usize> {
        Err(io::Error::from(ErrorKind::BrokenPipe))
    }
}

// What is written to the last device if the output fails after `room` bytes, and the status.
fn told_of(alloc: Global, room: usize) -> (Vec<u8>, Status) {
    let mut err = Vec::new(alloc);
    let status = obey_explained(
        alloc,
        &CheckOrder,
        &TextReasons,
        &mut FromRead::new(b"(pur 1)" as &[u8]),
        &mut ToWrite::new(Narrow { room }),
        &mut ToWrite::new(&mut err),
    );
    (err, status)
}

#[test]
fn a_failed_write_is_reported_without_reasons(rt: HostRuntime) {
    let (told, status) = told_of(rt.alloc(), 5);
    assert_eq!(rt; told.as_slice(), b"fault 24 WriteFault 5\n" as &[u8]);
    assert_eq!(rt; status, Status::Fault);
}

#[test]
fn a_failed_read_is_reported_without_reasons(rt: HostRuntime) {
    let mut out = Vec::new(rt.alloc());
    let mut err = Vec::new(rt.alloc());
    let status = obey_explained(
        rt.alloc(),
        &CheckOrder,
        &TextReasons,
        &mut FromRead::new(Broken),
        &mut ToWrite::new(&mut out),
        &mut ToWrite::new(&mut err),
    );
    assert_eq!(rt; out.len(), 0);
    assert_eq!(rt; err.as_slice(), b"fault 23 ReadFault\n" as &[u8]);
    assert_eq!(rt; status, Status::Fault);
}

// Whether the answer with reasons is the answer without, if the last device fails after `room` bytes.
fn is_answered(alloc: Global, room: usize) -> bool {
    let mut out = Vec::new(alloc);
    let status = obey_explained(
        alloc,
        &CheckOrder,
        &TextReasons,
        &mut FromRead::new(b"(pur 1)" as &[u8]),
        &mut ToWrite::new(&mut out),
        &mut ToWrite::new(Narrow { room }),
    );
    status == Status::Refused && out.as_slice() == b"refused 6 UnknownWord at 1\n".as_slice()
}

#[test]
fn a_last_device_that_fails_changes_nothing(rt: HostRuntime) {
    for room in 0..40usize {
        assert!(rt; is_answered(rt.alloc(), room));
    }
}

// The answer of a replay, and its reasons.
fn replayed(alloc: Global, text: &str) -> (Vec<u8>, Vec<u8>, Status) {
    let order = ReplayOrder {
        schedule: &[0, 0, 0, 0],
        limits: limits(16),
    };
    let reasons = ReplayReasons {
        schedule: &[0, 0, 0, 0],
        limits: limits(16),
    };
    let mut out = Vec::new(alloc);
    let mut err = Vec::new(alloc);
    let status = obey_explained(
        alloc,
        &order,
        &reasons,
        &mut FromRead::new(text.as_bytes()),
        &mut ToWrite::new(&mut out),
        &mut ToWrite::new(&mut err),
    );
    (out, err, status)
}

// Holds with every request for memory refused in turn: a refused request of the answer is reported; after a refused
// request of the reasons, the answer is the same, without reasons.
#[test]
fn reasons_are_left_out_where_memory_runs_out(rt: HostRuntime) {
    let (out, err, status) = replayed(rt.alloc(), "(deferred d (await d))");
    if status == Status::Unended {
        assert_eq!(rt; out.as_slice(), b"fiber 0 unended\n" as &[u8]);
        assert!(rt;
            err.is_empty()
                || err.as_slice()
                    == b"fiber 0 waits for deferred 0, which nobody completes\n".as_slice()
        );
    } else {
        assert_eq!(rt; status, Status::Fault);
        assert_eq!(rt; out.len(), 0);
    }
}

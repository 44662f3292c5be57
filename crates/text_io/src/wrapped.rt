//! Any reader and any writer, as a device.

ghost use Rattle.std.specs.Prelude.{◌≡◌, ◌↔◌, ◌||◌, ◌+◌, ◌-◌, ◌<◌, ◌^◌, ℕ, Option, List, Result, false};
ghost use Rattle.std.specs.Io.{ReadsAtMost, WritesAtMost};
ghost use Rattle.std.specs.IoError.{error_kind};
ghost use Rattle.std.specs.Io.KnownBytes.{ReadConsumes, WriteAppends};
ghost use Rattle.std.specs.declared.io.Error.{Error};
ghost use Rattle.text_io.specs.Device.{found_end, read_failed, write_failed};
ghost use Rattle.text_io.specs.Devices.{reader, writer};
ghost use Rattle.text_io.specs.Wrapped.{IsToldRead, IsToldWrite, has_found_end, read_has_failed, reader_of};
ghost use Rattle.text_io.specs.Wrapped.{reads_of, write_has_failed, writer_of};

use crate::device::{ReadError, TextIn, TextOut, WriteFailed};
use std::io;
use std::io::{ErrorKind, Read, Write};

/// A reader of bytes. Each `Read` is one. Which results it can give is left open here, so a contract about them names
/// the reader.
pub trait Source {
    // The bytes that reads will give from here on, if they are known.
    ghost remaining: { Self → Option (List ℕ) };

    // The results that one read can give, by the reader before and after it, and the buffer as the read left it.
    ghost answers: { Self → Self → Result ℕ Error → List ℕ → Type 0 };

    /// One read into the front of the buffer. Returns the number of bytes.
    fn ask(&mut self, buffer: &mut [u8]) -> io::Result<usize>
        ensures bound { ReadsAtMost result buffer.new }
        ensures bytes { ReadConsumes (remaining self.old) (remaining self.new) result buffer.new }
        ensures answered { answers self.old self.new result buffer.new };
}

impl<R: Read> Source for R {
    ghost remaining = { R.remaining };

    ghost answers = { λ old new result bytes. ReadConsumes (R.remaining old) (R.remaining new) result bytes };

    fn ask(&mut self, buffer: &mut [u8]) -> io::Result<usize> {
        self.read(buffer)
    }
}

/// A writer of bytes. Each `Write` is one. Which results it can give is left open here, so a contract about them names
/// the writer.
pub trait Sink {
    // The bytes that were written, if they are known.
    ghost contents: { Self → Option (List ℕ) };

    // The results that one write of these bytes can give, by the writer before and after it.
    ghost answers: { Self → Self → Result ℕ Error → List ℕ → Type 0 };

    /// One write of the first of these bytes. Returns how many it took.
    fn give(&mut self, bytes: &[u8]) -> io::Result<usize>
        ensures bound { WritesAtMost result bytes.now }
        ensures bytes { WriteAppends (contents self.old) (contents self.new) result bytes.now }
        ensures answered { answers self.old self.new result bytes.now };
}

impl<W: Write> Sink for W {
    ghost contents = { W.contents };

    ghost answers = { λ old new result bytes. WriteAppends (W.contents old) (W.contents new) result bytes };

    fn give(&mut self, bytes: &[u8]) -> io::Result<usize> {
        self.write(bytes)
    }
}

// The meaning of a reader's error: an interrupted read can be tried again, and any other error is a failure.
fn read_error(error: &io::Error) -> ReadError
    ensures { (result ≡ ReadError.Interrupted) ↔ (error_kind error.now ≡ ErrorKind.Interrupted) }
{
    match error.kind() {
        ErrorKind::Interrupted => ReadError::Interrupted,
        _ => ReadError::Failed,
    }
}

/// Any reader, as a device. The device keeps whether a read has failed, and whether one has found the end, and counts
/// the reads.
#[derive(Drop)]
pub struct FromRead<R> {
    inner: R,
    failed: bool,
    ended: bool,
    reads: u64,
}

impl<R> FromRead<R> {
    /// A device for this reader, with no reads made.
    pub fn new(inner: R) -> FromRead<R>
        ensures reader { reader_of result ≡ inner }
        ensures healthy { read_has_failed result ≡ false }
        ensures open { has_found_end result ≡ false }
        ensures unread { reads_of result ≡ 0 }
    {
        FromRead {
            inner,
            failed: false,
            ended: false,
            reads: 0,
        }
    }
}

impl<R: Source> TextIn for FromRead<R> {
    ghost seen = { λ d. reader (R.remaining (reader_of d)) (read_has_failed d) (has_found_end d) (reads_of d) };

    /// Makes one read into this buffer, and returns its count. An error is either an interruption or, if it is any
    /// other, a failure.
    fn read_some(&mut self, buffer: &mut [u8]) -> Result<usize, ReadError>
        requires healthy { read_has_failed self.old ≡ false }
        requires countable { reads_of self.old < 2 ^ 64 - 1 }
        ensures bound { ReadsAtMost result buffer.new }
        ensures bytes { ReadConsumes (R.remaining (reader_of self.old)) (R.remaining (reader_of self.new)) result
            buffer.new }
        ensures failed { read_has_failed self.new ≡ read_failed result }
        ensures ended { has_found_end self.new ≡ (has_found_end self.old || found_end result buffer.new) }
        ensures counted { reads_of self.new ≡ reads_of self.old + 1 }
        ensures told { IsToldRead (R.answers (reader_of self.old) (reader_of self.new)) buffer.new result }
    {
        self.reads += 1;
        match self.inner.ask(buffer) {
            Ok(count) => {
                self.ended |= count == 0 && !buffer.is_empty();
                Ok(count)
            }
            Err(error) => match read_error(&error) {
                ReadError::Interrupted => Err(ReadError::Interrupted),
                ReadError::Failed => {
                    self.failed = true;
                    Err(ReadError::Failed)
                }
            },
        }
    }
}

/// Any writer, as a device. The device keeps whether a write has failed.
#[derive(Drop)]
pub struct ToWrite<W> {
    inner: W,
    failed: bool,
}

impl<W> ToWrite<W> {
    /// A device for this writer, with no writes made.
    pub fn new(inner: W) -> ToWrite<W>
        ensures writer { writer_of result ≡ inner }
        ensures healthy { write_has_failed result ≡ false }
    {
        ToWrite {
            inner,
            failed: false,
        }
    }
}

impl<W: Sink> TextOut for ToWrite<W> {
    ghost seen = { λ d. writer (W.contents (writer_of d)) (write_has_failed d) };

    /// Makes one write of these bytes, and returns its count. Any error is a failure.
    fn write_some(&mut self, bytes: &[u8]) -> Result<usize, WriteFailed>
        requires { write_has_failed self.old ≡ false }
        ensures bound { WritesAtMost result bytes.now }
        ensures bytes { WriteAppends (W.contents (writer_of self.old)) (W.contents (writer_of self.new)) result
            bytes.now }
        ensures failed { write_has_failed self.new ≡ write_failed result bytes.now }
        ensures told { IsToldWrite (W.answers (writer_of self.old) (writer_of self.new)) bytes.now result }
    {
        match self.inner.give(bytes) {
            Ok(count) => {
                self.failed = count == 0 && !bytes.is_empty();
                Ok(count)
            }
            Err(_) => {
                self.failed = true;
                Err(WriteFailed)
            }
        }
    }
}

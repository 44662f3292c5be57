//! Devices that keep what was read from them, and whether a write to them has failed.

ghost use Rattle.std.specs.Prelude.{◌≡◌, ◌⊎◌, ◌||◌, ◌+◌, ◌-◌, ◌<◌, ◌^◌, ◌++◌, [], IfOk, false, take};
ghost use Rattle.std.specs.Io.{ReadsAtMost, WritesAtMost};
ghost use Rattle.std.specs.Io.KnownBytes.{ReadConsumes, WriteAppends};
ghost use Rattle.command_line.specs.KeptDevices.{input_of, text_of};
ghost use Rattle.text_io.specs.Device.{found_end, read_failed, write_failed};

use outcome_trace::{ReadError, TextIn, TextOut, WriteFailed};
use std::alloc::Global;

/// An input that keeps the bytes that were read from it. It keeps none from then on if memory runs out for them.
#[derive(Drop)]
pub struct KeptInput<I> {
    inner: I,
    text: Vec<u8>,
    whole: bool,
}

impl<I> KeptInput<I> {
    /// Keeps what is read from this input.
    pub fn new(alloc: Global, inner: I) -> KeptInput<I>
        ensures input { input_of result ≡ inner }
        ensures nothing { text_of result ≡ [] }
    {
        KeptInput {
            inner,
            text: Vec::new(alloc),
            whole: true,
        }
    }

    /// The bytes that were read, or none if memory ran out for them.
    pub fn text(&self) -> &[u8]
        ensures { result.now ≡ text_of self.now }
    {
        self.text.as_slice()
    }

    // Keeps these bytes, too.
    fn keep(&mut self, bytes: &[u8])
        ensures input { input_of self.new ≡ input_of self.old }
        ensures kept { (text_of self.new ≡ text_of self.old ++ bytes.now) ⊎ (text_of self.new ≡ []) }
    {
        if !self.whole || self.text.extend_from_slice(bytes).is_err() {
            self.whole = false;
            self.text.clear();
        }
    }
}

impl<I: TextIn> TextIn for KeptInput<I> {
    ghost seen = { λ d. I.seen (input_of d) };

    /// Makes one read of the input into this buffer, and keeps its bytes.
    fn read_some(&mut self, buffer: &mut [u8]) -> Result<usize, ReadError>
        requires healthy { (I.seen (input_of self.old)).failed ≡ false }
        requires countable { (I.seen (input_of self.old)).reads < 2 ^ 64 - 1 }
        ensures bound { ReadsAtMost result buffer.new }
        ensures bytes { ReadConsumes (I.seen (input_of self.old)).remaining (I.seen (input_of self.new)).remaining
            result buffer.new }
        ensures failed { (I.seen (input_of self.new)).failed ≡ read_failed result }
        ensures ended { (I.seen (input_of self.new)).ended ≡
            ((I.seen (input_of self.old)).ended || found_end result buffer.new) }
        ensures counted { (I.seen (input_of self.new)).reads ≡ (I.seen (input_of self.old)).reads + 1 }
        ensures kept { IfOk result (λ count. (text_of self.new ≡ text_of self.old ++ take count buffer.new) ⊎
            (text_of self.new ≡ [])) }
    {
        match self.inner.read_some(&mut *buffer) {
            Ok(count) => {
                self.keep(&buffer[..count]);
                Ok(count)
            }
            Err(error) => Err(error),
        }
    }
}

/// An output that keeps whether a write has failed.
#[derive(Drop)]
pub struct HeardOutput<E: TextOut> {
    /// The output.
    pub inner: E,
    failed: bool,
    ghost told: { failed ≡ (E.seen inner).failed },
}

impl<E: TextOut> HeardOutput<E> {
    /// Keeps whether a write to this output fails. No write has failed before.
    pub fn new(inner: E) -> HeardOutput<E>
        requires { (E.seen inner).failed ≡ false }
        ensures { result.inner ≡ inner }
    {
        HeardOutput {
            inner,
            failed: false,
        }
    }

    /// Whether a write has failed.
    pub fn has_failed(&self) -> bool
        ensures { result ≡ (E.seen self.now.inner).failed }
    {
        self.failed
    }
}

impl<E: TextOut> TextOut for HeardOutput<E> {
    ghost seen = { λ d. E.seen d.inner };

    /// Makes one write to the output.
    fn write_some(&mut self, bytes: &[u8]) -> Result<usize, WriteFailed>
        requires { (E.seen self.old.inner).failed ≡ false }
        ensures bound { WritesAtMost result bytes.now }
        ensures bytes { WriteAppends (E.seen self.old.inner).contents (E.seen self.new.inner).contents
            result bytes.now }
        ensures failed { (E.seen self.new.inner).failed ≡ write_failed result bytes.now }
    {
        let written = self.inner.write_some(bytes);
        self.failed = is_failure(written, bytes);
        written
    }
}

// Whether a write of these bytes has failed.
fn is_failure(written: Result<usize, WriteFailed>, bytes: &[u8]) -> bool
    ensures { result ≡ write_failed written bytes.now }
{
    match written {
        Ok(count) => count == 0 && !bytes.is_empty(),
        Err(_) => true,
    }
}

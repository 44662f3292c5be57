//! Devices that a text is read from and written to.

ghost use Rattle.std.specs.Prelude.{◌≡◌, ◌||◌, ◌+◌, ◌-◌, ◌<◌, ◌^◌, false};
ghost use Rattle.std.specs.Io.{ReadsAtMost, WritesAtMost};
ghost use Rattle.std.specs.Io.KnownBytes.{ReadConsumes, WriteAppends};
ghost use Rattle.text_io.specs.Device.{found_end, read_failed, write_failed};
ghost use Rattle.text_io.specs.Devices.{Reader, Writer};

/// Why a read gave no count.
#[derive(Clone, Copy, Debug, PartialEq, Eq)]
pub enum ReadError {
    /// The read was interrupted, and can be tried again.
    Interrupted,
    /// The device has failed.
    Failed,
}

/// Why a write gave no count: the device has failed, or was interrupted, which counts as a failure.
#[derive(Clone, Copy, Debug, PartialEq, Eq)]
pub struct WriteFailed;

/// A device that a text is read from.
pub trait TextIn {
    // What contracts see of the device: the bytes that reads will give from here on, if they are known, whether a read
    // has failed or has found the end of the input, and the number of reads.
    ghost seen: { Self → Reader };

    /// One read into the front of the buffer. Returns the number of bytes: 0 at the end of the input, or if the buffer
    /// is empty.
    fn read_some(&mut self, buffer: &mut [u8]) -> Result<usize, ReadError>
        requires healthy { (seen self.old).failed ≡ false }
        requires countable { (seen self.old).reads < 2 ^ 64 - 1 }
        ensures bound { ReadsAtMost result buffer.new }
        ensures bytes { ReadConsumes (seen self.old).remaining (seen self.new).remaining result buffer.new }
        ensures failed { (seen self.new).failed ≡ read_failed result }
        ensures ended { (seen self.new).ended ≡ ((seen self.old).ended || found_end result buffer.new) }
        ensures counted { (seen self.new).reads ≡ (seen self.old).reads + 1 };
}

/// A device that a text is written to.
pub trait TextOut {
    // What contracts see of the device: the bytes that were written, if they are known, and whether a write has failed.
    // A write that takes none of some bytes has failed.
    ghost seen: { Self → Writer };

    /// One write of the first of these bytes. Returns how many it took.
    fn write_some(&mut self, bytes: &[u8]) -> Result<usize, WriteFailed>
        requires { (seen self.old).failed ≡ false }
        ensures bound { WritesAtMost result bytes.now }
        ensures bytes { WriteAppends (seen self.old).contents (seen self.new).contents result bytes.now }
        ensures failed { (seen self.new).failed ≡ write_failed result bytes.now };
}

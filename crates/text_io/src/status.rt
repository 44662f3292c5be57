//! The exit statuses of the program.

ghost use Rattle.std.specs.Prelude.{◌≡◌};
ghost use Rattle.text_io.specs.Status.{code_of};

/// The exit statuses of the program, all of them.
#[derive(Clone, Copy, PartialEq, Eq, Debug)]
pub enum Status {
    /// 0: fiber 0 succeeded, a text was checked or shown, or help was asked for.
    Succeeded = 0,
    /// 1: fiber 0 errored.
    Errored = 1,
    /// 2: fiber 0 was canceled.
    Canceled = 2,
    /// 3: fiber 0 hasn't ended.
    Unended = 3,
    /// 64: the words or the schedule are wrong.
    Usage = 64,
    /// 65: the text is refused.
    Refused = 65,
    /// 70: a run or a device failed, or memory ran out.
    Fault = 70,
}

impl Status {
    /// The exit status.
    pub fn code(self) -> u8
        ensures { result ≡ code_of self }
    {
        self as u8
    }
}

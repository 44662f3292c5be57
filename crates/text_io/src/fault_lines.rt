//! The lines that report a fault of a device or of a schedule's text. The functions here allocate no memory, so even a
//! fault of memory can be reported.

ghost use Rattle.std.specs.Prelude.{◌≡◌, ◌≤◌, length};
ghost use Rattle.text_io.specs.FaultLines.{fault_line, schedule_line, told};

use crate::fault::TextFault;
use arrayvec::ArrayString;
use itoa::Buffer;

// The greatest length of a line: the words of a bad schedule, the 20 digits of the greatest place, and a line feed.
const LONGEST: usize = 42;

/// The line of a text's fault.
pub(crate) fn fault_line(fault: TextFault) -> ArrayString<LONGEST>
    ensures { result.bytes ≡ fault_line fault }
{
    match fault {
        TextFault::NoMemory => words("fault 20 NoMemory\n"),
        TextFault::ReadFault => words("fault 23 ReadFault\n"),
        TextFault::WriteFault(written) => numbered("fault 24 WriteFault ", written),
        TextFault::TurnBound => words("fault 25 TurnBound\n"),
    }
}

/// The line of a schedule's text whose first bad item has this place.
pub(crate) fn schedule_line(place: usize) -> ArrayString<LONGEST>
    ensures { result.bytes ≡ schedule_line place }
{
    numbered("fault 27 BadSchedule ", place)
}

fn words(words: &str) -> ArrayString<LONGEST>
    requires { length words.now ≤ LONGEST }
    ensures { result.bytes ≡ words.now }
{
    let mut line = ArrayString::new();
    line.push_str(words);
    line
}

// Words, a number and a line feed.
fn numbered(words: &str, number: usize) -> ArrayString<LONGEST>
    requires { length words.now ≤ 21 }
    ensures { result.bytes ≡ told words.now number }
{
    let mut digits = Buffer::new();
    let mut line = ArrayString::new();
    line.push_str(words);
    line.push_str(digits.format(number));
    line.push_str("\n");
    line
}

//! The reports of faults.

ghost use Rattle.std.specs.Prelude.{◌≡◌, false};
ghost use Rattle.text_io.specs.FaultLines.{fault_line};
ghost use Rattle.text_io.specs.Telling.{RefusesSchedule, TellsResult, Told, status_of};

use crate::device::TextOut;
use crate::fault::TextFault;
use crate::fault_lines::{fault_line, schedule_line};
use crate::schedule::ScheduleError;
use crate::status::Status;
use crate::text::write_text;

/// Writes the line of a fault. Allocates no memory. If this device fails too, nothing more is written.
pub fn tell_fault<E: TextOut>(fault: TextFault, err: &mut E) -> Status
    requires { (E.seen err.old).failed ≡ false }
    ensures told { Told (fault_line fault) (E.seen err.old) (E.seen err.new) }
    ensures status { result ≡ Status.Fault }
{
    let _ = write_text(fault_line(fault).as_str().as_bytes(), err);
    Status::Fault
}

/// The status of a result. Writes the line of its fault, if it is one.
pub fn status_of<E: TextOut>(outcome: Result<Status, TextFault>, err: &mut E) -> Status
    requires { (E.seen err.old).failed ≡ false }
    ensures told { TellsResult outcome (E.seen err.old) (E.seen err.new) }
    ensures status { result ≡ status_of outcome }
{
    match outcome {
        Ok(status) => status,
        Err(fault) => tell_fault(fault, err),
    }
}

/// Reports that a schedule's text is bad, or that there was no memory for its entries.
pub fn refuse_schedule<E: TextOut>(error: ScheduleError, err: &mut E) -> Status
    requires { (E.seen err.old).failed ≡ false }
    ensures { RefusesSchedule error (E.seen err.old) (E.seen err.new) result }
{
    let ScheduleError::BadSchedule(place) = error else {
        return tell_fault(TextFault::NoMemory, err);
    };
    let _ = write_text(schedule_line(place).as_str().as_bytes(), err);
    Status::Usage
}

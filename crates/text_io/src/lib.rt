//! Input and output of texts: devices, whole texts, the texts of schedules, and the reports of faults.
//!
//! The crate uses the standard library, and the kit's `arrayvec`, `itoa` and `thiserror`. The crate promises that a
//! text is read whole or its fault is reported, that a schedule's text is accepted exactly if it is well formed, and
//! otherwise refused with the place of its first bad item, and that what is written is exactly the text, or as much of
//! its beginning as the device took, or the line of the fault.
#![tactic(auto)]

mod device;
mod fault;
mod fault_lines;
mod schedule;
mod schedule_items;
mod shown;
mod status;
mod telling;
mod text;
mod wrapped;

pub use device::{ReadError, TextIn, TextOut, WriteFailed};
pub use fault::TextFault;
pub use schedule::{MOST_ENTRIES, ScheduleError, read_schedule};
pub use schedule_items::schedule_text;
pub use shown::push_shown;
pub use status::Status;
pub use telling::{refuse_schedule, status_of, tell_fault};
pub use text::{TEXT_BOUND, read_text, write_text};
pub use wrapped::{FromRead, Sink, Source, ToWrite};

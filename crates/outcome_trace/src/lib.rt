//! From a text that spells a program to its answer: the texts of reports, refusals and faults of a run.
//!
//! The crate uses texts and devices (`text_io`), the parser (`term_parse`), the programs (`effect_term`), their code
//! (`derived_ops`) and the core under a schedule (`scheduled_core`). The crate promises that what is written is exactly
//! the text of the core's report or the line that answers the text. The crate re-exports what callers need of
//! `scheduled_core` and `text_io`.
//!
//! This replays a program within limits for 3 fibers, a ref, a deferred and 1000 changes of each fiber:
//!
//! ```
//! let program = Program::check(alloc, parse(alloc, b"(race (pure 4) (never))")?)?;
//! let schedule = read_schedule(alloc, "0*15 2*3 1*40 0*40 2*40 0*40")?;
//! let limits = Limits { fibers: 3, refs: 1, deferreds: 1, count: 1000 };
//! let report = replay(alloc, &program, schedule.as_slice(), limits)?;
//! // fiber 0 succeeded 4: enter 0, in 0, out 0, enter 1, leave 1, leave 0
//! // fiber 1 succeeded 4: enter 0, in 0, out 0, leave 0
//! // fiber 2 canceled: enter 0, in 0, cut
//! let text = text_of_report(alloc, &report)?;
//! ```
#![tactic(auto)]

mod answers;
mod backwards;
mod lines;
mod program_orders;
mod replay_texts;
mod report_text;
mod text_order;

pub use answers::{CheckOrder, ShowOrder, read_program, refusal};
pub use cell_registry::Limits;
pub use lines::{Refused, line};
pub use program_orders::{InWords, ProgramOrder, RefusalForm};
pub use replay_texts::{ReplayOrder, replay_text, report_answer, report_status};
pub use report_text::{print_report, text_of_report};
pub use scheduled_core::{
    EntryLog, FiberReport, FiberReports, Marks, NoEntries, Report, Settled, Why, Wish, answer,
    enter, enter_all, fault, first_fiber, first_fibers, is_done, outcome, replay, report_of_fibers,
    same_end, same_report, settle, settle_noted, why_of,
};
pub use text_io::{
    FromRead, MOST_ENTRIES, ReadError, ScheduleError, Sink, Source, Status, TEXT_BOUND, TextFault,
    TextIn, TextOut, ToWrite, WriteFailed, read_schedule, read_text, schedule_text, tell_fault,
    write_text,
};
pub use text_order::{Answer, TextOrder, answer_text, obey_text};

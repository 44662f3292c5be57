//! Workers that run the fibers of a program on work-stealing queues, and the report of the run.
//!
//! The crate uses tasks (`fiber_poll`), the bay that has them (`wait_bay`), the queues of ready numbers and the first
//! fault (`ready_queues`), the end of a run (`run_ends`), the notes of a recorded run (`run_recording`), and the kit's
//! `crossbeam_utils` for parking. [`run`] starts the workers. Each takes numbers of fibers from its queue, takes their
//! tasks from the bay, makes turns of them and puts them back, until no fiber can go on. One thread finishes what they
//! left, which is nothing if each wake arrived.
//!
//! The crate promises that every report is one that the core has under some schedule, and that a run's report is
//! complete ([`run_told`]) unless a fiber has used up its moves. That wakes arrive and that workers run at once is only
//! tested.
//!
//! This runs a program of two fibers on two workers:
//!
//! ```
//! let program = Program::check(alloc, parse(alloc, b"(start f (say 1) (seq (say 2) (pure 7)))")?)?;
//! let mut options = Options::new();
//! options.workers = 2;
//! let report = run(&rt, alloc, program, options, &OpenGate)?;
//! // fiber 0 succeeded 7: say 2
//! // fiber 1 succeeded 0: say 1
//! let text = text_of_report(alloc, &report)?;
//! ```
#![tactic(auto)]

mod gate;
mod idle;
pub mod laws;
mod options;
mod queues;
mod recorded;
mod running;
mod serving;
mod watch;
mod worker;
mod worker_seat;
mod workers;

pub use gate::{Gate, OpenGate};
pub use options::Options;
pub use recorded::run_recorded;
pub use run_ends::{Recorded, RunEnd, gather};
pub use run_recording::NoSchedule;
pub use running::{run, run_told};

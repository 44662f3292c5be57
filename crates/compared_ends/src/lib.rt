//! Two programs, compared by the ends that they can have under every schedule.
//!
//! The crate uses the exploration of a program (`every_schedule`). It explores two programs under the same limits, and
//! compares their ends by the outcome of fiber 0 and what it says, or by the outcomes of all fibers. The crate promises
//! that two programs that are reported to have the same ends have them under every schedule. If only one program is
//! reported to have an end, the reported schedule leads there, and no schedule of the other program does.
//!
//! By the outcome of fiber 0, a race against a side that never ends has the same ends as the other side alone. By the
//! outcomes of all fibers the ends differ, since only the race starts fibers:
//!
//! ```
//! let race = Program::check(alloc, parse(alloc, b"(race (pure 4) (never))")?)?;
//! let side = Program::check(alloc, parse(alloc, b"(pure 4)")?)?;
//! let limits = Limits { fibers: 3, refs: 1, deferreds: 1, count: 1000 };
//! let bounds = Bounds { worlds: 10_000, entries: 10_000, memory: 1 << 30 };
//! let found = compare_ends(alloc, &race, &side, limits, bounds, Basis::FirstFiber)?;
//! assert_eq!((found.first_extra, found.second_extra), (Extra::Nothing, Extra::Nothing));
//! ```
#![tactic(auto)]

mod basis;
mod comparing;
mod comparison;
mod extras;
mod order;
mod views;

pub use basis::Basis;
pub use comparing::compare_ends;
pub use comparison::{Comparison, Extra};
pub use order::CompareOrder;

//! The events of a replay, in the order of its entries.
//!
//! The crate uses the core under a schedule (`scheduled_core`), whose moves it makes with `enter`, and keeps a second
//! registry beside the core's. The crate promises that each event is what its entry did in the core: the fiber of the
//! entry, the shared call that its move made, the reply of the registry, and the mark that the fiber added. The list
//! has all events, and no others.
#![tactic(auto)]

mod event;
mod telling;

pub use event::{Deed, Event, Events};
pub use telling::{Told, replay_events};

//! The entries that one thread makes once the workers of a recorded run have ended.

use run_recording::{MOST_ENTRIES, NoSchedule};
use scheduled_core::EntryLog;
use std::alloc::Global;

/// The entries that were made, in their order, or why they weren't kept.
#[derive(Drop)]
pub struct SettledEntries {
    entries: Vec<u16>,
    lost: Option<NoSchedule>,
}

impl SettledEntries {
    /// Without entries.
    pub fn new(alloc: Global) -> SettledEntries {
        SettledEntries {
            entries: Vec::new(alloc),
            lost: None,
        }
    }

    /// The entries.
    pub fn entries(&self) -> Result<&[u16], NoSchedule> {
        match self.lost {
            Some(why) => Err(why),
            None => Ok(self.entries.as_slice()),
        }
    }
}

impl EntryLog for SettledEntries {
    fn enters(&mut self, number: u16) {
        if self.lost.is_some() {
            return;
        }
        if self.entries.len() >= MOST_ENTRIES {
            self.lost = Some(NoSchedule::TooLong);
        } else if self.entries.push(number).is_err() {
            self.lost = Some(NoSchedule::NoMemory);
        }
    }
}

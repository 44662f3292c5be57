//! The places of things in a picture.

use fiber_events::Event;

/// The least distance from the left at which time begins.
pub(crate) const LEFT: usize = 84;

/// The distance of the first lane from the top.
pub(crate) const TOP: usize = 40;

/// The distance between two lanes.
pub(crate) const PITCH: usize = 52;

/// The height of a lane's bar.
pub(crate) const BAR: usize = 18;

/// The greatest number of lanes.
pub(crate) const MOST_LANES: usize = 100;

// The width of an entry, for at most `ROOMY` entries.
const STEP: usize = 14;

// The greatest number of entries of that width. More entries are closer together.
const ROOMY: usize = 120;

/// The distance between entries, and the places of lanes.
#[derive(Clone, Copy, Debug)]
pub(crate) struct Scale {
    /// The number of entries.
    pub(crate) entries: usize,
    /// The number of fibers that were started.
    pub(crate) born: usize,
    /// The distance from the left at which time begins, after the names of the fibers.
    pub(crate) left: usize,
}

impl Scale {
    /// The number of lanes.
    pub(crate) fn lanes(self) -> usize {
        self.born.min(MOST_LANES)
    }

    /// Whether there is room for a short word between two entries.
    pub(crate) fn is_roomy(self) -> bool {
        self.entries <= ROOMY
    }

    /// The width of the lanes.
    pub(crate) fn width(self) -> usize {
        self.entries.min(ROOMY).max(20).saturating_mul(STEP)
    }

    /// The distance of an entry from the left. The first entry is number 1; at 0 nothing has moved.
    pub(crate) fn at(self, entry: usize) -> usize {
        if self.entries <= ROOMY {
            self.left.saturating_add(entry.saturating_mul(STEP))
        } else {
            let wide = entry.saturating_mul(ROOMY * STEP);
            self.left
                .saturating_add(wide.checked_div(self.entries).unwrap_or(0))
        }
    }

    /// The distance of an event from the left.
    pub(crate) fn of(self, event: &Event) -> usize {
        self.at(event.entry)
    }

    /// The distance of the end of the lanes from the left.
    pub(crate) fn right(self) -> usize {
        self.left.saturating_add(self.width()).saturating_add(STEP)
    }

    /// The distance of a fiber's bar from the top.
    pub(crate) fn top(self, fiber: usize) -> usize {
        TOP.saturating_add(fiber.saturating_mul(PITCH))
    }

    /// The distance of the middle of a fiber's bar from the top.
    pub(crate) fn middle(self, fiber: usize) -> usize {
        self.top(fiber).saturating_add(BAR / 2)
    }

    /// The distance of the end of all lanes from the top.
    pub(crate) fn bottom(self) -> usize {
        self.top(self.lanes())
    }
}

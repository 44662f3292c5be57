//! The names of fibers and the words for events in a picture.

use crate::words;
use fiber_events::Event;
use itoa::Buffer;
use std::alloc::AllocError;

/// The names of fibers and the words for events in a picture. They are text of an XML document: characters of markup
/// are escaped.
pub trait Wording {
    /// Appends the name of a fiber to a text. Returns `AllocError` if memory runs out.
    fn push_fiber(&self, text: &mut String, fiber: usize) -> Result<(), AllocError>;

    /// Appends the words for an event to a text. Returns `AllocError` if memory runs out.
    fn push_event(&self, text: &mut String, event: &Event) -> Result<(), AllocError>;
}

/// Names fibers, refs and deferreds by their numbers.
#[derive(Clone, Copy, Debug)]
pub(crate) struct Numbered;

impl Wording for Numbered {
    fn push_fiber(&self, text: &mut String, fiber: usize) -> Result<(), AllocError> {
        let mut digits = Buffer::new();
        text.push_str("fiber ")?;
        text.push_str(digits.format(fiber))
    }

    fn push_event(&self, text: &mut String, event: &Event) -> Result<(), AllocError> {
        words::push_event(text, event)
    }
}

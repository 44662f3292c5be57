//! The lane of one fiber.

use crate::scale::{BAR, Scale};
use crate::shapes::{Place, begin_sign, push_bar, push_title, push_words};
use crate::sights::{is_seen, waits};
use cell_registry::Call;
use effect_term::Outcome;
use fiber_events::{Deed, Event};
use fiber_frames::Mark;
use itoa::Buffer;
use std::alloc::{AllocError, Global};

/// A lane while it is drawn, from the left to the right.
#[derive(Drop)]
pub(crate) struct Lane {
    fiber: usize,
    // Where the present shade begins.
    from: usize,
    // The number of active masks.
    masks: usize,
    // The number of applied polls.
    polls: usize,
    // Whether the fiber was cut.
    cut: bool,
    // Where the fiber began to wait, if it waits.
    waits: Option<usize>,
    // Where each bracket acquired that hasn't released, the innermost last.
    spans: Vec<usize>,
    // The signs and words so far, which are drawn over the bars.
    signs: String,
    // The place of the last sign.
    signed: usize,
    /// The outcome of the fiber, if it has ended.
    pub(crate) outcome: Option<Outcome>,
}

impl Lane {
    /// The lane of a fiber that was started at the entry `from`.
    pub(crate) fn new(alloc: Global, fiber: usize, from: usize) -> Lane {
        Lane {
            fiber,
            from,
            masks: 0,
            polls: 0,
            cut: false,
            waits: None,
            spans: Vec::new(alloc),
            signs: String::new(alloc),
            signed: 0,
            outcome: None,
        }
    }

    // The class of what the fiber runs: masked, in a poll, a finalizer, or none of these.
    fn shade(&self) -> &'static str {
        if self.cut {
            "final"
        } else if self.masks > 0 {
            "masked"
        } else if self.polls > 0 {
            "polled"
        } else {
            "runs"
        }
    }

    /// Draws one event of the fiber, with these words, in the order of the entries.
    pub(crate) fn push(
        &mut self,
        text: &mut String,
        scale: Scale,
        event: &Event,
        words: &str,
    ) -> Result<(), AllocError> {
        if !is_seen(event) {
            return Ok(());
        }
        let x = scale.of(event);
        if waits(event) {
            if self.waits.is_none() {
                self.waits = Some(x);
            }
            return Ok(());
        }
        self.end_wait(text, scale, x)?;
        if let Some(mark) = event.mark {
            self.push_mark(text, scale, x, mark)?;
        }
        self.note_end(text, scale, x, event, words)
    }

    // Draws a wait up to `x`, if the fiber waited.
    fn end_wait(&mut self, text: &mut String, scale: Scale, x: usize) -> Result<(), AllocError> {
        if let Some(from) = self.waits {
            self.end_shade(text, scale, x)?;
            self.waits = None;
            if x > from {
                let at = Place {
                    x: from,
                    y: scale.top(self.fiber),
                };
                push_bar(text, "waits", at, x.saturating_sub(from), BAR)?;
            }
        }
        Ok(())
    }

    // Draws the shade up to `x`.
    fn end_shade(&mut self, text: &mut String, scale: Scale, x: usize) -> Result<(), AllocError> {
        if x > self.from {
            let at = Place {
                x: self.from,
                y: scale.top(self.fiber),
            };
            push_bar(text, self.shade(), at, x.saturating_sub(self.from), BAR)?;
            self.from = x;
        }
        Ok(())
    }

    // Changes the lane by a mark.
    fn push_mark(
        &mut self,
        text: &mut String,
        scale: Scale,
        x: usize,
        mark: Mark,
    ) -> Result<(), AllocError> {
        match mark {
            Mark::Acquired(_) => Ok(self.spans.push(x)?),
            Mark::Released(_) => self.end_span(text, scale, x, "span"),
            Mark::Say(_) | Mark::Dropped(_) | Mark::Releasing(_) => Ok(()),
            mark => {
                self.end_shade(text, scale, x)?;
                self.shift(mark);
                Ok(())
            }
        }
    }

    // Changes the numbers of masks and polls by a mark.
    fn shift(&mut self, mark: Mark) {
        match mark {
            Mark::Enter(_) => self.masks = self.masks.saturating_add(1),
            Mark::Leave(_) => self.masks = self.masks.saturating_sub(1),
            Mark::PollIn(_) => {
                self.masks = self.masks.saturating_sub(1);
                self.polls = self.polls.saturating_add(1);
            }
            Mark::PollOut(_) => {
                self.masks = self.masks.saturating_add(1);
                self.polls = self.polls.saturating_sub(1);
            }
            Mark::Cut => self.cut = true,
            _ => {}
        }
    }

    // Draws the innermost bracket up to `x`.
    fn end_span(
        &mut self,
        text: &mut String,
        scale: Scale,
        x: usize,
        class: &str,
    ) -> Result<(), AllocError> {
        if let Some(from) = self.spans.pop() {
            let below = self.spans.len().min(4).saturating_mul(5);
            let at = Place {
                x: from,
                y: scale
                    .top(self.fiber)
                    .saturating_add(BAR + 3)
                    .saturating_add(below),
            };
            push_bar(text, class, at, x.saturating_sub(from).max(1), 3)?;
        }
        Ok(())
    }

    // Records the end of the fiber if the event ends it, and draws the sign of the event.
    fn note_end(
        &mut self,
        text: &mut String,
        scale: Scale,
        x: usize,
        event: &Event,
        words: &str,
    ) -> Result<(), AllocError> {
        if let Some(outcome) = end_of(event) {
            self.outcome = Some(outcome);
            self.close(text, scale, x)?;
        }
        let place = Place {
            x,
            y: scale.top(self.fiber),
        };
        push_said(&mut self.signs, scale, place, event)?;
        self.push_sign(place, event, words)
    }

    // Draws the sign of an event. A tick is left out if there is a sign at its place already.
    fn push_sign(&mut self, place: Place, event: &Event, words: &str) -> Result<(), AllocError> {
        let sign = sign_of(event);
        if place.x == self.signed && sign.class == "tick" {
            return Ok(());
        }
        self.signed = place.x;
        begin_sign(&mut self.signs, sign.class, place, sign.drawing)?;
        push_title(&mut self.signs, event.entry, words)
    }

    /// Appends the signs and words, after all bars.
    pub(crate) fn push_signs(&self, text: &mut String) -> Result<(), AllocError> {
        text.push_str(self.signs.as_str())
    }

    /// Draws all that is still open up to `x`.
    pub(crate) fn close(
        &mut self,
        text: &mut String,
        scale: Scale,
        x: usize,
    ) -> Result<(), AllocError> {
        self.end_wait(text, scale, x)?;
        self.end_shade(text, scale, x)?;
        for _ in 0..self.spans.len() {
            self.end_span(text, scale, x, "open")?;
        }
        Ok(())
    }
}

// The outcome of the event's fiber, if the event ended it.
fn end_of(event: &Event) -> Option<Outcome> {
    match event.deed {
        Deed::Called(call, _) => end_by(call),
        _ => None,
    }
}

// The outcome of a fiber that makes this call, if the call ends it.
fn end_by(call: Call) -> Option<Outcome> {
    match call {
        Call::Finish(outcome) => Some(outcome),
        _ => None,
    }
}

// Writes the value of an event's `say` over its sign, if there is room for it.
fn push_said(
    text: &mut String,
    scale: Scale,
    place: Place,
    event: &Event,
) -> Result<(), AllocError> {
    match event.mark {
        Some(mark) if scale.is_roomy() => push_value(text, place, mark),
        _ => Ok(()),
    }
}

// Writes the value of a `say`.
fn push_value(text: &mut String, place: Place, mark: Mark) -> Result<(), AllocError> {
    match mark {
        Mark::Say(value) => {
            let mut digits = Buffer::new();
            let over = Place {
                x: place.x,
                y: place.y.saturating_sub(4),
            };
            push_words(text, "small", over, digits.format(value.get()))
        }
        _ => Ok(()),
    }
}

// A sign: its class and its drawing.
#[derive(Clone, Copy, Debug)]
struct Sign {
    class: &'static str,
    drawing: &'static str,
}

// The sign of an event.
fn sign_of(event: &Event) -> Sign {
    match end_of(event) {
        Some(outcome) => end_sign(outcome),
        None => match event.mark {
            Some(mark) => mark_sign(mark),
            None => TICK,
        },
    }
}

// The sign of most events.
const TICK: Sign = Sign {
    class: "tick",
    drawing: "v5",
};

// The sign of an end.
fn end_sign(outcome: Outcome) -> Sign {
    match outcome {
        Outcome::Succeeded(_) => Sign {
            class: "ok",
            drawing: "m-7 9a7 7 0 1 0 14 0a7 7 0 1 0 -14 0z",
        },
        Outcome::Errored(_) => Sign {
            class: "bad",
            drawing: "m0 1l8 15h-16z",
        },
        Outcome::Canceled => Sign {
            class: "gone",
            drawing: "m-6 3h12v12h-12z",
        },
    }
}

// The sign of a mark.
fn mark_sign(mark: Mark) -> Sign {
    match mark {
        Mark::Cut => Sign {
            class: "cut",
            drawing: "m-6 -3l12 24m0 -24l-12 24",
        },
        Mark::Say(_) => Sign {
            class: "says",
            drawing: "m0 4l5 5l-5 5l-5 -5z",
        },
        _ => TICK,
    }
}

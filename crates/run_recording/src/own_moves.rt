//! The moves of a fiber that a schedule needs.

use crate::notes::{CallKind, Seen};
use std::alloc::AllocError;

/// A noted call: the fiber that made it, the number of moves that the fiber had left before it, the number that the
/// call named, and its place among the calls on refs, if it is one.
#[derive(Clone, Copy)]
pub(crate) struct Placed {
    pub fiber: u16,
    pub named: u16,
    pub kind: CallKind,
    pub left: u32,
    pub place: u32,
}

/// A needed call, with the number of its fiber's needed moves before it.
#[derive(Clone, Copy)]
pub(crate) struct NeededCall {
    pub at: u32,
    pub place: u32,
    pub named: u16,
    pub kind: CallKind,
}

/// The needed moves of a fiber: the range of its needed calls, the number of moves, and how many of these come before
/// the first request for its cancellation.
#[derive(Clone, Copy)]
pub(crate) struct Own {
    pub from: usize,
    pub to: usize,
    pub len: u32,
    pub before_request: u32,
}

// The first `of` moves of a fiber, and the number of them without its waits, if it is known.
#[derive(Clone, Copy)]
struct Front {
    of: u32,
    left: Option<u32>,
}

impl Front {
    // The first `of` moves of a fiber, before any of its calls is known.
    fn first(of: u32) -> Front {
        Front { of, left: None }
    }

    // Handles a call; `gone` moves before it were dropped. If the move waits, it and the look before it are dropped.
    fn meets(&mut self, begin: u32, at: u32, waits: bool, gone: u32) {
        if self.left.is_some() {
            return;
        }
        if self.of <= begin {
            self.left = Some(self.of.saturating_sub(gone));
        } else if waits && self.of <= at.saturating_add(1) {
            self.left = Some(begin.saturating_sub(gone));
        }
    }

    // The number of moves without the waits; `gone` moves are dropped in all.
    fn count(&self, gone: u32) -> u32 {
        match self.left {
            Some(left) => left,
            None => self.of.saturating_sub(gone),
        }
    }
}

/// The needed moves of a fiber that had `first` moves and made these calls in this order. Each wait is dropped, with
/// the look before it. Unless `all` is set, moves after its last mark and its last call that others can see are
/// dropped, too. The fiber's other calls are added to `needed`.
pub(crate) fn own_moves(
    calls: &[Placed],
    first: u32,
    seen: Seen,
    all: bool,
    needed: &mut Vec<NeededCall>,
) -> Result<Own, AllocError> {
    let from = needed.len();
    let mut look = Front::first(first.saturating_sub(seen.look));
    let mut marked = Front::first(first.saturating_sub(seen.marked));
    let mut gone = 0u32;
    let mut last = 0u32;
    for call in calls {
        let at = first.saturating_sub(call.left);
        let waits = call.kind == CallKind::Wait;
        let begin = if waits && call.named == 1 {
            at.saturating_sub(1)
        } else {
            at
        };
        look.meets(begin, at, waits, gone);
        marked.meets(begin, at, waits, gone);
        if waits {
            gone = gone.saturating_add(at.saturating_add(1).saturating_sub(begin));
            continue;
        }
        let at = at.saturating_sub(gone);
        needed.push(NeededCall {
            at,
            place: call.place,
            named: call.named,
            kind: call.kind,
        })?;
        if !call.kind.is_unseen() {
            last = at.saturating_add(1);
        }
    }
    let made = first.saturating_sub(seen.made).saturating_sub(gone);
    let len = if all {
        made
    } else {
        last.max(marked.count(gone)).min(made)
    };
    cut(needed, from, len);
    Ok(Own {
        from,
        to: needed.len(),
        len,
        before_request: look.count(gone).min(len),
    })
}

// Drops the needed calls at or after move `len`, among those from the place `from` on.
fn cut(needed: &mut Vec<NeededCall>, from: usize, len: u32) {
    for _ in 0..needed.len() {
        match needed.last() {
            Some(last) if last.at >= len => {}
            _ => return,
        }
        if needed.len() <= from {
            return;
        }
        let _ = needed.pop();
    }
}

//! The queues as one worker sees them.
use crossbeam_deque::Steal;
use ready_queues::{InjectorEnd, ReadyDeque, Victim};
use std::sync::Wait;

/// A worker's own queue, its ends of the others' queues, beginning with the next worker's, and its end of the injector.
#[derive(Drop)]
pub(crate) struct Queues<'q> {
    pub own: ReadyDeque,
    pub victims: Vec<Victim>,
    pub injector: InjectorEnd<'q>,
}

impl<'q> Queues<'q> {
    /// A number from another worker's queue, or from the injector. Returns `None` if it found each of them empty, one
    /// after another.
    pub(crate) fn steal<R: Wait>(&mut self, rt: &R) -> Option<u16> {
        for victim in self.victims.iter_mut() {
            if let Some(number) = steal_from(rt, victim) {
                return Some(number);
            }
        }
        take_from(rt, &mut self.injector)
    }
}

// Steals from one queue; tries again while another worker is faster.
fn steal_from<R: Wait>(rt: &R, victim: &mut Victim) -> Option<u16> {
    for _ in rt.forever() {
        match victim.steal() {
            Steal::Success(number) => return Some(number),
            Steal::Empty => return None,
            Steal::Retry => {}
        }
    }
    unreachable!()
}

// Takes from the injector; tries again while another worker is faster.
fn take_from<R: Wait>(rt: &R, injector: &mut InjectorEnd<'_>) -> Option<u16> {
    for _ in rt.forever() {
        match injector.take(rt) {
            Steal::Success(number) => return Some(number),
            Steal::Empty => return None,
            Steal::Retry => {}
        }
    }
    unreachable!()
}

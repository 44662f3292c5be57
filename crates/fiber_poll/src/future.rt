//! A fiber as a future.
ghost use Rattle.std.specs.Prelude.{◌≡◌, ◌<◌, true, ⊤};
ghost use Rattle.futures.specs.Poll.{IfReady, OnPending};
ghost use Rattle.futures.specs.Task.{Covers, Keeps};
ghost use Rattle.fiber_poll.specs.Futures.{Comes, Polled};

use crate::task::FiberTask;
use crate::turn::Turn;
use cell_registry::{Outcome, RunError};
use effect_term::facts_of;
use futures::Future;
use futures::task::{Context, Poll};
use std::mem::drop;

/// A fiber as a future, for code that starts no fiber. Its result is the outcome of the fiber, or `None` if the fiber
/// has no moves left, or the fault of a turn.
#[derive(Drop)]
pub struct FiberFuture<'a> {
    /// The fiber.
    pub task: FiberTask<'a>,
    /// The greatest number of moves of a poll, at least 2.
    pub budget: u32,
    ghost enough: { 1 < budget },
}

impl Future for FiberFuture<'_> {
    type Output = Result<Option<Outcome>, RunError>;

    ghost gives = { λ f r. Comes f.task r };

    /// Makes one turn. The future is ready if the fiber has ended or has no moves left, and at a fault; otherwise it
    /// has yielded. A poll after the future was ready makes another turn, with the same result if the fiber has ended
    /// or has no moves left.
    fn poll(&mut self, cx: &mut Context<'_>) -> Poll<Result<Option<Outcome>, RunError>>
        ensures turn { Polled self.old.task self.old.budget result self.new.task }
        ensures budget { self.new.budget ≡ self.old.budget }
        ensures yielded { OnPending result (cx.new.is_woken ≡ true) }
        ensures value { IfReady result (Comes self.old.task) }
        ensures again { OnPending result ⊤ }
        ensures same { OnPending result ((r : _) → Comes self.new.task r → Comes self.old.task r) }
        ensures registered { OnPending result (Covers cx.new (λ _. ⊥)) }
        ensures kept { Keeps cx.old cx.new }
    {
        facts_of(self.task.number());
        let turned = self.task.turn(self.budget);
        facts_of(self.task.number());
        match turned {
            Ok(turn) => match turn {
                Turn::Ended(outcome) => Poll::Ready(Ok(Some(outcome))),
                Turn::OutOfMoves => Poll::Ready(Ok(None)),
                turn => {
                    drop(turn);
                    cx.yield_now()
                }
            },
            Err(fault) => Poll::Ready(Err(fault)),
        }
    }
}

//! How a fiber ends, and the replies of the calls that fibers share.
use crate::value::Value;

/// How a fiber ended.
#[derive(Clone, Copy, PartialEq, Eq, Debug)]
pub enum Outcome {
    /// The fiber gave this value.
    Succeeded(Value),
    /// The fiber raised this error code.
    Errored(Value),
    /// A request for its cancellation was observed, and its finalizers have run.
    Canceled,
}

/// The reply to a request for a fiber's cancellation.
#[derive(Clone, Copy, PartialEq, Eq, Debug)]
pub enum CancelReply {
    /// This request is the first.
    Asked,
    /// The fiber's cancellation had been requested before.
    Already,
    /// The fiber had ended.
    Ended,
}

/// The reply to a join of a fiber.
#[derive(Clone, Copy, PartialEq, Eq, Debug)]
pub enum JoinReply {
    /// The fiber hasn't ended.
    Waits,
    /// The fiber had ended, with this outcome.
    Ended(Outcome),
}

/// The reply of a shared call.
#[derive(Clone, Copy, PartialEq, Eq, Debug)]
pub enum Reply {
    /// The call took effect, and has no value.
    Done,
    /// Whether the fiber's cancellation was requested.
    Seen(bool),
    /// The reply to a request for cancellation.
    Cancel(CancelReply),
    /// The reply to a join.
    Join(JoinReply),
    /// The number of the new fiber, ref or deferred.
    Number(u16),
    /// The value of a ref.
    Value(Value),
    /// Whether this call completed the deferred.
    Completed(bool),
    /// The value of a deferred, if it was completed.
    Read(Option<Value>),
}

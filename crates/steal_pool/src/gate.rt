//! The gate: a hook that is called before each turn.

/// Is called before each turn of a worker, and can hold the worker for a while. Moves after the end of all workers
/// aren't turns, and the gate isn't called for them.
pub trait Gate: Sync {
    /// This worker begins a turn of this fiber. Workers are numbered from 0.
    fn enter(&self, worker: u8, fiber: u16);
}

/// A gate that holds no worker.
#[derive(Clone, Copy)]
pub struct OpenGate;

impl Gate for OpenGate {
    fn enter(&self, _worker: u8, _fiber: u16) {}
}

//! What workers pass before they begin.

/// What a worker passes before it begins. It may hold the worker back, and returns in the end.
pub trait Gate {
    /// Comes to the gate as the worker of this number, counted from 0, and returns when it may go on.
    fn pass(&self, worker: u32);
}

/// Holds nobody back.
pub struct Open;

impl Gate for Open {
    fn pass(&self, _worker: u32) {}
}

//! What a worker passes before each of its calls.

/// Called before each registry call of a worker, with the worker's number in its batch. It may hold the worker back; no
/// clause speaks of it.
pub trait Gate: Sync {
    fn before(&self, caller: u64);
}

/// Holds nobody back.
#[derive(Debug, Clone, Copy, PartialEq, Eq)]
pub struct OpenGate;

impl Gate for OpenGate {
    fn before(&self, _caller: u64) {}
}

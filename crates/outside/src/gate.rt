//! The gate that a session passes before each call of the repository.

/// A place where a test can hold a session for a while. It waits for nobody but in tests.
pub trait Gate {
    /// Lets the session with this number pass, before the call of the repository with this serial, counted from 0.
    fn pass(&self, session: u32, serial: u64);
}

/// The gate that is always open.
#[derive(Clone, Copy, Debug, Default, Drop)]
pub struct OpenGate;

impl Gate for OpenGate {
    fn pass(&self, _session: u32, _serial: u64) {}
}

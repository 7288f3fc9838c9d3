//! Why the routers of a bus end.

use std::alloc::AllocError;
use thiserror::Error;

/// Why the routers of a bus end.
#[derive(Clone, Copy, Debug, PartialEq, Eq, Error)]
pub enum Fault {
    /// The system tells no more what sockets are ready for.
    #[error("device: poll")]
    Poll,
    /// The system gives no more random bytes.
    #[error("device: random")]
    Random,
    /// The lines of the trace can't be written.
    #[error("device: trace")]
    Trace,
    /// There was no memory for what a thread cannot do without.
    #[error("memory")]
    Memory,
}

impl From<AllocError> for Fault {
    fn from(_error: AllocError) -> Fault {
        Fault::Memory
    }
}

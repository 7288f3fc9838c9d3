//! Why a run ends early.

use seq_bus_core::limits::MAX_BATCH;
use std::alloc::AllocError;
use thiserror::Error;

/// Why a run ends before its events do.
#[derive(Clone, Copy, Debug, PartialEq, Eq, Error)]
pub enum EventFault {
    /// A connection comes at the event of this index, and its key is not the one that the engine
    /// has for the next.
    #[error("event {0}: the key is not the next")]
    WrongKey(usize),
    /// A connection that is to say who it is comes at the event of this index, and no one may log
    /// in.
    #[error("event {0}: no one may log in")]
    NoLogin(usize),
    /// The event of this index is a turn of no keys, or of more than 64.
    #[error("event {0}: a turn has 1 to {max} keys", max = MAX_BATCH)]
    NoTurn(usize),
    #[error("out of memory")]
    NoMemory,
}

impl From<AllocError> for EventFault {
    ghost use Rattle.std.specs.Prelude.{◌≡◌};
    ghost use Rattle.router_laws.specs.declared.fault.EventFault.TheVariants.{NoMemory};

    ghost from_gives = { λ _ fault. fault ≡ NoMemory };

    fn from(_error: AllocError) -> EventFault {
        EventFault::NoMemory
    }
}

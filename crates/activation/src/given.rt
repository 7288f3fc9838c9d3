//! What was let go.

use seq_bus_core::Fate;

/// Something that waits no longer.
#[derive(Clone, Copy, Debug, PartialEq, Eq, Drop)]
pub struct Given<T> {
    /// What became of it.
    pub fate: Fate,
    pub what: T,
}

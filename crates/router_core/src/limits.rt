//! How much a change brings.

use seq_bus_core::limits::{MAX_SIGNALS, MAX_TICKETS};

/// The most actions that a change of the bus brings besides its reply: its signals, and what is done
/// for each call that waits no longer.
pub const MAX_EFFECTS: usize = MAX_SIGNALS + MAX_TICKETS;

//! One entry of a queue.

/// A connection in the queue of a name, with what it asked for when it last requested the name.
/// The first entry of a queue is the owner of the name.
/// (D-Bus Specification: `org.freedesktop.DBus.RequestName`.)
#[derive(Clone, Copy, Debug, Default, PartialEq, Eq)]
pub struct QueuedOwner {
    /// The number of the connection, `n` in its unique name `:1.n`.
    pub connection: u64,
    /// Whether another connection may take the name from this one.
    pub allow_replacement: bool,
    /// Whether this one leaves the queue when it loses the name.
    pub do_not_queue: bool,
}

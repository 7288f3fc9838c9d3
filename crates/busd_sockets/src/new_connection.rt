//! Connections on their way to a router.

use crossbeam_queue::ArrayQueue;
use mio::net::UnixStream;

/// How many connections wait for a router at most, and come to it in a turn. More wait with the
/// system.
pub const MAX_WAITING: usize = 64;

/// A connection that was accepted, and what it is asked.
#[derive(Drop)]
pub struct NewConnection {
    pub(crate) stream: UnixStream,
    pub(crate) challenge: [u8; 16],
}

/// Connections on their way to a router, at most as many as the queue has room for.
pub type NewConnections = ArrayQueue<NewConnection>;

//! What waits for memory.

use router_core::Event;

/// What is done first in the next turn, since there was no memory for it.
#[derive(Drop)]
pub(crate) enum Kept<N: Drop> {
    Happening(Event<N>),
    /// The first bytes of the room, so many, came from a connection.
    Piece { key: usize, count: usize },
}

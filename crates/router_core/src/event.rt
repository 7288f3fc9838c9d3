//! What happens to a router.

use crate::start_end::StartEnd;
use outbox_core::Envelope;

/// What happens to a router. A key is the place of a connection among those of the router.
#[derive(Drop)]
pub enum Event<N: Drop> {
    /// A connection came, and has this key, which was that of the next one. With a challenge,
    /// sixteen bytes that nobody can guess, it is to say who it is before its first message;
    /// without one it counts as the bus's own user's.
    Opened {
        key: usize,
        challenge: Option<[u8; 16]>,
    },
    /// Bytes of a connection came.
    Bytes {
        key: usize,
        piece: Vec<u8>,
    },
    /// The next whole message of a connection is to be served.
    Next {
        key: usize,
    },
    /// The next whole messages of connections are to be served, one after the other: 1 to 64, of
    /// each connection as many as its key stands among the keys. Once it is served the first of
    /// them was; without memory for a later one, it and those behind it stay unserved.
    Turn {
        keys: Vec<usize>,
    },
    /// An envelope came for the connection in a slot.
    Mail {
        slot: u16,
        envelope: Envelope<N>,
    },
    /// A connection is gone, and its key is free.
    Closed {
        key: usize,
    },
    /// The connection of this number, of whatever router, takes no more mail: an envelope for it
    /// could not be put.
    Full {
        number: u64,
    },
    /// A start of a service ended before its name had an owner, or did not end in time. It lies
    /// apart: an event is moved often, and few are of starts.
    Child(Box<StartEnd>),
    /// Time has passed.
    Tick,
}

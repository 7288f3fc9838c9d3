//! Where a connection is reached.

/// A connection, and where it is reached.
#[derive(Clone, Copy, Debug, Default, PartialEq, Eq)]
pub struct Conn {
    /// Its number, `n` in its unique name `:1.n`.
    pub number: u64,
    /// Its slot, below 256: the place of its outbox among those of all routers.
    pub slot: u16,
    /// The router that serves it, from 1.
    pub router: u8,
}

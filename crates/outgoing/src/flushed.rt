//! What a flush comes to.

/// What became of a flush that did not fail.
#[derive(Clone, Copy, Debug, PartialEq, Eq)]
pub enum Flushed {
    /// The socket took all that waited.
    All,
    /// The socket takes no more now. The rest waits until it is writable again.
    Waits,
}

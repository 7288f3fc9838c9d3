//! What a server makes of a piece of bytes.

use crate::{AuthenticationFault, Identity};

/// What a server makes of a piece of its client's bytes.
#[derive(Debug, Drop)]
pub struct Step<'a> {
    /// What is to be sent to the client now, which may be nothing.
    pub sent: Vec<u8>,
    pub progress: Progress<'a>,
}

/// Where a conversation stands after a piece.
#[derive(Clone, Copy, Debug, PartialEq, Eq)]
pub enum Progress<'a> {
    /// More is due from the client.
    Going,
    /// The client is let in.
    Done {
        identity: Identity,
        /// The bytes of the piece that stand behind the conversation, with which the client's
        /// messages begin or go on.
        rest: &'a [u8],
    },
    /// The conversation has failed, and the connection is to be closed once what is sent is
    /// written.
    Closed(AuthenticationFault),
}

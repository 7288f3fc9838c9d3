//! What a router does.

use crate::cause::CloseCause;
use crate::recipients::Addressees;
use crate::written::WrittenBytes;
use names::BusName;
use outbox_core::Content;

/// What a router does to the world. What is put carries the furthest note that the router had made
/// or taken.
#[derive(Drop)]
pub enum Action<N: Drop> {
    /// Bytes are written to a connection.
    Write {
        key: usize,
        bytes: WrittenBytes,
    },
    /// A message is put to connections, each in an envelope of its own. The signals of a change
    /// are put one after the other.
    Put {
        to: Addressees,
        note: Option<N>,
        content: Content,
    },
    /// A connection is closed. Its key brings no more actions.
    Close {
        key: usize,
        cause: CloseCause,
    },
    /// The program of a service is to be run. The name lies apart: an action is moved often, and
    /// few run a program.
    Run {
        name: Box<BusName>,
        start: u64,
    },
}

//! The states of a server.

ghost use Rattle.std.specs.Prelude.{◌≡◌};

use crate::{AuthenticationFault, Identity};

/// What a server waits for that has begun DBUS_COOKIE_SHA1.
#[derive(Clone, Copy, Debug, PartialEq, Eq)]
pub enum Awaited {
    /// The user's name, which stood not in AUTH itself.
    Name,
    /// The client's challenge and the digest.
    Digest,
}

/// How far a conversation has come. (D-Bus Specification: "Server states".)
#[derive(Clone, Copy, Debug, PartialEq, Eq)]
pub enum Phase {
    /// Nothing came yet: the first byte is due, which is zero.
    WaitingForNul,
    WaitingForAuth,
    WaitingForData(Awaited),
    WaitingForBegin(Identity),
    /// The client has begun its messages.
    Done(Identity),
    Closed(AuthenticationFault),
}

impl Phase {
    ghost use Rattle.sasl.specs.Conversations.{is_open};

    /// Whether the conversation goes on.
    pub fn is_open(self) -> bool
        ensures { result ≡ is_open self }
    {
        !matches!(self, Phase::Done(_) | Phase::Closed(_))
    }
}

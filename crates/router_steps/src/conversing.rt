//! Connections that say who they are. (D-Bus Specification: "Authentication Protocol")

ghost use Rattle.std.specs.Prelude.{◌≡◌, ◌<◌, ◌≤◌, ◌+◌, OnOk, OnErr};
ghost use Rattle.router_core.specs.Events.{hearing, is_user};
ghost use Rattle.router_core.specs.Scripts.{RunsTo};
ghost use Rattle.router_core.specs.Standing.{conn_of};
ghost use Rattle.router_steps.specs.Turns.{IsConversed, IsSent};

use crate::context::Context;
use crate::peer::{Peer, Stage};
use bus_view::BusView;
use router_core::{CloseCause, Gate, WrittenBytes};
use sasl::{AuthenticationFault, Identity, Progress};
use std::alloc::AllocError;

/// What a piece of the bytes of a connection that says who it is comes to.
#[derive(Drop)]
struct Turn {
    /// What it is answered, which may be nothing.
    sent: Vec<u8>,
    /// Why it is to be closed, if it is.
    fault: Option<AuthenticationFault>,
}

/// Whether a client is the bus's own user.
fn is_user(identity: Identity) -> bool
    ensures { result ≡ is_user identity }
{
    match identity {
        Identity::User => true,
        Identity::Anonymous => false,
    }
}

impl Peer {
    /// Goes on with the conversation by which it says who it is. Once that is done, the bytes
    /// behind it are the first of its messages.
    fn converse(&mut self, piece: &[u8]) -> Turn
        ensures turn { IsConversed self.old self.old.stage piece.now result.sent.items result.fault
            self.new }
        ensures conn { conn_of self.new.stage ≡ conn_of self.old.stage }
    {
        let Stage::Authenticating(server) = &mut self.stage else {
            return Turn {
                sent: Vec::new(self.alloc),
                fault: None,
            };
        };
        let step = server.feed(piece);
        match step.progress {
            Progress::Going => Turn {
                sent: step.sent,
                fault: None,
            },
            Progress::Done { identity, rest } => match self.unread.feed(rest) {
                Ok(()) => {
                    self.stage = Stage::Unnamed {
                        privileged: is_user(identity),
                    };
                    Turn {
                        sent: step.sent,
                        fault: None,
                    }
                }
                Err(_) => Turn {
                    sent: Vec::new(self.alloc),
                    fault: Some(AuthenticationFault::NoMemory),
                },
            },
            Progress::Closed(fault) => match fault {
                AuthenticationFault::NoMemory => Turn {
                    sent: Vec::new(self.alloc),
                    fault: Some(fault),
                },
                _ => Turn {
                    sent: step.sent,
                    fault: Some(fault),
                },
            },
        }
    }
}

impl<V: BusView, G: Gate> Context<V, G> {
    /// Writes what a connection is answered while it says who it is, if it is anything.
    fn answer(&mut self, key: usize, sent: Vec<u8>)
        requires { 0 < self.old.room }
        ensures sent { IsSent V.BusView key sent.items self.old.world self.new.world }
        ensures room { self.old.room ≤ self.new.room + 1 }
    {
        if !sent.is_empty() {
            self.write(key, WrittenBytes::own(sent));
        }
    }

    /// Takes a piece of the bytes of a connection. While it says who it is, each line that is whole
    /// by them is answered. Without memory for messages nothing changes, and the piece stays where
    /// it was; without memory for lines the connection is closed.
    pub fn hear(
        &mut self,
        key: usize,
        peer: &mut Peer,
        piece: &mut Vec<u8>,
    ) -> Result<(), AllocError>
        requires { 1 < self.old.room }
        ensures comes { OnOk result (RunsTo V.BusView G.Gate
            (hearing key piece.old.items peer.old peer.old.stage)
            self.old.world peer.new self.new.world) }
        ensures err { OnErr result (peer.new ≡ peer.old) }
        ensures world { OnErr result (self.new.world ≡ self.old.world) }
        ensures kept { OnErr result (piece.new ≡ piece.old) }
    {
        let Stage::Authenticating(_) = peer.stage() else {
            return peer.feed(piece);
        };
        let Turn { sent, fault } = peer.converse(piece.as_slice());
        self.answer(key, sent);
        match fault {
            None => {}
            Some(fault) => self.close_peer(key, peer, CloseCause::Unauthenticated(fault)),
        }
        Ok(())
    }
}

//! One connection.

ghost use Rattle.std.specs.Prelude.{◌≡◌, ◌<◌, ◌≤◌, ◌+◌, [], true, false, OnOk, OnErr};
ghost use Rattle.router_core.specs.Events.{closing, with_bytes, checking_presence};
ghost use Rattle.router_core.specs.Incoming.{Waits, IsIncoming};
ghost use Rattle.router_core.specs.Scripts.{RunsTo};
ghost use Rattle.router_core.specs.Standing.{Named, SpeaksDBus, newcomer, next_serial, conn_of, closing_peer};
ghost use Rattle.router_steps.specs.Hearing.{heard_present};
ghost use Rattle.router_steps.specs.Quiet.{IsQuiet};
ghost use Rattle.router_steps.specs.Stages.{stage_of, IsFirst};

use crate::context::Context;
use crate::incoming::read_more;
use crate::mail::serial_after;
use bus_view::BusView;
use message::Framer;
use message_core::Message;
use router_core::{CloseCause, Gate};
use sasl::Server;
use seq_bus_core::Conn;
use std::alloc::{AllocError, Global};
use std::collections::VecDeque;
use std::marker::Model;

/// How far a connection has come.
#[derive(Drop)]
pub enum Stage {
    /// It says who it is.
    Authenticating(Box<Server>),
    /// It has no name yet. It is privileged where it proved to be its user's.
    Unnamed { privileged: bool },
    /// Its Hello gave it a number and a slot.
    Named(Conn),
    /// The bus closed it, and it is not gone yet.
    Closing(Option<Conn>),
}

impl Stage {
    /// What its Hello gave it.
    pub fn conn(&self) -> Option<Conn>
        ensures { result ≡ conn_of (stage_of self.now) }
    {
        match self {
            Stage::Authenticating(_) => None,
            Stage::Unnamed { privileged: _ } => None,
            Stage::Named(conn) => Some(*conn),
            Stage::Closing(conn) => *conn,
        }
    }
}

/// A connection: how far it has come, its bytes that were not served, the serial of the last
/// message of the bus to it, and whether it is a monitor.
#[derive(Drop)]
pub struct Peer {
    pub(crate) alloc: Global,
    pub(crate) stage: Stage,
    /// Messages that were taken off its bytes, and were not served.
    pub(crate) pending: VecDeque<Message>,
    pub(crate) unread: Framer,
    pub(crate) serial: u32,
    pub(crate) watches: bool,
}

impl Model for Peer {
    ghost use Rattle.std.specs.Prelude.{◌≡◌, ◌++◌, None};
    ghost use Rattle.router_core.specs.Standing.{Peer as Standing_peer};
    ghost use Rattle.router_steps.specs.Stages.{stage_of, unread_at, IsSilentAt};
    ghost use Rattle.router_steps.specs.Pending.{AreWithin, pending_bytes};

    ghost Value = { Standing_peer };

    ghost view = { λ p. record {
      stage = stage_of p.stage;
      unread = unread_at p.stage
          (pending_bytes p.pending.items ++ p.unread.bytes);
      serial = p.serial;
      watches = p.watches;
    } };

    ghost invariant = { λ p. (p.unread.fault ≡ None) × AreWithin p.pending.items ×
        IsSilentAt p.stage (pending_bytes p.pending.items ++ p.unread.bytes) };
}

impl Peer {
    /// A connection that has sent nothing.
    #[tactic(auto, using(crate::proofs::Stages::first_unread, crate::proofs::Stages::nothing_silent))]
    pub fn new(alloc: Global, stage: Stage) -> Peer
        requires { IsFirst stage }
        ensures { result ≡ newcomer (stage_of stage) }
    {
        Peer {
            alloc,
            stage,
            pending: VecDeque::new(alloc),
            unread: Framer::new(alloc),
            serial: 0,
            watches: false,
        }
    }

    /// How far it has come.
    pub fn stage(&self) -> &Stage
        ensures { stage_of result.now ≡ self.now.stage }
    {
        &self.stage
    }

    /// Whether it is a monitor, which sends nothing any more.
    pub fn watches(&self) -> bool
        ensures { result ≡ self.now.watches }
    {
        self.watches
    }

    /// Takes a piece of the bytes of its messages. Once it was closed it takes none. Without memory
    /// nothing changes, and the piece stays where it was.
    pub(crate) fn feed(&mut self, piece: &mut Vec<u8>) -> Result<(), AllocError>
        requires { SpeaksDBus self.old.stage }
        ensures ok { OnOk result (self.new ≡ with_bytes piece.old.items self.old self.old.stage) }
        ensures err { OnErr result (self.new ≡ self.old) }
        ensures kept { OnErr result (piece.new ≡ piece.old) }
    {
        match self.stage {
            Stage::Closing(_) => Ok(()),
            Stage::Unnamed { privileged: _ } | Stage::Named(_) => self.unread.feed_owned(piece),
            Stage::Authenticating(_) => Ok(()),
        }
    }

    /// Takes one more message off its bytes, if it is there as a whole, and leaves it pending: it
    /// stays as it was, also without memory.
    pub fn read_ahead(&mut self) -> Result<(), AllocError>
        ensures { self.new ≡ self.old }
    {
        match self.stage {
            Stage::Authenticating(_) | Stage::Closing(_) => Ok(()),
            Stage::Unnamed { privileged: _ } | Stage::Named(_) => {
                match read_more(&mut self.pending, &mut self.unread) {
                    Ok(_) => Ok(()),
                    Err(error) => Err(error),
                }
            }
        }
    }

    /// Whether there is something of it to be served: a whole message at the front of its bytes, or
    /// what is none.
    pub fn has_next(&self) -> bool
        ensures quiet { result ≡ false → IsQuiet self.now }
        ensures ready { result ≡ true → IsQuiet self.now → ⊥ }
    {
        match self.stage {
            Stage::Authenticating(_) | Stage::Closing(_) => false,
            Stage::Unnamed { privileged: _ } => self.has_incoming(),
            Stage::Named(_) => self.has_incoming(),
        }
    }

    /// Whether a message stands at the front of its bytes, or what is none.
    #[tactic(auto, using(crate::proofs::Waiting::pending_is_whole, crate::proofs::Stages::messages_unread))]
    fn has_incoming(&self) -> bool
        requires { SpeaksDBus self.now.stage }
        ensures waits { result ≡ false → IsIncoming self.now.unread Waits }
        ensures there { result ≡ true → IsIncoming self.now.unread Waits → ⊥ }
    {
        !self.pending.is_empty() || !self.unread.is_waiting()
    }

    /// The serial of the last message of the bus that was written to it.
    pub fn serial(&self) -> u32
        ensures { result ≡ self.now.serial }
    {
        self.serial
    }

    /// One more message of the bus is written to it.
    pub fn count(&mut self)
        ensures { self.new ≡ record self.old { serial = next_serial self.old.serial } }
    {
        self.serial = serial_after(self.serial);
    }

    /// Its Hello gave it this number and this slot.
    #[tactic(auto, using(crate::proofs::Stages::messages_unread))]
    pub fn welcome(&mut self, conn: Conn)
        requires { SpeaksDBus self.old.stage }
        ensures { self.new ≡ record self.old { stage = Named conn } }
    {
        self.stage = Stage::Named(conn);
    }

    /// Lets its bytes go.
    pub(crate) fn let_go(&mut self)
        requires { SpeaksDBus self.old.stage }
        ensures { self.new ≡ record self.old { unread = [] } }
    {
        self.pending = VecDeque::new(self.alloc);
        self.unread = Framer::new(self.alloc);
    }

    /// Closes it: its bytes are let go.
    pub fn close(&mut self)
        ensures { self.new ≡ closing_peer self.old }
    {
        self.stage = Stage::Closing(self.stage.conn());
        self.let_go();
    }
}

impl<V: BusView, G: Gate> Context<V, G> {
    /// Closes a connection.
    pub fn close_peer(&mut self, key: usize, peer: &mut Peer, cause: CloseCause)
        requires { 0 < self.old.room }
        ensures comes { RunsTo V.BusView G.Gate (closing key cause peer.old)
            self.old.world peer.new self.new.world }
        ensures room { self.old.room ≤ self.new.room + 1 }
        ensures spare_verdicts { self.new.spare_verdicts ≡ self.old.spare_verdicts }
    {
        peer.close();
        self.close(key, cause);
    }

    /// Closes a connection that has a name, if it has left.
    fn close_if_absent(&mut self, key: usize, peer: &mut Peer, conn: Conn)
        requires { 0 < self.old.room }
        ensures comes { RunsTo V.BusView G.Gate (checking_presence key peer.old (Named conn))
            self.old.world peer.new self.new.world }
        ensures room { self.old.room ≤ self.new.room + 1 }
    {
        match self.is_present(conn.number) {
            Ok(false) => self.close_peer(key, peer, CloseCause::Left),
            Ok(true) => {}
            Err(_) => {}
        }
    }

    /// Closes a connection that has left.
    pub fn check_presence(&mut self, key: usize, peer: &mut Peer)
        requires { 0 < self.old.room }
        ensures comes { RunsTo V.BusView G.Gate (checking_presence key peer.old peer.old.stage)
            self.old.world peer.new self.new.world }
        ensures room { self.old.room ≤ self.new.room + 1 }
    {
        if let Stage::Named(conn) = peer.stage() {
            let conn = *conn;
            self.close_if_absent(key, peer, conn);
        }
    }
}

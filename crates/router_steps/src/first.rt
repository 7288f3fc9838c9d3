//! The first message of a connection. (D-Bus Specification: "org.freedesktop.DBus.Hello")

ghost use Rattle.std.specs.Prelude.{◌≡◌, ◌<◌, Some, None, IfOk, IfSome, OnOk, OnErr};
ghost use Rattle.router_core.specs.Standing.{Unnamed, SpeaksDBus};
ghost use Rattle.router_steps.specs.Reading.{HasIncoming, HasFirst, IsRest, ComesOfNext};

use crate::context::Context;
use crate::hello_errors::HelloErrors;
use crate::incoming::{Incoming, More, fill, take_incoming};
use crate::mail::serial_after;
use crate::peer::Peer;
use bus_view::BusView;
use driver::is_hello;
use message_core::{FrameFault, Message};
use router_core::{CloseCause, Gate};
use std::alloc::AllocError;

/// What a connection sends first.
#[derive(Drop)]
pub(crate) enum FirstIncoming {
    /// More bytes are wanted.
    Waits,
    /// The call of Hello, with the errors that it may be answered.
    Hello(Message, HelloErrors),
    /// Another message.
    Other(Message),
    /// No message.
    Faulty(FrameFault),
}

/// The call of Hello, which was taken off the bytes of its connection.
#[derive(Drop)]
pub struct HelloCall {
    /// Whether the connection proved to be its user's.
    pub privileged: bool,
    pub hello: Message,
    /// The errors that it may be answered.
    pub errors: HelloErrors,
}

impl Peer {
    /// Takes its next message off its bytes; at a fault they are let go. Without memory nothing
    /// changes.
    #[tactic(auto, using(crate::proofs::Stages::messages_unread, crate::proofs::Stages::messages_silent))]
    pub fn take_next(&mut self) -> Result<Incoming, AllocError>
        requires { SpeaksDBus self.old.stage }
        ensures incoming { IfOk result
            (λ incoming. HasIncoming incoming self.old.unread self.new.unread) }
        ensures rest { OnOk result (IsRest self.old self.new) }
        ensures err { OnErr result (self.new ≡ self.old) }
    {
        take_incoming(self.alloc, &mut self.pending, &mut self.unread)
    }

    /// Takes its first message off its bytes. Without memory nothing changes.
    #[tactic(auto, using(crate::proofs::Stages::messages_unread, crate::proofs::Stages::messages_silent))]
    fn take_first(&mut self) -> Result<FirstIncoming, AllocError>
        requires { SpeaksDBus self.old.stage }
        ensures ok { IfOk result (λ first. HasFirst first self.old self.new) }
        ensures err { OnErr result (self.new ≡ self.old) }
    {
        match fill(&mut self.pending, &mut self.unread)? {
            More::Waits => Ok(FirstIncoming::Waits),
            More::Faulty(fault) => {
                self.let_go();
                Ok(FirstIncoming::Faulty(fault))
            }
            More::Pending => {
                let Some(message) = self.pending.pop_front() else {
                    unreachable!()
                };
                if !is_hello(&message) {
                    return Ok(FirstIncoming::Other(message));
                }
                match HelloErrors::new(self.alloc, &message, serial_after(self.serial)) {
                    Ok(errors) => Ok(FirstIncoming::Hello(message, errors)),
                    Err(error) => {
                        self.pending.push_front_reserved(message);
                        Err(error)
                    }
                }
            }
        }
    }
}

impl<V: BusView, G: Gate> Context<V, G> {
    /// Takes the first message of a connection that has no name yet, if it is there. One that says
    /// Hello is to be served; one that sends anything else is closed. Without memory nothing
    /// changes.
    pub fn hello_or_close(
        &mut self,
        key: usize,
        peer: &mut Peer,
        privileged: bool,
    ) -> Result<Option<HelloCall>, AllocError>
        requires room { 0 < self.old.room }
        requires unnamed { peer.old.stage ≡ Unnamed privileged }
        ensures next { IfOk result (λ call. ComesOfNext V.BusView G.Gate key call (Some peer.old)
            (Some peer.new) self.old.world self.new.world) }
        ensures kept { IfOk result
            (λ call. IfSome call (λ _. (self.new.room ≡ self.old.room) ×
            (self.new.spare_verdicts ≡ self.old.spare_verdicts))) }
        ensures err { OnErr result (peer.new ≡ peer.old) }
        ensures world { OnErr result (self.new.world ≡ self.old.world) }
    {
        match peer.take_first()? {
            FirstIncoming::Waits => Ok(None),
            FirstIncoming::Hello(hello, errors) => Ok(Some(HelloCall {
                privileged,
                hello,
                errors,
            })),
            FirstIncoming::Other(_message) => {
                self.close_peer(key, peer, CloseCause::NotHello);
                Ok(None)
            }
            FirstIncoming::Faulty(fault) => {
                self.close_peer(key, peer, CloseCause::Faulty(fault));
                Ok(None)
            }
        }
    }
}

//! Hellos that are answered an error. (D-Bus Specification: "org.freedesktop.DBus.Hello")

ghost use Rattle.std.specs.Prelude.{◌≡◌, ◌<◌, ◌≤◌, ◌+◌, IfOk};
ghost use Rattle.message_core.specs.Messages.{IsWritten};
ghost use Rattle.message_core.specs.Said.{said};
ghost use Rattle.message.specs.FactsOf.{facts_of};
ghost use Rattle.outbox_core.specs.Contents.{Errs, own_of, bus_message};
ghost use Rattle.router_core.specs.Answers.{error_for, refusal_of};
ghost use Rattle.router_core.specs.Events.{refusing_routed, refusing_hello, dismissal};
ghost use Rattle.router_core.specs.Scripts.{Routing, RunsTo};
ghost use Rattle.router_core.specs.Standing.{next_serial};
ghost use Rattle.router_steps.specs.Refusing.{IsRefusal, AreRefusals, hello_of};

use crate::context::Context;
use crate::mail::bytes_of;
use crate::peer::Peer;
use crate::verdicts::tell_monitors_alone;
use bus_view::{BusView, Cause};
use driver::{ReplyTo, expects_reply};
use message_core::Message;
use outbox_core::{BusMessage, Content};
use router_core::{CloseCause, Gate, WrittenBytes};
use seq_bus_core::ErrorKind;
use std::alloc::{AllocError, Global};
use std::marker::Model;

/// The error that a Hello is answered. Its caller has no name yet.
fn refusal(hello: &Message, error: ErrorKind) -> BusMessage
    ensures { own_of result ≡ Errs (hello_of (said hello.now)) error }
{
    let _bytes = hello.as_bytes();
    let to = ReplyTo::new(None, hello.serial());
    BusMessage::Error { to, error }
}

/// The error that a Hello is answered, in its bytes.
fn refusal_bytes(
    alloc: Global,
    hello: &Message,
    error: ErrorKind,
    serial: u32,
) -> Result<WrittenBytes, AllocError>
    requires { 0 < serial }
    ensures { IfOk result (λ bytes. IsRefusal (said hello.now) error serial bytes) }
{
    bytes_of(alloc, &Content::Own(refusal(hello, error)), serial)
}

/// The errors that a Hello may be answered, in their bytes. They are made before the bus is asked,
/// so that its answer needs no memory.
#[derive(Drop)]
pub struct HelloErrors {
    no_memory: WrittenBytes,
    failed: WrittenBytes,
    limits: WrittenBytes,
}

impl Model for HelloErrors {
    ghost use Rattle.router_steps.specs.Refusing.{Spelled};

    ghost Value = { Spelled };

    ghost view = { λ r. record { no_memory = r.no_memory; failed = r.failed; limits = r.limits } };
}

impl HelloErrors {
    /// The errors that this Hello may be answered, as the message of the bus of this serial.
    pub fn new(alloc: Global, hello: &Message, serial: u32) -> Result<HelloErrors, AllocError>
        requires { 0 < serial }
        ensures { IfOk result (λ errors. AreRefusals (said hello.now) serial errors) }
    {
        let no_memory = refusal_bytes(alloc, hello, ErrorKind::NoMemory, serial)?;
        let failed = refusal_bytes(alloc, hello, ErrorKind::Failed, serial)?;
        let limits = refusal_bytes(alloc, hello, ErrorKind::LimitsExceeded, serial)?;
        Ok(HelloErrors {
            no_memory,
            failed,
            limits,
        })
    }

    /// The bytes of the error that a limit of the bus would be exceeded.
    pub fn into_limits(self) -> WrittenBytes
        ensures { result ≡ self.limits }
    {
        self.limits
    }
}

impl<V: BusView, G: Gate> Context<V, G> {
    /// Writes an error to a connection that has no name, and puts it to the monitors.
    fn refuse(&mut self, key: usize, peer: &mut Peer, own: BusMessage, bytes: WrittenBytes)
        requires room { 1 < self.old.room }
        requires spare_verdicts { 0 < self.old.spare_verdicts }
        requires written { IsWritten bytes
            (bus_message (next_serial peer.old.serial) (own_of own)) }
        ensures comes { RunsTo V.BusView G.Gate
            (Routing 0 (facts_of (bus_message 1 (own_of own)))
            (λ heard. refusing_routed key (own_of own) peer.old heard))
            self.old.world peer.new self.new.world }
        ensures room { self.old.room ≤ self.new.room + 2 }
    {
        let mut verdict = self.ask_monitors(&own);
        tell_monitors_alone(&mut verdict);
        peer.count();
        self.send(key, bytes);
        self.put_to(verdict, Content::Own(own));
    }

    /// Answers a Hello an error, if it wants an answer. The connection stays without a name: it may
    /// say Hello again.
    fn refuse_with(
        &mut self,
        key: usize,
        hello: &Message,
        peer: &mut Peer,
        error: ErrorKind,
        bytes: WrittenBytes,
    )
        requires room { 1 < self.old.room }
        requires spare_verdicts { 0 < self.old.spare_verdicts }
        requires written { IsRefusal (said hello.now) error (next_serial peer.old.serial) bytes }
        ensures comes { RunsTo V.BusView G.Gate (refusing_hello key (said hello.now) error peer.old)
            self.old.world peer.new self.new.world }
        ensures room { self.old.room ≤ self.new.room + 2 }
    {
        if expects_reply(hello) {
            self.refuse(key, peer, refusal(hello, error), bytes);
        }
    }

    /// Answers a Hello that would exceed a limit of the bus, and closes its connection.
    pub fn turn_away(&mut self, key: usize, hello: &Message, peer: &mut Peer, bytes: WrittenBytes)
        requires room { 2 < self.old.room }
        requires spare_verdicts { 0 < self.old.spare_verdicts }
        requires written { IsRefusal (said hello.now) ErrorKind.LimitsExceeded
            (next_serial peer.old.serial) bytes }
        ensures { RunsTo V.BusView G.Gate (dismissal key (said hello.now) peer.old)
            self.old.world peer.new self.new.world }
    {
        self.refuse_with(key, hello, peer, ErrorKind::LimitsExceeded, bytes);
        self.close_peer(key, peer, CloseCause::LimitsExceeded);
    }

    /// Answers a Hello that the bus refused.
    pub fn refuse_for(
        &mut self,
        key: usize,
        hello: &Message,
        peer: &mut Peer,
        why: Cause,
        errors: HelloErrors,
    )
        requires room { 1 < self.old.room }
        requires spare_verdicts { 0 < self.old.spare_verdicts }
        requires written { AreRefusals (said hello.now) (next_serial peer.old.serial) errors }
        ensures { RunsTo V.BusView G.Gate
            (refusing_hello key (said hello.now) (error_for (refusal_of why)) peer.old)
            self.old.world peer.new self.new.world }
    {
        match why {
            Cause::NoMemory => {
                self.refuse_with(key, hello, peer, ErrorKind::NoMemory, errors.no_memory);
            }
            Cause::ForeignSeat | Cause::HistoryFull | Cause::Gone => {
                self.refuse_with(key, hello, peer, ErrorKind::Failed, errors.failed);
            }
        }
    }
}

//! Messages that connections send one another. (D-Bus Specification: "Message Bus Message Routing")

ghost use Rattle.std.specs.Prelude.{◌≡◌, ◌≢◌, ◌<◌, ◌≤◌, ◌+◌, [], IfOk, IsOk, OnOk, OnErr};
ghost use Rattle.message_core.specs.Said.{said};
ghost use Rattle.message.specs.MessageBytes.{message_bytes, is_too_long};
ghost use Rattle.outbox_core.specs.Contents.{Relays};
ghost use Rattle.outbox_core.specs.Deliveries.{deliveries_of};
ghost use Rattle.router_core.specs.Scripts.{World, RunsTo, putting};
ghost use Rattle.router_core.specs.Serving.{OfFate, nothing, with_sender, relaying_to, showing};
ghost use Rattle.router_core.specs.declared.fate.PeerFate.{PeerFate as Fate};
ghost use Rattle.router_steps.specs.OncePut.{is_long, after_put};

use crate::context::Context;
use crate::verdicts::{is_for_nobody, tell_monitors_alone};
use bus_view::BusView;
use message::{RelayFault, relay, relayed_length};
use message_core::Message;
use names::ConnectionName;
use outbox_core::Content;
use router_core::Gate;
use seq_bus_core::{Conn, SharedBytes, Verdict};
use std::sync::Arc;

impl<V: BusView, G: Gate> Context<V, G> {
    /// The bytes of the message as it is passed on, with its sender's name.
    #[tactic(auto, using(crate::proofs::Signing::long_is))]
    pub fn sign(&self, message: &Message, sender: Conn) -> Result<SharedBytes, RelayFault>
        ensures bytes { IfOk result
            (λ bytes. bytes ≡ message_bytes (with_sender (said message.now) sender)) }
        ensures too_long { is_too_long (with_sender (said message.now) sender) ≡ is_long result }
    {
        let mut bytes = Vec::new(self.alloc);
        if let Err(fault) = relay(message, &ConnectionName::of(sender.number), &mut bytes) {
            return Err(fault);
        }
        match Arc::new(self.alloc, bytes) {
            Ok(bytes) => Ok(SharedBytes::new(bytes)),
            Err(_) => Err(RelayFault::NoMemory),
        }
    }

    /// Puts a message to the recipients and to the monitors of its verdict, each once, with its
    /// sender's name. To nobody it is not put, only measured.
    ///
    /// # Errors
    ///
    /// It would be too long with that name, or there is no memory for it: then it is dropped whole.
    pub fn relay(
        &mut self,
        message: &Message,
        sender: Conn,
        verdict: Box<Verdict>,
    ) -> Result<(), RelayFault>
        requires { 0 < self.old.room }
        ensures comes { (goes_on : OfFate) (fate : Fate) (end : World V.Note G) →
            RunsTo V.BusView G.Gate
            (after_put result (said message.now) sender goes_on) self.new.world fate end →
            RunsTo V.BusView G.Gate
            (relaying_to (said message.now) sender
            (deliveries_of verdict.value.to verdict.value.monitors) goes_on)
            self.old.world fate end }
        ensures put { OnOk result (RunsTo V.BusView G.Gate
            (putting (deliveries_of verdict.value.to verdict.value.monitors)
            (Relays (message_bytes (with_sender (said message.now) sender))) nothing)
            self.old.world tt self.new.world) }
        ensures unput { OnErr result (self.new.world ≡ self.old.world) }
        ensures too_long { is_too_long (with_sender (said message.now) sender) ≡ is_long result }
        ensures room { self.old.room ≤ self.new.room + 1 }
        ensures spare_verdicts { self.old.spare_verdicts ≤ self.new.spare_verdicts }
    {
        if is_for_nobody(&verdict) {
            self.keep_verdict(verdict);
            return match relayed_length(message, &ConnectionName::of(sender.number)) {
                Ok(_) => Ok(()),
                Err(fault) => Err(fault),
            };
        }
        match self.sign(message, sender) {
            Ok(bytes) => {
                self.put_to(verdict, Content::Relayed(bytes));
                Ok(())
            }
            Err(fault) => Err(fault),
        }
    }

    /// Puts a message to the monitors of its verdict, with its sender's name. To nobody it is not
    /// put, only measured.
    ///
    /// # Errors
    ///
    /// As those of `relay`.
    pub fn relay_to_monitors(
        &mut self,
        message: &Message,
        sender: Conn,
        verdict: Box<Verdict>,
    ) -> Result<(), RelayFault>
        requires { 0 < self.old.room }
        ensures comes { (goes_on : OfFate) (fate : Fate) (end : World V.Note G) →
            RunsTo V.BusView G.Gate
            (after_put result (said message.now) sender goes_on) self.new.world fate end →
            RunsTo V.BusView G.Gate
            (relaying_to (said message.now) sender verdict.value.monitors goes_on)
            self.old.world fate end }
        ensures put { OnOk result (RunsTo V.BusView G.Gate
            (putting verdict.value.monitors
            (Relays (message_bytes (with_sender (said message.now) sender))) nothing)
            self.old.world tt self.new.world) }
        ensures unput { OnErr result (self.new.world ≡ self.old.world) }
        ensures too_long { is_too_long (with_sender (said message.now) sender) ≡ is_long result }
        ensures room { self.old.room ≤ self.new.room + 1 }
        ensures spare_verdicts { self.old.spare_verdicts ≤ self.new.spare_verdicts }
    {
        let mut verdict = verdict;
        tell_monitors_alone(&mut verdict);
        self.relay(message, sender, verdict)
    }

    /// Puts a message to the bus to the monitors of its verdict. Where there is none, it is not
    /// even measured.
    ///
    /// # Errors
    ///
    /// As those of `relay`.
    pub fn show(
        &mut self,
        message: &Message,
        sender: Conn,
        verdict: Box<Verdict>,
    ) -> Result<(), RelayFault>
        requires { 0 < self.old.room }
        ensures comes { (goes_on : OfFate) (fate : Fate) (end : World V.Note G) →
            RunsTo V.BusView G.Gate
            (after_put result (said message.now) sender goes_on) self.new.world fate end →
            RunsTo V.BusView G.Gate
            (showing (said message.now) sender verdict.value.monitors goes_on)
            self.old.world fate end }
        ensures put { OnOk result (RunsTo V.BusView G.Gate
            (putting verdict.value.monitors
            (Relays (message_bytes (with_sender (said message.now) sender))) nothing)
            self.old.world tt self.new.world) }
        ensures unput { OnErr result (self.new.world ≡ self.old.world) }
        ensures too_long { verdict.value.monitors ≢ [] →
            is_too_long (with_sender (said message.now) sender) ≡ is_long result }
        ensures unshown { verdict.value.monitors ≡ [] → IsOk result }
        ensures room { self.old.room ≤ self.new.room + 1 }
        ensures spare_verdicts { self.old.spare_verdicts ≤ self.new.spare_verdicts }
    {
        if verdict.monitors.as_slice().is_empty() {
            self.keep_verdict(verdict);
            return Ok(());
        }
        self.relay_to_monitors(message, sender, verdict)
    }
}

//! Calls that waited for a service. (D-Bus Specification: "Message Bus Starting Services
//! (Activation)")

ghost use Rattle.std.specs.Prelude.{◌≡◌, ◌<◌, ◌≤◌, ◌+◌, Some, length};
ghost use Rattle.router_core.specs.Scripts.{Wanting, RunsTo};
ghost use Rattle.router_core.specs.Serving.{releasing, releasing_all, start_reply_if, ticket_wants_reply};

use crate::context::Context;
use bus_view::BusView;
use driver::{ReplyBody, ReplyTo};
use message_core::NO_REPLY_EXPECTED;
use outbox_core::{BusMessage, Content};
use router_core::{Addressees, Gate};
use seq_bus_core::{Conn, Ticket, Tickets};

/// Whether the call that waited is answered where the bus itself answers it.
pub(crate) fn wants_reply(ticket: &Ticket) -> bool
    ensures { result ≡ ticket_wants_reply ticket.now }
{
    ticket.call.flags & NO_REPLY_EXPECTED == 0
}

impl<V: BusView, G: Gate> Context<V, G> {
    /// Answers the call of this serial that its service was started, and shows the monitors the
    /// reply. Without memory nobody is told.
    fn tell_started(&mut self, caller: Conn, serial: u32)
        requires { 0 < self.old.room }
        ensures comes { RunsTo V.BusView G.Gate
            (Wanting (λ granted. start_reply_if caller
            (record { caller = Some caller.number; call = serial }) granted))
            self.old.world tt self.new.world }
        ensures room { self.old.room ≤ self.new.room + 1 }
    {
        // No message has the serial 0.
        if serial == 0 {
            return;
        }
        if self.reserve_verdicts(1).is_err() {
            return;
        }
        let to = ReplyTo::new(Some(caller.number), serial);
        let body = ReplyBody::Number(1);
        self.tell(caller, BusMessage::Reply { to, body });
    }

    /// Releases a call that waited for a name, once the name has this owner. The call is put to the
    /// owner, its bytes as they are held; StartServiceByName is answered that the service was
    /// started.
    pub(crate) fn release(&mut self, owner: Conn, ticket: Ticket)
        requires { 0 < self.old.room }
        ensures comes { RunsTo V.BusView G.Gate (releasing owner ticket ticket.message)
            self.old.world tt self.new.world }
        ensures room { self.old.room ≤ self.new.room + 1 }
    {
        let wants_reply = wants_reply(&ticket);
        match ticket.message {
            Some(message) => self.put(Addressees::one(owner), Content::Relayed(message)),
            None => {
                if wants_reply {
                    self.tell_started(ticket.caller, ticket.call.serial);
                }
            }
        }
    }

    /// Releases the calls that waited for a name, in order, once the name has this owner.
    pub fn release_all(&mut self, owner: Conn, tickets: Tickets)
        requires { length tickets ≤ self.old.room }
        ensures comes { RunsTo V.BusView G.Gate (releasing_all owner tickets)
            self.old.world tt self.new.world }
        ensures room { self.old.room ≤ self.new.room + length tickets }
    {
        for settled in tickets {
            self.release(owner, settled.ticket);
        }
    }
}

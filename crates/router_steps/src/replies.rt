//! Messages of the bus to one connection.

ghost use Rattle.std.specs.Prelude.{◌≡◌, ◌<◌, ◌≤◌, ◌+◌};
ghost use Rattle.seq_bus_core.specs.declared.verdict.Verdict.{Verdict as Told};
ghost use Rattle.message_core.specs.Said.{said};
ghost use Rattle.message.specs.FactsOf.{facts_of};
ghost use Rattle.outbox_core.specs.Contents.{carried_of, own_of, bus_message};
ghost use Rattle.router_core.specs.Answers.{Heard};
ghost use Rattle.router_core.specs.Scripts.{Routes, RunsTo};
ghost use Rattle.router_core.specs.Serving.{answering_with, call_of, erring_if_call, erring, is_method_call, monitors_in, replying, telling};
ghost use Rattle.router_steps.specs.Carrying.{answer_of};

use crate::context::Context;
use crate::verdicts::{set_recipient, tell_no_monitors};
use bus_view::BusView;
use driver::{ReplyBody, ReplyTo, expects_reply};
use match_rules::MessageKind;
use message_core::Message;
use outbox_core::{AnswerBody, BusMessage, Content};
use router_core::Gate;
use seq_bus_core::{Conn, ErrorKind, Verdict};

/// The call, as it is answered.
fn call_of(message: &Message, caller: Conn) -> ReplyTo
    ensures { result ≡ call_of (said message.now) caller }
{
    let _bytes = message.as_bytes();
    ReplyTo::new(Some(caller.number), message.serial())
}

/// Whether the message calls a method.
pub fn is_method_call(message: &Message) -> bool
    ensures { result ≡ is_method_call (said message.now) }
{
    message.kind() == MessageKind::MethodCall
}

impl<V: BusView, G: Gate> Context<V, G> {
    /// Asks which monitors are shown a message of the bus. Where the bus does not say, it is shown
    /// to none; where there are no monitors, what they would see of it is not made.
    pub(crate) fn ask_monitors(&mut self, own: &BusMessage) -> Box<Verdict>
        requires { 0 < self.old.spare_verdicts }
        ensures routes { (heard : Heard Told) ×
            Routes V.alone 0 (facts_of (bus_message 1 (own_of own.now))) self.old.world heard
            self.new.world × (result.value.monitors ≡ monitors_in heard) }
        ensures room { self.new.room ≡ self.old.room }
        ensures spare_verdicts { self.new.spare_verdicts + 1 ≡ self.old.spare_verdicts }
    {
        let mut verdict = self.take_verdict();
        if !self.is_watched() {
            tell_no_monitors(&mut verdict);
            return verdict;
        }
        let names = own.names();
        let arguments = own.arguments(&names);
        let facts = own.facts(&names, arguments.as_slice());
        match self.route(0, &facts, &mut verdict) {
            Ok(()) => {}
            Err(_) => tell_no_monitors(&mut verdict),
        }
        verdict
    }

    /// Tells a connection a message of the bus. The monitors are shown it too.
    pub(crate) fn tell(&mut self, conn: Conn, own: BusMessage)
        requires room { 0 < self.old.room }
        requires spare_verdicts { 0 < self.old.spare_verdicts }
        ensures comes { RunsTo V.BusView G.Gate (telling conn (own_of own))
            self.old.world tt self.new.world }
        ensures room { self.old.room ≤ self.new.room + 1 }
        ensures spare_verdicts { self.old.spare_verdicts ≤ self.new.spare_verdicts + 1 }
    {
        let mut verdict = self.ask_monitors(&own);
        set_recipient(&mut verdict, conn);
        self.put_to(verdict, Content::Own(own));
    }

    /// Replies to a call. One that wants no reply gets none.
    pub fn reply_with(&mut self, call: &Message, caller: Conn, body: ReplyBody<AnswerBody>)
        requires room { 0 < self.old.room }
        requires spare_verdicts { 0 < self.old.spare_verdicts }
        ensures comes { RunsTo V.BusView G.Gate
            (replying (said call.now) caller (carried_of body))
            self.old.world tt self.new.world }
        ensures room { self.old.room ≤ self.new.room + 1 }
        ensures spare_verdicts { self.old.spare_verdicts ≤ self.new.spare_verdicts + 1 }
    {
        if expects_reply(call) {
            let to = call_of(call, caller);
            self.tell(caller, BusMessage::Reply { to, body });
        }
    }

    /// Answers a call an error. One that wants no reply gets none.
    pub fn err_with(&mut self, call: &Message, caller: Conn, error: ErrorKind)
        requires room { 0 < self.old.room }
        requires spare_verdicts { 0 < self.old.spare_verdicts }
        ensures comes { RunsTo V.BusView G.Gate (erring (said call.now) caller error)
            self.old.world tt self.new.world }
        ensures room { self.old.room ≤ self.new.room + 1 }
        ensures spare_verdicts { self.old.spare_verdicts ≤ self.new.spare_verdicts + 1 }
    {
        if expects_reply(call) {
            let to = call_of(call, caller);
            self.tell(caller, BusMessage::Error { to, error });
        }
    }

    /// Answers a call an error; another message is dropped.
    pub fn err_if_call(&mut self, message: &Message, sender: Conn, error: ErrorKind)
        requires room { 0 < self.old.room }
        requires spare_verdicts { 0 < self.old.spare_verdicts }
        ensures comes { RunsTo V.BusView G.Gate (erring_if_call (said message.now) sender error)
            self.old.world tt self.new.world }
        ensures room { self.old.room ≤ self.new.room + 1 }
        ensures spare_verdicts { self.old.spare_verdicts ≤ self.new.spare_verdicts + 1 }
    {
        if is_method_call(message) {
            self.err_with(message, sender, error);
        }
    }

    /// Answers a call: a reply, or an error.
    pub fn answer_with(
        &mut self,
        call: &Message,
        caller: Conn,
        answer: Result<ReplyBody<AnswerBody>, ErrorKind>,
    )
        requires room { 0 < self.old.room }
        requires spare_verdicts { 0 < self.old.spare_verdicts }
        ensures comes { RunsTo V.BusView G.Gate
            (answering_with (said call.now) caller (answer_of answer))
            self.old.world tt self.new.world }
        ensures room { self.old.room ≤ self.new.room + 1 }
        ensures spare_verdicts { self.old.spare_verdicts ≤ self.new.spare_verdicts + 1 }
    {
        match answer {
            Ok(body) => self.reply_with(call, caller, body),
            Err(error) => self.err_with(call, caller, error),
        }
    }
}

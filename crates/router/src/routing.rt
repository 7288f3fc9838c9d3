//! Where the messages of a connection go. (D-Bus Specification: "Message Bus Message Routing")

ghost use Rattle.std.specs.Prelude.{◌≡◌, ◌<◌, ◌≤◌, ◌+◌, false, map};
ghost use Rattle.match_rules.specs.FactsView.{argument_of};
ghost use Rattle.match_rules.specs.Kinds.{kind_of};
ghost use Rattle.message_core.specs.Said.{said};
ghost use Rattle.router_core.specs.declared.limits.TheConstants.{MAX_EFFECTS};
ghost use Rattle.message.specs.FactsOf.{facts_of, first_arguments};
ghost use Rattle.router_core.specs.Scripts.{Routes, RunsTo};
ghost use Rattle.router_core.specs.Serving.{staying_after, erring_if_call, is_unknown, relaying, routing, serving};
ghost use Rattle.router_steps.specs.Hearing.{heard_verdict};
ghost use Rattle.router_steps.specs.OncePut.{after_relay_fault};

use crate::activation::hold;
use crate::calls::serve_bus;
use arrayvec::ArrayVec;
use bus_view::{BusView, Gone};
use match_rules::{Argument, MessageKind};
use message::{RelayFault, facts, first_arguments, put_arguments};
use message_core::Message;
use router_core::{CloseCause, Gate, PeerFate};
use router_steps::Context;
use seq_bus_core::{Conn, ErrorKind, Verdict, VerdictKind};
use std::alloc::Global;

/// Answers a call with an error. The connection stays open.
fn err_and_stay<V: BusView, G: Gate>(
    context: &mut Context<V, G>,
    message: &Message,
    sender: Conn,
    error: ErrorKind,
) -> PeerFate
    requires room { 0 < context.old.room }
    requires spare_verdicts { 0 < context.old.spare_verdicts }
    ensures comes { RunsTo V.BusView G.Gate
        (staying_after (erring_if_call (said message.now) sender error))
        context.old.world result context.new.world }
    ensures room { context.old.room ≤ context.new.room + 1 }
{
    context.err_if_call(message, sender, error);
    PeerFate::Stays
}

/// What becomes of a connection whose message was not put.
pub(crate) fn not_put<V: BusView, G: Gate>(
    context: &mut Context<V, G>,
    message: &Message,
    sender: Conn,
    fault: RelayFault,
) -> PeerFate
    requires room { 0 < context.old.room }
    requires spare_verdicts { 0 < context.old.spare_verdicts }
    ensures comes { RunsTo V.BusView G.Gate (after_relay_fault fault (said message.now) sender)
        context.old.world result context.new.world }
    ensures room { context.old.room ≤ context.new.room + 1 }
{
    match fault {
        RelayFault::TooLong => PeerFate::Closes(CloseCause::TooLong),
        RelayFault::NoMemory => err_and_stay(context, message, sender, ErrorKind::NoMemory),
    }
}

/// Relays a message that has recipients.
fn relay_plainly<V: BusView, G: Gate>(
    context: &mut Context<V, G>,
    message: &Message,
    sender: Conn,
    verdict: Box<Verdict>,
) -> PeerFate
    requires room { 1 < context.old.room }
    requires spare_verdicts { 0 < context.old.spare_verdicts }
    requires plain { verdict.value.kind ≡ VerdictKind.Plain }
    ensures comes { RunsTo V.BusView G.Gate
        (relaying (said message.now) sender verdict.value verdict.value.kind)
        context.old.world result context.new.world }
    ensures room { context.old.room ≤ context.new.room + 2 }
{
    match context.relay(message, sender, verdict) {
        Ok(()) => PeerFate::Stays,
        Err(fault) => not_put(context, message, sender, fault),
    }
}

/// Shows the monitors a message that nobody gets. A call is answered ServiceUnknown.
fn relay_to_nobody<V: BusView, G: Gate>(
    context: &mut Context<V, G>,
    message: &Message,
    sender: Conn,
    verdict: Box<Verdict>,
) -> PeerFate
    requires room { 1 < context.old.room }
    requires spare_verdicts { 0 < context.old.spare_verdicts }
    requires nobody { verdict.value.kind ≡ VerdictKind.Nobody }
    ensures comes { RunsTo V.BusView G.Gate
        (relaying (said message.now) sender verdict.value verdict.value.kind)
        context.old.world result context.new.world }
    ensures room { context.old.room ≤ context.new.room + 2 }
{
    match context.relay_to_monitors(message, sender, verdict) {
        Ok(()) => err_and_stay(context, message, sender, ErrorKind::ServiceUnknown),
        Err(fault) => not_put(context, message, sender, fault),
    }
}

/// Shows the monitors a message to the bus, and serves it.
fn relay_to_bus<V: BusView, G: Gate>(
    alloc: Global,
    context: &mut Context<V, G>,
    right: &V::Right,
    message: &Message,
    sender: Conn,
    verdict: Box<Verdict>,
) -> PeerFate
    requires room { MAX_EFFECTS + 1 < context.old.room }
    requires spare_verdicts { 0 < context.old.spare_verdicts }
    requires bus { verdict.value.kind ≡ VerdictKind.Bus }
    ensures comes { RunsTo V.BusView G.Gate
        (relaying (said message.now) sender verdict.value verdict.value.kind)
        context.old.world result context.new.world }
    ensures room { context.old.room ≤ context.new.room + MAX_EFFECTS + 2 }
{
    match context.show(message, sender, verdict) {
        Ok(()) => serve_bus(alloc, context, right, message, sender),
        Err(fault) => not_put(context, message, sender, fault),
    }
}

/// Shows the monitors a call to a service that is to be started, which waits for it.
fn relay_to_service<V: BusView, G: Gate>(
    alloc: Global,
    context: &mut Context<V, G>,
    right: &V::Right,
    message: &Message,
    sender: Conn,
    verdict: Box<Verdict>,
) -> PeerFate
    requires room { 1 < context.old.room }
    requires spare_verdicts { 0 < context.old.spare_verdicts }
    requires start { verdict.value.kind ≡ VerdictKind.Start }
    ensures comes { RunsTo V.BusView G.Gate
        (relaying (said message.now) sender verdict.value verdict.value.kind)
        context.old.world result context.new.world }
    ensures room { context.old.room ≤ context.new.room + 2 }
{
    match context.relay_to_monitors(message, sender, verdict) {
        Ok(()) => hold(alloc, context, right, message, sender),
        Err(fault) => not_put(context, message, sender, fault),
    }
}

/// Relays a message by where it goes.
fn relay<V: BusView, G: Gate>(
    alloc: Global,
    context: &mut Context<V, G>,
    right: &V::Right,
    message: &Message,
    sender: Conn,
    verdict: Box<Verdict>,
) -> PeerFate
    requires room { MAX_EFFECTS + 1 < context.old.room }
    requires spare_verdicts { 0 < context.old.spare_verdicts }
    ensures comes { RunsTo V.BusView G.Gate
        (relaying (said message.now) sender verdict.value verdict.value.kind)
        context.old.world result context.new.world }
    ensures room { context.old.room ≤ context.new.room + MAX_EFFECTS + 2 }
{
    match verdict.kind {
        VerdictKind::Absent => PeerFate::Closes(CloseCause::Left),
        VerdictKind::Bus => relay_to_bus(alloc, context, right, message, sender, verdict),
        VerdictKind::Plain => relay_plainly(context, message, sender, verdict),
        VerdictKind::Nobody => relay_to_nobody(context, message, sender, verdict),
        VerdictKind::Start => relay_to_service(alloc, context, right, message, sender, verdict),
    }
}

/// Relays a message once the bus has said where it goes. Where it says nothing, a call is answered
/// Failed.
pub(crate) fn routed<V: BusView, G: Gate>(
    alloc: Global,
    context: &mut Context<V, G>,
    right: &V::Right,
    message: &Message,
    sender: Conn,
    verdict: Box<Verdict>,
    heard: Result<(), Gone>,
) -> PeerFate
    requires room { MAX_EFFECTS + 1 < context.old.room }
    requires spare_verdicts { 0 < context.old.spare_verdicts }
    ensures comes { RunsTo V.BusView G.Gate
        (routing (said message.now) sender (heard_verdict heard verdict.value))
        context.old.world result context.new.world }
    ensures room { context.old.room ≤ context.new.room + MAX_EFFECTS + 2 }
{
    match heard {
        Ok(()) => relay(alloc, context, right, message, sender, verdict),
        Err(_) => err_and_stay(context, message, sender, ErrorKind::Failed),
    }
}

/// Asks the bus where a message goes that has these first arguments.
fn ask_with<V: BusView, G: Gate>(
    context: &mut Context<V, G>,
    message: &Message,
    arguments: &[Argument<'_>],
    sender: Conn,
    verdict: &mut Verdict,
) -> Result<(), Gone>
    requires { map argument_of arguments.now ≡ first_arguments (said message.now) }
    ensures routes { Routes V.alone sender.number (facts_of (said message.now)) context.old.world
        (heard_verdict result verdict.new) context.new.world }
    ensures room { context.new.room ≡ context.old.room }
    ensures spare_verdicts { context.new.spare_verdicts ≡ context.old.spare_verdicts }
{
    // With the sender's number, as the bus takes them.
    let mut seen = facts(message, arguments);
    seen.sender = sender.number;
    context.route(sender.number, &seen, verdict)
}

/// The same for a message that has more than a few arguments. The room for them is large, and is
/// kept out of the way of the others.
#[inline(never)]
fn ask_with_many<V: BusView, G: Gate>(
    context: &mut Context<V, G>,
    message: &Message,
    sender: Conn,
    verdict: &mut Verdict,
) -> Result<(), Gone>
    ensures routes { Routes V.alone sender.number (facts_of (said message.now)) context.old.world
        (heard_verdict result verdict.new) context.new.world }
    ensures room { context.new.room ≡ context.old.room }
    ensures spare_verdicts { context.new.spare_verdicts ≡ context.old.spare_verdicts }
{
    let arguments = first_arguments(message);
    ask_with(context, message, arguments.as_slice(), sender, verdict)
}

/// Asks the bus where a message goes.
pub(crate) fn ask_route<V: BusView, G: Gate>(
    context: &mut Context<V, G>,
    message: &Message,
    sender: Conn,
    verdict: &mut Verdict,
) -> Result<(), Gone>
    ensures routes { Routes V.alone sender.number (facts_of (said message.now)) context.old.world
        (heard_verdict result verdict.new) context.new.world }
    ensures room { context.new.room ≡ context.old.room }
    ensures spare_verdicts { context.new.spare_verdicts ≡ context.old.spare_verdicts }
{
    let mut few = ArrayVec::<Argument<'_>, 8>::new();
    put_arguments(message, &mut few);
    if few.is_full() {
        return ask_with_many(context, message, sender, verdict);
    }
    ask_with(context, message, few.as_slice(), sender, verdict)
}

/// Asks the bus where a message goes, and relays it.
fn route_message<V: BusView, G: Gate>(
    alloc: Global,
    context: &mut Context<V, G>,
    right: &V::Right,
    message: &Message,
    sender: Conn,
) -> PeerFate
    requires room { MAX_EFFECTS + 1 < context.old.room }
    requires spare_verdicts { 1 < context.old.spare_verdicts }
    requires known { is_unknown (kind_of (said message.now).kind) ≡ false }
    ensures comes { RunsTo V.BusView G.Gate (serving (said message.now) sender)
        context.old.world result context.new.world }
    ensures room { context.old.room ≤ context.new.room + MAX_EFFECTS + 2 }
{
    let mut verdict = context.take_verdict();
    let heard = ask_route(context, message, sender, &mut verdict);
    routed(alloc, context, right, message, sender, verdict, heard)
}

/// Serves a message of a connection that has its name ("Message Bus Message Routing" of the D-Bus
/// Specification). A message of a type that the standard does not define is dropped.
///
/// What becomes of the connection then.
pub(crate) fn serve<V: BusView, G: Gate>(
    alloc: Global,
    context: &mut Context<V, G>,
    right: &V::Right,
    message: &Message,
    sender: Conn,
) -> PeerFate
    requires room { MAX_EFFECTS + 1 < context.old.room }
    requires spare_verdicts { 1 < context.old.spare_verdicts }
    ensures comes { RunsTo V.BusView G.Gate (serving (said message.now) sender)
        context.old.world result context.new.world }
    ensures room { context.old.room ≤ context.new.room + MAX_EFFECTS + 2 }
{
    match message.kind() {
        MessageKind::Unknown(_) => PeerFate::Stays,
        MessageKind::MethodCall
        | MessageKind::MethodReturn
        | MessageKind::Error
        | MessageKind::Signal => route_message(alloc, context, right, message, sender),
    }
}

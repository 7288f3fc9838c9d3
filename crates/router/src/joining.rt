//! Calls that add and remove rules, whose changes are made together. (D-Bus Specification: "Message
//! Bus Messages")

ghost use Rattle.std.specs.Prelude.{◌≡◌, ◌<◌, ◌≤◌, ◌+◌, [], Ok, Some, true, is_some};
ghost use Rattle.message_core.specs.Said.{said};
ghost use Rattle.router_core.specs.declared.limits.TheConstants.{MAX_EFFECTS};
ghost use Rattle.router_core.specs.Answers.{Says};
ghost use Rattle.router_core.specs.Scripts.{Changing, RunsTo};
ghost use Rattle.router_core.specs.Serving.{after_change};
ghost use Rattle.router_core.specs.Together.{change_of_joint, joining, joining_shown, joining_to, rule_call};
ghost use Rattle.router_core.specs.declared.joint.RuleCall.{RuleCall as Rule_call};
ghost use Rattle.router.specs.Joinings.{RepliesAlone, joining_of, parting_of};

use crate::calls::{answer_told, error_for};
use crate::routing::{ask_route, not_put, routed};
use bus_view::{BusView, Gone};
use driver::Call;
use message::RelayFault;
use message_core::Message;
use router_core::{CloseCause, Gate, Joint, PeerFate, RuleCall};
use router_steps::Context;
use seq_bus_core::{Change, Conn, Outcome, Reply, Verdict, VerdictKind};
use std::alloc::Global;

/// What comes of a call before its change.
#[derive(Drop)]
pub(crate) enum Joining {
    /// Its change is to be made with those of the calls before it.
    Joins,
    /// Something else is to be done for it, once their changes are made.
    Parts(Parting),
}

/// Why a call does not join others.
#[derive(Drop)]
pub(crate) enum Parting {
    /// The bus said that it goes elsewhere, or did not say.
    Routed(Result<(), Gone>, Box<Verdict>),
    /// It was not shown to the monitors.
    NotPut(RelayFault),
}

/// A call that adds or removes a rule, without its name.
pub(crate) fn rule_call_of(call: Call) -> RuleCall
    requires { is_some (rule_call (Ok call)) ≡ true }
    ensures { rule_call (Ok call) ≡ Some result }
{
    match call {
        Call::AddMatch { rule } => RuleCall::Adds(rule),
        Call::RemoveMatch { rule } => RuleCall::Removes(rule),
        _ => unreachable!(),
    }
}

/// The change that a call asks for.
pub(crate) fn change_of(joint: &Joint) -> Change
    ensures { result ≡ change_of_joint joint.now }
{
    match &joint.call {
        RuleCall::Adds(rule) => Change::AddMatch {
            connection: joint.caller.number,
            rule: *rule.get(),
        },
        RuleCall::Removes(rule) => Change::RemoveMatch {
            connection: joint.caller.number,
            rule: *rule.get(),
        },
    }
}

/// Shows a call to the bus to the monitors, and to the gate.
fn join_shown<V: BusView, G: Gate>(
    context: &mut Context<V, G>,
    message: &Message,
    caller: Conn,
    call: &Call,
    verdict: Box<Verdict>,
) -> Joining
    requires { 0 < context.old.room }
    ensures comes { (c : Rule_call) → rule_call (Ok call.now) ≡ Some c →
        RunsTo V.BusView G.Gate (joining_shown (said message.now) caller verdict.value.monitors c)
        context.old.world (joining_of (said message.now) caller result) context.new.world }
    ensures room { context.old.room ≤ context.new.room + 1 }
    ensures spare_verdicts { context.old.spare_verdicts ≤ context.new.spare_verdicts }
{
    match context.show(message, caller, verdict) {
        Ok(()) => {
            context.show_gate(call);
            Joining::Joins
        }
        Err(fault) => Joining::Parts(Parting::NotPut(fault)),
    }
}

/// Shows a call to those that are to see it before its change is made, if it goes to the bus.
fn join_to<V: BusView, G: Gate>(
    context: &mut Context<V, G>,
    message: &Message,
    caller: Conn,
    call: &Call,
    verdict: Box<Verdict>,
) -> Joining
    requires { 0 < context.old.room }
    ensures comes { (c : Rule_call) → rule_call (Ok call.now) ≡ Some c →
        RunsTo V.BusView G.Gate
        (joining_to (said message.now) caller verdict.value c verdict.value.kind)
        context.old.world (joining_of (said message.now) caller result) context.new.world }
    ensures room { context.old.room ≤ context.new.room + 1 }
    ensures spare_verdicts { context.old.spare_verdicts ≤ context.new.spare_verdicts }
{
    match verdict.kind {
        VerdictKind::Bus => join_shown(context, message, caller, call, verdict),
        VerdictKind::Absent => Joining::Parts(Parting::Routed(Ok(()), verdict)),
        VerdictKind::Plain => Joining::Parts(Parting::Routed(Ok(()), verdict)),
        VerdictKind::Nobody => Joining::Parts(Parting::Routed(Ok(()), verdict)),
        VerdictKind::Start => Joining::Parts(Parting::Routed(Ok(()), verdict)),
    }
}

/// Routes a call that adds or removes a rule, and shows it to the monitors and to the gate. Its
/// change is not made yet.
pub(crate) fn join<V: BusView, G: Gate>(
    context: &mut Context<V, G>,
    message: &Message,
    caller: Conn,
    call: &Call,
) -> Joining
    requires room { 0 < context.old.room }
    requires spare_verdicts { 0 < context.old.spare_verdicts }
    ensures comes { (c : Rule_call) → rule_call (Ok call.now) ≡ Some c →
        RunsTo V.BusView G.Gate (joining (said message.now) caller c)
        context.old.world (joining_of (said message.now) caller result) context.new.world }
    ensures room { context.old.room ≤ context.new.room + 1 }
    ensures spare_verdicts { context.old.spare_verdicts ≤ context.new.spare_verdicts + 1 }
{
    let mut verdict = context.take_verdict();
    match ask_route(context, message, caller, &mut verdict) {
        Ok(()) => join_to(context, message, caller, call, verdict),
        Err(gone) => Joining::Parts(Parting::Routed(Err(gone), verdict)),
    }
}

/// Does what is to be done for a call that did not join others.
pub(crate) fn part<V: BusView, G: Gate>(
    alloc: Global,
    context: &mut Context<V, G>,
    right: &V::Right,
    message: &Message,
    caller: Conn,
    parting: Parting,
) -> PeerFate
    requires room { MAX_EFFECTS + 1 < context.old.room }
    requires spare_verdicts { 0 < context.old.spare_verdicts }
    ensures comes { RunsTo V.BusView G.Gate (parting_of (said message.now) caller parting)
        context.old.world result context.new.world }
    ensures room { context.old.room ≤ context.new.room + MAX_EFFECTS + 2 }
{
    match parting {
        Parting::Routed(heard, verdict) => {
            routed(alloc, context, right, message, caller, verdict, heard)
        }
        Parting::NotPut(fault) => not_put(context, message, caller, fault),
    }
}

/// Answers a call whose change was made. Such a change brings no signals and lets no call go that
/// waited.
pub(crate) fn answer<V: BusView, G: Gate>(
    context: &mut Context<V, G>,
    joint: &Joint,
    outcome: Outcome,
) -> PeerFate
    requires room { 0 < context.old.room }
    requires spare_verdicts { 0 < context.old.spare_verdicts }
    requires alone { RepliesAlone outcome }
    ensures comes { RunsTo V.BusView G.Gate
        (after_change (said joint.now.message) joint.now.caller (Says outcome))
        context.old.world result context.new.world }
    ensures room { context.old.room ≤ context.new.room + 1 }
    ensures spare_verdicts { context.old.spare_verdicts ≤ context.new.spare_verdicts + 1 }
{
    match outcome.reply {
        Reply::Gone => PeerFate::Closes(CloseCause::Left),
        _ => {
            context.announce(outcome.signals);
            context.answer_with(&joint.message, joint.caller, answer_told(outcome.reply));
            PeerFate::Stays
        }
    }
}

/// Makes the change of a call by itself, and answers the call.
pub(crate) fn make<V: BusView, G: Gate>(
    context: &mut Context<V, G>,
    right: &V::Right,
    joint: &Joint,
) -> PeerFate
    requires room { 0 < context.old.room }
    requires spare_verdicts { 0 < context.old.spare_verdicts }
    ensures comes { RunsTo V.BusView G.Gate
        (Changing (change_of_joint joint.now)
        (λ heard. after_change (said joint.now.message) joint.now.caller heard))
        context.old.world result context.new.world }
    ensures room { context.old.room ≤ context.new.room + 1 }
    ensures spare_verdicts { context.old.spare_verdicts ≤ context.new.spare_verdicts + 1 }
{
    match context.change(right, change_of(joint)) {
        Ok(outcome) => answer(context, joint, outcome),
        Err(cause) => {
            context.err_with(&joint.message, joint.caller, error_for(cause));
            PeerFate::Stays
        }
    }
}

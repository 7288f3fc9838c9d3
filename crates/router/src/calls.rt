//! Calls to the bus.

ghost use Rattle.std.specs.Prelude.{◌≡◌, ◌<◌, ◌≤◌, ◌+◌, Ok, Some, length, IfOk};
ghost use Rattle.message_core.specs.Said.{said};
ghost use Rattle.seq_bus_core.specs.Bounds.{IsBounded};
ghost use Rattle.seq_bus_core.specs.Answers.{Answer};
ghost use Rattle.router_core.specs.declared.limits.TheConstants.{MAX_EFFECTS};
ghost use Rattle.driver.specs.declared.call.Call.TheVariants.{RequestName, ReleaseName, AddMatch, RemoveMatch};
ghost use Rattle.outbox_core.specs.Answers.{IsAnswerTo};
ghost use Rattle.router_core.specs.Answers.{Says, error_for, refusal_of, refusal_of_query};
ghost use Rattle.router_core.specs.Scripts.{RunsTo};
ghost use Rattle.router_core.specs.Serving.{Asks, Makes, staying_after, after_answer, answer_of_reply, erring, after_change, request_of, serving_bus, serving_call, serving_reading, serving_request, telling_change};
ghost use Rattle.router_steps.specs.Carrying.{answer_of};
ghost use Rattle.router_steps.specs.Hearing.{heard_change};

use crate::starting::start_service;
use crate::watching::become_monitor;
use bus_view::{AskFault, Asked, BusView, Cause};
use driver::{Call, DriverFault, ReplyBody, read_call};
use match_rules::Rule;
use message_core::Message;
use names::BusName;
use outbox_core::AnswerBody;
use owner_queues::RequestFlags;
use router_core::{CloseCause, Gate, PeerFate};
use router_steps::{Context, is_method_call};
use seq_bus_core::{Change, Conn, ErrorKind, Outcome, Query, Reply, SharedBytes};
use std::alloc::Global;
use std::sync::Arc;

/// What the call is answered that asked for a change, where the bus replied so.
pub(crate) fn answer_told(reply: Reply) -> Result<ReplyBody<AnswerBody>, ErrorKind>
    ensures { answer_of result ≡ answer_of_reply reply }
{
    match reply {
        Reply::Done => Ok(ReplyBody::Empty),
        Reply::OfQueue(reply) => Ok(ReplyBody::Number(reply.code())),
        Reply::InvalidName => Err(ErrorKind::InvalidArgs),
        Reply::RuleNotFound => Err(ErrorKind::MatchRuleNotFound),
        Reply::LimitsExceeded => Err(ErrorKind::LimitsExceeded),
        Reply::ServiceUnknown => Err(ErrorKind::ServiceUnknown),
        Reply::AccessDenied => Err(ErrorKind::AccessDenied),
        Reply::AlreadyRunning => Ok(ReplyBody::Number(2)),
        Reply::Gone => Err(ErrorKind::Failed),
        Reply::Welcome(_) => Err(ErrorKind::Failed),
        Reply::Held(_) => Err(ErrorKind::Failed),
        Reply::Pass(_) => Err(ErrorKind::Failed),
        Reply::Ignored => Err(ErrorKind::Failed),
    }
}

/// The error for a change that was refused.
pub(crate) fn error_for(cause: Cause) -> ErrorKind
    ensures { result ≡ error_for (refusal_of cause) }
{
    match cause {
        Cause::NoMemory => ErrorKind::NoMemory,
        Cause::ForeignSeat => ErrorKind::Failed,
        Cause::HistoryFull => ErrorKind::Failed,
        Cause::Gone => ErrorKind::Failed,
    }
}

/// The error for a query that was not answered.
fn error_unanswered(fault: AskFault) -> ErrorKind
    ensures { result ≡ error_for (refusal_of_query fault) }
{
    match fault {
        AskFault::NoMemory => ErrorKind::NoMemory,
        AskFault::Gone => ErrorKind::Failed,
    }
}

/// Answers a call an error. The caller stays.
pub(crate) fn refuse<V: BusView, G: Gate>(
    context: &mut Context<V, G>,
    call: &Message,
    caller: Conn,
    error: ErrorKind,
) -> PeerFate
    requires room { 0 < context.old.room }
    requires spare_verdicts { 0 < context.old.spare_verdicts }
    ensures comes { RunsTo V.BusView G.Gate (staying_after (erring (said call.now) caller error))
        context.old.world result context.new.world }
    ensures room { context.old.room ≤ context.new.room + 1 }
{
    context.err_with(call, caller, error);
    PeerFate::Stays
}

/// Tells of a change: its signals come first, then what the caller is answered, and then the calls
/// that waited for the name are released.
pub(crate) fn tell_change<V: BusView, G: Gate>(
    context: &mut Context<V, G>,
    call: &Message,
    caller: Conn,
    outcome: Outcome,
)
    requires room { length outcome.signals + length outcome.tickets < context.old.room }
    requires spare_verdicts { 0 < context.old.spare_verdicts }
    ensures comes { RunsTo V.BusView G.Gate (telling_change (said call.now) caller outcome)
        context.old.world tt context.new.world }
    ensures room { context.old.room
        ≤ context.new.room + length outcome.signals + length outcome.tickets + 1 }
{
    context.announce(outcome.signals);
    context.answer_with(call, caller, answer_told(outcome.reply));
    context.release_all(caller, outcome.tickets);
}

/// Tells of a change, where the caller has not left in the meantime. If it has it is to be closed.
fn made_by<V: BusView, G: Gate>(
    context: &mut Context<V, G>,
    call: &Message,
    caller: Conn,
    outcome: Outcome,
) -> PeerFate
    requires room { length outcome.signals + length outcome.tickets < context.old.room }
    requires spare_verdicts { 0 < context.old.spare_verdicts }
    ensures comes { RunsTo V.BusView G.Gate (after_change (said call.now) caller (Says outcome))
        context.old.world result context.new.world }
    ensures room { context.old.room
        ≤ context.new.room + length outcome.signals + length outcome.tickets + 1 }
{
    match outcome.reply {
        Reply::Gone => PeerFate::Closes(CloseCause::Left),
        _ => {
            tell_change(context, call, caller, outcome);
            PeerFate::Stays
        }
    }
}

/// Answers the call that asked for a change.
fn made<V: BusView, G: Gate>(
    context: &mut Context<V, G>,
    call: &Message,
    caller: Conn,
    told: Result<Outcome, Cause>,
) -> PeerFate
    requires room { MAX_EFFECTS < context.old.room }
    requires spare_verdicts { 0 < context.old.spare_verdicts }
    requires few { IfOk told IsBounded }
    ensures comes { RunsTo V.BusView G.Gate
        (after_change (said call.now) caller (heard_change told))
        context.old.world result context.new.world }
    ensures room { context.old.room ≤ context.new.room + MAX_EFFECTS + 1 }
{
    match told {
        Ok(outcome) => made_by(context, call, caller, outcome),
        Err(cause) => refuse(context, call, caller, error_for(cause)),
    }
}

/// Replies with the body that the bus appended.
fn reply_body<V: BusView, G: Gate>(
    alloc: Global,
    context: &mut Context<V, G>,
    call: &Message,
    caller: Conn,
    query: &Query,
    body: Vec<u8>,
)
    requires room { 0 < context.old.room }
    requires spare_verdicts { 0 < context.old.spare_verdicts }
    requires answered { (told : Answer) × IsAnswerTo query.now body.items told }
    ensures comes { (told : Answer) → IsAnswerTo query.now body.items told →
        RunsTo V.BusView G.Gate (after_answer (said call.now) caller (Says (Some told)))
        context.old.world tt context.new.world }
    ensures room { context.old.room ≤ context.new.room + 1 }
{
    match Arc::new(alloc, body) {
        Ok(bytes) => {
            let answer = AnswerBody::new(query, SharedBytes::new(bytes));
            context.reply_with(call, caller, ReplyBody::Answer(answer));
        }
        Err(_) => context.err_with(call, caller, ErrorKind::NoMemory),
    }
}

/// Asks the bus, and answers the call.
#[inline(never)]
fn answer_query<V: BusView, G: Gate>(
    alloc: Global,
    context: &mut Context<V, G>,
    call: &Message,
    caller: Conn,
    query: &Query,
) -> PeerFate
    requires room { 0 < context.old.room }
    requires spare_verdicts { 0 < context.old.spare_verdicts }
    ensures comes { RunsTo V.BusView G.Gate
        (serving_request (said call.now) caller (Ok (Asks query.now)))
        context.old.world result context.new.world }
    ensures room { context.old.room ≤ context.new.room + 1 }
{
    let mut body = Vec::new(alloc);
    match context.ask(query, &mut body) {
        Ok(Asked::Body) => {
            reply_body(alloc, context, call, caller, query, body);
            PeerFate::Stays
        }
        Ok(Asked::NameHasNoOwner) => refuse(context, call, caller, ErrorKind::NameHasNoOwner),
        Err(fault) => refuse(context, call, caller, error_unanswered(fault)),
    }
}

/// Makes a change, and answers the call that asked for it.
fn make<V: BusView, G: Gate>(
    context: &mut Context<V, G>,
    right: &V::Right,
    call: &Message,
    caller: Conn,
    change: Change,
) -> PeerFate
    requires room { MAX_EFFECTS < context.old.room }
    requires spare_verdicts { 0 < context.old.spare_verdicts }
    ensures comes { RunsTo V.BusView G.Gate
        (serving_request (said call.now) caller (Ok (Makes change)))
        context.old.world result context.new.world }
    ensures room { context.old.room ≤ context.new.room + MAX_EFFECTS + 1 }
{
    let told = context.change(right, change);
    made(context, call, caller, told)
}

// A change is large, and what a function holds is cleared at its entry: each has a function of its
// own, so that queries need not clear it.

#[inline(never)]
fn request_name<V: BusView, G: Gate>(
    context: &mut Context<V, G>,
    right: &V::Right,
    call: &Message,
    caller: Conn,
    name: &BusName,
    flags: RequestFlags,
) -> PeerFate
    requires room { MAX_EFFECTS < context.old.room }
    requires spare_verdicts { 0 < context.old.spare_verdicts }
    ensures comes { RunsTo V.BusView G.Gate
        (serving_request (said call.now) caller
        (request_of caller.number (RequestName name.now flags)))
        context.old.world result context.new.world }
    ensures room { context.old.room ≤ context.new.room + MAX_EFFECTS + 1 }
{
    let change = Change::Request {
        connection: caller.number,
        name: *name,
        flags,
    };
    make(context, right, call, caller, change)
}

#[inline(never)]
fn release_name<V: BusView, G: Gate>(
    context: &mut Context<V, G>,
    right: &V::Right,
    call: &Message,
    caller: Conn,
    name: &BusName,
) -> PeerFate
    requires room { MAX_EFFECTS < context.old.room }
    requires spare_verdicts { 0 < context.old.spare_verdicts }
    ensures comes { RunsTo V.BusView G.Gate
        (serving_request (said call.now) caller (request_of caller.number (ReleaseName name.now)))
        context.old.world result context.new.world }
    ensures room { context.old.room ≤ context.new.room + MAX_EFFECTS + 1 }
{
    let change = Change::Release {
        connection: caller.number,
        name: *name,
    };
    make(context, right, call, caller, change)
}

#[inline(never)]
fn add_match<V: BusView, G: Gate>(
    context: &mut Context<V, G>,
    right: &V::Right,
    call: &Message,
    caller: Conn,
    rule: &Rule,
) -> PeerFate
    requires room { MAX_EFFECTS < context.old.room }
    requires spare_verdicts { 0 < context.old.spare_verdicts }
    ensures comes { RunsTo V.BusView G.Gate
        (serving_request (said call.now) caller (request_of caller.number (AddMatch rule.now)))
        context.old.world result context.new.world }
    ensures room { context.old.room ≤ context.new.room + MAX_EFFECTS + 1 }
{
    let change = Change::AddMatch {
        connection: caller.number,
        rule: *rule,
    };
    make(context, right, call, caller, change)
}

#[inline(never)]
fn remove_match<V: BusView, G: Gate>(
    context: &mut Context<V, G>,
    right: &V::Right,
    call: &Message,
    caller: Conn,
    rule: &Rule,
) -> PeerFate
    requires room { MAX_EFFECTS < context.old.room }
    requires spare_verdicts { 0 < context.old.spare_verdicts }
    ensures comes { RunsTo V.BusView G.Gate
        (serving_request (said call.now) caller (request_of caller.number (RemoveMatch rule.now)))
        context.old.world result context.new.world }
    ensures room { context.old.room ≤ context.new.room + MAX_EFFECTS + 1 }
{
    let change = Change::RemoveMatch {
        connection: caller.number,
        rule: *rule,
    };
    make(context, right, call, caller, change)
}

/// Does what a call asks, and answers it.
fn serve_request<V: BusView, G: Gate>(
    alloc: Global,
    context: &mut Context<V, G>,
    right: &V::Right,
    message: &Message,
    caller: Conn,
    call: &Call,
) -> PeerFate
    requires room { MAX_EFFECTS < context.old.room }
    requires spare_verdicts { 0 < context.old.spare_verdicts }
    ensures comes { RunsTo V.BusView G.Gate
        (serving_request (said message.now) caller (request_of caller.number call.now))
        context.old.world result context.new.world }
    ensures room { context.old.room ≤ context.new.room + MAX_EFFECTS + 1 }
{
    match call {
        Call::Hello => refuse(context, message, caller, ErrorKind::Failed),
        Call::RequestName { name, flags } => {
            request_name(context, right, message, caller, name, *flags)
        }
        Call::ReleaseName { name } => release_name(context, right, message, caller, name),
        Call::GetNameOwner { name } => {
            answer_query(alloc, context, message, caller, &Query::GetNameOwner(*name))
        }
        Call::NameHasOwner { name } => {
            answer_query(alloc, context, message, caller, &Query::NameHasOwner(*name))
        }
        Call::ListNames => answer_query(alloc, context, message, caller, &Query::ListNames),
        Call::ListActivatableNames => {
            answer_query(
                alloc,
                context,
                message,
                caller,
                &Query::ListActivatableNames,
            )
        }
        Call::ListQueuedOwners { name } => {
            answer_query(
                alloc,
                context,
                message,
                caller,
                &Query::ListQueuedOwners(*name),
            )
        }
        Call::AddMatch { rule } => add_match(context, right, message, caller, rule.get()),
        Call::RemoveMatch { rule } => remove_match(context, right, message, caller, rule.get()),
        Call::StartServiceByName { name } => start_service(
            alloc, context, right, message, caller, name,
        ),
        Call::BecomeMonitor { rules } => {
            become_monitor(alloc, context, right, message, caller, rules)
        }
    }
}

/// Serves a call as it was read: the gate is shown it first. One that has a fault is answered
/// that fault's error.
fn serve_reading<V: BusView, G: Gate>(
    alloc: Global,
    context: &mut Context<V, G>,
    right: &V::Right,
    message: &Message,
    caller: Conn,
    reading: &Result<Call, DriverFault>,
) -> PeerFate
    requires room { MAX_EFFECTS < context.old.room }
    requires spare_verdicts { 0 < context.old.spare_verdicts }
    ensures comes { RunsTo V.BusView G.Gate (serving_reading (said message.now) caller reading.now)
        context.old.world result context.new.world }
    ensures room { context.old.room ≤ context.new.room + MAX_EFFECTS + 1 }
{
    match reading {
        Ok(call) => {
            context.show_gate(call);
            serve_request(alloc, context, right, message, caller, call)
        }
        Err(fault) => refuse(context, message, caller, fault.error()),
    }
}

/// Reads a call to the bus, and serves it.
fn serve_call<V: BusView, G: Gate>(
    alloc: Global,
    context: &mut Context<V, G>,
    right: &V::Right,
    message: &Message,
    caller: Conn,
) -> PeerFate
    requires room { MAX_EFFECTS < context.old.room }
    requires spare_verdicts { 0 < context.old.spare_verdicts }
    ensures comes { RunsTo V.BusView G.Gate (serving_call (said message.now) caller)
        context.old.world result context.new.world }
    ensures room { context.old.room ≤ context.new.room + MAX_EFFECTS + 1 }
{
    let reading = read_call(alloc, message);
    serve_reading(alloc, context, right, message, caller, &reading)
}

/// Serves a message to the bus ("Message Bus Messages" of the D-Bus Specification). A call is
/// answered, and one that makes a change has its signals told first; other messages are ignored.
/// The sender is to be closed where it has left in the meantime.
pub(crate) fn serve_bus<V: BusView, G: Gate>(
    alloc: Global,
    context: &mut Context<V, G>,
    right: &V::Right,
    message: &Message,
    sender: Conn,
) -> PeerFate
    requires room { MAX_EFFECTS < context.old.room }
    requires spare_verdicts { 0 < context.old.spare_verdicts }
    ensures comes { RunsTo V.BusView G.Gate (serving_bus (said message.now) sender)
        context.old.world result context.new.world }
    ensures room { context.old.room ≤ context.new.room + MAX_EFFECTS + 1 }
{
    if is_method_call(message) {
        serve_call(alloc, context, right, message, sender)
    } else {
        PeerFate::Stays
    }
}

//! StartServiceByName. (D-Bus Specification: "org.freedesktop.DBus.StartServiceByName")

ghost use Rattle.std.specs.Prelude.{◌≡◌, ◌<◌, ◌≤◌, ◌+◌, Ok};
ghost use Rattle.message_core.specs.Said.{said};
ghost use Rattle.router_core.specs.Answers.{Says};
ghost use Rattle.router_core.specs.Scripts.{RunsTo};
ghost use Rattle.router_core.specs.Serving.{Starts, serving_request, after_start};

use crate::activation::waiting_call;
use crate::calls::{answer_told, error_for, refuse};
use bus_view::BusView;
use message_core::Message;
use names::BusName;
use router_core::{CloseCause, Gate, PeerFate};
use router_steps::Context;
use seq_bus_core::{Change, Conn, ErrorKind, Outcome, Reply};
use std::alloc::Global;

/// Answers the call, unless it waits for the service.
fn started<V: BusView, G: Gate>(
    context: &mut Context<V, G>,
    call: &Message,
    caller: Conn,
    name: Box<BusName>,
    outcome: Outcome,
) -> PeerFate
    requires room { 0 < context.old.room }
    requires spare_verdicts { 0 < context.old.spare_verdicts }
    ensures comes { RunsTo V.BusView G.Gate
        (after_start (said call.now) caller name.value (Says outcome))
        context.old.world result context.new.world }
    ensures room { context.old.room ≤ context.new.room + 1 }
{
    match outcome.reply {
        Reply::Gone => PeerFate::Closes(CloseCause::Left),
        Reply::Held(_) => {
            context.run(name, outcome.start);
            PeerFate::Stays
        }
        reply => {
            context.answer_with(call, caller, answer_told(reply));
            PeerFate::Stays
        }
    }
}

/// Has the service of a name started, unless the name has an owner. Without memory the call is
/// answered NoMemory.
// A change is large: it has a function of its own.
#[inline(never)]
pub(crate) fn start_service<V: BusView, G: Gate>(
    alloc: Global,
    context: &mut Context<V, G>,
    right: &V::Right,
    call: &Message,
    caller: Conn,
    name: &BusName,
) -> PeerFate
    requires room { 0 < context.old.room }
    requires spare_verdicts { 0 < context.old.spare_verdicts }
    ensures comes { RunsTo V.BusView G.Gate
        (serving_request (said call.now) caller (Ok (Starts name.now)))
        context.old.world result context.new.world }
    ensures room { context.old.room ≤ context.new.room + 1 }
{
    let Ok(service) = Box::new(alloc, *name) else {
        return refuse(context, call, caller, ErrorKind::NoMemory);
    };
    let change = Change::Start {
        connection: caller.number,
        name: *name,
        call: waiting_call(call),
    };
    match context.change(right, change) {
        Ok(outcome) => started(context, call, caller, service, outcome),
        Err(cause) => refuse(context, call, caller, error_for(cause)),
    }
}

//! BecomeMonitor. (D-Bus Specification: "org.freedesktop.DBus.Monitoring.BecomeMonitor")

ghost use Rattle.std.specs.Prelude.{◌≡◌, ◌<◌, ◌≤◌, ◌+◌, Ok, length};
ghost use Rattle.message_core.specs.Said.{said};
ghost use Rattle.router_core.specs.declared.limits.TheConstants.{MAX_EFFECTS};
ghost use Rattle.router_core.specs.Answers.{Says};
ghost use Rattle.router_core.specs.Scripts.{RunsTo};
ghost use Rattle.router_core.specs.Serving.{Watches, serving_request, after_watch};

use crate::calls::{error_for, refuse, tell_change};
use bus_view::BusView;
use message_core::Message;
use router_core::{CloseCause, Gate, PeerFate};
use router_steps::Context;
use seq_bus_core::{Change, Conn, ErrorKind, MonitorRules, Outcome, Reply};
use std::alloc::Global;

/// Tells of the change: the signals of the names that the connection gave up come first, then the
/// answer.
fn watched<V: BusView, G: Gate>(
    context: &mut Context<V, G>,
    call: &Message,
    caller: Conn,
    outcome: Outcome,
) -> PeerFate
    requires room { length outcome.signals + length outcome.tickets < context.old.room }
    requires spare_verdicts { 0 < context.old.spare_verdicts }
    ensures comes { RunsTo V.BusView G.Gate (after_watch (said call.now) caller (Says outcome))
        context.old.world result context.new.world }
    ensures room { context.old.room
        ≤ context.new.room + length outcome.signals + length outcome.tickets + 1 }
{
    match outcome.reply {
        Reply::Gone => PeerFate::Closes(CloseCause::Left),
        Reply::Done => {
            tell_change(context, call, caller, outcome);
            PeerFate::Watches
        }
        _ => {
            tell_change(context, call, caller, outcome);
            PeerFate::Stays
        }
    }
}

/// Makes the caller a monitor with these rules. Without memory the call is answered NoMemory.
#[inline(never)]
pub(crate) fn become_monitor<V: BusView, G: Gate>(
    alloc: Global,
    context: &mut Context<V, G>,
    right: &V::Right,
    call: &Message,
    caller: Conn,
    rules: &MonitorRules,
) -> PeerFate
    requires room { MAX_EFFECTS < context.old.room }
    requires spare_verdicts { 0 < context.old.spare_verdicts }
    ensures comes { RunsTo V.BusView G.Gate
        (serving_request (said call.now) caller (Ok (Watches rules.now)))
        context.old.world result context.new.world }
    ensures room { context.old.room ≤ context.new.room + MAX_EFFECTS + 1 }
{
    let Ok(rules) = rules.copy(alloc) else {
        return refuse(context, call, caller, ErrorKind::NoMemory);
    };
    let change = Change::BecomeMonitor {
        connection: caller.number,
        rules,
    };
    match context.change(right, change) {
        Ok(outcome) => watched(context, call, caller, outcome),
        Err(cause) => refuse(context, call, caller, error_for(cause)),
    }
}

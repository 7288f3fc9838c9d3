//! Calls to names whose service is not running. (D-Bus Specification: "Message Bus Starting
//! Services (Activation)")

ghost use Rattle.std.specs.Prelude.{◌≡◌, ◌<◌, ◌≤◌, ◌+◌, true, IfOk};
ghost use Rattle.message_core.specs.Said.{said};
ghost use Rattle.message_core.specs.HeaderFields.{text_field};
ghost use Rattle.message_core.specs.declared.header_field.HeaderField.TheVariants.{Destination};
ghost use Rattle.message.specs.MessageBytes.{message_bytes};
ghost use Rattle.router_core.specs.Answers.{Says};
ghost use Rattle.router_core.specs.Scripts.{RunsTo};
ghost use Rattle.router_core.specs.Serving.{after_hold, holding, holding_if, with_sender, waiting_call};

use crate::calls::{error_for, refuse};
use bus_view::BusView;
use message_core::Message;
use names::BusName;
use outbox_core::Content;
use router_core::{Addressees, CloseCause, Gate, PeerFate};
use router_steps::Context;
use seq_bus_core::{CallHead, Change, Conn, ErrorKind, Outcome, Reply, SharedBytes};
use std::alloc::{AllocError, Global};

/// What is needed to reply to a call that waits.
pub(crate) fn waiting_call(message: &Message) -> CallHead
    ensures { result ≡ waiting_call (said message.now) }
{
    let _bytes = message.as_bytes();
    CallHead {
        serial: message.serial(),
        flags: message.flags(),
    }
}

/// A call that is to wait: the name that it is for, and its bytes with its sender's name, for the
/// bus and for an owner of the name.
#[derive(Drop)]
struct Parcel {
    name: Box<BusName>,
    held: SharedBytes,
    passed: SharedBytes,
}

/// All that a call takes that is to wait.
fn pack<V: BusView, G: Gate>(
    alloc: Global,
    context: &Context<V, G>,
    message: &Message,
    sender: Conn,
    destination: &str,
) -> Result<Parcel, AllocError>
    ensures name { IfOk result (λ parcel. parcel.name.value ≡ destination.now) }
    ensures held { IfOk result
        (λ parcel. parcel.held ≡ message_bytes (with_sender (said message.now) sender)) }
    ensures passed { IfOk result
        (λ parcel. parcel.passed ≡ message_bytes (with_sender (said message.now) sender)) }
{
    let Ok(name) = BusName::parse(destination) else {
        return Err(AllocError);
    };
    let Ok(name) = Box::new(alloc, name) else {
        return Err(AllocError);
    };
    let Ok(held) = context.sign(message, sender) else {
        return Err(AllocError);
    };
    let passed = held.try_clone()?;
    Ok(Parcel { name, held, passed })
}

/// Goes on with a call once the bus has decided: it waits, or is put to the owner that its name has
/// by now, or is answered an error.
fn held<V: BusView, G: Gate>(
    context: &mut Context<V, G>,
    message: &Message,
    sender: Conn,
    name: Box<BusName>,
    passed: SharedBytes,
    outcome: Outcome,
) -> PeerFate
    requires room { 0 < context.old.room }
    requires spare_verdicts { 0 < context.old.spare_verdicts }
    requires bytes { passed ≡ message_bytes (with_sender (said message.now) sender) }
    ensures comes { RunsTo V.BusView G.Gate
        (after_hold (said message.now) sender name.value (Says outcome))
        context.old.world result context.new.world }
    ensures room { context.old.room ≤ context.new.room + 1 }
{
    match outcome.reply {
        Reply::Gone => PeerFate::Closes(CloseCause::Left),
        Reply::Pass(owner) => {
            context.put(Addressees::one(owner), Content::Relayed(passed));
            PeerFate::Stays
        }
        Reply::Held(_) => {
            context.run(name, outcome.start);
            PeerFate::Stays
        }
        Reply::ServiceUnknown => refuse(context, message, sender, ErrorKind::ServiceUnknown),
        Reply::LimitsExceeded => refuse(context, message, sender, ErrorKind::LimitsExceeded),
        Reply::Done
        | Reply::Welcome(_)
        | Reply::OfQueue(_)
        | Reply::InvalidName
        | Reply::RuleNotFound
        | Reply::AccessDenied
        | Reply::AlreadyRunning
        | Reply::Ignored => PeerFate::Stays,
    }
}

/// Lets a call wait until the service of its name runs.
fn wait<V: BusView, G: Gate>(
    context: &mut Context<V, G>,
    right: &V::Right,
    message: &Message,
    sender: Conn,
    parcel: Parcel,
) -> PeerFate
    requires room { 0 < context.old.room }
    requires spare_verdicts { 0 < context.old.spare_verdicts }
    requires held { parcel.held ≡ message_bytes (with_sender (said message.now) sender) }
    requires passed { parcel.passed ≡ message_bytes (with_sender (said message.now) sender) }
    ensures comes { RunsTo V.BusView G.Gate
        (holding_if (said message.now) sender parcel.name.value true)
        context.old.world result context.new.world }
    ensures room { context.old.room ≤ context.new.room + 1 }
{
    let change = Change::Hold {
        connection: sender.number,
        name: *parcel.name,
        call: waiting_call(message),
        message: parcel.held,
    };
    match context.change(right, change) {
        Ok(outcome) => held(
            context,
            message,
            sender,
            parcel.name,
            parcel.passed,
            outcome,
        ),
        Err(cause) => refuse(context, message, sender, error_for(cause)),
    }
}

/// Lets a call wait until the service of its name runs. The first such call of a name asks for the
/// service's program to be run. Without memory the call is answered NoMemory.
pub(crate) fn hold<V: BusView, G: Gate>(
    alloc: Global,
    context: &mut Context<V, G>,
    right: &V::Right,
    message: &Message,
    sender: Conn,
) -> PeerFate
    requires room { 0 < context.old.room }
    requires spare_verdicts { 0 < context.old.spare_verdicts }
    ensures comes { RunsTo V.BusView G.Gate
        (holding (said message.now) sender (text_field Destination (said message.now).fields))
        context.old.world result context.new.world }
    ensures room { context.old.room ≤ context.new.room + 1 }
{
    let Some(destination) = message.destination() else {
        return PeerFate::Stays;
    };
    match pack(alloc, context, message, sender, destination) {
        Ok(parcel) => wait(context, right, message, sender, parcel),
        Err(_) => refuse(context, message, sender, ErrorKind::NoMemory),
    }
}

//! Rows of calls to the bus, and of its replies and signals.

ghost use Rattle.std.specs.Prelude.{◌<◌};

use driver::{
    BodyKind, Call, DriverFault, ReplyBody, ReplyTo, SpelledBody, error_name, expects_reply,
    is_call_to_bus, is_hello, read_call, write_error, write_reply, write_signal,
};
use marshal::Order;
use match_rules::MessageKind;
use message::{FrameFault, Header, Message};
use names::{BusName, Interface, Member, ObjectPath};
use seq_bus_core::{BusSignal, ErrorKind};
use std::alloc::{AllocError, Global};
use test_support::{Escaped, Row};

/// `call | INTERFACE | MEMBER | SIGNATURE | BODY`: the method that is called, or the error; and
/// whether the call is to the bus, expects a reply, and is Hello. `reply | SERIAL | CALLER | CALL |
/// BODY ..`, `error-reply | SERIAL | CALLER | CALL`, `signal | SERIAL | MEMBER | NAME | OLD OWNER |
/// NEW OWNER`: the bytes of a message of the bus.
pub fn driver(alloc: Global, row: &Row<'_>) -> Result<String, FrameFault> {
    let mut output = Vec::new(alloc);
    match row.text(0) {
        "call" => return call(alloc, row),
        "signal" => put_signal(row, &mut output)?,
        _ => put_reply(alloc, row, &mut output)?,
    }
    Ok(format!(in alloc; "{}", Escaped(&output))?)
}

fn call(alloc: Global, row: &Row<'_>) -> Result<String, FrameFault> {
    let header = Header {
        order: Order::Little,
        kind: MessageKind::MethodCall,
        flags: 0,
        serial: 1,
        path: ObjectPath::parse("/").ok(),
        interface: Interface::parse(row.text(1)).ok(),
        member: Member::parse(row.text(2)).ok(),
        error_name: None,
        reply_serial: None,
        destination: Some(BusName::bus()),
        sender: None,
    };
    let body = row.bytes(alloc, 4)?;
    let message = Message::with_body(alloc, &header, row.text(3), &body);
    drop(body);
    let message = message?;
    let told = told(alloc, &message);
    drop(message);
    Ok(told?)
}

fn told(alloc: Global, message: &Message) -> Result<String, AllocError> {
    let to_bus = is_call_to_bus(message);
    let expects = expects_reply(message);
    let hello = is_hello(message);
    let read = read(&read_call(alloc, message));
    format!(in alloc; "{read} {to_bus} {expects} {hello}")
}

/// The member that was read, or the name of the fault.
fn read(reading: &Result<Call, DriverFault>) -> &'static str {
    match reading {
        Ok(Call::Hello) => "Hello",
        Ok(Call::RequestName { flags, .. }) if flags.replace_existing => "other flags",
        Ok(Call::RequestName { flags, .. }) if flags.do_not_queue => "RequestName",
        Ok(Call::RequestName { .. }) => "no flags",
        Ok(Call::ReleaseName { .. }) => "ReleaseName",
        Ok(Call::GetNameOwner { .. }) => "GetNameOwner",
        Ok(Call::NameHasOwner { .. }) => "NameHasOwner",
        Ok(Call::ListNames) => "ListNames",
        Ok(Call::ListActivatableNames) => "ListActivatableNames",
        Ok(Call::ListQueuedOwners { .. }) => "ListQueuedOwners",
        Ok(Call::AddMatch { .. }) => "AddMatch",
        Ok(Call::RemoveMatch { .. }) => "RemoveMatch",
        Ok(Call::StartServiceByName { .. }) => "StartServiceByName",
        Ok(Call::BecomeMonitor { .. }) => "BecomeMonitor",
        Err(fault) => error_name(fault.error()),
    }
}

fn put_reply(alloc: Global, row: &Row<'_>, output: &mut Vec<u8>) -> Result<(), AllocError> {
    let serial: u32 = row.text(1).parse().unwrap_or(0);
    let call: u32 = row.text(3).parse().unwrap_or(0);
    if serial == 0 || call == 0 {
        return Ok(());
    }
    let to = ReplyTo::new(row.text(2).parse().ok(), call);
    if row.text(0) == "error-reply" {
        return write_error(serial, to, ErrorKind::NoMemory, output);
    }
    let bytes = row.bytes(alloc, 5)?;
    let written = put_body(row, &bytes, serial, to, output);
    drop(bytes);
    written
}

/// A body that comes in bytes.
fn spelled(kind: BodyKind, bytes: &[u8]) -> ReplyBody<SpelledBody<'_>> {
    ReplyBody::Answer(SpelledBody { kind, bytes })
}

fn put_body(
    row: &Row<'_>,
    bytes: &[u8],
    serial: u32,
    to: ReplyTo,
    output: &mut Vec<u8>,
) -> Result<(), AllocError>
    requires { 0 < serial }
{
    let body = match row.text(4) {
        "number" => ReplyBody::Number(row.text(5).parse().unwrap_or(0)),
        "unique-name" => ReplyBody::UniqueName(row.number(5)),
        "string" => spelled(BodyKind::String, bytes),
        "boolean" => spelled(BodyKind::Boolean, bytes),
        "strings" => spelled(BodyKind::Strings, bytes),
        _ => ReplyBody::Empty,
    };
    write_reply(serial, to, body, output)
}

fn put_signal(row: &Row<'_>, output: &mut Vec<u8>) -> Result<(), AllocError> {
    let serial: u32 = row.text(1).parse().unwrap_or(0);
    let Ok(name) = BusName::parse(row.text(3)) else {
        return Ok(());
    };
    let signal = match row.text(2) {
        "NameAcquired" => BusSignal::NameAcquired {
            name,
            owner: row.number(5),
        },
        "NameLost" => BusSignal::NameLost {
            name,
            owner: row.number(4),
        },
        _ => BusSignal::NameOwnerChanged {
            name,
            old_owner: row.text(4).parse().ok(),
            new_owner: row.text(5).parse().ok(),
        },
    };
    if serial == 0 {
        return Ok(());
    }
    write_signal(serial, &signal, output)
}

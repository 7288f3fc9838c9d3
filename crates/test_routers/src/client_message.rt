//! What clients send, in bytes.

use crate::scenario::ClientMessage;
use anyhow::Result;
use marshal::{BasicType, BasicValue, DataType, Order, Value};
use match_rules::MessageKind;
use message::{Header, Message, NO_REPLY_EXPECTED};
use names::{BusName, Interface, Member, ObjectPath};
use std::alloc::{AllocError, Global};

/// A call of a method of the bus.
fn to_bus<'a>(serial: u32, member: &'a str) -> Header<'a> {
    Header {
        order: Order::Little,
        kind: MessageKind::MethodCall,
        flags: 0,
        serial,
        path: ObjectPath::parse("/org/freedesktop/DBus").ok(),
        interface: Interface::parse("org.freedesktop.DBus").ok(),
        member: Member::parse(member).ok(),
        error_name: None,
        reply_serial: None,
        destination: Some(BusName::bus()),
        sender: None,
    }
}

/// A message to one client, or to all who listen. No reply to it is wanted.
fn to_clients<'a>(
    serial: u32,
    kind: MessageKind,
    destination: Option<&'a str>,
    member: &'a str,
) -> Header<'a> {
    let mut header = to_bus(serial, member);
    header.kind = kind;
    header.flags = NO_REPLY_EXPECTED;
    header.interface = Interface::parse("com.example.Clock").ok();
    header.destination = match destination {
        Some(name) => BusName::parse(name).ok(),
        None => None,
    };
    header
}

fn bytes_of(alloc: Global, header: &Header<'_>, arguments: &[Value]) -> Result<Vec<u8>> {
    let message = Message::new(alloc, header, arguments)?;
    Ok(Vec::from_slice(alloc, message.as_bytes())?)
}

fn text(alloc: Global, text: &str) -> Result<Value, AllocError> {
    let text = String::from_str(alloc, text)?;
    Ok(Value::Basic(BasicValue::String(text)))
}

/// A call of a method of the bus that takes a text.
fn call_with(alloc: Global, serial: u32, member: &str, argument: &str) -> Result<Vec<u8>> {
    let arguments = [text(alloc, argument)?];
    bytes_of(alloc, &to_bus(serial, member), &arguments)
}

/// A call by which a client becomes a monitor of all messages.
fn become_monitor(alloc: Global, serial: u32) -> Result<Vec<u8>> {
    let mut header = to_bus(serial, "BecomeMonitor");
    header.interface = Interface::parse("org.freedesktop.DBus.Monitoring").ok();
    let rules = Value::Array(DataType::Basic(BasicType::String), Vec::new(alloc));
    let flags = Value::Basic(BasicValue::Uint32(0));
    bytes_of(alloc, &header, &[rules, flags])
}

/// Signals, one behind the other.
fn ticks(alloc: Global, serial: u32, to: Option<&str>, count: u32) -> Result<Vec<u8>> {
    let mut bytes = Vec::new(alloc);
    for number in 0..count {
        let serial = serial.saturating_add(number);
        let header = to_clients(serial, MessageKind::Signal, to, "Ticked");
        bytes.extend_from_slice(&bytes_of(alloc, &header, &[])?)?;
    }
    Ok(bytes)
}

impl ClientMessage {
    /// Its bytes, with this serial; of several messages the serials follow one another.
    pub(crate) fn bytes(self, alloc: Global, serial: u32) -> Result<Vec<u8>> {
        match self {
            ClientMessage::Hello => bytes_of(alloc, &to_bus(serial, "Hello"), &[]),
            ClientMessage::ListNames => bytes_of(alloc, &to_bus(serial, "ListNames"), &[]),
            ClientMessage::AddMatch(rule) => call_with(alloc, serial, "AddMatch", rule),
            ClientMessage::GetNameOwner(name) => call_with(alloc, serial, "GetNameOwner", name),
            ClientMessage::Calls(member) => bytes_of(alloc, &to_bus(serial, member), &[]),
            ClientMessage::CallsWith(member, argument) => {
                call_with(alloc, serial, member, argument)
            }
            ClientMessage::BecomeMonitor => become_monitor(alloc, serial),
            ClientMessage::RequestName(name) => {
                let flags = Value::Basic(BasicValue::Uint32(0));
                let arguments = [text(alloc, name)?, flags];
                bytes_of(alloc, &to_bus(serial, "RequestName"), &arguments)
            }
            ClientMessage::Wind(name) => {
                let header = to_clients(serial, MessageKind::MethodCall, Some(name), "Wind");
                bytes_of(alloc, &header, &[])
            }
            ClientMessage::Ticks(to, count) => ticks(alloc, serial, to, count),
        }
    }

    /// How many messages that is.
    pub(crate) fn count(self) -> u32 {
        match self {
            ClientMessage::Ticks(_, count) => count,
            _ => 1,
        }
    }
}

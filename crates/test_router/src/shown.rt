//! Messages that clients get, in words.

use anyhow::Result;
use marshal::Order;
use match_rules::{Argument, MessageKind};
use message::{Framer, Message};
use outbox_core::BusMessage;
use std::alloc::Global;
use test_support::Escaped;

const BUS: &str = "org.freedesktop.DBus";

const BUS_PATH: &str = "/org/freedesktop/DBus";

const ERRORS: &str = "org.freedesktop.DBus.Error.";

/// Whether a message is as the bus writes its own: little-endian, not to be replied to, and, where
/// it is a signal, from the bus's object and of its interface. Then these are not told.
fn is_own(message: &Message) -> bool {
    let is_at_home = message.path() == Some(BUS_PATH) && message.interface() == Some(BUS);
    let is_plain = message.path().is_none() && message.interface().is_none();
    message.sender() == Some(BUS)
        && message.order() == Order::Little
        && message.flags() == 1
        && (is_plain || message.kind() == MessageKind::Signal && is_at_home)
}

/// What a message is, and its serial.
fn put_kind(message: &Message, text: &mut String) -> Result<()> {
    let serial = message.serial();
    match message.kind() {
        MessageKind::MethodCall => write!(text, "call {serial}")?,
        MessageKind::MethodReturn => write!(text, "reply {serial}")?,
        MessageKind::Signal => write!(text, "signal {serial}")?,
        MessageKind::Error => {
            let name = message.error_name().unwrap_or("");
            let name = name.strip_prefix(ERRORS).unwrap_or(name);
            write!(text, "error {serial} {name}")?;
        }
        MessageKind::Unknown(number) => write!(text, "type {number} {serial}")?,
    }
    Ok(())
}

/// What the bus does not say of its own messages.
fn put_origin(message: &Message, text: &mut String) -> Result<()> {
    if message.order() == Order::Big {
        write!(text, " big")?;
    }
    let flags = message.flags();
    let sender = message.sender().unwrap_or("-");
    write!(text, " flags {flags} from {sender}")?;
    if let Some(path) = message.path() {
        write!(text, " path {path}")?;
    }
    if let Some(interface) = message.interface() {
        write!(text, " interface {interface}")?;
    }
    Ok(())
}

/// A message: what it is and its serial, its member, what it replies to, whom it is for, its
/// signature and its arguments. All else is told of messages that are not as the bus writes its
/// own.
pub fn put_message(alloc: Global, message: &Message, text: &mut String) -> Result<()> {
    put_kind(message, text)?;
    if !is_own(message) {
        put_origin(message, text)?;
    }
    if let Some(member) = message.member() {
        write!(text, " {member}")?;
    }
    if let Some(call) = message.reply_serial() {
        write!(text, " to {call}")?;
    }
    if let Some(destination) = message.destination() {
        write!(text, " for {destination}")?;
    }
    if !message.signature().is_empty() {
        write!(text, " {}", Escaped(message.signature()))?;
    }
    for argument in &message.arguments(alloc)? {
        write!(text, " {argument}")?;
    }
    Ok(())
}

/// The messages that bytes are, one after the other.
pub fn put_bytes(alloc: Global, bytes: &[u8], text: &mut String) -> Result<()> {
    let mut framer = Framer::new(alloc);
    framer.feed(bytes)?;
    for place in 0..bytes.len() {
        let Some(message) = framer.next()? else {
            return Ok(());
        };
        if place > 0 {
            write!(text, ", ")?;
        }
        put_message(alloc, &message, text)?;
    }
    Ok(())
}

/// What rules see of a message of the bus itself that has no serial yet: its type, whom it is for,
/// and its arguments.
pub fn put_own(message: &BusMessage, text: &mut String) -> Result<()> {
    let names = message.names();
    let arguments = message.arguments(&names);
    let facts = message.facts(&names, arguments.as_slice());
    let kind = match facts.kind {
        MessageKind::MethodReturn => "reply",
        MessageKind::Error => "error",
        _ => facts.member.unwrap_or(""),
    };
    write!(text, "{kind}")?;
    if let Some(destination) = facts.destination {
        write!(text, " for {destination}")?;
    }
    for argument in arguments.as_slice() {
        match *argument {
            Argument::String(argument) => write!(text, " \"{argument}\"")?,
            Argument::ObjectPath(argument) => write!(text, " {argument}")?,
            Argument::Other => write!(text, " other")?,
        }
    }
    Ok(())
}

//! Rows of messages that are read.

use match_rules::MessageKind;
use message::{FrameFault, Framer, Header, Message};
use names::{BusName, Interface, Member, ObjectPath};
use std::alloc::Global;
use test_support::{Escaped, Row};

/// The message that bytes are, and nothing behind it; `None` where bytes are missing or left.
pub fn only(alloc: Global, bytes: &[u8]) -> Result<Option<Message>, FrameFault> {
    let mut framer = Framer::new(alloc);
    framer.feed(bytes)?;
    let message = framer.next()?;
    if framer.is_waiting() && framer.next()?.is_none() {
        return Ok(message);
    }
    Ok(None)
}

/// `message | BYTES`: the message in full, and whether its bytes are these. `shown`: the lines that
/// show it. `fields`: the code of each header field and where it lies. `arguments`: its arguments.
/// `rebuilt`: whether its arguments make the same signature and body.
pub fn message(alloc: Global, row: &Row<'_>, bytes: &[u8]) -> Result<String, FrameFault> {
    let Some(message) = only(alloc, bytes)? else {
        return Ok(String::from_str(alloc, "no message")?);
    };
    let told = told(alloc, row, &message, bytes);
    drop(message);
    told
}

fn told(
    alloc: Global,
    row: &Row<'_>,
    message: &Message,
    bytes: &[u8],
) -> Result<String, FrameFault> {
    match row.text(0) {
        "message" => Ok(format!(in alloc; "{message:?} {}", message.as_bytes() == bytes)?),
        "shown" => {
            let text = message.to_string(alloc)?;
            Ok(format!(in alloc; "{}", Escaped(text.as_bytes()))?)
        }
        "fields" => fields(alloc, message),
        "arguments" => match message.arguments(alloc) {
            Ok(values) => {
                let told = format!(in alloc; "{values:?}");
                drop(values);
                Ok(told?)
            }
            Err(fault) => Err(FrameFault::Body(fault)),
        },
        _ => rebuilt(alloc, message),
    }
}

fn fields(alloc: Global, message: &Message) -> Result<String, FrameFault> {
    let mut text = String::new(alloc);
    for place in message.fields() {
        write!(text, "{} {} {}, ", place.code, place.from, place.to)?;
    }
    Ok(text)
}

fn rebuilt(alloc: Global, message: &Message) -> Result<String, FrameFault> {
    let header = Header {
        order: message.order(),
        kind: MessageKind::MethodCall,
        flags: 0,
        serial: 1,
        path: ObjectPath::parse("/org/freedesktop/DBus").ok(),
        interface: Interface::parse("org.freedesktop.DBus").ok(),
        member: Member::parse("M").ok(),
        error_name: None,
        reply_serial: None,
        destination: Some(BusName::bus()),
        sender: None,
    };
    let values = message.arguments(alloc).map_err(FrameFault::Body)?;
    let own = Message::new(alloc, &header, &values);
    drop(values);
    let own = own?;
    let signature = own.signature() == message.signature();
    let body = own.body() == message.body();
    let told = format!(in alloc; "{:?} {signature} {body}", own.order());
    drop(own);
    Ok(told?)
}

//! Messages out of a stream, written again, relayed and made.

use marshal::{Order, Value};
use match_rules::MessageKind;
use message::{
    FrameFault, Framer, Header, Message, NO_REPLY_EXPECTED, RelayFault, with_sender, write,
};
use names::{BusName, UniqueName};
use std::alloc::Global;
use test_support::messages::{GET_NAME_OWNER, HELLO};

/// A return to `:1.2` with a field that the standard does not name.
const UNKNOWN_FIELD: &[u8] =
    b"l\x02\x01\x01\0\0\0\0\x03\0\0\0\x1d\0\0\0\x05\x01u\0\x05\0\0\0\x06\x01s\0\x04\0\0\0:1\
    .2\0\0\0\0\xc8\x01y\0\x07\0\0\0";

/// The same from `:1.1`.
const RELAYED: &[u8] =
    b"l\x02\x01\x01\0\0\0\0\x03\0\0\0%\0\0\0\x05\x01u\0\x05\0\0\0\x06\x01s\0\x04\0\0\0:1.2\0\0\0\0\
    \x07\x01s\0\x04\0\0\0:1.1\0\0\0\0";

/// A return of the bus with the number 1.
const NUMBER: &[u8] =
    b"l\x02\x01\x01\x04\0\0\0\x03\0\0\0?\0\0\0\x05\x01u\0\x02\0\0\0\x06\x01s\0\x04\0\0\0:1.1\0\0\0\0\
    \x07\x01s\0\x14\0\0\0org.freedesktop.DBus\0\0\0\0\x08\x01g\0\x01u\0\0\x01\0\0\0";

/// The message that the bytes are, in pieces. A call that is refused is made again; nothing else
/// may be told.
fn framed(framer: &mut Framer, bytes: &[u8]) -> Option<Message> {
    for piece in bytes.chunks(50) {
        if framer.feed(piece).is_err() {
            framer.feed(piece).ok()?;
        }
    }
    match framer.next() {
        Err(FrameFault::NoMemory) => framer.next().ok()?,
        found => found.ok()?,
    }
}

/// Whether messages come out of a stream as they went in.
pub fn are_framed(alloc: Global) -> bool {
    let mut framer = Framer::new(alloc);
    for bytes in [HELLO, GET_NAME_OWNER, UNKNOWN_FIELD] {
        match framed(&mut framer, bytes) {
            Some(message) if message.as_bytes() == bytes => {}
            _ => return false,
        }
    }
    true
}

/// Whether a message is written as it is, and then with its sender behind it.
pub fn is_relayed(alloc: Global) -> Option<bool> {
    let message = framed(&mut Framer::new(alloc), UNKNOWN_FIELD)?;
    let mut output = Vec::new(alloc);
    if let Err(fault) = write(&message, &mut output) {
        if fault != RelayFault::NoMemory || !output.is_empty() {
            return None;
        }
        write(&message, &mut output).ok()?;
    }
    let sender = UniqueName::of(1);
    if let Err(fault) = with_sender(&message, &sender, &mut output) {
        if fault != RelayFault::NoMemory || output.as_slice() != UNKNOWN_FIELD {
            return None;
        }
        with_sender(&message, &sender, &mut output).ok()?;
    }
    let (first, behind) = output.split_at_checked(UNKNOWN_FIELD.len())?;
    Some(first == UNKNOWN_FIELD && behind == RELAYED)
}

/// Whether a message of the bus is made of a header and values, and of a header and its body.
pub fn is_made(alloc: Global) -> Option<bool> {
    let header = Header {
        order: Order::Little,
        kind: MessageKind::MethodReturn,
        flags: NO_REPLY_EXPECTED,
        serial: 3,
        path: None,
        interface: None,
        member: None,
        error_name: None,
        reply_serial: Some(2),
        destination: Some(BusName::parse(":1.1").ok()?),
        sender: Some(BusName::bus()),
    };
    let values = [Value::from(1u32)];
    let of_values = match Message::new(alloc, &header, &values) {
        Err(FrameFault::NoMemory) => Message::new(alloc, &header, &values),
        made => made,
    };
    let body = b"\x01\0\0\0";
    let of_body = match Message::with_body(alloc, &header, "u", body) {
        Err(FrameFault::NoMemory) => Message::with_body(alloc, &header, "u", body),
        made => made,
    };
    Some(of_values.ok()?.as_bytes() == NUMBER && of_body.ok()?.as_bytes() == NUMBER)
}

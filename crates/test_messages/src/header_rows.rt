//! Rows of messages that are made.

use marshal::{BasicType, DataType, Order, Signature, Value, decode};
use match_rules::MessageKind;
use message::{FrameFault, Header, Message};
use names::{BusName, ErrorName, Interface, Member, ObjectPath};
use std::alloc::Global;
use test_support::{Escaped, Row};

/// `body | ORDER | TYPE | FLAGS | SERIAL | SIGNATURE | BODY ..`: the bytes of the message that a
/// header and the bytes of a body make. `values | ..`: the same of a header and values.
pub fn made(alloc: Global, row: &Row<'_>) -> Result<String, FrameFault> {
    let header = header(row);
    let message = if row.text(0) == "body" {
        let body = row.bytes(alloc, 6)?;
        let made = Message::with_body(alloc, &header, row.text(5), &body);
        drop(body);
        made
    } else {
        let values = values(alloc, row)?;
        let made = Message::new(alloc, &header, &values);
        drop(values);
        made
    }?;
    let told = format!(in alloc; "{}", Escaped(message.as_bytes()));
    drop(message);
    Ok(told?)
}

fn header<'a>(row: &Row<'a>) -> Header<'a> {
    let mut header = Header {
        order: order(row),
        kind: MessageKind::from(row.text(2).parse().unwrap_or(0)),
        flags: row.text(3).parse().unwrap_or(0),
        serial: row.text(4).parse().unwrap_or(0),
        path: None,
        interface: None,
        member: None,
        error_name: None,
        reply_serial: None,
        destination: None,
        sender: None,
    };
    for column in row.columns.iter().skip(7) {
        put_field(&mut header, column);
    }
    header
}

fn order(row: &Row<'_>) -> Order {
    if row.text(1) == "B" {
        Order::Big
    } else {
        Order::Little
    }
}

/// Behind the body a column has a word for a header field, and what it says.
fn put_field<'a>(header: &mut Header<'a>, column: &'a str) {
    let Some((word, text)) = column.split_once(' ') else {
        return;
    };
    match word {
        "path" => header.path = ObjectPath::parse(text).ok(),
        "interface" => header.interface = Interface::parse(text).ok(),
        "member" => header.member = Member::parse(text).ok(),
        "error" => header.error_name = ErrorName::parse(text).ok(),
        "reply" => header.reply_serial = text.parse().ok(),
        "to" => header.destination = BusName::parse(text).ok(),
        _ => header.sender = BusName::parse(text).ok(),
    }
}

/// The values that bytes are; or, for the words `nul` and `mixed`, values that no bytes are.
fn values(alloc: Global, row: &Row<'_>) -> Result<Vec<Value>, FrameFault> {
    match row.text(5) {
        "nul" => Ok(vec![in alloc; Value::from(String::from_str(alloc, "a\0b")?)]?),
        "mixed" => {
            let elements = vec![in alloc; Value::from(1u8)]?;
            Ok(vec![in alloc; Value::Array(DataType::Basic(BasicType::Boolean), elements)]?)
        }
        text => {
            let types = Signature::parse(alloc, text).map_err(FrameFault::Body)?;
            let body = row.bytes(alloc, 6)?;
            match decode(alloc, order(row), 0, &types, &body) {
                Ok((values, _)) => Ok(values),
                Err(fault) => Err(FrameFault::Body(fault)),
            }
        }
    }
}

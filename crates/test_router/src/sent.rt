//! Messages that clients send.

use crate::words::Words;
use anyhow::Result;
use marshal::{BasicType, BasicValue, DataType, Order, Value};
use match_rules::MessageKind;
use message::{Header, Message};
use names::{BusName, ErrorName, Interface, Member, ObjectPath};
use std::alloc::{AllocError, Global};

const BUS: &str = "org.freedesktop.DBus";

const BUS_PATH: &str = "/org/freedesktop/DBus";

/// The name that a word is short for.
fn in_full(word: &str) -> &str {
    if word == "bus" { BUS } else { word }
}

fn plain_header<'a>(kind: MessageKind, serial: u32) -> Header<'a> {
    Header {
        order: Order::Little,
        kind,
        flags: 0,
        serial,
        path: None,
        interface: None,
        member: None,
        error_name: None,
        reply_serial: None,
        destination: None,
        sender: None,
    }
}

/// `SERIAL MEMBER [SIGNATURE ARGUMENT..]`: the bytes of a call to the bus.
pub fn call(alloc: Global, mut words: Words<'_>) -> Result<Vec<u8>> {
    let serial = words.number();
    let mut header = plain_header(MessageKind::MethodCall, serial);
    header.path = ObjectPath::parse(BUS_PATH).ok();
    header.interface = Interface::parse(BUS).ok();
    header.member = Member::parse(words.next()).ok();
    header.destination = Some(BusName::bus());
    bytes_of(alloc, &header, words)
}

/// `TYPE SERIAL [FIELD VALUE ..] [args SIGNATURE ARGUMENT..]`: the bytes of any message. `bus`
/// stands for the name of the bus.
pub fn message(alloc: Global, mut words: Words<'_>) -> Result<Vec<u8>> {
    let kind = match words.next() {
        "call" => MessageKind::MethodCall,
        "reply" => MessageKind::MethodReturn,
        "error" => MessageKind::Error,
        "signal" => MessageKind::Signal,
        number => MessageKind::from(number.parse().unwrap_or(0)),
    };
    let mut header = plain_header(kind, words.number());
    for _field in 0..words.rest.len() {
        match words.next() {
            "" | "args" => break,
            field => put_field(&mut header, field, words.next()),
        }
    }
    bytes_of(alloc, &header, words)
}

fn put_field<'a>(header: &mut Header<'a>, field: &str, text: &'a str) {
    match field {
        "path" => header.path = ObjectPath::parse(text).ok(),
        "interface" => header.interface = Interface::parse(in_full(text)).ok(),
        "member" => header.member = Member::parse(text).ok(),
        "name" => header.error_name = ErrorName::parse(text).ok(),
        "to" => header.destination = BusName::parse(in_full(text)).ok(),
        "from" => header.sender = BusName::parse(in_full(text)).ok(),
        "answers" => header.reply_serial = text.parse().ok(),
        "flags" => header.flags = text.parse().unwrap_or(0),
        _ => header.order = Order::Big,
    }
}

/// The bytes of a message of a header and arguments: `[SIGNATURE ARGUMENT..]`.
fn bytes_of(alloc: Global, header: &Header<'_>, mut words: Words<'_>) -> Result<Vec<u8>> {
    let signature = words.next();
    let mut values = Vec::new(alloc);
    let mut is_array = false;
    for letter in signature.as_bytes() {
        match *letter {
            b'a' => is_array = true,
            _ if is_array => {
                values.push(texts(alloc, &mut words)?)?;
                is_array = false;
            }
            letter => values.push(value(alloc, letter, words.next())?)?,
        }
    }
    let message = Message::new(alloc, header, &values)?;
    Ok(Vec::from_slice(alloc, message.as_bytes())?)
}

/// An argument of a basic type.
fn value(alloc: Global, letter: u8, word: &str) -> Result<Value, AllocError> {
    Ok(Value::Basic(match letter {
        b'u' => BasicValue::Uint32(word.parse().unwrap_or(0)),
        b'y' => BasicValue::Byte(word.parse().unwrap_or(0)),
        b'b' => BasicValue::Boolean(word == "true"),
        b'o' => BasicValue::ObjectPath(String::from_str(alloc, word)?),
        _ => BasicValue::String(String::from_str(alloc, word)?),
    }))
}

/// `COUNT TEXT..`: an array of texts.
fn texts(alloc: Global, words: &mut Words<'_>) -> Result<Value, AllocError> {
    let mut texts = Vec::new(alloc);
    for _text in 0..words.number() {
        texts.push(value(alloc, b's', words.next())?)?;
    }
    Ok(Value::Array(DataType::Basic(BasicType::String), texts))
}

/// A signal whose header fields take the 67,108,864 bytes that an array may have, nearly all of
/// them for its path.
pub fn fullest(alloc: Global) -> Result<Vec<u8>, AllocError> {
    let mut message = Vec::from_slice(
        alloc,
        b"l\x04\0\x01\0\0\0\0\x02\0\0\0\0\0\0\x04\x01\x01o\0\xd7\xff\xff\x03/",
    )?;
    let path = Vec::from_elem(alloc, b'a', 67_108_822)?;
    message.extend_from_slice(path.as_slice())?;
    message.extend_from_slice(
        b"\0\x02\x01s\0\x03\0\0\0a.b\0\0\0\0\0\x03\x01s\0\x07\0\0\0Changed\0",
    )?;
    Ok(message)
}

/// A signal of the 134,217,728 bytes that a message may have: two arrays of bytes.
pub fn longest(alloc: Global) -> Result<Vec<u8>, AllocError> {
    let mut message = Vec::from_slice(
        alloc,
        b"l\x04\0\x01\xb0\xff\xff\x07\x02\0\0\0\x3a\0\0\0\x01\x01o\0\x01\0\0\0/\0\0\0\0\0\0\0",
    )?;
    message.extend_from_slice(b"\x02\x01s\0\x03\0\0\0a.b\0\0\0\0\0\x03\x01s\0\x07\0\0\0Changed\0")?;
    message.extend_from_slice(b"\x08\x01g\0\x04ayay\0\0\0\0\0\0\0")?;
    put_zeros(alloc, &mut message, 67_108_864)?;
    put_zeros(alloc, &mut message, 67_108_776)?;
    Ok(message)
}

/// Appends an array of so many bytes, all zero.
fn put_zeros(alloc: Global, message: &mut Vec<u8>, count: u32) -> Result<(), AllocError> {
    message.extend_from_slice(&count.to_le_bytes())?;
    let zeros = Vec::from_elem(alloc, 0, count as usize)?;
    message.extend_from_slice(zeros.as_slice())
}

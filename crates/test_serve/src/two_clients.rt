//! A client that shows that it knows the cookie, and one that doesn't say who it is.

use crate::client::{Client, Wrong, has};
use sasl::cookie_digest;
use std::alloc::Global;
use std::net::Net;
use test_support::messages::{ACQUIRED, HELLO, WELCOME};

/// AddMatch of all signals, serial 2.
pub(crate) const ADD_MATCH: &[u8] =
    b"l\x01\0\x01\x12\0\0\0\x02\0\0\0\x7f\0\0\0\x01\x01o\0\x15\0\0\0/org/freedesktop/DBus\0\0\0\x02\x01s\0\x14\0\0\0org.freedesktop.DBus\0\0\0\0\x03\x01s\0\x08\0\0\0AddMatch\0\0\0\0\0\0\0\0\x06\x01s\0\x14\0\0\0org.freedesktop.DBus\0\0\0\0\x08\x01g\0\x01s\0\0\x0d\0\0\0type='signal'\0";

/// A signal of `/a`, serial 3.
const SIGNAL: &[u8] =
    b"l\x04\0\x01\0\0\0\0\x03\0\0\0*\0\0\0\x01\x01o\0\x02\0\0\0/a\0\0\0\0\0\0\x02\x01s\0\x03\0\0\0a.b\0\0\0\0\0\x03\x01s\0\x01\0\0\0C\0\0\0\0\0\0\0";

/// The same from `:1.1`.
const RELAYED: &[u8] =
    b"l\x04\0\x01\0\0\0\0\x03\0\0\0=\0\0\0\x01\x01o\0\x02\0\0\0/a\0\0\0\0\0\0\x02\x01s\0\x03\0\0\0a.b\0\0\0\0\0\x03\x01s\0\x01\0\0\0C\0\0\0\0\0\0\0\x07\x01s\0\x04\0\0\0:1.1\0\0\0\0";

/// The bytes that hex digits spell.
fn from_hex(alloc: Global, digits: &[u8]) -> Result<Vec<u8>, Wrong> {
    hex::decode(alloc, digits).map_err(|_| Wrong("what the bus sends is no hex"))
}

/// What a client answers to the server's `DATA`: its own challenge and the digest, in hex.
fn answer(alloc: Global, line: &[u8]) -> Result<Vec<u8>, Wrong> {
    let Some(digits) = line.strip_prefix(b"DATA ") else {
        return Err(Wrong("the bus doesn't challenge"));
    };
    let data = from_hex(alloc, digits)?;
    let Some(challenge) = data.as_slice().strip_prefix(b"org_freedesktop_general 5 ") else {
        return Err(Wrong("the bus challenges for another cookie"));
    };
    let mut shown = Vec::from_slice(alloc, b"abcd ")?;
    shown.extend_from_slice(&cookie_digest(challenge, b"abcd", b"c0ffee"))?;
    let mut answer = Vec::from_slice(alloc, b"DATA ")?;
    answer.extend_from_slice(hex::encode(alloc, shown.as_slice())?.as_bytes())?;
    answer.extend_from_slice(b"\r\n")?;
    Ok(answer)
}

/// Logs in as `alice`, and says Hello as the first of all.
fn log_in(client: &mut Client, alloc: Global) -> Result<(), Wrong> {
    client.send(b"\0AUTH DBUS_COOKIE_SHA1 616c696365\r\n")?;
    let challenge = client.next_line(alloc)?;
    client.send(answer(alloc, challenge.as_slice())?.as_slice())?;
    if !client.next_line(alloc)?.as_slice().starts_with(b"OK ") {
        return Err(Wrong("who knows the cookie isn't let in"));
    }
    client.send(b"BEGIN\r\n")?;
    client.send(HELLO)?;
    let welcome = client.next_message(alloc)?;
    let acquired = client.next_message(alloc)?;
    match welcome.as_slice() == WELCOME && acquired.as_slice() == ACQUIRED {
        true => Ok(()),
        false => Err(Wrong("the first client isn't welcomed as :1.1")),
    }
}

/// A signal of the first reaches the second.
pub(crate) fn two_clients<R: Net>(rt: &R, alloc: Global, path: &str) -> Result<(), Wrong> {
    let mut alice = Client::connect(rt, path)?;
    log_in(&mut alice, alloc)?;
    let mut other = Client::connect(rt, path)?;
    other.authenticate(alloc)?;
    if !has(other.hello(alloc)?.as_slice(), b":1.2\0") {
        return Err(Wrong("the second client isn't :1.2"));
    }
    other.send(ADD_MATCH)?;
    let _reply = other.next_message(alloc)?;
    alice.send(SIGNAL)?;
    match other.next_message(alloc)?.as_slice() == RELAYED {
        true => Ok(()),
        false => Err(Wrong("the signal isn't relayed as it should be")),
    }
}

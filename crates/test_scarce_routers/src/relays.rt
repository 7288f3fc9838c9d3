//! Two clients of a host, of which one sends the other a signal and a call, and the other answers
//! and comes to its end.

use crate::hosts::{ScriptedHost, open, open_host, plain};
use std::alloc::{AllocError, Global};
use test_support::messages::{ACQUIRED, HELLO, WELCOME};

/// AddMatch of `member='Ticked'`, serial 2.
const ADD_TICKED: &[u8] =
    b"l\x01\0\x01\x14\0\0\0\x02\0\0\0\x7f\0\0\0\x01\x01o\0\x15\0\0\0/org/freedesktop/DBus\0\0\0\x02\x01s\0\x14\0\0\0org.freedesktop.DBus\0\0\0\0\x03\x01s\0\x08\0\0\0AddMatch\0\0\0\0\0\0\0\0\x06\x01s\0\x14\0\0\0org.freedesktop.DBus\0\0\0\0\x08\x01g\0\x01s\0\0\x0f\0\0\0member='Ticked'\0";

/// AddMatch of `arg0=':1.1'`, serial 2.
pub const ADD_FIRST: &[u8] =
    b"l\x01\0\x01\x10\0\0\0\x02\0\0\0\x7f\0\0\0\x01\x01o\0\x15\0\0\0/org/freedesktop/DBus\0\0\0\x02\x01s\0\x14\0\0\0org.freedesktop.DBus\0\0\0\0\x03\x01s\0\x08\0\0\0AddMatch\0\0\0\0\0\0\0\0\x06\x01s\0\x14\0\0\0org.freedesktop.DBus\0\0\0\0\x08\x01g\0\x01s\0\0\x0b\0\0\0arg0=':1.1'\0";

/// A signal, serial 3.
const TICKED: &[u8] =
    b"l\x04\x01\x01\0\0\0\0\x03\0\0\0?\0\0\0\x01\x01o\0\x01\0\0\0/\0\0\0\0\0\0\0\x02\x01s\0\x11\0\0\0com.example.Clock\0\0\0\0\0\0\0\x03\x01s\0\x06\0\0\0Ticked\0\0";

/// The same from `:1.2`.
const TICKED_BY_SECOND: &[u8] =
    b"l\x04\x01\x01\0\0\0\0\x03\0\0\0M\0\0\0\x01\x01o\0\x01\0\0\0/\0\0\0\0\0\0\0\x02\x01s\0\x11\0\0\0com.example.Clock\0\0\0\0\0\0\0\x03\x01s\0\x06\0\0\0Ticked\0\0\x07\x01s\0\x04\0\0\0:1.2\0\0\0\0";

/// A call of the first, serial 4.
pub const CALL: &[u8] =
    b"l\x01\0\x01\0\0\0\0\x04\0\0\0-\0\0\0\x01\x01o\0\x01\0\0\0/\0\0\0\0\0\0\0\x03\x01s\0\x03\0\0\0Now\0\0\0\0\0\x06\x01s\0\x04\0\0\0:1.1\0\0\0\0";

/// The same from `:1.2`.
const CALL_BY_SECOND: &[u8] =
    b"l\x01\0\x01\0\0\0\0\x04\0\0\0=\0\0\0\x01\x01o\0\x01\0\0\0/\0\0\0\0\0\0\0\x03\x01s\0\x03\0\0\0Now\0\0\0\0\0\x06\x01s\0\x04\0\0\0:1.1\0\0\0\0\x07\x01s\0\x04\0\0\0:1.2\0\0\0\0";

/// Its reply, serial 3.
const REPLY: &[u8] =
    b"l\x02\x01\x01\0\0\0\0\x03\0\0\0\x15\0\0\0\x05\x01u\0\x04\0\0\0\x06\x01s\0\x04\0\0\0:1.2\0\0\0\0";

/// The same from `:1.1`.
const REPLY_BY_FIRST: &[u8] =
    b"l\x02\x01\x01\0\0\0\0\x03\0\0\0%\0\0\0\x05\x01u\0\x04\0\0\0\x06\x01s\0\x04\0\0\0:1.2\0\0\0\0\x07\x01s\0\x04\0\0\0:1.1\0\0\0\0";

/// The reply to the first AddMatch, serial 3.
const FIRST_LISTENS: &[u8] =
    b"l\x02\x01\x01\0\0\0\0\x03\0\0\05\0\0\0\x05\x01u\0\x02\0\0\0\x06\x01s\0\x04\0\0\0:1.1\0\0\0\0\x07\x01s\0\x14\0\0\0org.freedesktop.DBus\0\0\0\0";

/// The reply to the second AddMatch, serial 3.
pub const SECOND_LISTENS: &[u8] =
    b"l\x02\x01\x01\0\0\0\0\x03\0\0\05\0\0\0\x05\x01u\0\x02\0\0\0\x06\x01s\0\x04\0\0\0:1.2\0\0\0\0\x07\x01s\0\x14\0\0\0org.freedesktop.DBus\0\0\0\0";

/// The reply to the second Hello: `:1.2`.
pub const SECOND_WELCOME: &[u8] =
    b"l\x02\x01\x01\x09\0\0\0\x01\0\0\0?\0\0\0\x05\x01u\0\x01\0\0\0\x06\x01s\0\x04\0\0\0:1.2\0\0\0\0\x07\x01s\0\x14\0\0\0org.freedesktop.DBus\0\0\0\0\x08\x01g\0\x01s\0\0\x04\0\0\0:1.2\0";

/// NameAcquired of `:1.2`, serial 2.
pub const SECOND_ACQUIRED: &[u8] =
    b"l\x04\x01\x01\x09\0\0\0\x02\0\0\0\x8f\0\0\0\x01\x01o\0\x15\0\0\0/org/freedesktop/DBus\0\0\0\x02\x01s\0\x14\0\0\0org.freedesktop.DBus\0\0\0\0\x03\x01s\0\x0c\0\0\0NameAcquired\0\0\0\0\x06\x01s\0\x04\0\0\0:1.2\0\0\0\0\x07\x01s\0\x14\0\0\0org.freedesktop.DBus\0\0\0\0\x08\x01g\0\x01s\0\0\x04\0\0\0:1.2\0";

/// NameOwnerChanged of `:1.1`, which nobody owns now, serial 4.
pub const FIRST_LEFT: &[u8] =
    b"l\x04\x01\x01\x1d\0\0\0\x04\0\0\0\x89\0\0\0\x01\x01o\0\x15\0\0\0/org/freedesktop/DBus\0\0\0\x02\x01s\0\x14\0\0\0org.freedesktop.DBus\0\0\0\0\x03\x01s\0\x10\0\0\0NameOwnerChanged\0\0\0\0\0\0\0\0\x07\x01s\0\x14\0\0\0org.freedesktop.DBus\0\0\0\0\x08\x01g\0\x03sss\0\0\0\0\0\0\0\0\x04\0\0\0:1.1\0\0\0\0\x04\0\0\0:1.1\0\0\0\0\0\0\0\0\0";

/// What the first client sends: it listens, answers the call that comes, and sends no more.
const FIRST: &[&[u8]] = &[HELLO, ADD_TICKED, REPLY, b""];

/// What the second client sends: it listens to what becomes of the first, and sends it a signal and
/// a call.
const SECOND: &[&[u8]] = &[HELLO, ADD_FIRST, TICKED, CALL];

/// What the first client is to be written, before it comes to its end.
const TO_FIRST: [&[u8]; 5] = [
    WELCOME,
    ACQUIRED,
    FIRST_LISTENS,
    TICKED_BY_SECOND,
    CALL_BY_SECOND,
];

/// What the second client is to be written.
const TO_SECOND: [&[u8]; 5] = [
    SECOND_WELCOME,
    SECOND_ACQUIRED,
    SECOND_LISTENS,
    REPLY_BY_FIRST,
    FIRST_LEFT,
];

/// The same where there was no memory to relay the signal, which is dropped whole.
const TO_FIRST_BUT_SIGNAL: [&[u8]; 4] = [WELCOME, ACQUIRED, FIRST_LISTENS, CALL_BY_SECOND];

/// The same where there was no memory to relay the reply, which is dropped whole.
const TO_SECOND_BUT_REPLY: [&[u8]; 4] = [
    SECOND_WELCOME,
    SECOND_ACQUIRED,
    SECOND_LISTENS,
    FIRST_LEFT,
];

/// How many turns are taken for a piece, more than it needs.
const TURNS: u32 = 4;

/// What came of a run, or of one client of it.
#[derive(Clone, Copy, PartialEq, Eq)]
pub enum Found {
    /// All that was to come.
    All,
    /// A client was told that there is no memory, or was closed, or what nobody is told of was
    /// dropped.
    Short,
    Wrong,
}

/// A client sends so many pieces: takes turns for each, as a router does, of which one may find no
/// memory. Tells how often time passed.
fn send(host: &mut ScriptedHost, key: usize, pieces: u32) -> u64 {
    let mut ticks: u64 = 0;
    for _piece in 0..pieces {
        host.readable(key, false);
        for _turn in 0..TURNS {
            ticks = ticks.wrapping_add(turn(host));
        }
    }
    ticks
}

/// A turn. Time passes before it where a tick is wanted: tells how often, which is once at most.
fn turn(host: &mut ScriptedHost) -> u64 {
    let has_ticked = host.wants_tick() && host.tick(&()).is_ok();
    let _refused = host.turn(&());
    u64::from(has_ticked)
}

/// Whether these messages are all that was written.
pub fn are_all(mut taken: &[u8], expected: &[&[u8]]) -> bool {
    for message in expected {
        match taken.strip_prefix(*message) {
            Some(rest) => taken = rest,
            None => return false,
        }
    }
    taken.is_empty()
}

/// Whether an error says that there is no memory.
pub fn tells_of_memory(taken: &[u8]) -> bool {
    for at in 0..taken.len() {
        if taken[at..].starts_with(b"org.freedesktop.DBus.Error.NoMemory") {
            return true;
        }
    }
    false
}

/// What came to a client that was to be written these messages, or without memory the others.
fn seen(host: &ScriptedHost, key: usize, expected: &[&[u8]], short: &[&[u8]]) -> Found {
    let Some(socket) = host.socket(key) else {
        return Found::Short;
    };
    let taken = socket.taken.as_slice();
    if are_all(taken, expected) {
        Found::All
    } else if are_all(taken, short) || tells_of_memory(taken) {
        Found::Short
    } else {
        Found::Wrong
    }
}

/// What came to both.
pub fn together(first: Found, second: Found) -> Found {
    match (first, second) {
        (Found::All, Found::All) => Found::All,
        (Found::Short, _) | (_, Found::Short) => Found::Short,
        _ => Found::Wrong,
    }
}

/// Serves both clients, until the first is over.
fn serve_both(host: &mut ScriptedHost, alloc: Global) -> Result<Found, AllocError> {
    let first = open(host, alloc, &plain(FIRST))?;
    let mut ticks = send(host, first, 2);
    let second = open(host, alloc, &plain(SECOND))?;
    if second == first {
        return Ok(Found::Short);
    }
    ticks = ticks.wrapping_add(send(host, second, 4));
    ticks = ticks.wrapping_add(send(host, first, 1));
    let at_first = seen(host, first, &TO_FIRST, &TO_FIRST_BUT_SIGNAL);
    ticks = ticks.wrapping_add(send(host, first, 1));
    if host.socket(first).is_some() {
        return Ok(Found::Wrong);
    }
    let at_second = seen(host, second, &TO_SECOND, &TO_SECOND_BUT_REPLY);
    let found = together(at_first, at_second);
    // Nobody took too little mail: time passed over a Leave, and the other routers are to check.
    if found == Found::All && host.post().checks_asked() != ticks {
        return Ok(Found::Wrong);
    }
    Ok(found)
}

fn both_served(alloc: Global) -> Result<Found, AllocError> {
    let mut host = open_host(alloc)?;
    let served = serve_both(&mut host, alloc);
    drop(host);
    served
}

/// Whether a host relays between its clients as it should. Where memory is refused, somebody is
/// told so or closed, and what else was to come may be missing then; or a signal or a reply is
/// dropped, and all else comes. A host that is opened then relays all.
pub fn are_relayed(alloc: Global) -> bool {
    match both_served(alloc) {
        Ok(Found::All) => true,
        Ok(Found::Wrong) => false,
        Ok(Found::Short) | Err(AllocError) => both_served(alloc) == Ok(Found::All),
    }
}

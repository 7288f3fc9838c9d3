//! Several messages of a connection, which an engine serves in one turn.

use crate::engine::{Plain, brought, feeds};
use outbox_core::{BusMessage, Content};
use router_core::{Action, Event};
use seq_bus_core::ErrorKind;
use seq_bus_core::limits::MAX_BATCH;
use std::alloc::Global;

/// Calls with the serials 2 to 5, put together by hand: AddMatch of `type='signal'` twice,
/// GetNameOwner of `:1.1` big-endian, AddMatch again.
const CALLS: &[u8] =
    b"l\x01\0\x01\x12\0\0\0\x02\0\0\0\x7f\0\0\0\x01\x01o\0\x15\0\0\0/org/freedesktop/DBus\0\0\0\x02\x01s\0\x14\0\0\0org.freedesktop.DBus\0\0\0\0\x03\x01s\0\x08\0\0\0AddMatch\0\0\0\0\0\0\0\0\x06\x01s\0\x14\0\0\0org.freedesktop.DBus\0\0\0\0\x08\x01g\0\x01s\0\0\x0d\0\0\0type='signal'\0l\x01\0\x01\x12\0\0\0\x03\0\0\0\x7f\0\0\0\x01\x01o\0\x15\0\0\0/org/freedesktop/DBus\0\0\0\x02\x01s\0\x14\0\0\0org.freedesktop.DBus\0\0\0\0\x03\x01s\0\x08\0\0\0AddMatch\0\0\0\0\0\0\0\0\x06\x01s\0\x14\0\0\0org.freedesktop.DBus\0\0\0\0\x08\x01g\0\x01s\0\0\x0d\0\0\0type='signal'\0B\x01\0\x01\0\0\0\x09\0\0\0\x04\0\0\0\x7f\x01\x01o\0\0\0\0\x15/org/freedesktop/DBus\0\0\0\x02\x01s\0\0\0\0\x14org.freedesktop.DBus\0\0\0\0\x03\x01s\0\0\0\0\x0cGetNameOwner\0\0\0\0\x06\x01s\0\0\0\0\x14org.freedesktop.DBus\0\0\0\0\x08\x01g\0\x01s\0\0\0\0\0\x04:1.1\0l\x01\0\x01\x12\0\0\0\x05\0\0\0\x7f\0\0\0\x01\x01o\0\x15\0\0\0/org/freedesktop/DBus\0\0\0\x02\x01s\0\x14\0\0\0org.freedesktop.DBus\0\0\0\0\x03\x01s\0\x08\0\0\0AddMatch\0\0\0\0\0\0\0\0\x06\x01s\0\x14\0\0\0org.freedesktop.DBus\0\0\0\0\x08\x01g\0\x01s\0\0\x0d\0\0\0type='signal'\0";

/// Whether two turns serve the calls, which are answered in order, each once: the second finds
/// calls only where memory ran out in the first, behind its first message. A turn that there is no
/// memory for is handed back, and taken again.
pub fn are_served(engine: &mut Plain, alloc: Global) -> Option<bool> {
    feeds(engine, alloc, CALLS)?;
    let mut serial = 2;
    for _turn in 0..2 {
        if engine.has_next(0) {
            serial = serve(engine, alloc, serial)?;
        }
    }
    Some(serial == 6 && !engine.has_next(0))
}

/// Takes a turn: tells the serial behind those of the calls that are answered.
fn serve(engine: &mut Plain, alloc: Global, first: u32) -> Option<u32> {
    let actions = turn(engine, alloc)?;
    let serial = behind(&actions, first);
    drop(actions);
    serial
}

/// What a turn of four messages brings.
fn turn(engine: &mut Plain, alloc: Global) -> Option<Vec<Action<()>>> {
    let keys = match Vec::from_elem(alloc, 0, 4) {
        Ok(keys) => keys,
        Err(_) => Vec::from_elem(alloc, 0, 4).ok()?,
    };
    if keys.is_empty() || keys.len() > MAX_BATCH {
        return None;
    }
    brought(engine, Event::Turn { keys })
}

/// The serial behind those of the calls that are answered, which are one or more, in order from
/// this one on.
fn behind(actions: &[Action<()>], first: u32) -> Option<u32> {
    let mut serial = first;
    for action in actions {
        if answered(action)? != serial {
            return None;
        }
        serial = serial.checked_add(1)?;
    }
    if serial == first {
        return None;
    }
    Some(serial)
}

/// The serial of the call that is answered, perhaps that there is no memory for it.
fn answered(action: &Action<()>) -> Option<u32> {
    let Action::Put { content, .. } = action else {
        return None;
    };
    match content {
        Content::Own(BusMessage::Reply { to, body: _ }) => Some(to.call()),
        Content::Own(
            BusMessage::Error {
                to,
                error: ErrorKind::NoMemory,
            },
        ) => Some(to.call()),
        _ => None,
    }
}

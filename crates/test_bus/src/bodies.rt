//! The bytes of what a bus answers.

use crate::plain::open;
use bus_view::Asked;
use names::{BusName, WellKnown};
use owner_queues::RequestFlags;
use seq_bus::SeqBus;
use seq_bus_core::{Change, Query};
use std::alloc::{AllocError, Global};
use std::process::Abort;
use test_support::once_more;

const NAME: &str = "com.example.A";

/// Three connections come. The first has a name, for which the second waits, and the third replaces
/// it.
fn changes() -> Option<[Change; 6]> {
    let name = BusName::parse(NAME).ok()?;
    let hello = || Change::Hello { privileged: false };
    let request = |connection, bits| Change::Request {
        connection,
        name,
        flags: RequestFlags::from_bits(bits),
    };
    Some([
        hello(),
        hello(),
        hello(),
        request(1, 1),
        request(2, 0),
        request(3, 2),
    ])
}

/// What is asked.
fn queries() -> Option<[Query; 11]> {
    let name = BusName::parse(NAME).ok()?;
    let third = BusName::parse(":1.3").ok()?;
    let nobody = BusName::parse(":1.4").ok()?;
    Some([
        Query::GetNameOwner(name),
        Query::GetNameOwner(third),
        Query::GetNameOwner(BusName::bus()),
        Query::GetNameOwner(nobody),
        Query::NameHasOwner(name),
        Query::NameHasOwner(BusName::bus()),
        Query::NameHasOwner(nobody),
        Query::ListQueuedOwners(name),
        Query::ListQueuedOwners(nobody),
        Query::ListNames,
        Query::ListActivatableNames,
    ])
}

/// The body of the answer to each; it is empty where the name has no owner.
const BODIES: [&[u8]; 11] = [
    b"\x04\0\0\0:1.3\0",
    b"\x04\0\0\0:1.3\0",
    b"\x14\0\0\0org.freedesktop.DBus\0",
    b"",
    b"\x01\0\0\0",
    b"\x01\0\0\0",
    b"\0\0\0\0",
    b"\x21\0\0\0\x04\0\0\0:1.3\0\0\0\0\x04\0\0\0:1.1\0\0\0\0\x04\0\0\0:1.2\0",
    b"",
    b"\x52\0\0\0\x14\0\0\0org.freedesktop.DBus\0\0\0\0\x04\0\0\0:1.1\0\0\0\0\x04\0\0\0:1.2\0\0\0\0\x04\0\0\0:1.3\0\0\0\0\x0d\0\0\0com.example.A\0",
    b"\x2c\0\0\0\x14\0\0\0org.freedesktop.DBus\0\0\0\0\x0b\0\0\0com.example\0",
];

/// Makes a change, once more where one allocation failed; then the bus is as it was.
fn is_made(bus: &mut SeqBus, change: Change) -> bool {
    let length = bus.history().len();
    match bus.change(change) {
        Ok(_) => true,
        Err(refused) => {
            refused.cause.code() == 60
                && bus.history().len() == length
                && bus.change(refused.change).is_ok()
        }
    }
}

/// Whether a query is answered this body. Asked once more where one allocation failed; then nothing
/// was appended.
fn answers(alloc: Global, bus: &mut SeqBus, query: &Query, expected: &[u8]) -> bool {
    let mut body = Vec::new(alloc);
    let asked = match bus.ask(query, &mut body) {
        Ok(asked) => Ok(asked),
        Err(_) if !body.is_empty() => return false,
        Err(_) => bus.ask(query, &mut body),
    };
    let wanted = if expected.is_empty() {
        Asked::NameHasNoOwner
    } else {
        Asked::Body
    };
    asked == Ok(wanted) && body.as_slice() == expected
}

/// Whether a bus makes the changes, and then answers each query as it should.
fn answers_all(alloc: Global, bus: &mut SeqBus) -> Option<bool> {
    for change in changes()? {
        if !is_made(bus, change) {
            return Some(false);
        }
    }
    for (query, expected) in queries()?.iter().zip(BODIES) {
        if !answers(alloc, bus, query, expected) {
            return Some(false);
        }
    }
    Some(true)
}

#[test]
fn bodies_of_answers(rt: HostRuntime) {
    let service = WellKnown::parse("com.example").ok().expect(&rt, "a name");
    let mut bus = open(&rt, rt.alloc(), &[service], 1);
    assert!(rt; answers_all(rt.alloc(), &mut bus) == Some(true));
    drop(bus);
}

/// The list of the names of a bus with two connections, up to those that they request.
const FRONT: &[u8] =
    b"\x92\x09\0\0\x14\0\0\0org.freedesktop.DBus\0\0\0\0\x04\0\0\0:1.1\0\0\0\0\x04\0\0\0:1.2\0\0\0\0";

const DIGITS: &[u8; 10] = b"0123456789";

/// One of a hundred names as the list has it, with the padding before the next.
fn spelled(tens: u8, ones: u8) -> [u8; 24] {
    let mut spelled = *b"\x11\0\0\0com.example.n0000\0\0\0";
    spelled[19] = tens;
    spelled[20] = ones;
    spelled
}

/// The list with the hundred names in their order. Behind the last there is no padding.
fn list(alloc: Global) -> Result<Vec<u8>, AllocError> {
    let mut list = Vec::from_slice(alloc, FRONT)?;
    for tens in DIGITS {
        for ones in DIGITS {
            list.extend_from_slice(&spelled(*tens, *ones))?;
        }
    }
    list.truncate(2454);
    Ok(list)
}

/// Requests the hundred names, in another order.
fn requests_all(bus: &mut SeqBus) -> Option<bool> {
    for ones in DIGITS {
        let connection = if *ones < b'5' { 1 } else { 2 };
        for tens in DIGITS {
            let spelled = spelled(*tens, *ones);
            let text = str::from_utf8(&spelled[4..21]).ok()?;
            let request = Change::Request {
                connection,
                name: BusName::parse(text).ok()?,
                flags: RequestFlags::from_bits(0),
            };
            if !is_made(bus, request) {
                return Some(false);
            }
        }
    }
    Some(true)
}

/// Whether a bus to which two connections come, that request the hundred names, lists them so.
fn lists_all(alloc: Global, bus: &mut SeqBus, list: &[u8]) -> Option<bool> {
    for _ in 0..2 {
        if !is_made(bus, Change::Hello { privileged: false }) {
            return Some(false);
        }
    }
    Some(requests_all(bus)? && answers(alloc, bus, &Query::ListNames, list))
}

#[test]
fn list_of_a_hundred_names(rt: HostRuntime) {
    let list = once_more!(&rt; list(rt.alloc()));
    let mut bus = open(&rt, rt.alloc(), &[], 1);
    assert!(rt; lists_all(rt.alloc(), &mut bus, &list) == Some(true));
    drop(bus);
}

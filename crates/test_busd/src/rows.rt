//! What the bus answers to what is sent.

use crate::messages::*;
use crate::runs::{Row, is_so, joined};
use busd_core::RunFault;
use router_core::CloseCause;
use std::alloc::{AllocError, Global};
use std::process::Abort;
use test_support::messages::{ACQUIRED, GET_NAME_OWNER, HELLO, OWNER, WELCOME};

/// What is sent after Hello, and what it is answered.
const CALLS: &[(&[u8], &[u8])] = &[
    (b"", b""),
    (GET_NAME_OWNER, OWNER),
    (HELLO_AGAIN, FAILED),
    (OTHER_METHOD, UNKNOWN_METHOD),
    (MONITOR_METHOD, INVALID_ARGS),
    (OTHER_INTERFACE, UNKNOWN_INTERFACE),
    (NO_ARGUMENT, INVALID_ARGS),
    (NO_NAME, INVALID_ARGS),
    (OBJECT_PATH, INVALID_ARGS),
    (OTHER_OWNER, NO_OWNER),
    (BUS_OWNER, BUS_REPLY),
    (NAME_HAS_OWNER, HAS_OWNER),
    (ADD_MATCH, ADDED),
    (ADD_NO_RULE, RULE_INVALID),
    (REMOVE_MATCH, RULE_NOT_FOUND),
    (SILENT, b""),
    (SIGNAL, b""),
    (ELSEWHERE, SERVICE_UNKNOWN),
    (ELSEWHERE_SILENT, b""),
    (TO_ITSELF, TO_ITSELF_RELAYED),
    (TO_NOBODY, b""),
    (SIGNAL_TO_BUS, b""),
    (UNKNOWN_KIND, b""),
];

#[test]
fn calls_after_hello(rt: HostRuntime) {
    for (sent, answer) in CALLS {
        let row: Row<'_> = (&[HELLO, sent], &[WELCOME, ACQUIRED, answer], Ok(()));
        assert!(rt; is_so(rt.alloc(), &row), "{sent:?}");
    }
}

/// How a run ends where a connection's first message is no Hello.
const NO_HELLO: Result<(), RunFault> = Err(RunFault::Closed(CloseCause::NotHello));

const ROWS: &[Row<'static>] = &[
    // A rule that is added and removed.
    (
        &[HELLO, ADD_MATCH, REMOVE_MATCH],
        &[WELCOME, ACQUIRED, ADDED, REMOVED],
        Ok(()),
    ),
    // A signal that comes back.
    (
        &[HELLO, ADD_MATCH, BROADCAST],
        &[WELCOME, ACQUIRED, ADDED, BROADCAST_RELAYED],
        Ok(()),
    ),
    // First messages.
    (&[SILENT_HELLO], &[ACQUIRED_FIRST], Ok(())),
    (&[GET_NAME_OWNER], &[], NO_HELLO),
    (&[HELLO_WITH_ARGUMENT], &[], NO_HELLO),
    (&[SIGNAL], &[], NO_HELLO),
    (&[UNKNOWN_KIND], &[], NO_HELLO),
];

#[test]
fn several_messages_and_first_ones(rt: HostRuntime) {
    for (place, row) in ROWS.iter().enumerate() {
        assert!(rt; is_so(rt.alloc(), row), "row {place}");
    }
}

/// What is sent after Hello, and what is written then, by serials from 3 on.
type Exchange = (&'static [&'static [u8]], &'static [&'static [u8]]);

const EXCHANGES: &[Exchange] = &[
    (&[LIST_NAMES], &[NAMES]),
    (&[LIST_ACTIVATABLE_NAMES], &[ACTIVATABLE_NAMES]),
    (&[LIST_OWN_QUEUE], &[OWN_QUEUE]),
    (&[LIST_NO_QUEUE], &[NO_OWNER]),
    // A free name is acquired before the reply.
    (&[REQUEST_NAME], &[NAME_ACQUIRED, PRIMARY_OWNER]),
    (
        &[REQUEST_NAME, REQUEST_NAME, LIST_NAMES],
        &[
            NAME_ACQUIRED,
            PRIMARY_OWNER,
            ALREADY_OWNER,
            NAMES_WITH_OWNED,
        ],
    ),
    // A released name is lost before the reply.
    (&[RELEASE_NAME], &[NON_EXISTENT]),
    (
        &[REQUEST_NAME, RELEASE_NAME, LIST_NAMES],
        &[NAME_ACQUIRED, PRIMARY_OWNER, NAME_LOST, RELEASED, NAMES],
    ),
    // Changes of owner are told to who asks.
    (
        &[ADD_MATCH, REQUEST_NAME, RELEASE_NAME],
        &[
            ADDED,
            OWNER_CHANGED,
            NAME_ACQUIRED,
            PRIMARY_OWNER,
            NAME_LOST,
            OWNER_GONE,
            RELEASED,
        ],
    ),
    // Unique names are not requested.
    (&[REQUEST_UNIQUE], &[INVALID_ARGS]),
];

/// Messages of the bus in little-endian order, numbered from 3 on.
fn numbered(alloc: Global, messages: &[&[u8]]) -> Result<Vec<u8>, AllocError> {
    let mut bytes = Vec::new(alloc);
    let mut serial = 2u8;
    for message in messages {
        serial = serial.wrapping_add(1);
        let mut next = joined(alloc, &[*message])?;
        if let Some(slot) = next.get_mut(8) {
            *slot = serial;
        }
        bytes.append(&mut next)?;
    }
    Ok(bytes)
}

fn is_exchanged(alloc: Global, exchange: &Exchange) -> Result<bool, AllocError> {
    let sent = joined(alloc, exchange.0)?;
    let answers = numbered(alloc, exchange.1)?;
    let row: Row<'_> = (
        &[HELLO, sent.as_slice()],
        &[WELCOME, ACQUIRED, answers.as_slice()],
        Ok(()),
    );
    Ok(is_so(alloc, &row))
}

#[test]
fn names_and_their_owners(rt: HostRuntime) {
    for (place, exchange) in EXCHANGES.iter().enumerate() {
        let once = is_exchanged(rt.alloc(), exchange);
        let is_due = once == Ok(true) || is_exchanged(rt.alloc(), exchange) == Ok(true);
        assert!(rt; is_due, "row {place}");
    }
}

#[test]
fn lengths_of_samples(rt: HostRuntime) {
    for (answers, length) in [
        ([WELCOME, ACQUIRED].as_slice(), 258),
        (&[WELCOME, ACQUIRED, OWNER], 347),
        (&[WELCOME, ACQUIRED, ADDED, BROADCAST_RELAYED], 410),
    ] {
        let bytes = joined(rt.alloc(), answers).expect(&rt, "there is memory");
        assert_eq!(rt; bytes.len(), length);
    }
}

#[test]
fn beginnings(rt: HostRuntime) {
    for length in 0..HELLO.len() {
        let row: Row<'_> = (&[&HELLO[..length]], &[], Ok(()));
        assert!(rt; is_so(rt.alloc(), &row), "{length} bytes of Hello");
    }
    for length in 0..GET_NAME_OWNER.len() {
        let sent = [HELLO, &GET_NAME_OWNER[..length]];
        let row: Row<'_> = (&sent, &[WELCOME, ACQUIRED], Ok(()));
        assert!(rt; is_so(rt.alloc(), &row), "{length} bytes of a call");
    }
}

//! What calls that waited for a service carry to the router whose change lets them go. Each seat is
//! told what the other has made.

use crate::players::Router;
use bus_view::Cause;
use names::BusName;
use owner_queues::RequestFlags;
use registry_snapshots::{Naming, Seat, Shared};
use seq_bus_core::{CallHead, Change, Conn, Ending, Fate, Outcome, SettledTicket, SharedBytes};
use std::alloc::Global;
use std::sync::{Arc, Wait};

/// What happens on a bus with one service. A connection stands as its number.
#[derive(Clone, Copy)]
enum Deed {
    /// A connection comes that proved to be its user's.
    Hello,
    /// RequestName of the service's name.
    Request(u64),
    /// ReleaseName of it.
    Release(u64),
    /// StartServiceByName, with the serial of the call.
    Start(u64, u32),
    /// A call to the service, with its serial and its bytes.
    Hold(u64, u32, &'static [u8]),
    /// The program of a start exits with status 1.
    Ended(u64),
}

/// A ticket that is settled: what became of it, its number, its caller, and the serial and the
/// bytes of the call.
type Settled = (Fate, u64, Conn, u32, Option<&'static [u8]>);

pub(crate) const FIRST: Conn = Conn {
    number: 1,
    slot: 0,
    router: 1,
};

pub(crate) const SECOND: Conn = Conn {
    number: 2,
    slot: 128,
    router: 2,
};

pub(crate) const SERVICE: &str = "com.example.S";

/// The router of each deed, and the tickets that it settles: calls that the service is given at the
/// other router, and calls that fail by what the other is told.
const ROWS: [(Router, Deed, &[Settled]); 10] = [
    (Router::First, Deed::Hello, &[]),
    (Router::Second, Deed::Hello, &[]),
    (Router::First, Deed::Hold(1, 10, b"one"), &[]),
    (Router::Second, Deed::Hold(2, 20, b"two"), &[]),
    (Router::First, Deed::Start(1, 11), &[]),
    (
        Router::Second,
        Deed::Request(2),
        &[
            (Fate::Served, 1, FIRST, 10, Some(b"one")),
            (Fate::Served, 2, SECOND, 20, Some(b"two")),
            (Fate::Served, 3, FIRST, 11, None),
        ],
    ),
    (Router::Second, Deed::Release(2), &[]),
    (Router::Second, Deed::Hold(2, 21, b"late"), &[]),
    (Router::First, Deed::Hold(1, 12, b"later"), &[]),
    (
        Router::First,
        Deed::Ended(2),
        &[
            (Fate::Failed, 4, SECOND, 21, Some(b"late")),
            (Fate::Failed, 5, FIRST, 12, Some(b"later")),
        ],
    ),
];

fn call(serial: u32) -> CallHead {
    CallHead { serial, flags: 0 }
}

fn message(alloc: Global, bytes: &[u8]) -> Option<SharedBytes> {
    let bytes = Vec::from_slice(alloc, bytes).ok()?;
    Some(SharedBytes::new(Arc::new(alloc, bytes).ok()?))
}

/// The change that is meant; none for want of memory.
fn change_of(alloc: Global, deed: Deed) -> Option<Change> {
    let name = BusName::parse(SERVICE).ok()?;
    Some(match deed {
        Deed::Hello => Change::Hello { privileged: true },
        Deed::Request(connection) => Change::Request {
            connection,
            name,
            flags: RequestFlags::default(),
        },
        Deed::Release(connection) => Change::Release { connection, name },
        Deed::Start(connection, serial) => Change::Start {
            connection,
            name,
            call: call(serial),
        },
        Deed::Hold(connection, serial, bytes) => Change::Hold {
            connection,
            name,
            call: call(serial),
            message: message(alloc, bytes)?,
        },
        Deed::Ended(start) => Change::ChildEnded {
            name,
            start,
            how: Ending::Exit(1),
        },
    })
}

fn carries(settled: &SettledTicket, expected: &Settled) -> bool {
    let (fate, number, caller, serial, bytes) = *expected;
    let ticket = &settled.ticket;
    let message = match &ticket.message {
        Some(message) => Some(message.as_slice()),
        None => None,
    };
    settled.fate == fate
        && ticket.number == number
        && ticket.caller == caller
        && ticket.call == call(serial)
        && message == bytes
}

fn settles(outcome: &Outcome, expected: &[Settled]) -> bool {
    let tickets = outcome.tickets.as_slice();
    tickets.len() == expected.len()
        && tickets
            .iter()
            .zip(expected)
            .all(|(settled, ticket)| carries(settled, ticket))
}

/// Makes a change, of which the other seat is told: what it is told. One that is refused for want
/// of memory leaves the seat as it was and is handed back, and what it is told once it is made
/// shows nothing of the refusal: a call that waits has the ticket's number that it would have had.
fn make<J: Naming, R: Wait>(
    rt: &R,
    shared: &Shared<J>,
    maker: &mut Seat<J>,
    reader: &mut Seat<J>,
    change: Change,
) -> Option<Outcome> {
    let had_note = maker.note().is_some();
    let (outcome, note) = match maker.change(rt, shared, change) {
        Ok(made) => made,
        Err(refused) => {
            if refused.cause != Cause::NoMemory || maker.note().is_some() != had_note {
                return None;
            }
            maker.change(rt, shared, refused.change).ok()?
        }
    };
    reader.take_note(&note);
    Some(outcome)
}

/// Whether each deed settles the tickets that it should.
pub(crate) fn are_settled<J: Naming, R: Wait>(
    rt: &R,
    alloc: Global,
    shared: &Shared<J>,
    first: &mut Seat<J>,
    second: &mut Seat<J>,
) -> Option<bool> {
    for (router, deed, tickets) in ROWS {
        let change = change_of(alloc, deed)?;
        let told = match router {
            Router::First => make(rt, shared, first, second, change)?,
            Router::Second => make(rt, shared, second, first, change)?,
        };
        if !settles(&told, tickets) {
            return Some(false);
        }
    }
    Some(true)
}

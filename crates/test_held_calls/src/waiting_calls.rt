//! Calls that wait for a service, over a plain bus.

use bus_view::can_open;
use names::{BusName, WellKnown};
use owner_queues::{Profile, Reply as QueueReply, RequestFlags};
use seq_bus::SeqBus;
use seq_bus_core::limits::MAX_TICKETS;
use seq_bus_core::{
    CallHead, Change, Conn, Ending, Fate, MonitorRules, Outcome, Reply, SettledTicket, SharedBytes,
};
use std::alloc::Global;
use std::process::Abort;
use std::sync::Arc;
use test_support::once_more;

/// What happens on the bus. A connection stands as its number, a name as its text.
#[derive(Clone, Copy)]
enum Deed<'a> {
    /// A connection comes that proved to be its user's.
    Hello,
    Leave(u64),
    BecomeMonitor(u64),
    /// RequestName.
    Request(u64, &'a str),
    /// StartServiceByName, with the serial of the call.
    Start(u64, &'a str, u32),
    /// A call to a name, with its serial and its bytes.
    Hold(u64, &'a str, u32, &'a [u8]),
    /// The program of a start ended.
    Ended(&'a str, u64, Ending),
    /// The program of a start did not take its name in time.
    TimedOut(&'a str, u64),
}

/// A ticket that is settled: what became of it, its number, its caller, and the serial and the
/// bytes of the call.
type Settled<'a> = (Fate, u64, Conn, u32, Option<&'a [u8]>);

/// A deed, and what it is told: the reply, the start that is asked for, and the tickets.
type Row<'a> = (Deed<'a>, Reply, Option<u64>, &'a [Settled<'a>]);

struct Run<'a> {
    name: &'a str,
    rows: &'a [Row<'a>],
}

pub(crate) const FIRST: Conn = Conn {
    number: 1,
    slot: 0,
    router: 1,
};

pub(crate) const SECOND: Conn = Conn {
    number: 2,
    slot: 1,
    router: 1,
};

pub(crate) const THIRD: Conn = Conn {
    number: 3,
    slot: 2,
    router: 1,
};

pub(crate) const S: &str = "com.example.S";

const T: &str = "com.example.T";

/// The flags of the calls: none.
const FLAGS: u8 = 0;

const OWNS: Reply = Reply::OfQueue(QueueReply::PrimaryOwner);

const RUNS: [Run; 7] = [
    Run {
        name: "three calls to a service that takes its name",
        rows: &[
            (Deed::Hello, Reply::Welcome(FIRST), None, &[]),
            (Deed::Hello, Reply::Welcome(SECOND), None, &[]),
            (Deed::Hold(1, S, 10, b"one"), Reply::Held(1), Some(1), &[]),
            (Deed::Hold(2, S, 20, b"two"), Reply::Held(2), None, &[]),
            (Deed::Start(1, S, 11), Reply::Held(3), None, &[]),
            (Deed::Hello, Reply::Welcome(THIRD), None, &[]),
            (
                Deed::Request(3, S),
                OWNS,
                None,
                &[
                    (Fate::Served, 1, FIRST, 10, Some(b"one")),
                    (Fate::Served, 2, SECOND, 20, Some(b"two")),
                    (Fate::Served, 3, FIRST, 11, None),
                ],
            ),
            (Deed::Hold(1, S, 12, b"on"), Reply::Pass(THIRD), None, &[]),
            (Deed::Start(1, S, 13), Reply::AlreadyRunning, None, &[]),
            (
                Deed::Ended(S, 1, Ending::Exit(1)),
                Reply::Ignored,
                None,
                &[],
            ),
        ],
    },
    Run {
        name: "three calls to a service that ends with status 1",
        rows: &[
            (Deed::Hello, Reply::Welcome(FIRST), None, &[]),
            (Deed::Hold(1, S, 10, b"one"), Reply::Held(1), Some(1), &[]),
            (Deed::Hold(1, S, 11, b"two"), Reply::Held(2), None, &[]),
            (Deed::Hold(1, S, 12, b"three"), Reply::Held(3), None, &[]),
            (
                Deed::Ended(S, 1, Ending::Exit(0)),
                Reply::Ignored,
                None,
                &[],
            ),
            (
                Deed::Ended(T, 1, Ending::Exit(1)),
                Reply::Ignored,
                None,
                &[],
            ),
            (
                Deed::Ended(S, 1, Ending::Exit(1)),
                Reply::Done,
                None,
                &[
                    (Fate::Failed, 1, FIRST, 10, Some(b"one")),
                    (Fate::Failed, 2, FIRST, 11, Some(b"two")),
                    (Fate::Failed, 3, FIRST, 12, Some(b"three")),
                ],
            ),
            (Deed::Request(1, S), OWNS, None, &[]),
        ],
    },
    Run {
        name: "two callers join one start, which times out",
        rows: &[
            (Deed::Hello, Reply::Welcome(FIRST), None, &[]),
            (Deed::Hello, Reply::Welcome(SECOND), None, &[]),
            (Deed::Start(2, S, 7), Reply::Held(1), Some(1), &[]),
            (Deed::Start(1, S, 8), Reply::Held(2), None, &[]),
            (
                Deed::TimedOut(S, 1),
                Reply::Done,
                None,
                &[
                    (Fate::Failed, 1, SECOND, 7, None),
                    (Fate::Failed, 2, FIRST, 8, None),
                ],
            ),
            (Deed::TimedOut(S, 1), Reply::Ignored, None, &[]),
            (Deed::Start(1, S, 9), Reply::Held(3), Some(2), &[]),
        ],
    },
    Run {
        name: "two services, mixed",
        rows: &[
            (Deed::Hello, Reply::Welcome(FIRST), None, &[]),
            (Deed::Hold(1, S, 1, b"s"), Reply::Held(1), Some(1), &[]),
            (Deed::Hold(1, T, 2, b"t"), Reply::Held(2), Some(2), &[]),
            (Deed::Start(1, S, 3), Reply::Held(3), None, &[]),
            (Deed::Start(1, T, 4), Reply::Held(4), None, &[]),
            (
                Deed::Ended(T, 2, Ending::Killed),
                Reply::Done,
                None,
                &[
                    (Fate::Failed, 2, FIRST, 2, Some(b"t")),
                    (Fate::Failed, 4, FIRST, 4, None),
                ],
            ),
            (
                Deed::Request(1, S),
                OWNS,
                None,
                &[
                    (Fate::Served, 1, FIRST, 1, Some(b"s")),
                    (Fate::Served, 3, FIRST, 3, None),
                ],
            ),
        ],
    },
    Run {
        name: "a caller that leaves",
        rows: &[
            (Deed::Hello, Reply::Welcome(FIRST), None, &[]),
            (Deed::Hello, Reply::Welcome(SECOND), None, &[]),
            (Deed::Hold(1, S, 10, b"one"), Reply::Held(1), Some(1), &[]),
            (Deed::Leave(1), Reply::Done, None, &[]),
            (Deed::Hold(1, S, 11, b"two"), Reply::Gone, None, &[]),
            (
                Deed::Request(2, S),
                OWNS,
                None,
                &[(Fate::Served, 1, FIRST, 10, Some(b"one"))],
            ),
        ],
    },
    Run {
        name: "a caller that becomes a monitor",
        rows: &[
            (Deed::Hello, Reply::Welcome(FIRST), None, &[]),
            (Deed::Hello, Reply::Welcome(SECOND), None, &[]),
            (Deed::Hold(1, S, 10, b"one"), Reply::Held(1), Some(1), &[]),
            (Deed::BecomeMonitor(1), Reply::Done, None, &[]),
            (Deed::Hold(1, S, 11, b"two"), Reply::Gone, None, &[]),
            (Deed::Start(1, S, 12), Reply::Gone, None, &[]),
            (
                Deed::TimedOut(S, 1),
                Reply::Done,
                None,
                &[(Fate::Failed, 1, FIRST, 10, Some(b"one"))],
            ),
        ],
    },
    Run {
        name: "a name that no service has",
        rows: &[
            (Deed::Hello, Reply::Welcome(FIRST), None, &[]),
            (
                Deed::Hold(1, "com.example.U", 1, b"u"),
                Reply::ServiceUnknown,
                None,
                &[],
            ),
            (
                Deed::Start(1, "com.example.U", 2),
                Reply::ServiceUnknown,
                None,
                &[],
            ),
            (
                Deed::Start(1, "org.freedesktop.DBus", 3),
                Reply::AlreadyRunning,
                None,
                &[],
            ),
        ],
    },
];

fn service(rt: &impl Abort, text: &str) -> WellKnown {
    WellKnown::parse(text).ok().expect(rt, "a well-known name")
}

pub(crate) fn new_bus(rt: &impl Abort, alloc: Global) -> SeqBus {
    let services = [service(rt, S), service(rt, T)];
    assert!(rt; can_open(&services, 1));
    once_more!(rt; SeqBus::new(alloc, &services, 1, Profile::One))
}

pub(crate) fn message(alloc: Global, bytes: &[u8]) -> Option<SharedBytes> {
    let bytes = Vec::from_slice(alloc, bytes).ok()?;
    Some(SharedBytes::new(Arc::new(alloc, bytes).ok()?))
}

fn call(serial: u32) -> CallHead {
    CallHead {
        serial,
        flags: FLAGS,
    }
}

/// The change that is meant; none where a text is no name, or for want of memory.
fn change_of(alloc: Global, deed: Deed<'_>) -> Option<Change> {
    Some(match deed {
        Deed::Hello => Change::Hello { privileged: true },
        Deed::Leave(connection) => Change::Leave { connection },
        Deed::BecomeMonitor(connection) => Change::BecomeMonitor {
            connection,
            rules: MonitorRules::new(alloc),
        },
        Deed::Request(connection, name) => Change::Request {
            connection,
            name: BusName::parse(name).ok()?,
            flags: RequestFlags::from_bits(0),
        },
        Deed::Start(connection, name, serial) => Change::Start {
            connection,
            name: BusName::parse(name).ok()?,
            call: call(serial),
        },
        Deed::Hold(connection, name, serial, bytes) => Change::Hold {
            connection,
            name: BusName::parse(name).ok()?,
            call: call(serial),
            message: message(alloc, bytes)?,
        },
        Deed::Ended(name, start, how) => Change::ChildEnded {
            name: BusName::parse(name).ok()?,
            start,
            how,
        },
        Deed::TimedOut(name, start) => Change::StartTimedOut {
            name: BusName::parse(name).ok()?,
            start,
        },
    })
}

/// What a deed is told. What is refused for want of memory is handed back, and made once more.
fn make(rt: &impl Abort, alloc: Global, bus: &mut SeqBus, deed: Deed<'_>) -> Outcome {
    let change = match change_of(alloc, deed) {
        Some(change) => change,
        None => change_of(alloc, deed).expect(rt, "one allocation fails"),
    };
    match bus.change(change) {
        Ok(outcome) => outcome,
        Err(refused) => bus
            .change(refused.change)
            .ok()
            .expect(rt, "one allocation fails"),
    }
}

fn carries(settled: &SettledTicket, expected: &Settled<'_>) -> bool {
    let (fate, number, caller, serial, bytes) = *expected;
    let ticket = &settled.ticket;
    let message = match &ticket.message {
        Some(message) => Some(message.as_slice()),
        None => None,
    };
    settled.fate == fate
        && ticket.number == number
        && ticket.caller == caller
        && ticket.call == call(serial)
        && message == bytes
}

fn settles(outcome: &Outcome, expected: &[Settled<'_>]) -> bool {
    let tickets = outcome.tickets.as_slice();
    tickets.len() == expected.len()
        && tickets
            .iter()
            .zip(expected)
            .all(|(settled, ticket)| carries(settled, ticket))
}

/// Whether a deed is told what its row says.
fn tells(told: &Outcome, row: &Row<'_>) -> bool {
    let (_, reply, start, tickets) = row;
    told.reply == *reply && told.start == *start && settles(told, tickets)
}

/// Plays a run on a bus.
fn play(rt: &impl Abort, alloc: Global, bus: &mut SeqBus, run: &Run<'_>) {
    for (place, row) in run.rows.iter().enumerate() {
        let told = make(rt, alloc, bus, row.0);
        assert!(rt; tells(&told, row), "{}: row {place}", run.name);
    }
}

#[test]
fn calls_that_wait(rt: HostRuntime) {
    for run in &RUNS {
        let mut bus = new_bus(&rt, rt.alloc());
        play(&rt, rt.alloc(), &mut bus, run);
        drop(bus);
    }
}

/// As many calls as can wait, for each of two services in turn.
fn fill(rt: &impl Abort, alloc: Global, bus: &mut SeqBus) {
    for number in 1..=MAX_TICKETS as u64 {
        let name = if number % 2 == 0 { S } else { T };
        let told = make(rt, alloc, bus, Deed::Start(1, name, 1));
        assert!(rt; told.reply == Reply::Held(number), "{number}");
    }
    let told = make(rt, alloc, bus, Deed::Start(1, S, 1));
    assert!(rt; told.reply == Reply::LimitsExceeded && told.start.is_none());
}

/// The calls to one of the services are served, and one more may wait.
fn serve_half(rt: &impl Abort, alloc: Global, bus: &mut SeqBus) {
    let told = make(rt, alloc, bus, Deed::Request(1, S));
    let tickets = told.tickets.as_slice();
    assert!(rt; told.reply == OWNS && tickets.len() == MAX_TICKETS / 2);
    for (settled, half) in tickets.iter().zip(1_u64..) {
        let number = settled.ticket.number;
        assert!(rt;
            settled.fate == Fate::Served && half.checked_mul(2) == Some(number),
            "{number}"
        );
    }
    let told = make(rt, alloc, bus, Deed::Start(1, T, 1));
    assert!(rt; told.reply == Reply::Held(MAX_TICKETS as u64 + 1));
}

#[test]
fn as_many_calls_as_can_wait(rt: HostRuntime) {
    let mut bus = new_bus(&rt, rt.alloc());
    let _welcome = make(&rt, rt.alloc(), &mut bus, Deed::Hello);
    fill(&rt, rt.alloc(), &mut bus);
    serve_half(&rt, rt.alloc(), &mut bus);
    drop(bus);
}

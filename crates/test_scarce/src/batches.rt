//! A batch of rules, calls that wait and monitors, on a plain bus.

use crate::plain::open;
use bus_view::{Asked, BatchCause, Cause};
use match_rules::{Facts, MessageKind, Rule};
use names::{BusName, WellKnown};
use owner_queues::{Reply as QueueReply, RequestFlags};
use seq_bus::SeqBus;
use seq_bus_core::{
    CallHead, Change, Conn, MonitorRules, Outcome, Query, Recipients, Reply, SettledTicket,
    SharedBytes, VerdictKind,
};
use std::alloc::{AllocError, Global};
use std::sync::Arc;

/// What a connection does, which stands as its number. It calls a service, and its rules are those
/// of all messages.
#[derive(Clone, Copy)]
enum Deed {
    Hello,
    Leave(u64),
    Request(u64, &'static str),
    Add(u64),
    Remove(u64),
    Watch(u64),
    Start(u64),
    /// A call with these bytes.
    Hold(u64, &'static [u8]),
    /// The program of a start does not take its name in time.
    TimedOut(u64),
}

/// A deed, its reply, the start that it asks for, and the calls that it lets go: the number and the
/// bytes of each.
type Row = (Deed, Reply, Option<u64>, &'static [(u64, &'static [u8])]);

/// The service.
const CLOCK: &str = "com.example.Clock";

const LAMP: &str = "com.example.Lamp";

const OWNED: Reply = Reply::OfQueue(QueueReply::PrimaryOwner);

const FIRST: Conn = Conn {
    number: 1,
    slot: 0,
    router: 1,
};

const SECOND: Conn = Conn {
    number: 2,
    slot: 1,
    router: 1,
};

const THIRD: Conn = Conn {
    number: 3,
    slot: 2,
    router: 1,
};

const FOURTH: Conn = Conn {
    number: 4,
    slot: 3,
    router: 1,
};

/// One has a name and waits for the service, one has a rule, and one is a monitor.
const BEFORE: [Row; 7] = [
    (Deed::Hello, Reply::Welcome(FIRST), None, &[]),
    (Deed::Hello, Reply::Welcome(SECOND), None, &[]),
    (Deed::Hello, Reply::Welcome(THIRD), None, &[]),
    (Deed::Request(1, LAMP), OWNED, None, &[]),
    (Deed::Hold(1, b"tick"), Reply::Held(1), Some(1), &[]),
    (Deed::Add(2), Reply::Done, None, &[]),
    (Deed::Watch(3), Reply::Done, None, &[]),
];

const BATCH: [Row; 12] = [
    (Deed::Add(1), Reply::Done, None, &[]),
    (Deed::Remove(2), Reply::Done, None, &[]),
    (Deed::Hold(2, b"tock"), Reply::Held(2), None, &[]),
    (Deed::Start(1), Reply::Held(3), None, &[]),
    (Deed::Watch(1), Reply::Done, None, &[]),
    (Deed::Hello, Reply::Welcome(FOURTH), None, &[]),
    (Deed::Add(4), Reply::Done, None, &[]),
    (
        Deed::Request(2, CLOCK),
        OWNED,
        None,
        &[(1, b"tick"), (2, b"tock"), (3, b"")],
    ),
    (Deed::TimedOut(1), Reply::Ignored, None, &[]),
    (Deed::Hold(4, b"on"), Reply::Pass(SECOND), None, &[]),
    (Deed::Leave(2), Reply::Done, None, &[]),
    (Deed::Request(4, LAMP), OWNED, None, &[]),
];

/// Tickets and starts are numbered on from those of the batch.
const AFTER: [Row; 4] = [
    (Deed::Start(4), Reply::Held(4), Some(2), &[]),
    (Deed::TimedOut(2), Reply::Done, None, &[(4, b"")]),
    (Deed::Hold(4, b"late"), Reply::Held(5), Some(3), &[]),
    (Deed::Request(4, CLOCK), OWNED, None, &[(5, b"late")]),
];

/// Whether the batch is made, and told, as it should be.
pub fn is_made(alloc: Global) -> Option<bool> {
    let mut bus = open(alloc, &[WellKnown::parse(CLOCK).ok()?])?;
    let made = is_made_on(alloc, &mut bus);
    drop(bus);
    made
}

fn is_made_on(alloc: Global, bus: &mut SeqBus) -> Option<bool> {
    let are_ready = are_so(alloc, bus, &BEFORE)?;
    let outcomes = told_at_once(alloc, bus)?;
    let is_told = are_those_of(outcomes.as_slice(), &BATCH);
    let goes_on = are_so(alloc, bus, &AFTER)?;
    Some(are_ready && is_told && goes_on)
}

/// Whether outcomes are those of the rows, one for each.
fn are_those_of(outcomes: &[Outcome], rows: &[Row]) -> bool {
    if outcomes.len() != rows.len() {
        return false;
    }
    let mut outcomes = outcomes.iter();
    for row in rows {
        match outcomes.next() {
            Some(outcome) => {
                if !tells(outcome, row) {
                    return false;
                }
            }
            None => return false,
        }
    }
    true
}

/// Whether deeds, made one by one, are told so.
fn are_so(alloc: Global, bus: &mut SeqBus, rows: &[Row]) -> Option<bool> {
    for row in rows {
        if !tells(&told(alloc, bus, row.0)?, row) {
            return Some(false);
        }
    }
    Some(true)
}

/// What a deed is told. One that is refused is made again.
fn told(alloc: Global, bus: &mut SeqBus, deed: Deed) -> Option<Outcome> {
    let change = match change_of(alloc, deed) {
        Some(change) => change,
        None => change_of(alloc, deed)?,
    };
    let length = bus.history().len();
    match bus.change(change) {
        Ok(outcome) => Some(outcome),
        Err(refused) => {
            if refused.cause != Cause::NoMemory || bus.history().len() != length {
                return None;
            }
            bus.change(refused.change).ok()
        }
    }
}

/// What the batch is told. Where it is refused it is made again, and till then all that the bus
/// tells is as it was.
fn told_at_once(alloc: Global, bus: &mut SeqBus) -> Option<Vec<Outcome>> {
    let changes = match batch(alloc) {
        Some(changes) => changes,
        None => batch(alloc)?,
    };
    let before = all_told(alloc, bus)?;
    match bus.change_all(changes) {
        Ok(outcomes) => Some(outcomes),
        Err(refused) => {
            let is_handed_back = refused.cause == BatchCause::Refused(Cause::NoMemory)
                && refused.changes.len() == BATCH.len();
            if !is_handed_back || all_told(alloc, bus)?.as_slice() != before.as_slice() {
                return None;
            }
            bus.change_all(refused.changes).ok()
        }
    }
}

fn batch(alloc: Global) -> Option<Vec<Change>> {
    let mut changes = Vec::new(alloc);
    for row in &BATCH {
        changes.push(change_of(alloc, row.0)?).ok()?;
    }
    Some(changes)
}

/// The change that is meant; none for want of memory.
fn change_of(alloc: Global, deed: Deed) -> Option<Change> {
    let clock = BusName::parse(CLOCK).ok()?;
    let rule = Rule::default();
    Some(match deed {
        Deed::Hello => Change::Hello { privileged: true },
        Deed::Leave(connection) => Change::Leave { connection },
        Deed::Request(connection, name) => Change::Request {
            connection,
            name: BusName::parse(name).ok()?,
            flags: RequestFlags::from_bits(0),
        },
        Deed::Add(connection) => Change::AddMatch { connection, rule },
        Deed::Remove(connection) => Change::RemoveMatch { connection, rule },
        Deed::Watch(connection) => Change::BecomeMonitor {
            connection,
            rules: one_rule(alloc, rule).ok()?,
        },
        Deed::Start(connection) => Change::Start {
            connection,
            name: clock,
            call: CALL,
        },
        Deed::Hold(connection, bytes) => Change::Hold {
            connection,
            name: clock,
            call: CALL,
            message: shared(alloc, bytes).ok()?,
        },
        Deed::TimedOut(start) => Change::StartTimedOut { name: clock, start },
    })
}

const CALL: CallHead = CallHead {
    serial: 1,
    flags: 0,
};

fn one_rule(alloc: Global, rule: Rule) -> Result<MonitorRules, AllocError> {
    let mut rules = MonitorRules::new(alloc);
    rules.push(rule)?;
    Ok(rules)
}

fn shared(alloc: Global, bytes: &[u8]) -> Result<SharedBytes, AllocError> {
    Ok(SharedBytes::new(Arc::new(alloc, Vec::from_slice(alloc, bytes)?)?))
}

/// Whether a deed was told what its row says.
fn tells(outcome: &Outcome, row: &Row) -> bool {
    let (_, reply, start, calls) = *row;
    let tickets = outcome.tickets.as_slice();
    outcome.reply == reply
        && outcome.start == start
        && tickets.len() == calls.len()
        && tickets
            .iter()
            .zip(calls)
            .all(|(settled, call)| is_call(settled, call))
}

fn is_call(settled: &SettledTicket, call: &(u64, &[u8])) -> bool {
    let bytes = match &settled.ticket.message {
        Some(message) => message.as_slice(),
        None => b"",
    };
    settled.ticket.number == call.0 && bytes == call.1
}

/// All that the bus tells, once more where there is no memory for it.
fn all_told(alloc: Global, bus: &mut SeqBus) -> Option<Vec<u8>> {
    match all_told_once(alloc, bus) {
        Some(told) => Some(told),
        None => all_told_once(alloc, bus),
    }
}

/// The length of its history, who is there, what queries are answered, and where messages go.
fn all_told_once(alloc: Global, bus: &mut SeqBus) -> Option<Vec<u8>> {
    let mut told = Vec::new(alloc);
    told.push(u8::try_from(bus.history().len()).ok()?).ok()?;
    for name in [CLOCK, LAMP, ":1.1", ":1.4"] {
        tell_answers(bus, BusName::parse(name).ok()?, &mut told)?;
    }
    for from in 0..5 {
        tell_ways(bus, from, &mut told).ok()?;
    }
    Some(told)
}

fn tell_answers(bus: &mut SeqBus, name: BusName, told: &mut Vec<u8>) -> Option<()> {
    for query in [
        Query::ListNames,
        Query::ListActivatableNames,
        Query::GetNameOwner(name),
        Query::NameHasOwner(name),
        Query::ListQueuedOwners(name),
    ] {
        let asked = bus.ask(&query, told).ok()?;
        told.push(u8::from(asked == Asked::Body)).ok()?;
    }
    Some(())
}

/// Whether a connection is there, and where its signals go and its calls to each of these names.
fn tell_ways(bus: &SeqBus, from: u64, told: &mut Vec<u8>) -> Result<(), AllocError> {
    told.push(u8::from(bus.present(from)))?;
    for destination in [None, Some(CLOCK), Some(LAMP), Some(":1.1"), Some(":1.4")] {
        tell_way(bus, from, destination, told)?;
    }
    Ok(())
}

fn tell_way(
    bus: &SeqBus,
    from: u64,
    destination: Option<&str>,
    told: &mut Vec<u8>,
) -> Result<(), AllocError> {
    let facts = Facts {
        kind: if destination.is_none() {
            MessageKind::Signal
        } else {
            MessageKind::MethodCall
        },
        auto_start: true,
        sender: 0,
        path: Some("/"),
        interface: Some(CLOCK),
        member: Some("Ticked"),
        destination,
        arguments: &[],
    };
    let verdict = bus.route(from, &facts);
    told.push(code_of(verdict.kind))?;
    tell_numbers(&verdict.to, told)?;
    tell_numbers(&verdict.monitors, told)
}

fn code_of(kind: VerdictKind) -> u8 {
    match kind {
        VerdictKind::Plain => 1,
        VerdictKind::Bus => 2,
        VerdictKind::Start => 3,
        VerdictKind::Nobody => 4,
        VerdictKind::Absent => 5,
    }
}

/// The numbers of connections, and behind them 0, which none has.
fn tell_numbers(connections: &Recipients, told: &mut Vec<u8>) -> Result<(), AllocError> {
    for connection in connections.as_slice() {
        told.extend_from_slice(&connection.number.to_le_bytes())?;
    }
    told.push(0)?;
    Ok(())
}

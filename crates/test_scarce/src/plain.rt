//! A plain bus.

use crate::changes::{CHANGES, are_replied, batch, change, clock, reply};
use bus_view::{AskFault, Asked, BatchCause, Cause, can_open};
use names::{BusName, WellKnown};
use owner_queues::Profile;
use seq_bus::SeqBus;
use seq_bus_core::{Change, Conn, Query, Reply};
use std::alloc::Global;

/// The second connection: one router of a plain bus makes all changes.
const SECOND: Conn = Conn {
    number: 2,
    slot: 1,
    router: 1,
};

/// The one that comes when the second has left.
const THIRD: Conn = Conn {
    number: 3,
    slot: 1,
    router: 1,
};

/// What stands in a body before anything is appended.
const BEFORE: u8 = 255;

/// Whether a plain bus is opened, changed and asked as it should be.
pub fn is_answered(alloc: Global) -> Option<bool> {
    let clock = clock()?;
    let mut bus = open(alloc, &[])?;
    let answered = answers(alloc, &mut bus, clock);
    drop(bus);
    answered
}

fn answers(alloc: Global, bus: &mut SeqBus, clock: BusName) -> Option<bool> {
    for place in 0..CHANGES {
        if made(bus, change(place, clock))? != reply(place, SECOND) {
            return Some(false);
        }
    }
    for (query, body) in [
        (Query::GetNameOwner(clock), b"\x04\0\0\0:1.1\0".as_slice()),
        (Query::NameHasOwner(clock), b"\x01\0\0\0".as_slice()),
        (
            Query::ListNames,
            b">\0\0\0\x14\0\0\0org.freedesktop.DBus\0\0\0\0\x04\0\0\0:1.1\0\0\0\0\x11\0\0\0com.example.Clock\0".as_slice(),
        ),
        (
            Query::ListActivatableNames,
            b"\x19\0\0\0\x14\0\0\0org.freedesktop.DBus\0".as_slice(),
        ),
        (
            Query::ListQueuedOwners(clock),
            b"\x09\0\0\0\x04\0\0\0:1.1\0".as_slice(),
        ),
    ] {
        if !is_asked(alloc, bus, &query, body)? {
            return Some(false);
        }
    }
    if bus.history().len() != usize::from(CHANGES) {
        return Some(false);
    }
    Some(are_made(alloc, bus, clock)? && bus.history().len() == usize::from(CHANGES) + 3)
}

/// A bus with these services. One that is refused is opened again.
pub fn open(alloc: Global, services: &[WellKnown]) -> Option<SeqBus> {
    if !can_open(services, 1) {
        return None;
    }
    match SeqBus::new(alloc, services, 1, Profile::One) {
        Ok(bus) => Some(bus),
        Err(_) => SeqBus::new(alloc, services, 1, Profile::One).ok(),
    }
}

/// The reply to a change. One that is refused is made again.
fn made(bus: &mut SeqBus, change: Change) -> Option<Reply> {
    let length = bus.history().len();
    match bus.change(change) {
        Ok(outcome) => Some(outcome.reply),
        Err(refused) => {
            if refused.cause != Cause::NoMemory || bus.history().len() != length {
                return None;
            }
            Some(bus.change(refused.change).ok()?.reply)
        }
    }
}

/// Whether the changes of the batch have their replies. One that is refused is made again, and till
/// then the bus is as it was.
fn are_made(alloc: Global, bus: &mut SeqBus, name: BusName) -> Option<bool> {
    let changes = batch(alloc, name)?;
    let length = bus.history().len();
    let outcomes = match bus.change_all(changes) {
        Ok(outcomes) => outcomes,
        Err(refused) => {
            let is_for_memory = refused.cause == BatchCause::Refused(Cause::NoMemory);
            if !is_for_memory || bus.history().len() != length || bus.present(3) {
                return None;
            }
            bus.change_all(refused.changes).ok()?
        }
    };
    Some(are_replied(&outcomes, THIRD))
}

/// Whether a query is answered by this body, which is appended. One that is refused is asked again.
fn is_asked(alloc: Global, bus: &mut SeqBus, query: &Query, expected: &[u8]) -> Option<bool> {
    let mut body = Vec::new(alloc);
    if body.push(BEFORE).is_err() {
        body.push(BEFORE).ok()?;
    }
    let asked = match bus.ask(query, &mut body) {
        Err(AskFault::NoMemory) if body.len() == 1 => bus.ask(query, &mut body),
        asked => asked,
    };
    let (before, appended) = body.split_first()?;
    Some(asked == Ok(Asked::Body) && *before == BEFORE && appended == expected)
}

//! Starts of services in a registry.

use crate::changes::clock;
use bus_view::can_open;
use names::{BusName, WellKnown};
use owner_queues::{Profile, Reply as QueueReply, RequestFlags};
use registry::Registry;
use seq_bus_core::{CallHead, Change, Conn, Reply, SharedBytes};
use std::alloc::{AllocError, Global};
use std::sync::Arc;

const CALL: CallHead = CallHead {
    serial: 1,
    flags: 0,
};

const CALLER: Conn = Conn {
    number: 1,
    slot: 0,
    router: 1,
};

/// Whether calls wait, and their starts end, as they should.
pub fn are_made(alloc: Global) -> Option<bool> {
    let name = clock()?;
    let mut registry = open(alloc)?;
    let made = are_made_in(alloc, &mut registry, name);
    drop(registry);
    made
}

fn are_made_in(alloc: Global, registry: &mut Registry, name: BusName) -> Option<bool> {
    let owned = Reply::OfQueue(QueueReply::PrimaryOwner);
    Some(
        is_made(alloc, registry, HELLO, Reply::Welcome(CALLER), &[])?
            && is_made(alloc, registry, start(name), Reply::Held(1), &[])?
            && is_made(alloc, registry, hold(alloc, name)?, Reply::Held(2), &[])?
            && is_made(alloc, registry, timed_out(name), Reply::Done, &[1, 2])?
            && is_made(alloc, registry, start(name), Reply::Held(3), &[])?
            && is_made(alloc, registry, request(name), owned, &[3])?,
    )
}

/// A registry with one service.
fn open(alloc: Global) -> Option<Registry> {
    let services = [WellKnown::parse("com.example.Clock").ok()?];
    if !can_open(&services, 1) {
        return None;
    }
    match Registry::new(alloc, &services, 1, Profile::One) {
        Ok(registry) => Some(registry),
        Err(_) => Registry::new(alloc, &services, 1, Profile::One).ok(),
    }
}

/// Makes a change: whether it has this reply and settles these tickets. One that is refused is
/// prepared again.
fn is_made(
    alloc: Global,
    registry: &mut Registry,
    change: Change,
    reply: Reply,
    settled: &[u64],
) -> Option<bool> {
    let prepared = match registry.prepare(alloc, 1, &change) {
        Ok(prepared) => prepared,
        Err(_) => registry.prepare(alloc, 1, &change).ok()?,
    };
    registry.absorb(&prepared);
    let outcome = prepared.outcome();
    let numbers = outcome.tickets.as_slice();
    Some(
        outcome.reply == reply
            && numbers
                .iter()
                .map(|ticket| ticket.number)
                .eq(settled.iter().copied()),
    )
}

const HELLO: Change = Change::Hello { privileged: false };

fn timed_out(name: BusName) -> Change {
    Change::StartTimedOut { name, start: 1 }
}

fn start(name: BusName) -> Change {
    Change::Start {
        connection: 1,
        name,
        call: CALL,
    }
}

fn request(name: BusName) -> Change {
    Change::Request {
        connection: 1,
        name,
        flags: RequestFlags::from_bits(0),
    }
}

/// A call that is to wait. Its bytes are made again where memory is refused.
fn hold(alloc: Global, name: BusName) -> Option<Change> {
    let message = match shared(alloc) {
        Ok(message) => message,
        Err(_) => shared(alloc).ok()?,
    };
    Some(Change::Hold {
        connection: 1,
        name,
        call: CALL,
        message,
    })
}

fn shared(alloc: Global) -> Result<SharedBytes, AllocError> {
    Ok(SharedBytes::new(Arc::new(alloc, Vec::new(alloc))?))
}

//! What a seat sees of the bus before it is told of changes, and then.

use crate::waiting_calls::{FIRST, SECOND};
use names::{BusName, UniqueName};
use owner_queues::RequestFlags;
use registry_snapshots::{Naming, Seat, Shared, Snap};
use seq_bus_core::{Change, Conn, MonitorRules, Reply};
use std::alloc::Global;
use std::sync::Wait;

/// Makes a change, of which another seat is told: the reply.
fn make<J: Naming, R: Wait>(
    rt: &R,
    shared: &Shared<J>,
    maker: &mut Seat<J>,
    reader: &mut Seat<J>,
    change: Change,
) -> Option<Reply> {
    let (outcome, note) = maker.change(rt, shared, change).ok()?;
    reader.take_note(&note);
    Some(outcome.reply)
}

/// Whether a connection comes at a seat.
fn comes<J: Naming, R: Wait>(
    rt: &R,
    shared: &Shared<J>,
    seat: &mut Seat<J>,
    other: &mut Seat<J>,
    conn: Conn,
) -> Option<bool> {
    let reply = make(rt, shared, seat, other, Change::Hello { privileged: true })?;
    Some(reply == Reply::Welcome(conn))
}

/// Whether two seats see what they should before and after the first is told of a connection.
pub(crate) fn are_told<J: Naming, R: Wait>(
    rt: &R,
    alloc: Global,
    shared: &Shared<J>,
    first: &mut Seat<J>,
    second: &mut Seat<J>,
) -> Option<bool> {
    let are_numbered = first.number() == 1 && second.number() == 2 && first.note().is_none();
    let was_watched = second.is_watched();
    let was_absent = !second.present(1).ok()?;
    let is_unwatched = !second.is_watched();
    let came = comes(rt, shared, first, second, FIRST)?;
    let are_watched = first.is_watched() && second.is_watched();
    let name = BusName::from(UniqueName::of(1));
    let is_seen = second.open(|snap| snap.owner(&name) == Some(1) && snap.conn(1) == Some(FIRST));
    let is_alone = !second.present(2).ok()?;
    let is_told = are_numbered
        && was_watched
        && was_absent
        && is_unwatched
        && came
        && are_watched
        && is_seen.ok()?
        && is_alone
        && comes(rt, shared, second, first, SECOND)?;
    Some(is_told && are_lent(rt, alloc, shared, first, second)?)
}

/// Whether the second seat lends a name and its queue, of which the first connection is a part
/// until it becomes a monitor.
fn are_lent<J: Naming, R: Wait>(
    rt: &R,
    alloc: Global,
    shared: &Shared<J>,
    first: &mut Seat<J>,
    second: &mut Seat<J>,
) -> Option<bool> {
    let name = BusName::parse("com.example.A").ok()?;
    make(rt, shared, second, first, request(2, name))?;
    make(rt, shared, first, second, request(1, name))?;
    let before = second.open(|snap| is_queue(snap, &name, &[2, 1]) && !snap.has_monitors());
    let watching = Change::BecomeMonitor {
        connection: 1,
        rules: MonitorRules::new(alloc),
    };
    make(rt, shared, first, second, watching)?;
    let after = second.open(|snap| is_queue(snap, &name, &[2]) && is_monitor(snap, FIRST));
    Some(before.ok()? && after.ok()?)
}

fn request(connection: u64, name: BusName) -> Change {
    Change::Request {
        connection,
        name,
        flags: RequestFlags::default(),
    }
}

/// Whether a name is the only one, and has this queue.
fn is_queue(snap: &Snap, name: &BusName, connections: &[u64]) -> bool {
    snap.names().len() == 1
        && snap
            .queue(name)
            .iter()
            .map(|place| place.connection)
            .eq(connections.iter().copied())
}

/// Whether a connection is the only monitor, and has no rules.
fn is_monitor(snap: &Snap, conn: Conn) -> bool {
    let monitors = snap.monitors();
    snap.has_monitors()
        && monitors.len() == 1
        && monitors.iter().all(|monitor| monitor.conn() == conn && monitor.rules().is_empty())
}

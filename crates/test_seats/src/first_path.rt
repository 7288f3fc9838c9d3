//! The way of a message, from bytes to bytes, over two seats of a shared registry: a thread makes
//! each change with a seat of its own and tells of it in a note; whoever takes the note reads the
//! bus with another seat.

ghost use Rattle.std.specs.Prelude.{◌≡◌, ◌<◌, [], IfOk};
ghost use Rattle.owner_queues.specs.declared.request.Profile.TheVariants.{Two};
ghost use Rattle.seq_bus_core.specs.Tickets.{opening_bus};
ghost use Rattle.registry_snapshots.specs.Openings.{identity};

use crate::publishing::publish_to;
use bus_view::Refused;
use driver::{Call, ReplyBody, ReplyTo, SpelledBody, read_call, write_reply, write_signal};
use message::{Framer, Message, facts, first_arguments, with_sender};
use names::{BusName, UniqueName};
use registry_snapshots::{Naming, NewHistory, Seat, Shared};
use seq_bus_core::{BusSignal, Change, Conn, Outcome, Reply};
use std::alloc::Global;
use std::marker::Brand;
use std::sync::Wait;
use std::test::Fail;
use std::thread::Threads;
use test_support::messages::{ACQUIRED, HELLO, WELCOME};

/// AddMatch of `type='signal'`, serial 2.
const ADD_MATCH: &[u8] =
    b"l\x01\0\x01\x12\0\0\0\x02\0\0\0\x7f\0\0\0\x01\x01o\0\x15\0\0\0/org/freedesktop/DBus\0\0\0\x02\x01s\0\x14\0\0\0org.freedesktop.DBus\0\0\0\0\x03\x01s\0\x08\0\0\0AddMatch\0\0\0\0\0\0\0\0\x06\x01s\0\x14\0\0\0org.freedesktop.DBus\0\0\0\0\x08\x01g\0\x01s\0\0\x0d\0\0\0type='signal'\0";

/// A signal, serial 3.
const SIGNAL: &[u8] =
    b"l\x04\0\x01\0\0\0\0\x03\0\0\0*\0\0\0\x01\x01o\0\x02\0\0\0/a\0\0\0\0\0\0\x02\x01s\0\x03\0\0\0a.b\0\0\0\0\0\x03\x01s\0\x01\0\0\0C\0\0\0\0\0\0\0";

/// The reply to `ADD_MATCH`.
const ADDED: &[u8] =
    b"l\x02\x01\x01\0\0\0\0\x03\0\0\05\0\0\0\x05\x01u\0\x02\0\0\0\x06\x01s\0\x04\0\0\0:1.1\0\0\0\0\x07\x01s\0\x14\0\0\0org.freedesktop.DBus\0\0\0\0";

/// `SIGNAL` from `:1.1`.
const RELAYED: &[u8] =
    b"l\x04\0\x01\0\0\0\0\x03\0\0\0=\0\0\0\x01\x01o\0\x02\0\0\0/a\0\0\0\0\0\0\x02\x01s\0\x03\0\0\0a.b\0\0\0\0\0\x03\x01s\0\x01\0\0\0C\0\0\0\0\0\0\0\x07\x01s\0\x04\0\0\0:1.1\0\0\0\0";

/// A client: what it sent, and what it is written.
#[derive(Drop)]
struct Client {
    framer: Framer,
    out: Vec<u8>,
}

impl Client {
    /// Its messages came in one piece each.
    fn new(alloc: Global) -> Result<Client, Fail> {
        let mut framer = Framer::new(alloc);
        framer.feed(HELLO)?;
        framer.feed(ADD_MATCH)?;
        framer.feed(SIGNAL)?;
        Ok(Client {
            framer,
            out: Vec::new(alloc),
        })
    }

    /// Its next message, which is there.
    fn next(&mut self) -> Result<Message, Fail> {
        match self.framer.next() {
            Ok(Some(message)) => Ok(message),
            _ => Err(Fail::from("no message")),
        }
    }

    /// Its Hello is answered, and the signal follows.
    fn is_welcome(&mut self, conn: Conn) -> Result<(), Fail> {
        let hello = self.next()?;
        welcome(&hello, conn, &mut self.out)
    }

    /// Its signal is relayed to it, as its rule fits.
    fn hears<J: Naming>(&mut self, reader: &mut Seat<J>, conn: Conn) -> Result<(), Fail> {
        let signal = self.next()?;
        relay(reader, &signal, conn, &mut self.out)
    }
}

/// Replies to a call of the connection.
fn reply(
    serial: u32,
    call: &Message,
    conn: Conn,
    body: ReplyBody<SpelledBody<'_>>,
    out: &mut Vec<u8>,
) -> Result<(), Fail>
    requires { 0 < serial }
{
    let _bytes = call.as_bytes();
    let to = ReplyTo::new(Some(conn.number), call.serial());
    Ok(write_reply(serial, to, body, out)?)
}

/// The reply to a Hello, and the signal that follows it.
fn welcome(call: &Message, conn: Conn, out: &mut Vec<u8>) -> Result<(), Fail> {
    reply(1, call, conn, ReplyBody::UniqueName(conn.number), out)?;
    let signal = BusSignal::NameAcquired {
        name: BusName::from(UniqueName::of(conn.number)),
        owner: conn.number,
    };
    Ok(write_signal(2, &signal, out)?)
}

/// What a change was told, where it was made.
fn reply_to(told: Result<Outcome, Refused>) -> Result<Reply, Fail> {
    match told {
        Ok(outcome) => Ok(outcome.reply),
        Err(_) => Err(Fail::from("refused")),
    }
}

/// The change that a call of AddMatch asks for.
fn added(call: Call, connection: u64) -> Result<Change, Fail> {
    match call {
        Call::AddMatch { rule } => Ok(Change::AddMatch {
            connection,
            rule: *rule.get(),
        }),
        _ => Err(Fail::from("no rule")),
    }
}

/// The change that a message asks for, which is a call of AddMatch.
fn change_of(alloc: Global, message: &Message, connection: u64) -> Result<Change, Fail> {
    match read_call(alloc, message) {
        Ok(call) => added(call, connection),
        Err(_) => Err(Fail::from("no call")),
    }
}

/// Relays a signal to its sender, whose rule it fits.
fn relay<J: Naming>(
    reader: &mut Seat<J>,
    signal: &Message,
    conn: Conn,
    out: &mut Vec<u8>,
) -> Result<(), Fail> {
    let arguments = first_arguments(signal);
    match reader.route(conn.number, &facts(signal, arguments.as_slice())) {
        Ok(verdict) if verdict.to.as_slice() == [conn].as_slice() => {
            Ok(with_sender(signal, &UniqueName::of(conn.number), out)?)
        }
        _ => Err(Fail::from("for others")),
    }
}

/// A connection comes, and is there for the reader.
fn come<J: Naming + Send + Sync, R: Threads + Wait + Sync>(
    rt: &R,
    shared: &Shared<J>,
    maker: Seat<J>,
    reader: &mut Seat<J>,
) -> Result<(Seat<J>, Conn), Fail> {
    let change = Change::Hello { privileged: true };
    let (maker, told) = publish_to(rt, shared, maker, reader, change);
    let Reply::Welcome(conn) = reply_to(told)? else {
        return Err(Fail::from("no number"));
    };
    if reader.present(conn.number) != Ok(true) {
        return Err(Fail::from("not there"));
    }
    Ok((maker, conn))
}

/// A rule is added.
fn add<J: Naming + Send + Sync, R: Threads + Wait + Sync>(
    rt: &R,
    shared: &Shared<J>,
    maker: Seat<J>,
    reader: &mut Seat<J>,
    change: Change,
) -> Result<(), Fail> {
    let (_maker, told) = publish_to(rt, shared, maker, reader, change);
    match reply_to(told)? {
        Reply::Done => Ok(()),
        _ => Err(Fail::from("not added")),
    }
}

/// The rule is added that a client asks for, and its call is answered.
fn listen<J: Naming + Send + Sync, R: Threads + Wait + Sync>(
    rt: &R,
    alloc: Global,
    shared: &Shared<J>,
    maker: Seat<J>,
    reader: &mut Seat<J>,
    conn: Conn,
    client: &mut Client,
) -> Result<(), Fail> {
    let call = client.next()?;
    let change = change_of(alloc, &call, conn.number)?;
    add(rt, shared, maker, reader, change)?;
    reply(3, &call, conn, ReplyBody::Empty, &mut client.out)
}

/// A client says Hello, adds a rule and sends a signal, which comes back to it. A thread makes the
/// changes, and what is read is read here.
fn serve<J: Naming + Send + Sync, R: Threads + Wait + Sync>(
    rt: &R,
    alloc: Global,
    shared: &Shared<J>,
    maker: Seat<J>,
    reader: &mut Seat<J>,
    client: &mut Client,
) -> Result<(), Fail> {
    let (maker, conn) = come(rt, shared, maker, reader)?;
    client.is_welcome(conn)?;
    listen(rt, alloc, shared, maker, reader, conn, client)?;
    client.hears(reader, conn)
}

/// Opens a registry, serves the client over its two seats, and ends it.
fn serve_once<J: Naming + Send + Sync, R: Threads + Wait + Sync>(
    rt: &R,
    alloc: Global,
    opened: NewHistory,
    client: &mut Client,
) -> Result<(), Fail>
    requires { (opened ≡ identity J.book J.name J.parts) × (J.opening ≡ opening_bus Two 1 []) }
{
    let Ok((shared, mut seats)) = Shared::<J>::new(rt, alloc, opened, &[], 1) else {
        return Err(Fail::from("no memory"));
    };
    let served = match (seats.pop(), seats.pop()) {
        (Some(maker), Some(mut reader)) => { serve(rt, alloc, &shared, maker, &mut reader, client) }
        _ => Err(Fail::from("no seats")),
    };
    shared.end(rt);
    served
}

#[test]
fn first_path(rt: HostRuntime) -> Result<(), Fail> {
    let mut client = Client::new(rt.alloc())?;
    serve_once::<Brand, _>(&rt, rt.alloc(), NewHistory::new(), &mut client)?;
    let mut expected = Vec::new(rt.alloc());
    for part in [WELCOME, ACQUIRED, ADDED, RELAYED] {
        expected.extend_from_slice(part)?;
    }
    let is_all = client.out.as_slice() == expected.as_slice();
    assert!(rt; is_all && expected.len() == 410);
    Ok(())
}

//! An engine of a plain bus with two services: what is sent to it, and what it does, told shortly.

use crate::waiting_calls::new_bus;
use driver::ReplyBody;
use outbox_core::{BusMessage, Content};
use router::Engine;
use router_core::{Action, Event, OpenGate};
use seq_bus::SeqBus;
use seq_bus_core::{BusSignal, Conn, ErrorKind};
use std::alloc::Global;
use std::process::Abort;
use test_support::messages::HELLO;
use test_support::once_more;

pub(crate) type Plain = Engine<SeqBus, OpenGate>;

/// RequestName of `com.example.S` with serial 2, as jeepney writes it.
pub(crate) const REQUEST: &[u8] =
    b"l\x01\0\x01\x18\0\0\0\x02\0\0\0\x80\0\0\0\x01\x01o\0\x15\0\0\0/org/freedesktop/DBus\0\0\0\x02\x01s\0\x14\0\0\0org.freedesktop.DBus\0\0\0\0\x03\x01s\0\x0b\0\0\0RequestName\0\0\0\0\0\x06\x01s\0\x14\0\0\0org.freedesktop.DBus\0\0\0\0\x08\x01g\0\x02su\0\x0d\0\0\0com.example.S\0\0\0\0\0\0\0";

/// StartServiceByName of `com.example.S` with serial 7, as jeepney writes it.
const START: &[u8] =
    b"l\x01\0\x01\x18\0\0\0\x07\0\0\0\x88\0\0\0\x01\x01o\0\x15\0\0\0/org/freedesktop/DBus\0\0\0\x02\x01s\0\x14\0\0\0org.freedesktop.DBus\0\0\0\0\x03\x01s\0\x12\0\0\0StartServiceByName\0\0\0\0\0\0\x06\x01s\0\x14\0\0\0org.freedesktop.DBus\0\0\0\0\x08\x01g\0\x02su\0\x0d\0\0\0com.example.S\0\0\0\0\0\0\0";

/// The same with serial 9, and without the wish for a reply.
const SILENT_START: &[u8] =
    b"l\x01\x01\x01\x18\0\0\0\x09\0\0\0\x88\0\0\0\x01\x01o\0\x15\0\0\0/org/freedesktop/DBus\0\0\0\x02\x01s\0\x14\0\0\0org.freedesktop.DBus\0\0\0\0\x03\x01s\0\x12\0\0\0StartServiceByName\0\0\0\0\0\0\x06\x01s\0\x14\0\0\0org.freedesktop.DBus\0\0\0\0\x08\x01g\0\x02su\0\x0d\0\0\0com.example.S\0\0\0\0\0\0\0";

/// A call to `com.example.S`, as jeepney writes it: as it is sent, and with its sender's name.
struct WaitingCall {
    /// Whose call it is.
    key: usize,
    sent: &'static [u8],
    passed: &'static [u8],
}

/// Calls with serials 10, 20 and 11, of which the second wants no reply.
const CALLS: [WaitingCall; 3] = [
    WaitingCall {
        key: 0,
        sent: b"l\x01\0\x01\0\0\0\0\n\0\0\0N\0\0\0\x01\x01o\0\x01\0\0\0/\0\0\0\0\0\0\0\x02\x01s\0\x0d\0\0\0com.example.I\0\0\0\x03\x01s\0\x05\0\0\0First\0\0\0\x06\x01s\0\x0d\0\0\0com.example.S\0\0\0",
        passed: b"l\x01\0\x01\0\0\0\0\n\0\0\0]\0\0\0\x01\x01o\0\x01\0\0\0/\0\0\0\0\0\0\0\x02\x01s\0\x0d\0\0\0com.example.I\0\0\0\x03\x01s\0\x05\0\0\0First\0\0\0\x06\x01s\0\x0d\0\0\0com.example.S\0\0\0\x07\x01s\0\x04\0\0\0:1.1\0\0\0\0",
    },
    WaitingCall {
        key: 1,
        sent: b"B\x01\x01\x01\0\0\0\x06\0\0\0\x14\0\0\0?\x01\x01o\0\0\0\0\x02/a\0\0\0\0\0\0\x03\x01s\0\0\0\0\x06Second\0\0\x06\x01s\0\0\0\0\x0dcom.example.S\0\0\0\x08\x01g\0\x01s\0\0\0\0\0\x01x\0",
        passed: b"B\x01\x01\x01\0\0\0\x06\0\0\0\x14\0\0\0O\x01\x01o\0\0\0\0\x02/a\0\0\0\0\0\0\x03\x01s\0\0\0\0\x06Second\0\0\x06\x01s\0\0\0\0\x0dcom.example.S\0\0\0\x07\x01s\0\0\0\0\x04:1.2\0\0\0\0\x08\x01g\0\x01s\0\0\0\0\0\x01x\0",
    },
    WaitingCall {
        key: 0,
        sent: b"l\x01\0\x01\0\0\0\0\x0b\0\0\06\0\0\0\x01\x01o\0\x01\0\0\0/\0\0\0\0\0\0\0\x03\x01s\0\x05\0\0\0Third\0\0\0\x06\x01s\0\x0d\0\0\0com.example.S\0\0\0",
        passed: b"l\x01\0\x01\0\0\0\0\x0b\0\0\0E\0\0\0\x01\x01o\0\x01\0\0\0/\0\0\0\0\0\0\0\x03\x01s\0\x05\0\0\0Third\0\0\0\x06\x01s\0\x0d\0\0\0com.example.S\0\0\0\x07\x01s\0\x04\0\0\0:1.1\0\0\0\0",
    },
];

/// What is done, told shortly.
#[derive(Clone, Copy, PartialEq, Eq)]
pub(crate) enum Told {
    /// The signal that it has a name.
    Acquired(Conn),
    /// A reply with a number, to the call of this serial.
    Number(Conn, u32, u32),
    /// An error, to the call of this serial.
    Error(Conn, u32, ErrorKind),
    /// The call of this place that waited, with its sender's name.
    Call(Conn, usize),
    /// The program of `com.example.S` is run for this start.
    Run(u64),
    Other,
}

fn told_of_own(conn: Conn, message: &BusMessage) -> Told {
    match message {
        BusMessage::Signal(signal) => match signal.get() {
            BusSignal::NameAcquired { .. } => Told::Acquired(conn),
            _ => Told::Other,
        },
        BusMessage::Reply {
            to,
            body: ReplyBody::Number(number),
        } => Told::Number(conn, to.call(), *number),
        BusMessage::Error { to, error } => Told::Error(conn, to.call(), *error),
        _ => Told::Other,
    }
}

fn told_of_put(conn: Conn, content: &Content) -> Told {
    match content {
        Content::Own(message) => told_of_own(conn, message),
        Content::Relayed(bytes) => {
            let is_it = |call: &WaitingCall| call.passed == bytes.as_slice();
            match CALLS.iter().position(is_it) {
                Some(place) => Told::Call(conn, place),
                None => Told::Other,
            }
        }
    }
}

pub(crate) fn told_of(action: &Action<()>) -> Told {
    match action {
        Action::Put { to, content, .. } => match (to.to(), to.monitors()) {
            ([conn], []) => told_of_put(*conn, content),
            _ => Told::Other,
        },
        Action::Run { name, start } if name.as_str() == "com.example.S" => Told::Run(*start),
        _ => Told::Other,
    }
}

/// What the engine does for the message that a connection sends.
pub(crate) fn served(
    rt: &impl Abort,
    alloc: Global,
    engine: &mut Plain,
    key: usize,
    sent: &[u8],
) -> Vec<Action<()>> {
    let piece = once_more!(rt; Vec::from_slice(alloc, sent));
    let mut comes = Event::Bytes { key, piece };
    let _fed = once_more!(rt; engine.event(&(), &mut comes));
    once_more!(rt; engine.event(&(), &mut Event::Next { key }))
}

/// A connection comes, and says Hello.
pub(crate) fn come(rt: &impl Abort, alloc: Global, engine: &mut Plain, key: usize) {
    assert!(rt; key == engine.free_key());
    let mut comes = Event::Opened {
        key,
        challenge: None,
    };
    let _come = once_more!(rt; engine.event(&(), &mut comes));
    let _welcome = served(rt, alloc, engine, key, HELLO);
}

/// An engine with two clients whose calls wait for `com.example.S`: StartServiceByName of each, and
/// between them three calls to it. The program is run once, and nothing else is done.
pub(crate) fn engine_with_calls(rt: &impl Abort, alloc: Global) -> Plain {
    let bus = new_bus(rt, alloc);
    let engine = Engine::new(alloc, bus, OpenGate, None);
    let mut engine = engine.ok().expect(rt, "memory");
    come(rt, alloc, &mut engine, 0);
    come(rt, alloc, &mut engine, 1);
    let first = served(rt, alloc, &mut engine, 0, START);
    assert!(rt; first.iter().map(told_of).eq([Told::Run(1)]));
    for call in &CALLS {
        assert!(rt; served(rt, alloc, &mut engine, call.key, call.sent).is_empty());
    }
    assert!(rt; served(rt, alloc, &mut engine, 1, SILENT_START).is_empty());
    engine
}

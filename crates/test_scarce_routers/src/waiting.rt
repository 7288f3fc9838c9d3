//! Calls that wait for a service.

use crate::engine::{Plain, brought, send};
use names::BusName;
use outbox_core::{BusMessage, Content};
use router_core::{Action, Event, HowEnded, StartEnd};
use seq_bus_core::{Ending, ErrorKind};
use std::alloc::Global;

/// A call to the service, put together by jeepney.
const CALL: &[u8] =
    b"l\x01\0\x01\0\0\0\0\x02\0\0\0:\0\0\0\x01\x01o\0\x01\0\0\0/\0\0\0\0\0\0\0\x03\x01s\0\x03\0\0\0Now\0\0\0\0\0\x06\x01s\0\x11\0\0\0com.example.Clock\0\0\0\0\0\0\0";

/// What one action does, told shortly.
#[derive(Clone, Copy, PartialEq, Eq)]
enum Told {
    Runs(u64),
    Fails(ErrorKind),
    Other,
}

/// Whether a call waits whose service is run, is answered why it did not come, and may then wait
/// once more. A call that there is no memory for is answered so, and sent again.
pub fn are_answered(engine: &mut Plain, alloc: Global) -> Option<bool> {
    Some(
        waits(engine, alloc)? == Told::Runs(1)
            && ends(engine, alloc)? == Told::Fails(ErrorKind::ChildExited)
            && waits(engine, alloc)? == Told::Runs(2),
    )
}

/// What is done for the call, which is sent once more where it is answered that there is no memory.
fn waits(engine: &mut Plain, alloc: Global) -> Option<Told> {
    match told_of(&send(engine, alloc, CALL)?) {
        Told::Fails(ErrorKind::NoMemory) => Some(told_of(&send(engine, alloc, CALL)?)),
        told => Some(told),
    }
}

/// What is done where the program of the first start fails. The end of a start that there is no
/// memory for is handed back.
fn ends(engine: &mut Plain, alloc: Global) -> Option<Told> {
    let end = StartEnd {
        name: BusName::parse("com.example.Clock").ok()?,
        start: 1,
        how: HowEnded::Program(Ending::Exit(1)),
    };
    let boxed = match Box::new(alloc, end) {
        Ok(boxed) => boxed,
        Err(_) => Box::new(alloc, end).ok()?,
    };
    Some(told_of(&brought(engine, Event::Child(boxed))?))
}

/// The one action, told shortly.
fn told_of(actions: &[Action<()>]) -> Told {
    match actions {
        [Action::Run { name: _, start }] => Told::Runs(*start),
        [Action::Put { content, .. }] => match content {
            Content::Own(BusMessage::Error { to: _, error }) => Told::Fails(*error),
            _ => Told::Other,
        },
        _ => Told::Other,
    }
}

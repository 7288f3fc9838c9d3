//! Mail that comes for a connection.

use crate::engine::{Plain, brought, send};
use outbox_core::{BusMessage, Content, Envelope};
use router_core::{Action, Event};
use seq_bus_core::ErrorKind;
use std::alloc::Global;
use test_support::messages::{GET_NAME_OWNER, OWNER};

/// Whether the reply to a call of the client is written to it once it comes as mail.
pub fn is_written(engine: &mut Plain, alloc: Global) -> Option<bool> {
    let envelope = Envelope {
        number: 1,
        note: None,
        content: answer(engine, alloc)?,
    };
    let actions = brought(engine, Event::Mail { slot: 0, envelope })?;
    let is_written = writes_owner(&actions);
    drop(actions);
    Some(is_written)
}

/// Whether the one action writes the reply to the client.
fn writes_owner(actions: &[Action<()>]) -> bool {
    match actions {
        [Action::Write { key: 0, bytes }] => is_owner(bytes.as_slice()),
        _ => false,
    }
}

/// Whether this is the reply to GetNameOwner, whatever its serial: a Hello that there was no memory
/// for was answered before.
fn is_owner(bytes: &[u8]) -> bool {
    bytes.get(..8) == OWNER.get(..8) && bytes.get(12..) == OWNER.get(12..)
}

/// What the client is answered, which calls once more where that is that there is no memory.
fn answer(engine: &mut Plain, alloc: Global) -> Option<Content> {
    let content = called(engine, alloc)?;
    if is_refused(&content) {
        return called(engine, alloc);
    }
    Some(content)
}

/// Whether the answer is that there is no memory.
fn is_refused(content: &Content) -> bool {
    matches!(
        content,
        Content::Own(BusMessage::Error {
            error: ErrorKind::NoMemory,
            ..
        })
    )
}

/// What is put for it.
fn called(engine: &mut Plain, alloc: Global) -> Option<Content> {
    let mut actions = send(engine, alloc, GET_NAME_OWNER)?;
    let action = actions.pop();
    drop(actions);
    match action {
        Some(Action::Put { content, .. }) => Some(content),
        _ => None,
    }
}

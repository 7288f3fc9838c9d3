//! What stands at the front of the bytes of a connection. (D-Bus Specification: "Message Protocol")

ghost use Rattle.std.specs.Prelude.{◌≡◌, ◌++◌, None, IfOk, OnOk, OnErr};
ghost use Rattle.router_steps.specs.Pending.{AreWithin, pending_bytes};
ghost use Rattle.router_steps.specs.Reading.{HasIncoming, HasMore, OnlyPends};

use message::Framer;
use message_core::{FrameFault, Message};
use std::alloc::{AllocError, Global};
use std::collections::VecDeque;

/// What stands at the front of the bytes of a connection.
#[derive(Drop)]
pub enum Incoming {
    /// More bytes are wanted.
    Waits,
    /// A message.
    Whole(Message),
    /// No message.
    Faulty(FrameFault),
}

/// What stands behind the messages that are pending.
#[derive(Clone, Copy)]
pub(crate) enum More {
    /// More bytes are wanted.
    Waits,
    /// A message, which is pending now.
    Pending,
    /// No message.
    Faulty(FrameFault),
}

/// Takes the next message off the bytes of a connection: the first that is pending, or else the one
/// at the front of what is unread. At a fault they are let go: nothing is left but to close the
/// connection. Without memory nothing changes.
pub(crate) fn take_incoming(
    alloc: Global,
    pending: &mut VecDeque<Message>,
    unread: &mut Framer,
) -> Result<Incoming, AllocError>
    requires fine { unread.old.fault ≡ None }
    requires within { AreWithin pending.old.items }
    ensures incoming { IfOk result (λ incoming.
        HasIncoming incoming (pending_bytes pending.old.items ++ unread.old.bytes)
        (pending_bytes pending.new.items ++ unread.new.bytes)) }
    ensures within { AreWithin pending.new.items }
    ensures fine { unread.new.fault ≡ None }
    ensures pending { OnErr result (pending.new.items ≡ pending.old.items) }
    ensures unread { OnErr result (unread.new ≡ unread.old) }
{
    if let Some(message) = pending.pop_front() {
        return Ok(Incoming::Whole(message));
    }
    match unread.next() {
        Ok(Some(message)) => Ok(Incoming::Whole(message)),
        Ok(None) => Ok(Incoming::Waits),
        Err(fault) => match fault {
            FrameFault::NoMemory => Err(AllocError),
            _ => {
                *unread = Framer::new(alloc);
                Ok(Incoming::Faulty(fault))
            }
        },
    }
}

/// Has the next message of a connection pending, if there is one. The bytes that were not served
/// stay the same, also without memory.
pub(crate) fn fill(pending: &mut VecDeque<Message>, unread: &mut Framer) -> Result<More, AllocError>
    requires fine { unread.old.fault ≡ None }
    requires within { AreWithin pending.old.items }
    ensures more { IfOk result (λ more. HasMore more pending.new.items
        (pending_bytes pending.new.items ++ unread.new.bytes)) }
    ensures bytes { pending_bytes pending.new.items ++ unread.new.bytes
        ≡ pending_bytes pending.old.items ++ unread.old.bytes }
    ensures within { AreWithin pending.new.items }
    ensures fine { unread.new.fault ≡ None }
{
    if pending.is_empty() {
        read_more(pending, unread)
    } else {
        Ok(More::Pending)
    }
}

/// Takes the message behind those that are pending off the bytes of a connection, and leaves it
/// pending too. So the bytes that were not served stay the same, also without memory.
pub(crate) fn read_more(
    pending: &mut VecDeque<Message>,
    unread: &mut Framer,
) -> Result<More, AllocError>
    requires fine { unread.old.fault ≡ None }
    requires within { AreWithin pending.old.items }
    ensures more { IfOk result (λ more. HasMore more pending.new.items unread.new.bytes) }
    ensures kept { IfOk result (λ more. OnlyPends more pending.old.items pending.new.items) }
    ensures bytes { pending_bytes pending.new.items ++ unread.new.bytes
        ≡ pending_bytes pending.old.items ++ unread.old.bytes }
    ensures within { AreWithin pending.new.items }
    ensures fine { unread.new.fault ≡ None }
{
    pending.reserve(1)?;
    match unread.next() {
        Ok(Some(message)) => {
            pending.push_back_reserved(message);
            Ok(More::Pending)
        }
        Ok(None) => Ok(More::Waits),
        Err(fault) => {
            unread.forget_fault();
            match fault {
                FrameFault::NoMemory => Err(AllocError),
                _ => Ok(More::Faulty(fault)),
            }
        }
    }
}

//! A client that says who it is to an engine.

use crate::authentication::{CHALLENGE, PIECES, SENT};
use crate::engine::{Plain, feed, happens, has_name, sends};
use router_core::{Action, CloseCause, Event};
use sasl::AuthenticationFault;
use std::alloc::Global;
use test_support::messages::HELLO;

/// How a conversation ends.
#[derive(Clone, Copy, PartialEq, Eq)]
enum End {
    LetIn,
    /// There was no memory for a line.
    Closed,
}

/// Where a conversation is.
#[derive(Clone, Copy)]
enum Step {
    /// So much of what the client is to be sent is left.
    Owes(&'static [u8]),
    /// There was no memory for a line.
    Closed,
}

/// Whether a client is let in, and has its name by the message behind its last line. One that is
/// closed for want of memory comes again.
pub fn is_let_in(engine: &mut Plain, alloc: Global) -> Option<bool> {
    if converse(engine, alloc)? == End::Closed {
        happens(engine, Event::Closed { key: 0 })?;
        if converse(engine, alloc)? == End::Closed {
            return Some(false);
        }
    }
    sends(engine, alloc, &HELLO[1..])?;
    has_name(engine, alloc, 3)
}

/// A connection comes, is asked who it is, and says so. None where it is answered anything else
/// than it should be.
fn converse(engine: &mut Plain, alloc: Global) -> Option<End> {
    if engine.free_key() != 0 || !engine.has_login() {
        return None;
    }
    let opened = Event::Opened {
        key: 0,
        challenge: Some(CHALLENGE),
    };
    happens(engine, opened)?;
    let mut owed = SENT;
    for piece in PIECES {
        match say(engine, alloc, piece, owed)? {
            Step::Owes(rest) => owed = rest,
            Step::Closed => return Some(End::Closed),
        }
    }
    owed.is_empty().then_some(End::LetIn)
}

/// The client sends a piece.
fn say(engine: &mut Plain, alloc: Global, piece: &[u8], owed: &'static [u8]) -> Option<Step> {
    let actions = feed(engine, alloc, piece)?;
    let step = step_by(&actions, owed);
    drop(actions);
    step
}

/// Where the conversation is once this is done for the client, of what it is owed.
fn step_by(actions: &[Action<()>], owed: &'static [u8]) -> Option<Step> {
    let mut owed = owed;
    for action in actions {
        match action {
            Action::Write { key: 0, bytes } => owed = owed.strip_prefix(bytes.as_slice())?,
            Action::Close { key: 0, cause } => return closed_by(*cause),
            _ => return None,
        }
    }
    Some(Step::Owes(owed))
}

fn closed_by(cause: CloseCause) -> Option<Step> {
    if cause == CloseCause::Unauthenticated(AuthenticationFault::NoMemory) {
        return Some(Step::Closed);
    }
    None
}

//! Connections that are put out or gone, where there may be no memory for their Leaves.

use crate::engine::{Plain, brought, happens, open_named, say_hello, tried};
use router_core::{Action, CloseCause, Event};
use seq_bus_core::limits::MAX_CONNECTIONS;
use std::alloc::Global;

/// Whether the client is put out, once, and whether the next one leaves when it is gone: a Leave
/// that there is no memory for is made at the next tick. Where nothing is due, a tick takes no
/// memory.
pub fn are_gone(engine: &mut Plain, alloc: Global) -> Option<bool> {
    happens(engine, Event::Full { number: 1 })?;
    let is_put_out = is_put_out(engine)?;
    let is_still = is_still(engine);
    let first_is_gone = is_gone(engine)?;
    say_hello(engine, alloc)?;
    let has_come = engine.number_of(0) == Some(2);
    let second_is_gone = is_gone(engine)?;
    Some(is_put_out && is_still && first_is_gone && has_come && second_is_gone)
}

/// Whether a tick takes no memory over as many connections as there may be, which have their names
/// and do nothing, once there was one. One is there already.
pub fn is_still_over_all(engine: &mut Plain, alloc: Global) -> Option<bool> {
    let mut last = 0;
    for _ in 1..MAX_CONNECTIONS {
        last = engine.free_key();
        open_named(engine, alloc, last)?;
    }
    let actions = brought(engine, Event::Tick)?;
    engine.give_back(actions);
    Some(engine.number_of(last).is_some() && is_still(engine))
}

/// Whether the last that a tick does is to close the client, which has left; before that its Leave
/// may be told.
fn is_put_out(engine: &mut Plain) -> Option<bool> {
    let actions = brought(engine, Event::Tick)?;
    let is_put_out = match actions.last() {
        Some(action) => is_close(action),
        None => false,
    };
    engine.give_back(actions);
    Some(is_put_out)
}

fn is_close(action: &Action<()>) -> bool {
    match action {
        Action::Close { key, cause } => *key == 0 && *cause == CloseCause::Left,
        _ => false,
    }
}

/// Whether a tick brings nothing, at the first try.
fn is_still(engine: &mut Plain) -> bool {
    match tried(engine, Event::Tick) {
        Ok(actions) => {
            let is_still = actions.is_empty();
            engine.give_back(actions);
            is_still
        }
        Err(_) => false,
    }
}

/// Whether the key of a client is free once it is gone, and nothing due after the next tick.
fn is_gone(engine: &mut Plain) -> Option<bool> {
    happens(engine, Event::Closed { key: 0 })?;
    happens(engine, Event::Tick)?;
    Some(engine.free_key() == 0 && !engine.ticks())
}

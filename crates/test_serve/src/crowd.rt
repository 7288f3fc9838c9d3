//! More clients than there are places for.

use crate::client::{Client, Wrong, has, push};
use std::alloc::Global;
use std::net::Net;
use test_support::messages::HELLO;

/// How many connections of a router may be without a name.
const UNNAMED: usize = 64;

/// How many times as many a bus may have with a name.
const ROUNDS: usize = 4;

/// So many clients as may be without a name are let in, and one more is not. They get their names
/// then.
fn round<R: Net>(rt: &R, alloc: Global, path: &str, named: &mut Vec<Client>) -> Result<(), Wrong> {
    let mut unnamed = Vec::new(alloc);
    for _ in 0..UNNAMED {
        let mut client = Client::connect(rt, path)?;
        client.authenticate(alloc)?;
        push(&mut unnamed, client)?;
    }
    if !Client::connect(rt, path)?.is_over() {
        return Err(Wrong("one connection too many without a name is let in"));
    }
    for mut client in unnamed {
        let _reply = client.hello(alloc)?;
        push(named, client)?;
    }
    Ok(())
}

/// All places of a bus with one router are taken, and one more is refused.
pub(crate) fn crowd<R: Net>(rt: &R, alloc: Global, path: &str) -> Result<(), Wrong> {
    let mut named = Vec::new(alloc);
    for _ in 0..ROUNDS {
        round(rt, alloc, path, &mut named)?;
    }
    let mut late = Client::connect(rt, path)?;
    late.authenticate(alloc)?;
    late.send(b"BEGIN\r\n")?;
    late.send(HELLO)?;
    let refusal = late.next_message(alloc)?;
    match has(
        refusal.as_slice(),
        b"org.freedesktop.DBus.Error.LimitsExceeded\0",
    ) && late.is_over()
    {
        true => Ok(()),
        false => Err(Wrong("the connection behind the 256th isn't refused")),
    }
}

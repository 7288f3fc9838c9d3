//! Clients that leave within a message.

use crate::client::{Client, Wrong, has};
use crate::two_clients::ADD_MATCH;
use std::alloc::Global;
use std::fs;
use std::net::Net;
use std::rt::Files;

/// How many clients do so.
const CLIENTS: usize = 200;

/// How many bytes of a body each sends, which are all that it announces but the last.
const HALF: usize = 300_000;

/// How many KiB the memory may grow by. All that they send is some 58,600 KiB.
const GROWTH: u64 = 32_768;

/// So many KiB has a process only where it is run with checks of its addresses, which keep what was
/// let go.
const CHECKED: u64 = 1_000_000_000;

/// A signal with a body of 300,001 bytes, as far as the body.
const BEGINNING: &[u8] =
    b"l\x04\0\x01\xe1\x93\x04\0\x03\0\0\0*\0\0\0\x01\x01o\0\x02\0\0\0/a\0\0\0\0\0\0\x02\x01s\0\x03\0\0\0a.b\0\0\0\0\0\x03\x01s\0\x01\0\0\0C\0\0\0\0\0\0\0";

/// The size in KiB that the system tells of a process under this label; 0 where it tells none.
fn size(status: &str, label: &str) -> u64 {
    for line in status.lines() {
        if let Some(size) = line.strip_prefix(label) {
            return size.trim_end_matches("kB").trim().parse().unwrap_or(0);
        }
    }
    0
}

/// The most memory that this process has had, in KiB; 0 where that is not known.
fn most_memory<R: Files + AllocGlobal>(rt: &R) -> u64 {
    let Ok(status) = fs::read_to_string(rt, "/proc/self/status") else {
        return 0;
    };
    match size(status.as_str(), "VmSize:") < CHECKED {
        true => size(status.as_str(), "VmHWM:"),
        false => 0,
    }
}

/// One client that leaves within a message.
fn leave_early<R: Net>(rt: &R, alloc: Global, path: &str, body: &[u8]) -> Result<(), Wrong> {
    let mut client = Client::connect(rt, path)?;
    client.authenticate(alloc)?;
    let _reply = client.hello(alloc)?;
    client.send(BEGINNING)?;
    client.send(body)
}

/// The bus tells that each is gone, and keeps nothing of what it sent.
pub(crate) fn half_messages<R: Net + Files + AllocGlobal>(
    rt: &R,
    alloc: Global,
    path: &str,
) -> Result<(), Wrong> {
    let mut watcher = Client::connect(rt, path)?;
    watcher.authenticate(alloc)?;
    let _reply = watcher.hello(alloc)?;
    watcher.send(ADD_MATCH)?;
    let _reply = watcher.next_message(alloc)?;
    let body = Vec::from_elem(alloc, 0u8, HALF)?;
    let before = most_memory(rt);
    for _ in 0..CLIENTS {
        leave_early(rt, alloc, path, body.as_slice())?;
        let _came = watcher.next_message(alloc)?;
        if !has(
            watcher.next_message(alloc)?.as_slice(),
            b"NameOwnerChanged\0",
        ) {
            return Err(Wrong("nobody is told that a client left"));
        }
    }
    match most_memory(rt).saturating_sub(before) < GROWTH {
        true => Ok(()),
        false => Err(Wrong("memory grows by half messages")),
    }
}

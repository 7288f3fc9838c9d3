//! What reaches a socket that fails.

use crate::script::Script;
use outgoing::{Flushed, Outgoing};
use std::alloc::Global;
use std::io::ErrorKind;
use std::test::*;

/// The lengths of chunks, those below 2,048 being copied.
const CHUNKS: [usize; 5] = [5, 2048, 3, 4, 2049];

/// The bytes of all of them.
const ALL: usize = 5 + 2048 + 3 + 4 + 2049;

/// Bytes for all chunks, which tell where they lie.
fn all_bytes(alloc: Global) -> Result<Vec<u8>, Fail> {
    let mut bytes = Vec::new(alloc);
    for place in 0..ALL {
        bytes.push((place % 251) as u8)?;
    }
    Ok(bytes)
}

fn waiting(alloc: Global, all: &[u8]) -> Result<Outgoing<Vec<u8>>, Fail> {
    let mut outgoing = Outgoing::new(alloc);
    let mut rest = all;
    for length in CHUNKS {
        let chunk = rest.get(..length).unwrap_or(b"");
        rest = rest.get(length..).unwrap_or(b"");
        outgoing.push(Vec::from_slice(alloc, chunk)?)?;
    }
    Ok(outgoing)
}

fn script(alloc: Global, room: usize, at_once: usize, refusal: ErrorKind) -> Script {
    Script {
        taken: Vec::new(alloc),
        room,
        at_once,
        refusal,
        most_parts: 0,
    }
}

#[test]
fn fails_at_every_byte(rt: HostRuntime) -> Result<(), Fail> {
    let alloc = rt.alloc();
    let all = all_bytes(alloc)?;
    for room in 0..all.len() {
        let mut outgoing = waiting(alloc, &all)?;
        let mut socket = script(alloc, room, 2000, ErrorKind::BrokenPipe);
        let failed = outgoing.flush(&mut socket);
        let kind = failed.err().map(|e| e.kind());
        let mut seen = kind == Some(ErrorKind::BrokenPipe)
            && all.get(..room) == Some(socket.taken.as_slice());
        socket.room = all.len();
        let flushed = outgoing.flush(&mut socket);
        seen = seen
            && flushed.ok() == Some(Flushed::All)
            && socket.taken == all
            && outgoing.is_empty();
        assert!(rt; seen, "a fault at byte {room}");
    }
    Ok(())
}

#[test]
fn waits_and_goes_on(rt: HostRuntime) -> Result<(), Fail> {
    let alloc = rt.alloc();
    let all = all_bytes(alloc)?;
    for at_once in [1, 7, 2048, 100_000] {
        let mut outgoing = waiting(alloc, &all)?;
        let mut socket = script(alloc, 0, at_once, ErrorKind::WouldBlock);
        for _ in 0..10_000 {
            if outgoing.flush(&mut socket)? == Flushed::All {
                break;
            }
            socket.room = 1000;
        }
        assert_eq!(rt;
            (socket.taken == all, outgoing.is_empty(), socket.most_parts),
            (true, true, 4),
            "{at_once} at once"
        );
    }
    Ok(())
}

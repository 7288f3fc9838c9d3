//! What happens to an engine.

use crate::sent;
use crate::words::Words;
use anyhow::{Context, Result, bail, ensure};
use names::BusName;
use outbox_core::{Content, Envelope};
use router_core::{Event, HowEnded, StartEnd};
use seq_bus_core::{Conn, Ending};
use std::alloc::Global;
use test_support::messages::HELLO;
use test_support::unescaped;

/// What a client is challenged with: the bytes 0 to 15.
pub const CHALLENGE: [u8; 16] = [0, 1, 2, 3, 4, 5, 6, 7, 8, 9, 10, 11, 12, 13, 14, 15];

/// `SERVICE exit STATUS`, `SERVICE killed`, `SERVICE exec`, `SERVICE timeout`: a start of a service
/// ended.
fn start_end(start: u32, mut words: Words<'_>) -> Result<StartEnd> {
    let name = BusName::parse(words.next()).ok();
    let how = match words.next() {
        "exit" => HowEnded::Program(Ending::Exit(words.next().parse()?)),
        "killed" => HowEnded::Program(Ending::Killed),
        "exec" => HowEnded::Program(Ending::NotRun),
        _ => HowEnded::TimedOut,
    };
    Ok(StartEnd {
        name: name.context("no name of a service")?,
        start: u64::from(start),
        how,
    })
}

/// `K..`: the keys of a turn.
fn turn(alloc: Global, first: usize, mut words: Words<'_>) -> Result<Vec<usize>> {
    let mut keys = Vec::new(alloc);
    keys.push(first)?;
    for _word in 0..words.rest.len() {
        match words.next() {
            "" => break,
            key => keys.push(key.parse()?)?,
        }
    }
    Ok(keys)
}

/// What a row brings, if that is no mail.
pub fn event_of(alloc: Global, row: &str) -> Result<Event<()>> {
    let mut words = Words::of(row);
    let happens = words.next();
    let number = words.number();
    let key = number as usize;
    Ok(match happens {
        "opens" => Event::Opened {
            key,
            challenge: (words.rest == "asked").then_some(CHALLENGE),
        },
        "hello" => Event::Bytes {
            key,
            piece: Vec::from_slice(alloc, HELLO)?,
        },
        "sends" => Event::Bytes {
            key,
            piece: unescaped(alloc, words.rest)?,
        },
        "calls" => Event::Bytes {
            key,
            piece: sent::call(alloc, words)?,
        },
        "says" => Event::Bytes {
            key,
            piece: sent::message(alloc, words)?,
        },
        "fullest" => Event::Bytes {
            key,
            piece: sent::fullest(alloc)?,
        },
        "longest" => Event::Bytes {
            key,
            piece: sent::longest(alloc)?,
        },
        "serves" => Event::Next { key },
        "turn" => Event::Turn {
            keys: turn(alloc, key, words)?,
        },
        "leaves" => Event::Closed { key },
        "fills" => Event::Full {
            number: u64::from(number),
        },
        "ends" => Event::Child(Box::new(alloc, start_end(number, words)?)?),
        "tick" => Event::Tick,
        _ => bail!("no such row"),
    })
}

/// Mail for a connection: what was in an envelope for nobody, whose note is kept. A plain bus
/// brings nothing by notes.
pub fn mail(to: Conn, note: Option<()>, content: &Content) -> Result<Event<()>> {
    let envelope = Envelope {
        number: 0,
        note,
        content: content.try_clone()?,
    };
    let envelope = envelope.for_another(to.number)?;
    ensure!(envelope.note == note, "the note is lost");
    Ok(Event::Mail {
        slot: to.slot,
        envelope,
    })
}

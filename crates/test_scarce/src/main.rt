//! What calls answer where memory is refused.
//!
//! The program reads and writes bodies and messages, opens a plain bus and a registry of two
//! routers with its outboxes, makes the same changes and a batch on both buses, on a plain bus also
//! a batch of rules, calls that wait and monitors, and starts services in a registry. It says of
//! each whether the calls answered as they should: with what was wanted; or that memory ran out,
//! all as it was before, and with what was wanted once they are made again. What routers do without
//! memory is told by `test_scarce_routers`.
//!
//! Each part stands for itself, and is named as what it tells: `3 times seats` on standard input
//! runs that one thrice, and empty input each once. It takes no memory but for its parts, and prints
//! the same whichever one allocation is refused: `make memory` refuses each in turn.
#![tactic(auto)]

mod batches;
mod changes;
mod codec;
mod messages;
mod plain;
mod seats;
mod starts;
mod ways;

use marshal::Order;
use std::alloc::Global;
use std::io;
use std::io::Read;
use std::sync::Wait;
use test_support::{Asked, told};

/// Bodies that are read and written, each with its order and signature.
const BODIES: [(Order, &str, &[u8]); 8] = [
    (
        Order::Little,
        "ynyiyx",
        b"\x01\0\x02\0\x03\0\0\0\x04\0\0\0\x05\0\0\0\x06\0\0\0\0\0\0\0",
    ),
    (
        Order::Big,
        "oo",
        b"\0\0\0\x01/\0\0\0\0\0\0\x0c/com/example\0",
    ),
    (Order::Little, "gg", b"\0\0\x0ca{s(ua{yv})}\0"),
    (
        Order::Big,
        "yaya(y)atas",
        b"\x07\0\0\0\0\0\0\0\0\0\0\0\0\0\0\0\0\0\0\0\0\0\0\0\0\0\0\0",
    ),
    (
        Order::Little,
        "a{sv}",
        b".\0\0\0\0\0\0\0\x01\0\0\0a\0\x01u\0\0\0\0\x07\0\0\0\x01\0\0\0b\0\x02as\0\0\0\x0e\0\0\0\x01\0\0\0x\0\0\0\x01\0\0\0y\0",
    ),
    (
        Order::Big,
        "(yu)(y(t))",
        b"\x07\0\0\0\0\0\0\x05\x01\0\0\0\0\0\0\0\0\0\0\0\0\0\0\x02",
    ),
    (
        Order::Little,
        "a{ya{qs}}",
        b"\x12\0\0\0\0\0\0\0\x01\0\0\0\x0a\0\0\0\x02\0\0\0\x01\0\0\0x\0",
    ),
    (
        Order::Big,
        "vv",
        b"\x01v\0\x01v\0\x01y\0\x09\x04(sd)\0\0\0\0\x01x\0\0\0@\0\0\0\0\0\0\0",
    ),
];

/// A part of the program, which does not touch what another one does.
#[derive(Clone, Copy)]
enum Part {
    Framed,
    Relayed,
    Made,
    PlainBus,
    Batch,
    Starts,
    Seats,
    Outboxes,
}

/// The parts behind the bodies, each by what it tells.
const PARTS: [(&str, Part); 8] = [
    ("framed", Part::Framed),
    ("relayed", Part::Relayed),
    ("made", Part::Made),
    ("plain bus", Part::PlainBus),
    ("batch", Part::Batch),
    ("starts", Part::Starts),
    ("seats", Part::Seats),
    ("outboxes", Part::Outboxes),
];

/// What a part answers.
fn is_answered<R: Wait>(rt: &R, alloc: Global, part: Part) -> bool {
    match part {
        Part::Framed => messages::are_framed(alloc),
        Part::Relayed => messages::is_relayed(alloc) == Some(true),
        Part::Made => messages::is_made(alloc) == Some(true),
        Part::PlainBus => plain::is_answered(alloc) == Some(true),
        Part::Batch => batches::is_made(alloc) == Some(true),
        Part::Starts => starts::are_made(alloc) == Some(true),
        Part::Seats => seats::are_answered(rt, alloc) == Some(true),
        Part::Outboxes => ways::are_opened(rt, alloc) == Some(true),
    }
}

/// Runs the parts that are asked for, and tells of them.
fn run<R: Print + Wait>(rt: &R, alloc: Global, asked: &Asked<'_>) -> io::Result<()> {
    for (order, signature, body) in BODIES {
        if asked.has(signature) {
            let answer = told(codec::is_answered(alloc, order, signature, body));
            println!(rt; "{signature}: {answer}")?;
        }
    }
    for (what, part) in PARTS {
        if asked.has(what) {
            println!(rt; "{what}: {}", told(is_answered(rt, alloc, part)))?;
        }
    }
    Ok(())
}

fn main(rt: HostRuntime) -> io::Result<()> {
    let mut input = [0; 40];
    let length = rt.reader().read(&mut input)?;
    let asked = Asked::of(&input[..length]);
    for _time in 0..asked.times {
        run(&rt, rt.alloc(), &asked)?;
    }
    Ok(())
}

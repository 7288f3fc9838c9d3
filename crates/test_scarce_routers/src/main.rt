//! What routers do where memory is refused.
//!
//! The program lets a client in, and as the host of a router serves clients, also such as take
//! nothing yet, say who they are or hang up, and relays between them. By two routers that share a registry
//! it puts a client out. An engine it brings mail, lets calls wait there for a service, serves
//! messages in one turn, lets its clients go and the next say who it is. It says of each whether
//! all was answered as it should be: with what was wanted; or that memory ran out, all as it was
//! before, and with what was wanted once it is done again.
//!
//! Each part stands for itself, and is named as what it tells first: `3 times mail` on standard
//! input runs that one thrice, and empty input each once. It takes no memory but for its parts, and
//! prints the same whichever one allocation is refused: `make memory` refuses each in turn.
#![tactic(auto)]

mod authentication;
mod beats;
mod engine;
mod hosts;
mod leaving;
mod logins;
mod mail;
mod relays;
mod turns;
mod two_routers;
mod waiting;

use crate::engine::Served;
use std::alloc::Global;
use std::io;
use std::io::Read;
use std::sync::Wait;
use test_support::{Asked, told};

/// A part of the program, which does not touch what another one does.
#[derive(Clone, Copy)]
enum Part {
    Authentication,
    Host,
    BlockedHost,
    AskingHost,
    LeftHost,
    Relays,
    TwoRouters,
}

/// The parts before the engine, each by what it tells.
const PARTS: [(&str, Part); 7] = [
    ("authentication", Part::Authentication),
    ("host", Part::Host),
    ("a host that can't write yet", Part::BlockedHost),
    ("a host that asks who comes", Part::AskingHost),
    ("a host whose client goes", Part::LeftHost),
    ("relays of a host", Part::Relays),
    ("two routers", Part::TwoRouters),
];

/// Tells what an engine did.
fn tell_served<R: Print>(rt: &R, served: Served) -> io::Result<()> {
    for (what, is_answered) in [
        ("mail", served.mail),
        ("calls that wait", served.waiting),
        ("messages in turn", served.in_turn),
        ("connections that leave", served.leaving),
        ("a client that says who it is", served.login),
        ("a tick over many connections", served.still),
    ] {
        println!(rt; "{what}: {}", told(is_answered))?;
    }
    Ok(())
}

/// What a part answers.
fn is_answered<R: Wait>(rt: &R, alloc: Global, part: Part) -> bool {
    match part {
        Part::Authentication => authentication::is_let_in(alloc),
        Part::Host => hosts::are_served(alloc),
        Part::BlockedHost => hosts::are_served_late(alloc),
        Part::AskingHost => hosts::are_let_in(alloc),
        Part::LeftHost => hosts::is_told_gone(alloc),
        Part::Relays => relays::are_relayed(alloc),
        Part::TwoRouters => two_routers::put_out(rt, alloc),
    }
}

/// Runs the parts that are asked for, and tells of them.
fn run<R: Print + Wait>(rt: &R, alloc: Global, asked: &Asked<'_>) -> io::Result<()> {
    for (what, part) in PARTS {
        if asked.has(what) {
            println!(rt; "{what}: {}", told(is_answered(rt, alloc, part)))?;
        }
    }
    if asked.has("mail") {
        tell_served(rt, engine::serve(alloc))?;
    }
    Ok(())
}

fn main(rt: HostRuntime) -> io::Result<()> {
    let mut input = [0; 40];
    let length = rt.reader().read(&mut input)?;
    let asked = Asked::of(&input[..length]);
    for _time in 0..asked.times {
        run(&rt, rt.alloc(), &asked)?;
    }
    Ok(())
}
